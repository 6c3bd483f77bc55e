ghost use Rattle.std.specs.Prelude.{◌≡◌, ◌<◌, ◌-◌, ◌^◌, ℕ, List, length};

/// A kind of value that a row keeps: with a fact about a topic that all values of the row share, and with a log.
pub trait Kept {
    /// What the facts of all values of a row speak of.
    type Topic;

    /// What stands behind a place.
    type Value: Drop;

    /// What a log is made of.
    type Entry;

    /// What holds of a value whenever its place is free: of the topic, the place's number and the value.
    ghost fact: { Self.Topic → ℕ → Self.Value → Type 0 };

    /// The log of a value.
    ghost log: { Self.Value → List Self.Entry };

    /// The number of entries in the log. A value that meets the fact has fewer than 2^64 - 1.
    ///
    /// It takes no memory, and the row does not call it.
    fn entries(value: &Self::Value) -> u64
        ensures number { result ≡ length (log value.now) }
        ensures few { (topic : Self.Topic) (place : ℕ) → fact topic place value.now → length (log value.now) < 2 ^ 64 - 1 };
}
