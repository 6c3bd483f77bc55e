/// What a worker passes before each claim. A test can hold workers there, and so choose their order.
///
/// Nothing is promised of it: what workers answer may not depend on it.
pub trait Gate {
    /// Called by a worker that has made this many claims. The number stays at the last `u64`.
    fn reach(&self, worker: u32, claims: u64);
}

/// The gate that lets everybody pass at once.
#[derive(Clone, Copy, Debug)]
pub struct OpenGate;

impl Gate for OpenGate {
    fn reach(&self, _worker: u32, _claims: u64) {}
}
