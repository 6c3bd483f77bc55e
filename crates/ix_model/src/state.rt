/// Whether a text has one derivation or several.
#[derive(Clone, Copy, Debug, PartialEq, Eq)]
pub enum State {
    Single,
    Ambiguous,
}
