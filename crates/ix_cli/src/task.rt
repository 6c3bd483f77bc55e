use crate::output::Output;
use ix_model::Grammar;

/// What is wanted of a text that is parsed.
#[derive(Clone, Copy, Debug)]
pub enum Wanted {
    /// The document.
    Document,
    /// The figures of the text, its parse and its document.
    Figures,
}

/// A text that is to be parsed under a conforming grammar by so many workers, 1 to 64.
#[derive(Debug, Drop)]
pub struct Task {
    pub grammar: Grammar,
    pub text: Vec<u8>,
    pub workers: u32,
    pub wanted: Wanted,
}

/// What a command comes to before any text is parsed.
#[derive(Drop)]
pub enum Prepared {
    /// All that goes to the output: no text is parsed.
    Output(Output),
    /// What is left to do.
    Parse(Task),
}
