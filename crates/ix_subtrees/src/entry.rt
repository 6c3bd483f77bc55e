/// A slot or a rule, by its number, over a span of the text.
#[derive(Clone, Copy, Debug, PartialEq, Eq, PartialOrd, Ord)]
pub struct Span {
    pub number: u32,
    pub left: u32,
    pub right: u32,
}

/// A choice for a span: a pivot of its slot, or an alternative of its rule.
#[derive(Clone, Copy, Debug, PartialEq, Eq, PartialOrd, Ord)]
pub struct Entry {
    pub span: Span,
    pub choice: u32,
}
