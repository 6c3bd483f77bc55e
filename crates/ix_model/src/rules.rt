use crate::char_set::CharSet;
use crate::grammar::Mark;
use crate::text::Text;
use sqlite_items::Items;

/// What matches characters of the text.
#[derive(Debug, Drop)]
pub enum Terminal {
    /// These characters in order.
    Lit(Text),
    /// One character of the set.
    Set(CharSet),
}

/// What a numbered rule stands for.
#[derive(Clone, Copy, Debug, PartialEq, Eq)]
pub enum Kind {
    /// A rule of the grammar.
    Named,
    /// The alternatives of a group.
    Group,
    /// An option.
    Opt,
    /// A repetition that may have no item.
    Star,
    /// The items of a repetition that has one at least.
    List,
}

/// A symbol of an alternative.
#[derive(Clone, Copy, Debug, PartialEq, Eq)]
pub enum Sym {
    Term { terminal: u32, shown: bool },
    /// A rule, and for a named one the mark of its call.
    Rule { rule: u32, mark: Option<Mark> },
    Insert { insert: u32 },
}

/// An alternative: symbols in order, or none.
#[derive(Debug, Drop)]
pub struct Line {
    pub syms: Items<Sym>,
}

/// A numbered rule: its alternatives hold symbols alone.
#[derive(Debug, Drop)]
pub struct Flat {
    pub kind: Kind,
    pub lines: Items<Line>,
}

/// Numbered rules. The named rules come first, in the order of the grammar, with the numbers of their names and marks.
#[derive(Debug, Drop)]
pub struct Rules {
    pub names: Items<Text>,
    pub marks: Items<Mark>,
    pub flats: Items<Flat>,
    pub terminals: Items<Terminal>,
    pub inserts: Items<Text>,
}
