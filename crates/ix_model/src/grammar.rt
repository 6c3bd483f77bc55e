use crate::text::Text;
use sqlite_items::Items;

/// How a rule or a call of it is written to the document.
#[derive(Clone, Copy, Debug, PartialEq, Eq)]
pub enum Mark {
    /// `^`: an element.
    Element,
    /// `@`: an attribute.
    Attribute,
    /// `-`: its parts alone.
    Hidden,
}

/// Whether the characters of a literal or set are written.
#[derive(Clone, Copy, Debug, PartialEq, Eq)]
pub enum TMark {
    /// `^`: they are.
    Shown,
    /// `-`: they are left out.
    Deleted,
}

/// A grammar as it is written.
#[derive(Debug, Drop)]
pub struct Grammar {
    /// The string of `ixml version "..".`, where the grammar begins with it.
    pub version: Option<Text>,
    /// The rules in order; the first derives the whole text.
    pub rules: Items<Rule>,
}

/// A rule: its name, and what it may stand for.
#[derive(Debug, Drop)]
pub struct Rule {
    pub mark: Option<Mark>,
    pub name: Text,
    pub alts: Items<Alt>,
}

/// An alternative of a rule or of a group: terms in order, or none.
#[cycle(grammar)]
#[derive(Debug, Drop)]
pub struct Alt {
    pub terms: Items<Term>,
}

/// A factor, or an option or repetition of one.
#[cycle(grammar)]
#[derive(Debug, Drop)]
pub enum Term {
    /// `f`
    One(Factor),
    /// `f?`
    Opt(Factor),
    /// `f*`, or `f**s` with the separator `s`.
    Star { item: Factor, sep: Option<Factor> },
    /// `f+`, or `f++s` with the separator `s`.
    Plus { item: Factor, sep: Option<Factor> },
}

/// What stands for characters.
#[cycle(grammar)]
#[derive(Debug, Drop)]
pub enum Factor {
    /// A literal: its characters in order.
    Lit {
        tmark: Option<TMark>,
        chars: Chars,
    },
    /// A set: one character that a member has, or, where it excludes, one that no member has.
    Set {
        tmark: Option<TMark>,
        exclude: bool,
        members: Items<Member>,
    },
    /// A call of the rule with this name.
    Call {
        mark: Option<Mark>,
        name: Text,
    },
    /// An insertion: it takes no character and gives these.
    Insert {
        chars: Chars,
    },
    /// Alternatives in parentheses.
    Group {
        alts: Items<Alt>,
    },
}

/// Characters as they are written.
#[derive(Debug, Drop)]
pub enum Chars {
    /// What stands between the quotes, each doubled quote once.
    Quoted(Text),
    /// The hexadecimal digits behind `#`, as they are written: one character by its number.
    Code(Text),
}

/// A member of a set.
#[derive(Debug, Drop)]
pub enum Member {
    /// Each character of a string.
    Quoted(Text),
    /// The one character of this number, by its hexadecimal digits.
    Code(Text),
    /// All characters from `low` to `high`, both included.
    Range { low: Bound, high: Bound },
    /// The characters of a general category, by its code.
    Class(Text),
}

/// A bound of a range.
#[derive(Debug, Drop)]
pub enum Bound {
    Quoted(char),
    /// By its number in hexadecimal digits.
    Code(Text),
}
