//! The states in which a grammar is read, one token after the other.

use ix_model::{Alt, Bound, Factor, Mark, Member, Rule, TMark, Term, Text};
use sqlite_items::Items;

/// A token and its text.
#[derive(Drop)]
pub enum Lexeme {
    Word(Text),
    Quote(Text),
    Hex(Text),
    At,
    Caret,
    Dash,
    Colon,
    Equals,
    Semi,
    Bar,
    Comma,
    Stop,
    Question,
    Star,
    Stars,
    Plus,
    Pluses,
    OpenGroup,
    CloseGroup,
    OpenSet,
    CloseSet,
    Tilde,
}

/// What the factor that comes is: an item, or the separator behind an item.
#[derive(Drop)]
pub enum Hole {
    Item,
    StarOf(Factor),
    PlusOf(Factor),
}

/// What was read of alternatives that are not complete.
#[derive(Drop)]
pub struct Frame {
    /// The alternatives that are complete.
    pub alts: Items<Alt>,
    /// The terms of the open one.
    pub terms: Items<Term>,
    pub hole: Hole,
}

/// What was read of a set.
#[derive(Drop)]
pub struct Part {
    pub tmark: Option<TMark>,
    pub exclude: bool,
    pub members: Items<Member>,
}

/// What was read of the grammar outside the alternatives that are open.
#[derive(Drop)]
pub struct Head {
    pub version: Option<Text>,
    /// The rules that are complete.
    pub rules: Items<Rule>,
    /// The mark of the open rule.
    pub mark: Option<Mark>,
    /// The name of the open rule.
    pub name: Text,
}

/// What was read of the grammar.
#[derive(Drop)]
pub struct Work {
    pub head: Head,
    /// The innermost alternatives that are open.
    pub top: Frame,
    /// The frames in which a parenthesis is open, the innermost last.
    pub below: Items<Frame>,
}

/// What was read last.
#[derive(Drop)]
pub enum Phase {
    Begin,
    Ixml,
    VersionNext,
    PrologStop,
    RuleStart,
    RuleNext,
    RuleMarked,
    RuleNamed,
    AltStart,
    Want,
    Marked(TMark),
    AtMarked,
    Inserting,
    Excluding(Option<TMark>),
    SetStart(Part),
    MemberNext(Part),
    BoundRead(Part, Bound),
    RangeTo(Part, Bound),
    MemberRead(Part),
    ItemRead(Factor),
    TermRead,
}

/// A grammar that was read up to some token.
#[derive(Drop)]
pub struct State {
    pub phase: Phase,
    pub work: Work,
}
