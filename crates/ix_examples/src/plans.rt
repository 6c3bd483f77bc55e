//! Plans of small grammars, for tests of the layers that work on plans. Each is made whole, with its slots as numbers, and
//! promises to be the plan that the worked examples speak of.
ghost use Rattle.std.specs.Prelude.{◌≡◌, ◌<◌, ◌^◌, [], ◌∷◌, length, IfOk};
ghost use Rattle.ix_model.specs.declared.rules.Kind.TheVariants.{Named};
ghost use Rattle.ix_model.specs.Expansion.Expanded.{line as a_line};
ghost use Rattle.ix_model.specs.Expansion.Numbering.{slot as a_slot};
ghost use Rattle.ix_model.specs.Expansion.Planned.{IsPlanned};
ghost use Rattle.ix_examples.specs.SmallPlans.{only_a as a_alone, cycle as a_cycle, two_alternatives as both_alternatives};
ghost use Rattle.ix_examples.specs.TestPlans.{literals_of, parts_of, by_two, sums as all_sums, repeated_flats as flats_repeated, repeated_nothing as nothing_repeated, left_recursive as recursive};

use ix_model::{Flat, Kind, Line, Mark, Plan, Rules, SlotInfo, Sub, Sym, Terminal, Text};
use sqlite_items::Items;
use std::alloc::{AllocError, Global};

const FIRST_LITERAL: Sym = Sym::Term {
    terminal: 0,
    shown: true,
};

const SECOND_LITERAL: Sym = Sym::Term {
    terminal: 1,
    shown: true,
};

const FIRST_RULE: Sym = Sym::Rule {
    rule: 0,
    mark: None,
};

const LIST: Sym = Sym::Rule {
    rule: 1,
    mark: None,
};

const GROUP: Sym = Sym::Rule {
    rule: 2,
    mark: None,
};

fn line(alloc: Global, syms: &[Sym]) -> Result<Line, AllocError>
    ensures { IfOk result (λ l. l ≡ a_line syms.now) }
{
    Ok(Line {
        syms: Items::from_slice(alloc, syms)?,
    })
}

fn slot(head: u32, alt: u32, dot: u32) -> SlotInfo
    ensures { result ≡ a_slot head alt dot }
{
    SlotInfo { head, alt, dot }
}

fn literals(alloc: Global, chars: &[char]) -> Result<Items<Terminal>, AllocError>
    ensures { IfOk result (λ terminals. terminals ≡ literals_of chars.now) }
{
    let mut terminals = Items::new(alloc);
    for c in chars {
        terminals.push(Terminal::Lit(Text::from_slice(alloc, &[*c])?))?;
    }
    Ok(terminals)
}

// The plan of these rules, of which only the first has a name.
fn plan_of(
    alloc: Global,
    name: char,
    flats: Items<Flat>,
    slots: &[SlotInfo],
    terminals: Items<Terminal>,
    text: Vec<char>,
) -> Result<Plan, AllocError>
    requires { IsPlanned (parts_of name flats slots.now terminals text.items) }
    ensures { IfOk result (λ plan. plan ≡ parts_of name flats slots.now terminals text.items) }
{
    let mut names = Items::new(alloc);
    names.push(Text::from_slice(alloc, &[name])?)?;
    let rules = Rules {
        names,
        marks: Items::from_slice(alloc, &[Mark::Element])?,
        flats,
        terminals,
        inserts: Items::new(alloc),
    };
    Ok(Plan::of(rules, Vec::from_slice(alloc, slots)?, text))
}

// One rule with a name, of these alternatives.
fn only_rule(alloc: Global, lines: Items<Line>) -> Result<Items<Flat>, AllocError>
    ensures { IfOk result (λ flats. flats ≡ record { kind = Named; lines = lines } ∷ []) }
{
    let mut flats = Items::new(alloc);
    flats.push(Flat {
        kind: Kind::Named,
        lines,
    })?;
    Ok(flats)
}

/// `S: "a".` for a text.
pub fn only_a(alloc: Global, text: &[char]) -> Result<Plan, AllocError>
    requires { length text.now < 2 ^ 32 }
    ensures { IfOk result (λ plan. plan ≡ a_alone text.now) }
{
    let mut lines = Items::new(alloc);
    lines.push(line(alloc, &[FIRST_LITERAL])?)?;
    plan_of(
        alloc,
        'S',
        only_rule(alloc, lines)?,
        &[slot(0, 0, 0), slot(0, 0, 1)],
        literals(alloc, &['a'])?,
        Vec::from_slice(alloc, text)?,
    )
}

// The plan of S with two alternatives, of this symbol and of "a".
fn with_literal(alloc: Global, first: Sym, text: &[char]) -> Result<Plan, AllocError>
    requires planned { IsPlanned (by_two first text.now) }
    ensures { IfOk result (λ plan. plan ≡ by_two first text.now) }
{
    let mut lines = Items::new(alloc);
    lines.push(line(alloc, &[first])?)?;
    lines.push(line(alloc, &[FIRST_LITERAL])?)?;
    plan_of(
        alloc,
        'S',
        only_rule(alloc, lines)?,
        &[slot(0, 0, 0), slot(0, 0, 1), slot(0, 1, 0), slot(0, 1, 1)],
        literals(alloc, &['a'])?,
        Vec::from_slice(alloc, text)?,
    )
}

/// `S: "a"; "a".` for a text.
pub fn two_alternatives(alloc: Global, text: &[char]) -> Result<Plan, AllocError>
    requires { length text.now < 2 ^ 32 }
    ensures { IfOk result (λ plan. plan ≡ both_alternatives text.now) }
{
    with_literal(alloc, FIRST_LITERAL, text)
}

/// `S: S; "a".` for a text. The slots of the first alternative are 0 and 1, those of the second 2 and 3.
pub fn cycle(alloc: Global, text: &[char]) -> Result<Plan, AllocError>
    requires { length text.now < 2 ^ 32 }
    ensures { IfOk result (λ plan. plan ≡ a_cycle text.now) }
{
    with_literal(alloc, FIRST_RULE, text)
}

/// `E: E, "+", E; "1".` for a text. The slots of the first alternative are 0 to 3, those of the second 4 and 5.
pub fn sums(alloc: Global, text: &[char]) -> Result<Plan, AllocError>
    requires { length text.now < 2 ^ 32 }
    ensures { IfOk result (λ plan. plan ≡ all_sums text.now) }
{
    let mut lines = Items::new(alloc);
    lines.push(line(alloc, &[FIRST_RULE, FIRST_LITERAL, FIRST_RULE])?)?;
    lines.push(line(alloc, &[SECOND_LITERAL])?)?;
    plan_of(
        alloc,
        'E',
        only_rule(alloc, lines)?,
        &[
            slot(0, 0, 0),
            slot(0, 0, 1),
            slot(0, 0, 2),
            slot(0, 0, 3),
            slot(0, 1, 0),
            slot(0, 1, 1),
        ],
        literals(alloc, &['+', '1'])?,
        Vec::from_slice(alloc, text)?,
    )
}

// The rules of `S: ()+.`: S, its list, and the empty group.
fn repeated_flats(alloc: Global) -> Result<Items<Flat>, AllocError>
    ensures { IfOk result (λ flats. flats ≡ flats_repeated) }
{
    let mut whole = Items::new(alloc);
    whole.push(line(alloc, &[LIST])?)?;
    let mut list = Items::new(alloc);
    list.push(line(alloc, &[GROUP])?)?;
    list.push(line(alloc, &[LIST, GROUP])?)?;
    let mut group = Items::new(alloc);
    group.push(line(alloc, &[])?)?;
    let mut flats = only_rule(alloc, whole)?;
    flats.push(Flat {
        kind: Kind::List,
        lines: list,
    })?;
    flats.push(Flat {
        kind: Kind::Group,
        lines: group,
    })?;
    Ok(flats)
}

/// `S: ()+.` for the empty text.
pub fn repeated_nothing(alloc: Global) -> Result<Plan, AllocError>
    ensures { IfOk result (λ plan. plan ≡ nothing_repeated) }
{
    plan_of(
        alloc,
        'S',
        repeated_flats(alloc)?,
        &[
            slot(0, 0, 0),
            slot(0, 0, 1),
            slot(1, 0, 0),
            slot(1, 0, 1),
            slot(1, 1, 0),
            slot(1, 1, 1),
            slot(1, 1, 2),
            slot(2, 0, 0),
        ],
        literals(alloc, &['a'])?,
        Vec::new(alloc),
    )
}

/// `S: S, "a"; .` for this many times `a`.
pub fn left_recursive(alloc: Global, count: u32) -> Result<Plan, AllocError>
    ensures { IfOk result (λ plan. plan ≡ recursive count) }
{
    let mut lines = Items::new(alloc);
    lines.push(line(alloc, &[FIRST_RULE, FIRST_LITERAL])?)?;
    lines.push(line(alloc, &[])?)?;
    plan_of(
        alloc,
        'S',
        only_rule(alloc, lines)?,
        &[slot(0, 0, 0), slot(0, 0, 1), slot(0, 0, 2), slot(0, 1, 0)],
        literals(alloc, &['a'])?,
        vec![in alloc; 'a'; count as usize]?,
    )
}

/// The subtree that is the whole of the first alternative of `only_a`, `two_alternatives` or `cycle` on `a`.
pub const BY_FIRST: Sub = Sub {
    slot: 1,
    left: 0,
    pivot: 0,
    right: 1,
};

/// That of the second alternative.
pub const BY_SECOND: Sub = Sub {
    slot: 3,
    ..BY_FIRST
};

/// The subtree of slot 0 over the empty text.
pub const OVER_NOTHING: Sub = Sub {
    slot: 0,
    left: 0,
    pivot: 0,
    right: 0,
};

/// The subtrees of the closure of `repeated_nothing`.
pub const REPEATED: [Sub; 5] = [
    Sub {
        slot: 7,
        ..OVER_NOTHING
    },
    Sub {
        slot: 1,
        ..OVER_NOTHING
    },
    Sub {
        slot: 3,
        ..OVER_NOTHING
    },
    Sub {
        slot: 5,
        ..OVER_NOTHING
    },
    Sub {
        slot: 6,
        ..OVER_NOTHING
    },
];
