ghost use Rattle.std.specs.Prelude.{◌≡◌, ◌<◌, ◌^◌, [], ◌∷◌, replicate, IfOk};
ghost use Rattle.ix_model.specs.Expansion.Expanded.{line};
ghost use Rattle.ix_examples.specs.SmallRules.{shown};
ghost use Rattle.ix_slots.specs.Examples.{example_rules, many_rules};

use crate::{into_parts, matches, plan};
use ix_model::{CharRange, CharSet, Flat, Kind, Line, Mark, Plan, Rules, Sym, Terminal, Text};
use sqlite_items::Items;
use std::alloc::{AllocError, Global};
use std::test::Fail;

// The numbered rules of `S: "ab", ["0"-"9"]; .`
fn rules_of_two_alternatives(alloc: Global) -> Result<Rules, AllocError>
    ensures { IfOk result (λ rules. rules ≡ example_rules) }
{
    let mut names = Items::new(alloc);
    names.push(Text::from_slice(alloc, &['S'])?)?;
    let literal = Sym::Term {
        terminal: 0,
        shown: true,
    };
    let digit = Sym::Term {
        terminal: 1,
        shown: true,
    };
    let mut lines = Items::new(alloc);
    lines.push(Line {
        syms: Items::from_slice(alloc, &[literal, digit])?,
    })?;
    lines.push(Line {
        syms: Items::new(alloc),
    })?;
    let mut flats = Items::new(alloc);
    flats.push(Flat {
        kind: Kind::Named,
        lines,
    })?;
    let digits = Vec::from_slice(alloc, &[CharRange { low: 48, high: 57 }])?;
    let mut terminals = Items::new(alloc);
    terminals.push(Terminal::Lit(Text::from_slice(alloc, &['a', 'b'])?))?;
    terminals.push(Terminal::Set(CharSet::of(digits)))?;
    Ok(Rules {
        names,
        marks: Items::from_slice(alloc, &[Mark::Element])?,
        flats,
        terminals,
        inserts: Items::new(alloc),
    })
}

// Where the terminal of these rules ends that is looked for at the position in the text.
fn end_of(alloc: Global, terminal: u32, text: &str, pos: u32) -> Result<Option<u32>, AllocError> {
    let text: Vec<char> = text.chars().collect(alloc)?;
    if text.len() > 100 || pos as usize > text.len() || terminal > 1 {
        return Err(AllocError);
    }
    match plan(alloc, rules_of_two_alternatives(alloc)?, text) {
        Ok(plan) => Ok(matches(&plan, terminal, pos)),
        Err(_) => Err(AllocError),
    }
}

#[test]
fn terminals_end_behind_what_they_match(rt: HostRuntime) -> Result<(), Fail> {
    let alloc = rt.alloc();
    for (terminal, text, pos, want) in [
        // The literal `ab`.
        (0, "xab", 1, Some(3)),
        (0, "xac", 1, None),
        (0, "xab", 0, None),
        (0, "xab", 2, None),
        (0, "xab", 3, None),
        (0, "a", 0, None),
        (0, "", 0, None),
        (0, "ab ab", 3, Some(5)),
        // A digit.
        (1, "a7", 1, Some(2)),
        (1, "a7", 0, None),
        (1, "a7", 2, None),
        (1, "09", 0, Some(1)),
        (1, "", 0, None),
    ] {
        let end = end_of(alloc, terminal, text, pos)?;
        assert_eq!(rt; end, want, "terminal {terminal} at {pos} of {text}");
    }
    Ok(())
}

#[test]
fn slots_are_numbered_and_parts_come_back(rt: HostRuntime) -> Result<(), Fail> {
    let alloc = rt.alloc();
    let rules = rules_of_two_alternatives(alloc)?;
    let text = Vec::from_slice(alloc, &['a', 'b', '7'])?;
    let Ok(plan) = plan(alloc, rules, text) else {
        panic!(rt; "there was no memory");
    };
    assert_eq!(rt; plan.slot_count(), 4);
    // The dot of the first alternative goes from the left to its end; the second has one slot.
    let literal = Sym::Term {
        terminal: 0,
        shown: true,
    };
    let digit = Sym::Term {
        terminal: 1,
        shown: true,
    };
    assert_eq!(rt; (plan.sym(0), plan.sym(1)), (Some(literal), Some(digit)));
    assert_eq!(rt; (plan.sym(2), plan.sym(3)), (None, None));
    assert_eq!(rt;
        (plan.alt(0), plan.alt(1), plan.alt(2), plan.alt(3)),
        (0, 0, 0, 1)
    );
    assert_eq!(rt; (plan.head(0), plan.head(3)), (0, 0));
    let parts = into_parts(plan);
    assert_eq!(rt; parts.text.as_slice(), ['a', 'b', '7'].as_slice());
    assert_eq!(rt; parts.rules.terminals.len(), 2);
    Ok(())
}

// The numbered rules of `S: "a"; "a".` and so on, with this many alternatives.
fn rules_of_many_alternatives(alloc: Global, count: u32) -> Result<Rules, AllocError>
    ensures { IfOk result (λ rules. rules ≡ many_rules count) }
{
    let mut names = Items::new(alloc);
    names.push(Text::from_slice(alloc, &['S'])?)?;
    let mut terminals = Items::new(alloc);
    terminals.push(Terminal::Lit(Text::from_slice(alloc, &['a'])?))?;
    let mut flats = Items::new(alloc);
    flats.push(Flat {
        kind: Kind::Named,
        lines: lines_of_one_literal(alloc, count)?,
    })?;
    Ok(Rules {
        names,
        marks: Items::from_slice(alloc, &[Mark::Element])?,
        flats,
        terminals,
        inserts: Items::new(alloc),
    })
}

fn lines_of_one_literal(alloc: Global, count: u32) -> Result<Items<Line>, AllocError>
    ensures { IfOk result (λ lines. lines ≡ replicate count (line (shown 0 ∷ []))) }
{
    let literal = Sym::Term {
        terminal: 0,
        shown: true,
    };
    let mut lines = Items::new(alloc);
    for _made in 0..count {
        lines.push(Line {
            syms: Items::from_slice(alloc, &[literal])?,
        })?;
    }
    Ok(lines)
}

// The plan of these rules for no text.
fn plan_of_many_alternatives(alloc: Global, count: u32) -> Result<Plan, AllocError>
    requires { count < 2 ^ 31 }
{
    match plan(
        alloc,
        rules_of_many_alternatives(alloc, count)?,
        Vec::new(alloc),
    ) {
        Ok(plan) => Ok(plan),
        Err(_) => Err(AllocError),
    }
}

#[test]
fn many_alternatives_have_their_slots(rt: HostRuntime) -> Result<(), Fail> {
    let plan = plan_of_many_alternatives(rt.alloc(), 100_000)?;
    assert_eq!(rt; plan.slot_count(), 200_000);
    Ok(())
}
