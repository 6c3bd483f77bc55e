ghost use Rattle.std.specs.Prelude.{◌≡◌, IfOk};
ghost use Rattle.ix_examples.specs.SmallRules.{ax_rules, ax_plan};

use ix_model::{Flat, Kind, Line, Mark, Plan, Rules, SlotInfo, Sym, Terminal, Text};
use sqlite_items::Items;
use std::alloc::{AllocError, Global};
use std::test::Fail;

// The numbered rules of `S: "a", +"x".`
fn example_rules(alloc: Global) -> Result<Rules, AllocError>
    ensures { IfOk result (λ rules. rules ≡ ax_rules) }
{
    let mut names = Items::new(alloc);
    names.push(Text::from_slice(alloc, &['S'])?)?;
    let mut lines = Items::new(alloc);
    let literal = Sym::Term {
        terminal: 0,
        shown: true,
    };
    let insertion = Sym::Insert { insert: 0 };
    lines.push(Line {
        syms: Items::from_slice(alloc, &[literal, insertion])?,
    })?;
    let mut flats = Items::new(alloc);
    flats.push(Flat {
        kind: Kind::Named,
        lines,
    })?;
    let mut terminals = Items::new(alloc);
    terminals.push(Terminal::Lit(Text::from_slice(alloc, &['a'])?))?;
    let mut inserts = Items::new(alloc);
    inserts.push(Text::from_slice(alloc, &['x'])?)?;
    Ok(Rules {
        names,
        marks: Items::from_slice(alloc, &[Mark::Element])?,
        flats,
        terminals,
        inserts,
    })
}

// Their plan for the text `a`.
fn example_plan(alloc: Global) -> Result<Plan, AllocError>
    ensures { IfOk result (λ plan. plan ≡ ax_plan) }
{
    let rules = example_rules(alloc)?;
    let start = SlotInfo {
        head: 0,
        alt: 0,
        dot: 0,
    };
    let slots = Vec::from_slice(
        alloc,
        &[
            start,
            SlotInfo { dot: 1, ..start },
            SlotInfo { dot: 2, ..start },
        ],
    )?;
    let text = Vec::from_slice(alloc, &['a'])?;
    Ok(Plan::of(rules, slots, text))
}

#[test]
fn plan_tells_its_parts(rt: HostRuntime) -> Result<(), Fail> {
    let plan = example_plan(rt.alloc())?;
    assert_eq!(rt; plan.text(), ['a'].as_slice());
    assert_eq!(rt;
        (plan.rule_count(), plan.slot_count(), plan.alt_count(0)),
        (1, 3, 1)
    );
    assert_eq!(rt;
        (plan.kind(0), plan.rule_mark(0)),
        (Kind::Named, Mark::Element)
    );
    assert_eq!(rt; plan.name(0).as_slice(), ['S'].as_slice());
    assert_eq!(rt;
        (plan.first(0, 0), plan.last(0, 0), plan.next(0)),
        (0, 2, 1)
    );
    assert_eq!(rt; (plan.head(2), plan.alt(2)), (0, 0));
    assert_eq!(rt;
        plan.sym(0),
        Some(Sym::Term {
            terminal: 0,
            shown: true
        })
    );
    assert_eq!(rt; plan.sym(1), Some(Sym::Insert { insert: 0 }));
    assert_eq!(rt; plan.sym(2), None);
    assert_eq!(rt; plan.insert(0).as_slice(), ['x'].as_slice());
    let Terminal::Lit(literal) = plan.terminal(0) else {
        panic!(rt; "the terminal is a literal");
    };
    assert_eq!(rt; literal.as_slice(), ['a'].as_slice());
    let (rules, slots, text) = plan.apart();
    assert_eq!(rt; (rules.flats.len(), slots.len(), text.len()), (1, 3, 1));
    Ok(())
}
