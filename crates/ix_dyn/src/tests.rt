ghost use Rattle.std.specs.Prelude.{◌≡◌, IfOk};
ghost use Rattle.ix_marks.specs.Steps.{AreStepsIn};
ghost use Rattle.ix_model.specs.Expansion.Numbering.{slot as a_slot};
ghost use Rattle.ix_dyn.specs.Examples.{odd_names, odd_plan as an_odd_plan, empty_rule as an_empty_rule};

use crate::{DynRefusal, dynamic};
use ix_marks::marked;
use ix_model::{Flat, Kind, Line, Mark, Plan, Rules, SlotInfo, Step, Text};
use sqlite_items::Items;
use std::alloc::{AllocError, Global};
use std::test::Fail;

const S: Step = Step::Enter {
    name: 0,
    mark: Mark::Element,
};

const HYPHEN: Step = Step::Enter {
    name: 1,
    mark: Mark::Element,
};

const S_ATTRIBUTE: Step = Step::Enter {
    name: 0,
    mark: Mark::Attribute,
};

const XMLNS: Step = Step::Enter {
    name: 2,
    mark: Mark::Attribute,
};

// The characters `t` and 1 of the text.
const BOTH: Step = Step::Text {
    low: 0,
    high: 2,
    shown: true,
};

const T: Step = Step::Text {
    low: 0,
    high: 1,
    shown: true,
};

const OUT: Step = Step::Leave;

// A named rule with an empty alternative.
fn empty_rule(alloc: Global) -> Result<Flat, AllocError>
    ensures { IfOk result (λ flat. flat ≡ an_empty_rule) }
{
    let mut lines = Items::new(alloc);
    lines.push(Line {
        syms: Items::new(alloc),
    })?;
    Ok(Flat {
        kind: Kind::Named,
        lines,
    })
}

// The names `S`, `-` and `xmlns`.
fn names(alloc: Global) -> Result<Items<Text>, AllocError>
    ensures { IfOk result (λ names. names ≡ odd_names) }
{
    let mut names = Items::new(alloc);
    names.push(Text::from_slice(alloc, &['S'])?)?;
    names.push(Text::from_slice(alloc, &['-'])?)?;
    names.push(Text::from_slice(alloc, &['x', 'm', 'l', 'n', 's'])?)?;
    Ok(names)
}

// The plan of three rules with these names, for the characters `t` and 1.
fn odd_plan(alloc: Global) -> Result<Plan, AllocError>
    ensures { IfOk result (λ plan. plan ≡ an_odd_plan) }
{
    let mut flats = Items::new(alloc);
    flats.push(empty_rule(alloc)?)?;
    flats.push(empty_rule(alloc)?)?;
    flats.push(empty_rule(alloc)?)?;
    let rules = Rules {
        names: names(alloc)?,
        marks: Items::from_slice(alloc, &[Mark::Element, Mark::Element, Mark::Element])?,
        flats,
        terminals: Items::new(alloc),
        inserts: Items::new(alloc),
    };
    let slots = [slot(0), slot(1), slot(2)];
    Ok(Plan::of(
        rules,
        Vec::from_slice(alloc, &slots)?,
        Vec::from_slice(alloc, &['t', '\u{1}'])?,
    ))
}

// The slot of an empty alternative.
fn slot(head: u32) -> SlotInfo
    ensures { result ≡ a_slot head 0 0 }
{
    SlotInfo {
        head,
        alt: 0,
        dot: 0,
    }
}

// The refusal of what the walk gives.
fn refusal(alloc: Global, plan: &Plan, steps: &[Step]) -> Result<Option<DynRefusal>, AllocError>
    requires plan { plan.now ≡ an_odd_plan }
    requires steps { AreStepsIn plan.now steps.now }
{
    let tree = marked(alloc, plan, steps)?;
    Ok(dynamic(plan, &tree))
}

// The walks of the table below: each gives one refusal, and the last gives none.
fn walk(row: usize) -> &'static [Step]
    ensures { AreStepsIn an_odd_plan result.now }
{
    match row {
        0 => &[S_ATTRIBUTE, OUT, XMLNS, OUT],
        1 => &[S, HYPHEN, OUT, OUT, S, OUT],
        2 => &[S, OUT, BOTH],
        3 => &[S, BOTH, HYPHEN, OUT, OUT],
        4 => &[S, S, XMLNS, OUT, OUT, OUT],
        5 => &[S, S_ATTRIBUTE, OUT, S_ATTRIBUTE, BOTH, OUT, OUT],
        6 => &[S, S_ATTRIBUTE, BOTH, OUT, OUT],
        _ => &[S, T, S, S_ATTRIBUTE, OUT, OUT, OUT],
    }
}

const REFUSALS: [Option<DynRefusal>; 8] = [
    Some(DynRefusal::AttributeAtTop { name: 0 }),
    Some(DynRefusal::NotOneElement {
        elements: 2,
        chars: 0,
    }),
    Some(DynRefusal::NotOneElement {
        elements: 1,
        chars: 2,
    }),
    Some(DynRefusal::BadName { name: 1 }),
    Some(DynRefusal::Xmlns),
    Some(DynRefusal::SameAttribute { name: 0 }),
    Some(DynRefusal::BadChar { code: 1 }),
    None,
];

#[test]
fn each_code_has_its_item(rt: HostRuntime) -> Result<(), Fail> {
    let alloc = rt.alloc();
    let plan = odd_plan(alloc)?;
    for (row, expected) in REFUSALS.iter().enumerate() {
        assert_eq!(rt; refusal(alloc, &plan, walk(row))?, *expected);
    }
    Ok(())
}
