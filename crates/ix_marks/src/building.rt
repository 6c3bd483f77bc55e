//! A marked tree that is being made, step by step.
//!
//! Attributes wait until the element around them ends: those of an element are then the last that wait.
ghost use Rattle.std.specs.Prelude.{◌≡◌, ◌<◌, ◌≤◌, ◌++◌, ℕ, false, List, [], OnOk, length, get_or};
ghost use Rattle.ix_model.specs.declared.grammar.Mark.TheVariants as mark;
ghost use Rattle.ix_model.specs.Documents.Gives.{shown_text};
ghost use Rattle.ix_marks.specs.declared.building.Open.TheVariants as open_node;
ghost use Rattle.ix_marks.specs.Building.{IsBuilt, IsBuiltBut, with_chars, lists_of};
ghost use Rattle.ix_marks.specs.Counted.{AreCounted};
ghost use Rattle.ix_marks.specs.InRange.{AreIn};
ghost use Rattle.ix_marks.specs.Levels.{State, outside, flush, beginning, enter, leave, read, after};
ghost use Rattle.ix_marks.specs.Pieces.{Attribute as AnAttribute, Piece};
ghost use Rattle.ix_marks.specs.Shown.{characters_of};
ghost use Rattle.ix_marks.specs.Standing.{IsMade};
ghost use Rattle.ix_marks.specs.Steps.{IsStepIn};

use crate::item::{Attr, Item};
use ix_model::{Mark, Plan, Step};
use std::alloc::{AllocError, Global};

// A node that has begun and not ended.
#[derive(Clone, Copy)]
pub(crate) enum Open {
    // One that gives what its parts give, or that is within an attribute.
    Hidden,
    // An element, with the item that begins it and how many attributes waited before it.
    Element {
        name: u32,
        begin: usize,
        waiting: usize,
    },
    // An attribute whose value begins here.
    Attribute {
        name: u32,
        low: u64,
    },
}

#[derive(Drop)]
pub(crate) struct Building {
    pub(crate) items: Vec<Item>,
    // Those of the elements that ended, one element's after another's.
    pub(crate) attrs: Vec<Attr>,
    // Those that came and whose element has not ended.
    pub(crate) waiting: Vec<Attr>,
    pub(crate) chars: Vec<char>,
    opens: Vec<Open>,
    // The characters from here on are no item yet.
    low: u64,
    // Whether an attribute is open.
    in_value: bool,
}

// The characters from `low` to `high` become an item, if there are any.
fn put_chars(items: &mut Vec<Item>, low: u64, high: u64) -> Result<(), AllocError>
    ensures { OnOk result (items.new.items ≡ with_chars items.old.items low high) }
{
    if low < high {
        items.push(Item::Chars { low, high })?;
    }
    Ok(())
}

// The characters from `low` to `high` where they are shown.
fn shown_text(plan: &Plan, low: u32, high: u32, shown: bool) -> &[char]
    requires start { low ≤ high }
    requires end { high ≤ length plan.now.text }
    ensures { result.now ≡ shown_text plan.now.text shown low high }
{
    if shown {
        &plan.text()[low as usize..high as usize]
    } else {
        &[]
    }
}

impl Building {
    pub(crate) fn new(alloc: Global) -> Building
        ensures built { (names : List (List ℕ)) → IsBuilt names result beginning }
        ensures chars { result.chars.items ≡ [] }
    {
        Building {
            items: Vec::new(alloc),
            attrs: Vec::new(alloc),
            waiting: Vec::new(alloc),
            chars: Vec::new(alloc),
            opens: Vec::new(alloc),
            low: 0,
            in_value: false,
        }
    }

    // Characters come.
    pub(crate) fn read(&mut self, chars: &[char]) -> Result<(), AllocError>
        ensures built { OnOk result ((names : List (List ℕ)) (st : State) → IsBuilt names self.old st → IsBuilt names self.new (read st chars.now)) }
        ensures chars { OnOk result (self.new.chars.items ≡ self.old.chars.items ++ chars.now) }
    {
        self.chars.extend_from_slice(chars)?;
        Ok(())
    }

    // A node begins.
    pub(crate) fn enter(&mut self, name: u32, mark: Mark) -> Result<(), AllocError>
        ensures built { OnOk result ((names : List (List ℕ)) (st : State) → name < length names → IsBuilt names self.old st → IsBuilt names self.new (enter st (get_or names name []) mark)) }
        ensures chars { OnOk result (self.new.chars.items ≡ self.old.chars.items) }
    {
        if self.in_value {
            self.opens.push(Open::Hidden)?;
            return Ok(());
        }
        match mark {
            Mark::Element => self.begin_element(name),
            Mark::Attribute => self.begin_attribute(name),
            Mark::Hidden => {
                self.opens.push(Open::Hidden)?;
                Ok(())
            }
        }
    }

    fn begin_element(&mut self, name: u32) -> Result<(), AllocError>
        requires { self.old.in_value ≡ false }
        ensures built { OnOk result ((names : List (List ℕ)) (st : State) → name < length names → IsBuilt names self.old st → IsBuilt names self.new (enter st (get_or names name []) mark.Element)) }
        ensures chars { OnOk result (self.new.chars.items ≡ self.old.chars.items) }
    {
        let high = self.chars.len() as u64;
        put_chars(&mut self.items, self.low, high)?;
        self.low = high;
        self.opens.push(Open::Element {
            name,
            begin: self.items.len(),
            waiting: self.waiting.len(),
        })?;
        self.items.push(Item::Begin {
            name,
            attr_low: 0,
            attr_high: 0,
        })?;
        Ok(())
    }

    fn begin_attribute(&mut self, name: u32) -> Result<(), AllocError>
        requires { self.old.in_value ≡ false }
        ensures built { OnOk result ((names : List (List ℕ)) (st : State) → name < length names → IsBuilt names self.old st → IsBuilt names self.new (enter st (get_or names name []) mark.Attribute)) }
        ensures chars { OnOk result (self.new.chars.items ≡ self.old.chars.items) }
    {
        let high = self.chars.len() as u64;
        put_chars(&mut self.items, self.low, high)?;
        self.low = high;
        self.opens.push(Open::Attribute { name, low: high })?;
        self.in_value = true;
        Ok(())
    }

    // The node that began last and has not ended ends.
    pub(crate) fn leave(&mut self) -> Result<(), AllocError>
        requires { (names : List (List ℕ)) × (st : State) × IsBuilt names self.old st }
        ensures built { OnOk result ((names : List (List ℕ)) (st : State) → IsBuilt names self.old st → IsBuilt names self.new (leave st)) }
        ensures chars { OnOk result (self.new.chars.items ≡ self.old.chars.items) }
    {
        match self.opens.pop() {
            None => Ok(()),
            Some(Open::Hidden) => Ok(()),
            Some(
                Open::Element {
                    name,
                    begin,
                    waiting,
                },
            ) => self.end_element(name, begin, waiting),
            Some(Open::Attribute { name, low }) => self.end_attribute(name, low),
        }
    }

    fn end_element(&mut self, name: u32, begin: usize, waiting: usize) -> Result<(), AllocError>
        requires { (names : List (List ℕ)) × (st : State) × IsBuiltBut names self.old (open_node.Element name begin waiting) st }
        ensures built { OnOk result ((names : List (List ℕ)) (st : State) → IsBuiltBut names self.old (open_node.Element name begin waiting) st → IsBuilt names self.new (leave st)) }
        ensures chars { OnOk result (self.new.chars.items ≡ self.old.chars.items) }
    {
        let high = self.chars.len() as u64;
        put_chars(&mut self.items, self.low, high)?;
        self.low = high;
        let low = self.attrs.len() as u64;
        self.attrs.extend_from_slice(&self.waiting[waiting..])?;
        self.waiting.truncate(waiting);
        self.items[begin] = Item::Begin {
            name,
            attr_low: low,
            attr_high: self.attrs.len() as u64,
        };
        self.items.push(Item::Close { name })?;
        Ok(())
    }

    fn end_attribute(&mut self, name: u32, low: u64) -> Result<(), AllocError>
        ensures built { OnOk result ((names : List (List ℕ)) (st : State) → IsBuiltBut names self.old (open_node.Attribute name low) st → IsBuilt names self.new (leave st)) }
        ensures chars { OnOk result (self.new.chars.items ≡ self.old.chars.items) }
    {
        let high = self.chars.len() as u64;
        self.waiting.push(Attr { name, low, high })?;
        self.low = high;
        self.in_value = false;
        Ok(())
    }

    // A step of the walk.
    pub(crate) fn step(&mut self, plan: &Plan, step: Step) -> Result<(), AllocError>
        requires there { IsStepIn plan.now step }
        requires built { (st : State) × IsBuilt plan.now.rules.names self.old st }
        ensures built { OnOk result ((st : State) → IsBuilt plan.now.rules.names self.old st → IsBuilt plan.now.rules.names self.new (after plan.now.rules plan.now.text st step)) }
        ensures chars { OnOk result (self.new.chars.items ≡ self.old.chars.items ++ characters_of plan.now.rules plan.now.text step) }
    {
        match step {
            Step::Enter { name, mark } => self.enter(name, mark),
            Step::Leave => self.leave(),
            Step::Text { low, high, shown } => self.read(shown_text(plan, low, high, shown)),
            Step::Insert { insert } => self.read(plan.insert(insert).as_slice()),
        }
    }

    // All steps came.
    pub(crate) fn end(&mut self) -> Result<(), AllocError>
        ensures there { OnOk result ((names : List (List ℕ)) (st : State) → IsBuilt names self.old st → AreIn names (lists_of self.new)) }
        ensures once { OnOk result ((names : List (List ℕ)) (st : State) → IsBuilt names self.old st → AreCounted (lists_of self.new)) }
        ensures whole { OnOk result ((names : List (List ℕ)) (ps : List Piece) (cs : List ℕ) (ats : List AnAttribute) → IsBuilt names self.old (outside [] ps cs ats) → IsMade names (lists_of self.new) (flush ps cs) ats) }
        ensures chars { OnOk result (self.new.chars.items ≡ self.old.chars.items) }
    {
        let high = self.chars.len() as u64;
        put_chars(&mut self.items, self.low, high)?;
        self.low = high;
        Ok(())
    }
}
