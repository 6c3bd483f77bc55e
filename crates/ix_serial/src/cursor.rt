//! A document that is read from a marked tree, unit by unit.
ghost use Rattle.std.specs.Prelude.{◌≡◌, ◌<◌, ◌≤◌, ◌∷◌, ℕ, List, [], length, codes, slice_index, if◌then◌else◌, MatchOption, true, false, ◌+◌};
ghost use Rattle.ix_model.specs.Documents.Xml.{content_bytes, state_bytes};
ghost use Rattle.ix_marks.specs.InRange.{AreIn};
ghost use Rattle.ix_marks.specs.MarkedLists.{MarkedLists};
ghost use Rattle.ix_serial.specs.Units.{unit_bytes, start_mark};
ghost use Rattle.ix_serial.specs.Cursors.{IsWithin, beginning, place_from, run_from, place_rest, rest};
ghost use Rattle.ix_serial.specs.declared.cursor.Place.TheVariants as place;

use crate::unit::{Unit, content_unit, value_unit};
use ix_marks::{Item, Marked};
use ix_model::{Plan, State};

/// Where a document is read on. Attributes, and characters of values and runs, are numbered as in the marked tree; characters of
/// names from 0. An element's attributes end before `high`.
#[derive(Clone, Copy)]
pub(crate) enum Place {
    // Before an item, or behind the last.
    Item,
    // In the name of a start tag.
    StartName {
        name: u32,
        at: u64,
        low: u64,
        high: u64,
    },
    // Before an attribute.
    Attribute {
        attr: u64,
        high: u64,
    },
    // In the name of an attribute.
    AttributeName {
        attr: u64,
        high: u64,
        at: u64,
    },
    // In the value of an attribute.
    Value {
        attr: u64,
        high: u64,
        at: u64,
    },
    // In the name of an end tag.
    EndName {
        name: u32,
        at: u64,
    },
    // In a run of characters that ends before `high`.
    Run {
        at: u64,
        high: u64,
    },
    // Behind all.
    End,
}

/// How far a document is read.
#[derive(Clone, Copy)]
pub(crate) struct Cursor {
    // The item that comes next.
    pub(crate) item: u64,
    // Whether a start tag is open: its `>` or `/>` is due.
    pub(crate) tag_open: bool,
    // What the next start tag says of the text: what is known of it for the root, and nothing for all others.
    pub(crate) state: State,
    pub(crate) place: Place,
}

// The words that stand before the attributes of the root.
fn state_words(state: State) -> &'static str
    ensures { result.now ≡ state_bytes state }
{
    match state {
        State::Single => "",
        State::Ambiguous => {
            " xmlns:ixml=\"http://invisiblexml.org/NS\" ixml:state=\"ambiguous\""
        }
    }
}

// Before an attribute of an element, or behind its last.
fn place_from(attr: u64, high: u64) -> Place
    ensures { result ≡ place_from attr high }
{
    if attr < high {
        Place::Attribute { attr, high }
    } else {
        Place::Item
    }
}

// Before a character of a run, or behind its last.
fn run_from(at: u64, high: u64) -> Place
    ensures { result ≡ run_from at high }
{
    if at < high {
        Place::Run { at, high }
    } else {
        Place::Item
    }
}

impl Cursor {
    /// Before the first unit of a document with this state.
    pub(crate) fn new(state: State) -> Cursor
        ensures { result ≡ beginning state }
    {
        Cursor {
            item: 0,
            tag_open: false,
            state,
            place: Place::Item,
        }
    }

    /// Reads the next unit. There is none behind the last.
    pub(crate) fn next(&mut self, plan: &Plan, marked: &Marked) -> Option<Unit>
        requires there { AreIn plan.now.rules.names marked.now }
        requires within { IsWithin plan.now.rules.names marked.now self.old }
        ensures within { IsWithin plan.now.rules.names marked.now self.new }
        ensures rest { MatchOption result (rest plan.now.rules.names marked.now self.old ≡ []) (λ unit. rest plan.now.rules.names marked.now self.old ≡ unit_bytes unit ∷ rest plan.now.rules.names marked.now self.new) }
    {
        match self.place {
            Place::Item => Some(self.begin_item(marked)),
            Place::StartName {
                name,
                at,
                low,
                high,
            } => Some(self.start_name(plan, name, at, low, high)),
            Place::Attribute { attr, high } => Some(self.begin_attribute(attr, high)),
            Place::AttributeName { attr, high, at } => {
                Some(self.attribute_name(plan, marked, attr, high, at))
            }
            Place::Value { attr, high, at } => Some(self.value(marked, attr, high, at)),
            Place::EndName { name, at } => Some(self.end_name(plan, name, at)),
            Place::Run { at, high } => Some(self.run(marked, at, high)),
            Place::End => None,
        }
    }

    // An item comes, or the end.
    #[tactic(auto, using(crate::proofs::CursorSteps::run_begins))]
    fn begin_item(&mut self, marked: &Marked) -> Unit
        requires there { (names : List (List ℕ)) × AreIn names marked.now }
        requires item { self.old.item ≤ length marked.now.items }
        requires place { self.old.place ≡ place.Item }
        ensures within { (names : List (List ℕ)) → AreIn names marked.now → IsWithin names marked.now self.new }
        ensures rest { (names : List (List ℕ)) → rest names marked.now self.old ≡ unit_bytes result ∷ rest names marked.now self.new }
    {
        let Some(item) = marked.items().get(self.item as usize) else {
            self.place = Place::End;
            return Unit::Markup("\n");
        };
        self.item += 1;
        match *item {
            Item::Begin {
                name,
                attr_low,
                attr_high,
            } => self.begin_element(name, attr_low, attr_high),
            Item::Close { name } => self.end_element(name),
            Item::Chars { low, high } => self.begin_run(marked, low, high),
        }
    }

    // An element begins. Its tag stays open.
    fn begin_element(&mut self, name: u32, low: u64, high: u64) -> Unit
        ensures place { self.new.place ≡ place.StartName name 0 low high }
        ensures open { self.new.tag_open ≡ true }
        ensures same { (self.new.item ≡ self.old.item) × (self.new.state ≡ self.old.state) }
        ensures unit { unit_bytes result ≡ start_mark self.old.tag_open }
    {
        let mark = if self.tag_open { "><" } else { "<" };
        self.tag_open = true;
        self.place = Place::StartName {
            name,
            at: 0,
            low,
            high,
        };
        Unit::Markup(mark)
    }

    // An element ends. One without content has a single tag.
    fn end_element(&mut self, name: u32) -> Unit
        ensures place { self.new.place ≡ (if self.old.tag_open then place.Item else place.EndName name 0) }
        ensures open { self.new.tag_open ≡ false }
        ensures same { (self.new.item ≡ self.old.item) × (self.new.state ≡ self.old.state) }
        ensures unit { unit_bytes result ≡ (if self.old.tag_open then codes "/>" else codes "</") }
    {
        if self.tag_open {
            self.tag_open = false;
            self.place = Place::Item;
            Unit::Markup("/>")
        } else {
            self.place = Place::EndName { name, at: 0 };
            Unit::Markup("</")
        }
    }

    // A run begins: a start tag that is open ends.
    fn begin_run(&mut self, marked: &Marked, low: u64, high: u64) -> Unit
        requires within { (low < high) × (high ≤ length marked.now.chars) }
        ensures place { self.new.place ≡ (if self.old.tag_open then place.Run low high else run_from (low + 1) high) }
        ensures open { self.new.tag_open ≡ false }
        ensures same { (self.new.item ≡ self.old.item) × (self.new.state ≡ self.old.state) }
        ensures unit { unit_bytes result ≡ (if self.old.tag_open then codes ">" else content_bytes (slice_index marked.now.chars low)) }
    {
        if self.tag_open {
            self.tag_open = false;
            self.place = Place::Run { at: low, high };
            Unit::Markup(">")
        } else {
            self.place = run_from(low + 1, high);
            content_unit(marked.chars()[low as usize])
        }
    }

    // In the name of a start tag. Behind it the root has its words.
    fn start_name(&mut self, plan: &Plan, name: u32, at: u64, low: u64, high: u64) -> Unit
        requires name { name < length plan.now.rules.names }
        requires place { self.old.place ≡ place.StartName name at low high }
        ensures within { (m : MarkedLists) → IsWithin plan.now.rules.names m self.old → IsWithin plan.now.rules.names m self.new }
        ensures rest { (m : MarkedLists) → rest plan.now.rules.names m self.old ≡ unit_bytes result ∷ rest plan.now.rules.names m self.new }
    {
        if let Some(c) = plan.name(name).as_slice().get(at as usize) {
            self.place = Place::StartName {
                name,
                at: at + 1,
                low,
                high,
            };
            return Unit::Char(*c);
        }
        let words = state_words(self.state);
        self.state = State::Single;
        self.place = place_from(low, high);
        Unit::Markup(words)
    }

    // An attribute comes.
    #[tactic(auto, using(crate::proofs::CursorSteps::attribute_rest))]
    fn begin_attribute(&mut self, attr: u64, high: u64) -> Unit
        requires place { self.old.place ≡ place.Attribute attr high }
        ensures within { (names : List (List ℕ)) → (m : MarkedLists) → IsWithin names m self.old → IsWithin names m self.new }
        ensures rest { (names : List (List ℕ)) → (m : MarkedLists) → IsWithin names m self.old → rest names m self.old ≡ unit_bytes result ∷ rest names m self.new }
    {
        self.place = Place::AttributeName { attr, high, at: 0 };
        Unit::Markup(" ")
    }

    // In the name of an attribute. Behind it comes its value.
    fn attribute_name(
        &mut self,
        plan: &Plan,
        marked: &Marked,
        attr: u64,
        high: u64,
        at: u64,
    ) -> Unit
        requires there { AreIn plan.now.rules.names marked.now }
        requires place { self.old.place ≡ place.AttributeName attr high at }
        requires within { IsWithin plan.now.rules.names marked.now self.old }
        ensures within { IsWithin plan.now.rules.names marked.now self.new }
        ensures rest { rest plan.now.rules.names marked.now self.old ≡ unit_bytes result ∷ rest plan.now.rules.names marked.now self.new }
    {
        let now = marked.attrs()[attr as usize];
        if let Some(c) = plan.name(now.name).as_slice().get(at as usize) {
            self.place = Place::AttributeName {
                attr,
                high,
                at: at + 1,
            };
            return Unit::Char(*c);
        }
        self.place = Place::Value {
            attr,
            high,
            at: now.low,
        };
        Unit::Markup("=\"")
    }

    // In the value of an attribute. Behind it comes the next attribute.
    #[tactic(auto, using(crate::proofs::CursorSteps::place_from_rest, crate::proofs::CursorSteps::range_more))]
    fn value(&mut self, marked: &Marked, attr: u64, high: u64, at: u64) -> Unit
        requires there { (names : List (List ℕ)) × AreIn names marked.now }
        requires place { self.old.place ≡ place.Value attr high at }
        requires within { (attr < high) × (high ≤ length marked.now.attrs) }
        ensures within { (names : List (List ℕ)) → IsWithin names marked.now self.old → IsWithin names marked.now self.new }
        ensures rest { (names : List (List ℕ)) → rest names marked.now self.old ≡ unit_bytes result ∷ rest names marked.now self.new }
    {
        let end = marked.attrs()[attr as usize].high;
        if at < end {
            let c = marked.chars()[at as usize];
            self.place = Place::Value {
                attr,
                high,
                at: at + 1,
            };
            return value_unit(c);
        }
        self.place = place_from(attr + 1, high);
        Unit::Markup("\"")
    }

    // In the name of an end tag.
    fn end_name(&mut self, plan: &Plan, name: u32, at: u64) -> Unit
        requires name { name < length plan.now.rules.names }
        requires place { self.old.place ≡ place.EndName name at }
        ensures within { (m : MarkedLists) → IsWithin plan.now.rules.names m self.old → IsWithin plan.now.rules.names m self.new }
        ensures rest { (m : MarkedLists) → rest plan.now.rules.names m self.old ≡ unit_bytes result ∷ rest plan.now.rules.names m self.new }
    {
        if let Some(c) = plan.name(name).as_slice().get(at as usize) {
            self.place = Place::EndName { name, at: at + 1 };
            return Unit::Char(*c);
        }
        self.place = Place::Item;
        Unit::Markup(">")
    }

    // In a run of characters.
    #[tactic(auto, using(crate::proofs::CursorSteps::run_more))]
    fn run(&mut self, marked: &Marked, at: u64, high: u64) -> Unit
        requires within { (at < high) × (high ≤ length marked.now.chars) }
        requires place { self.old.place ≡ place.Run at high }
        ensures within { (names : List (List ℕ)) → IsWithin names marked.now self.old → IsWithin names marked.now self.new }
        ensures rest { (names : List (List ℕ)) → rest names marked.now self.old ≡ unit_bytes result ∷ rest names marked.now self.new }
    {
        self.place = run_from(at + 1, high);
        content_unit(marked.chars()[at as usize])
    }
}
