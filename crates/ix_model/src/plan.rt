ghost use Rattle.std.specs.Prelude.{◌≡◌, ◌<◌, ◌+◌, length, IsSome, IfSome};
ghost use Rattle.ix_model.specs.Expansion.Planned.{IsPlanned, IsThere, AreThere};
ghost use Rattle.ix_model.specs.Expansion.Numbered.{kind_at, lines_at, syms_at, name_at, mark_at, terminal_at, insert_at};
ghost use Rattle.ix_model.specs.Expansion.Numbering.{is_before};
ghost use Rattle.ix_model.specs.Expansion.Slots.{IsSlot, info_at, sym_after};

use crate::grammar::Mark;
use crate::rules::{Kind, Line, Rules, Sym, Terminal};
use crate::text::Text;
use sqlite_items::Items;
use std::marker::Model;

/// A place in an alternative: `dot` symbols are before it.
#[derive(Clone, Copy, Debug, PartialEq, Eq)]
pub struct SlotInfo {
    pub head: u32,
    pub alt: u32,
    pub dot: u32,
}

/// Numbered rules, their slots, and the text to be parsed by them.
#[derive(Debug, Drop)]
pub struct Plan {
    rules: Rules,
    slots: Vec<SlotInfo>,
    text: Vec<char>,
}

impl Model for Plan {
    ghost use Rattle.ix_model.specs.Expansion.Parts.{Parts};

    ghost Value = { Parts };

    ghost use Rattle.ix_model.specs.Expansion.Planned.{IsPlanned};

    ghost view = { λ p. record { rules = p.rules; slots = p.slots.items; text = p.text.items } };

    ghost invariant = { λ p. IsPlanned (record { rules = p.rules; slots = p.slots.items; text = p.text.items }) };
}

impl Plan {
    /// The plan of these parts.
    pub fn of(rules: Rules, slots: Vec<SlotInfo>, text: Vec<char>) -> Plan
        requires { IsPlanned (record { rules = rules; slots = slots.items; text = text.items }) }
        ensures { result ≡ record { rules = rules; slots = slots.items; text = text.items } }
    {
        Plan { rules, slots, text }
    }

    /// The three parts.
    pub fn apart(self) -> (Rules, Vec<SlotInfo>, Vec<char>)
        ensures rules { result.0 ≡ self.rules }
        ensures slots { result.1.items ≡ self.slots }
        ensures text { result.2.items ≡ self.text }
    {
        let Plan { rules, slots, text } = self;
        (rules, slots, text)
    }

    pub fn text(&self) -> &[char]
        ensures { result.now ≡ self.now.text }
    {
        &self.text
    }

    /// How many rules there are, helpers included.
    pub fn rule_count(&self) -> u32
        ensures { result ≡ length self.now.rules.flats }
    {
        self.rules.flats.len() as u32
    }

    /// How many slots there are.
    pub fn slot_count(&self) -> u32
        ensures count { result ≡ length self.now.slots }
        ensures planned { IsPlanned self.now }
    {
        self.slots.len() as u32
    }

    /// How many alternatives the rule has.
    pub fn alt_count(&self, rule: u32) -> u32
        requires { rule < length self.now.rules.flats }
        ensures { result ≡ length (lines_at self.now.rules rule) }
    {
        // The count has 32 bits, by what holds of the plan's parts.
        let _ = &self.slots;
        self.lines(rule).len() as u32
    }

    // The alternatives of the rule.
    fn lines(&self, rule: u32) -> &[Line]
        requires { rule < length self.now.rules.flats }
        ensures { result.now ≡ lines_at self.now.rules rule }
    {
        self.rules.flats.as_slice()[rule as usize].lines.as_slice()
    }

    // The symbols of the alternative.
    fn syms(&self, rule: u32, alt: u32) -> &Items<Sym>
        requires rule { rule < length self.now.rules.flats }
        requires alt { alt < length (lines_at self.now.rules rule) }
        ensures { result.now ≡ syms_at self.now.rules rule alt }
    {
        &self.lines(rule)[alt as usize].syms
    }

    /// The rule's kind.
    pub fn kind(&self, rule: u32) -> Kind
        requires { rule < length self.now.rules.flats }
        ensures { result ≡ kind_at self.now.rules rule }
    {
        self.rules.flats.as_slice()[rule as usize].kind
    }

    /// The slot's rule.
    pub fn head(&self, slot: u32) -> u32
        requires { slot < length self.now.slots }
        ensures { result ≡ (info_at self.now slot).head }
    {
        self.info(slot).head
    }

    /// The slot's alternative.
    pub fn alt(&self, slot: u32) -> u32
        requires { slot < length self.now.slots }
        ensures { result ≡ (info_at self.now slot).alt }
    {
        self.info(slot).alt
    }

    // The slot's place, which is there.
    fn info(&self, slot: u32) -> SlotInfo
        requires { slot < length self.now.slots }
        ensures info { result ≡ info_at self.now slot }
        ensures rule { result.head < length self.now.rules.flats }
        ensures alt { result.alt < length (lines_at self.now.rules result.head) }
        ensures symbols { AreThere self.now.rules }
    {
        self.slots[slot as usize]
    }

    /// The symbol after the dot. `None` where the dot is at the end.
    pub fn sym(&self, slot: u32) -> Option<Sym>
        requires { slot < length self.now.slots }
        ensures symbol { result ≡ sym_after self.now slot }
        // What the symbol names is there, as the other readers ask.
        ensures there { IfSome result (IsThere self.now.rules) }
    {
        let info = self.info(slot);
        self.syms(info.head, info.alt)
            .get(info.dot as usize)
            .copied()
    }

    /// The slot with the dot one further.
    pub fn next(&self, slot: u32) -> u32
        requires slot { slot < length self.now.slots }
        requires symbol { IsSome (sym_after self.now slot) }
        ensures number { result ≡ slot + 1 }
        ensures dot { IsSlot self.now result (info_at self.now slot).head (info_at self.now slot).alt ((info_at self.now slot).dot + 1) }
    {
        // The next slot has a number too, by what holds of the plan's parts.
        let _ = &self.slots;
        slot + 1
    }

    /// The slot with the dot at the beginning.
    pub fn first(&self, rule: u32, alt: u32) -> u32
        requires rule { rule < length self.now.rules.flats }
        requires alt { alt < length (lines_at self.now.rules rule) }
        ensures { IsSlot self.now result rule alt 0 }
    {
        self.slots.partition_point(
            |info: &SlotInfo| -> bool
                ensures { result ≡ is_before rule alt info.now }
            { info.head < rule || (info.head == rule && info.alt < alt) },
        ) as u32
    }

    /// The slot with the dot at the end.
    pub fn last(&self, rule: u32, alt: u32) -> u32
        requires rule { rule < length self.now.rules.flats }
        requires alt { alt < length (lines_at self.now.rules rule) }
        ensures { IsSlot self.now result rule alt (length (syms_at self.now.rules rule alt)) }
    {
        // The slot has a number, by what holds of the plan's parts.
        let _ = &self.slots;
        self.first(rule, alt) + self.syms(rule, alt).len() as u32
    }

    /// The terminal.
    pub fn terminal(&self, terminal: u32) -> &Terminal
        requires { terminal < length self.now.rules.terminals }
        ensures { result.now ≡ terminal_at self.now.rules terminal }
    {
        &self.rules.terminals.as_slice()[terminal as usize]
    }

    /// The inserted text.
    pub fn insert(&self, insert: u32) -> &Text
        requires { insert < length self.now.rules.inserts }
        ensures { result.now ≡ insert_at self.now.rules insert }
    {
        &self.rules.inserts.as_slice()[insert as usize]
    }

    /// The name.
    pub fn name(&self, name: u32) -> &Text
        requires { name < length self.now.rules.names }
        ensures { result.now ≡ name_at self.now.rules name }
    {
        &self.rules.names.as_slice()[name as usize]
    }

    /// The named rule's mark.
    pub fn rule_mark(&self, rule: u32) -> Mark
        requires { rule < length self.now.rules.marks }
        ensures { result ≡ mark_at self.now.rules rule }
    {
        self.rules.marks.as_slice()[rule as usize]
    }
}
