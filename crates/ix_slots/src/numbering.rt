//! The numbering of slots.
ghost use Rattle.std.specs.Prelude.{◌≡◌, ◌+◌, ◌^◌, ◌<◌, ◌++◌, length, IfOk, OnOk};
ghost use Rattle.ix_model.specs.Expansion.Numbering.{dots_from, alts_from, numbering};

use ix_model::{Flat, Line, SlotInfo};
use std::alloc::{AllocError, Global};

/// The slots of the rules, in the order of their numbers.
pub fn slots_of(alloc: Global, flats: &[Flat]) -> Result<Vec<SlotInfo>, AllocError>
    requires rules { length flats.now < 2 ^ 32 }
    requires slots { length (numbering flats.now) < 2 ^ 32 }
    ensures { IfOk result (λ slots. slots.items ≡ numbering flats.now) }
{
    let mut slots = Vec::with_capacity(alloc, slot_count(flats))?;
    for (head, flat) in flats.iter().enumerate() {
        add_alts(&mut slots, head as u32, flat.lines.as_slice())?;
    }
    Ok(slots)
}

// How many slots the rules have.
fn slot_count(flats: &[Flat]) -> usize
    requires { length (numbering flats.now) < 2 ^ 32 }
    ensures { result ≡ length (numbering flats.now) }
{
    let mut count = 0;
    for flat in flats {
        count += alts_slot_count(flat.lines.as_slice());
    }
    count
}

// How many slots the alternatives have.
fn alts_slot_count(lines: &[Line]) -> usize
    requires { length (alts_from 0 0 lines.now) < 2 ^ 32 }
    ensures { result ≡ length (alts_from 0 0 lines.now) }
{
    let mut count = 0;
    for line in lines {
        count += line.syms.len() + 1;
    }
    count
}

// Adds the slots of the rule with this number, whose alternatives these are.
fn add_alts(slots: &mut Vec<SlotInfo>, head: u32, lines: &[Line]) -> Result<(), AllocError>
    requires { length (alts_from head 0 lines.now) < 2 ^ 32 }
    ensures { OnOk result (slots.new.items ≡ slots.old.items ++ alts_from head 0 lines.now) }
{
    for (alt, line) in lines.iter().enumerate() {
        add_dots(slots, head, alt as u32, line.syms.len() as u32)?;
    }
    Ok(())
}

// Adds the slots of the alternative with this number of the rule, which has so many symbols.
fn add_dots(slots: &mut Vec<SlotInfo>, head: u32, alt: u32, symbols: u32) -> Result<(), AllocError>
    ensures { OnOk result (slots.new.items ≡ slots.old.items ++ dots_from head alt 0 symbols) }
{
    for dot in 0..=symbols {
        slots.push(SlotInfo { head, alt, dot })?;
    }
    Ok(())
}
