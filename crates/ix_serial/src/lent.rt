//! A document that is written through a buffer of the caller's.
ghost use Rattle.std.specs.Prelude.{◌≡◌, ◌+◌, ◌≤◌, ◌++◌, length, take, IfOk};
ghost use Rattle.ix_edge.specs.Causes.{HasCause};
ghost use Rattle.ix_edge.specs.Puts.{Puts};
ghost use Rattle.ix_model.specs.Documents.Dyn.{HasNoRefusal};
ghost use Rattle.ix_model.specs.Documents.Gives.{Givens};
ghost use Rattle.ix_model.specs.Documents.Xml.{xml};
ghost use Rattle.ix_marks.specs.InRange.{AreIn};
ghost use Rattle.ix_marks.specs.Standing.{StandsFor};
ghost use Rattle.ix_serial.specs.Units.{unit_bytes};
ghost use Rattle.ix_serial.specs.Lent.{Passes};

use crate::cursor::Cursor;
use crate::unit::Unit;
use ix_edge::{Failed, Sink};
use ix_marks::Marked;
use ix_model::{Plan, State};

// What is put at once ends before fewer than so many bytes are free.
const ROOM: usize = 16;

/// Puts the document of the marked tree, the bytes of `bytes`, through a buffer. It takes no memory.
///
/// The buffer is filled unit by unit, so that no character and no reference is divided. It is put where fewer than 16 bytes of
/// it are free, and at the end if it is not empty. The conditions on the marked tree are those of `bytes`, and the buffer has at
/// least 16 bytes. What stood in the buffer before does not matter, and what stands there afterwards is nothing to rely on.
///
/// `Failed` comes only where a put failed, and so only where the count of failed puts rose. Then a front of the document was
/// appended, and nothing more is put.
pub fn write<O: Sink>(
    plan: &Plan,
    marked: &Marked,
    state: State,
    out: &mut O,
    buffer: &mut [u8],
) -> Result<(), Failed>
    requires there { AreIn plan.now.rules.names marked.now }
    requires document { (gs : Givens) × StandsFor plan.now.rules.names marked.now gs × HasNoRefusal gs }
    requires room { 16 ≤ length buffer.old }
    ensures bytes { (gs : Givens) → StandsFor plan.now.rules.names marked.now gs → Puts (O.written out.old) (O.written out.new) (xml gs state) result }
    ensures cause { HasCause (O.faults out.old) (O.faults out.new) result }
    ensures len { length buffer.new ≡ length buffer.old }
{
    let mut filled = 0;
    let mut cursor = Cursor::new(state);
    while let Some(unit) = cursor.next(plan, marked) {
        filled = put_unit(out, buffer, filled, unit)?;
    }
    flush(out, buffer, filled)
}

// Puts what the buffer holds, if it holds anything.
fn flush<O: Sink>(out: &mut O, buffer: &[u8], filled: usize) -> Result<(), Failed>
    requires { filled ≤ length buffer.now }
    ensures bytes { Puts (O.written out.old) (O.written out.new) (take filled buffer.now) result }
    ensures cause { HasCause (O.faults out.old) (O.faults out.new) result }
{
    if filled == 0 {
        return Ok(());
    }
    out.put(&buffer[..filled])
}

// Puts a unit. Markup is ASCII, so each of its bytes is a character.
fn put_unit<O: Sink>(
    out: &mut O,
    buffer: &mut [u8],
    filled: usize,
    unit: Unit,
) -> Result<usize, Failed>
    requires room { filled + 16 ≤ length buffer.old }
    ensures bytes { Passes (O.written out.old) (O.written out.new) (take filled buffer.old) buffer.new (unit_bytes unit) result }
    ensures room { IfOk result (λ now. now + 16 ≤ length buffer.new) }
    ensures cause { HasCause (O.faults out.old) (O.faults out.new) result }
    ensures len { length buffer.new ≡ length buffer.old }
{
    match unit {
        Unit::Char(c) => {
            let mut bytes = [0; 4];
            put_part(out, buffer, filled, c.encode_utf8(&mut bytes).as_bytes())
        }
        Unit::Markup(markup) => put_markup(out, buffer, filled, markup.as_bytes()),
    }
}

fn put_markup<O: Sink>(
    out: &mut O,
    buffer: &mut [u8],
    filled: usize,
    markup: &[u8],
) -> Result<usize, Failed>
    requires room { filled + 16 ≤ length buffer.old }
    ensures bytes { Passes (O.written out.old) (O.written out.new) (take filled buffer.old) buffer.new markup.now result }
    ensures room { IfOk result (λ now. now + 16 ≤ length buffer.new) }
    ensures cause { HasCause (O.faults out.old) (O.faults out.new) result }
    ensures len { length buffer.new ≡ length buffer.old }
{
    let mut filled = filled;
    for byte in markup {
        filled = put_part(out, buffer, filled, &[*byte])?;
    }
    Ok(filled)
}

// Puts a part that is never divided.
fn put_part<O: Sink>(
    out: &mut O,
    buffer: &mut [u8],
    filled: usize,
    part: &[u8],
) -> Result<usize, Failed>
    requires room { filled + 16 ≤ length buffer.old }
    requires small { length part.now ≤ 16 }
    ensures bytes { Passes (O.written out.old) (O.written out.new) (take filled buffer.old) buffer.new part.now result }
    ensures room { IfOk result (λ now. now + 16 ≤ length buffer.new) }
    ensures cause { HasCause (O.faults out.old) (O.faults out.new) result }
    ensures len { length buffer.new ≡ length buffer.old }
{
    append(buffer, filled, part);
    let filled = filled + part.len();
    if buffer.len() - filled < ROOM {
        out.put(&buffer[..filled])?;
        return Ok(0);
    }
    Ok(filled)
}

// Copies a part behind what the buffer holds.
fn append(buffer: &mut [u8], filled: usize, part: &[u8])
    requires { filled + length part.now ≤ length buffer.old }
    ensures bytes { take (filled + length part.now) buffer.new ≡ take filled buffer.old ++ part.now }
    ensures len { length buffer.new ≡ length buffer.old }
{
    buffer[filled..filled + part.len()].copy_from_slice(part);
}
