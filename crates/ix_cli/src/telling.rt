//! How an answer that is no document is told.

ghost use Rattle.std.specs.Prelude.{◌≡◌, String, string_bytes};
ghost use Rattle.ix_cli.specs.Lines.{read_line};
ghost use Rattle.ix_cli.specs.Says.{Says, Refuses};

use crate::answer::Answer;
use crate::lines::{MEMORY, message};
use ix_edge::Sink;
use std::alloc::Global;

/// Puts the answer's line, and gives its status. Where the line finds no memory, the line and the status are those of
/// want of memory.
pub fn refuse<M: Sink>(alloc: Global, answer: &Answer, msg: &mut M) -> u8
    ensures line { Refuses (M.written msg.old) (M.written msg.new) (M.faults msg.old) (M.faults msg.new) answer.now result }
    ensures read { result ≡ 7 → (name : String Global) × (answer.now ≡ Answer.Read name)
        × Says (M.written msg.old) (M.written msg.new) (M.faults msg.old) (M.faults msg.new) (read_line (string_bytes name)) }
{
    match message(alloc, answer) {
        Ok(line) => {
            tell(&line, msg);
            answer.status()
        }
        Err(_) => {
            tell(MEMORY, msg);
            Answer::Memory.status()
        }
    }
}

/// Puts a line. Where it can't be put, nothing comes of it.
pub fn tell<M: Sink>(line: &[u8], msg: &mut M)
    ensures { Says (M.written msg.old) (M.written msg.new) (M.faults msg.old) (M.faults msg.new) line.now }
{
    let _ = msg.put(line);
}
