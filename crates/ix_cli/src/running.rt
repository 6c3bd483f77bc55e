ghost use Rattle.std.specs.Prelude.{◌≡◌, ◌≤◌, ℕ, List, IfOk, map, string_bytes};
ghost use Rattle.ix_cli.specs.Contents.{IsWritable};
ghost use Rattle.ix_cli.specs.Delivered.{IsDelivered};
ghost use Rattle.ix_cli.specs.Replied.{IsReplied};
ghost use Rattle.ix_cli.specs.Runs.{IsRun};
ghost use Rattle.ix_cli.specs.Written.{IsWritten};

use crate::answer::Answer;
use crate::commands::prepared;
use crate::lines::{MEMORY, message};
use crate::output::{Output, output_of, put_content};
use crate::task::Prepared;
use crate::telling::{refuse, tell};
use ix_edge::{Files, Gate, Sink};
use ix_engine::{parse, parse_alone};
use std::alloc::Global;
use std::sync::Wait;
use std::thread::Threads;

/// Runs the command that the words after the program's name spell, by as many workers as it asks for, and gives its exit
/// status. Each worker passes the gate before each of its claims, where there are two or more.
///
/// To `out` go: for `parse` the document, in pieces of 65,536 bytes at most, or the failed document; for `check` the line
/// `ok`; for `sample` the four lines of figures. All but a document goes in one put. One line goes to `msg` where nothing
/// goes to `out`, or not all. The status is the first of these that applies: 2 where the words have no form; 7 where the
/// grammar could not be read; 3 where it is refused (G01 to G09), or 5 where it is not UTF-8; and for `parse` 7 where the
/// text could not be read; 6 where it has more than 16,777,216 bytes; 5 where it is not UTF-8; 1 where it has no
/// derivation, with the failed document; 4 where what its first derivation gives is no document (E01 to E06); else 0, or 8
/// where the output could not be written. `sample` reads no file. Want of memory, with status 9, may come at any call
/// before the first put, and after it never. At a status other than 0, 1 and 8 nothing is written to `out`. A fault of
/// `msg` changes nothing.
///
/// Neither the number of workers nor their order changes anything of this. They wait for each other, so that this call
/// returns is not promised.
pub fn run<R: Threads + Wait + Sync, F: Files, O: Sink, M: Sink, G: Gate + Sync>(
    rt: &R,
    alloc: Global,
    words: &[String],
    files: &mut F,
    out: &mut O,
    msg: &mut M,
    gate: &G,
) -> u8
    ensures { IsRun (map string_bytes words.now)
        (record { told = F.told files.old; unread = F.faults files.old; written = O.written out.old; unwritten = O.faults out.old; said = M.written msg.old; unsaid = M.faults msg.old })
        (record { told = F.told files.new; unread = F.faults files.new; written = O.written out.new; unwritten = O.faults out.new; said = M.written msg.new; unsaid = M.faults msg.new })
        result }
{
    deliver(alloc, reply(rt, alloc, words, files, gate), out, msg)
}

/// As `run`, alone and on one thread, however many workers the command asks for. It waits for nobody, and returns.
pub fn run_alone<F: Files, O: Sink, M: Sink>(
    alloc: Global,
    words: &[String],
    files: &mut F,
    out: &mut O,
    msg: &mut M,
) -> u8
    ensures { IsRun (map string_bytes words.now)
        (record { told = F.told files.old; unread = F.faults files.old; written = O.written out.old; unwritten = O.faults out.old; said = M.written msg.old; unsaid = M.faults msg.old })
        (record { told = F.told files.new; unread = F.faults files.new; written = O.written out.new; unwritten = O.faults out.new; said = M.written msg.new; unsaid = M.faults msg.new })
        result }
{
    deliver(alloc, reply_alone(alloc, words, files), out, msg)
}

// What is written of the command that the words ask for, by the work of its workers.
fn reply<R: Threads + Wait + Sync, F: Files, G: Gate + Sync>(
    rt: &R,
    alloc: Global,
    words: &[String],
    files: &mut F,
    gate: &G,
) -> Result<Output, Answer>
    ensures replied { IsReplied (map string_bytes words.now) (F.told files.old) (F.faults files.old) (F.faults files.new) result }
    ensures writable { IfOk result (λ output. IsWritable output.content) }
    ensures same { F.told files.new ≡ F.told files.old }
    ensures later { (name : List ℕ) → F.faults files.old name ≤ F.faults files.new name }
{
    match prepared(alloc, words, files)? {
        Prepared::Output(output) => Ok(output),
        Prepared::Parse(task) => {
            let parsed = parse(rt, alloc, &task.grammar, &task.text, task.workers, gate);
            Ok(output_of(alloc, &task, parsed)?)
        }
    }
}

// The same, by the work of one thread.
fn reply_alone<F: Files>(alloc: Global, words: &[String], files: &mut F) -> Result<Output, Answer>
    ensures replied { IsReplied (map string_bytes words.now) (F.told files.old) (F.faults files.old) (F.faults files.new) result }
    ensures writable { IfOk result (λ output. IsWritable output.content) }
    ensures same { F.told files.new ≡ F.told files.old }
    ensures later { (name : List ℕ) → F.faults files.old name ≤ F.faults files.new name }
{
    match prepared(alloc, words, files)? {
        Prepared::Output(output) => Ok(output),
        Prepared::Parse(task) => {
            let parsed = parse_alone(alloc, &task.grammar, &task.text);
            Ok(output_of(alloc, &task, parsed)?)
        }
    }
}

// Writes the output, or says why there is none.
fn deliver<O: Sink, M: Sink>(
    alloc: Global,
    reply: Result<Output, Answer>,
    out: &mut O,
    msg: &mut M,
) -> u8
    requires { IfOk reply (λ output. IsWritable output.content) }
    ensures { IsDelivered (O.written out.old) (O.written out.new) (O.faults out.old) (O.faults out.new)
        (M.written msg.old) (M.written msg.new) (M.faults msg.old) (M.faults msg.new) reply result }
{
    match reply {
        Ok(output) => write(alloc, output, out, msg),
        Err(answer) => refuse(alloc, &answer, msg),
    }
}

// Puts what goes to the output. The line for a fault is made before, so that want of memory never comes after a byte was put.
fn write<O: Sink, M: Sink>(alloc: Global, output: Output, out: &mut O, msg: &mut M) -> u8
    requires { IsWritable output.content }
    ensures { IsWritten (O.written out.old) (O.written out.new) (O.faults out.old) (O.faults out.new)
        (M.written msg.old) (M.written msg.new) (M.faults msg.old) (M.faults msg.new) output result }
{
    let Ok(line) = message(alloc, &Answer::Write) else {
        tell(MEMORY, msg);
        return Answer::Memory.status();
    };
    let status = output.status;
    match put_content(output.content, out) {
        Ok(()) => status,
        Err(_) => {
            tell(&line, msg);
            Answer::Write.status()
        }
    }
}
