//! The program `ixml`: the words after its name, the files of the system, and the standard streams.
//!
//! What it writes and answers is decided by `ix_cli`. Here stands only what reaches the system.
#![tactic(auto)]

ghost use Rattle.std.specs.Prelude.{◌≡◌, ◌≢◌, ◌⊎◌};
ghost use Rattle.std.specs.IoError.{error_kind};
ghost use Rattle.std.specs.declared.io.ErrorKind.TheVariants.{OutOfMemory};
ghost use Rattle.ix_cli.specs.Says.{Refuses};

mod files;
mod stream;
#[cfg(test)]
mod tests;

use files::RealFiles;
use ix_cli::Answer;
use ix_edge::{OpenGate, Sink};
use std::alloc::Global;
use std::process::ExitCode;
use std::rt::Env;
use std::{env, io};
use stream::Stream;

// No error leaves `main`: the status of such an end is 1, and 1 says that the grammar does not derive the text.
fn main(rt: HostRuntime) -> ExitCode {
    let alloc = rt.alloc();
    let mut files = RealFiles::new(&rt);
    let mut out = Stream::new(rt.stdout());
    let mut msg = Stream::new(rt.stderr());
    let status = match words_of(&rt, alloc) {
        Ok(words) => ix_cli::run(
            &rt,
            alloc,
            words.as_slice(),
            &mut files,
            &mut out,
            &mut msg,
            &OpenGate,
        ),
        Err(error) => refuse_words(alloc, &error, &mut msg),
    };
    ExitCode::from(status)
}

// The words after the program's name. A word that is no UTF-8 is an error, and so is such a name of the program.
fn words_of<R: Env + AllocGlobal>(rt: &R, alloc: Global) -> io::Result<Vec<String>> {
    Ok(env::args(rt)?.skip(1).collect(alloc)?)
}

// What is answered where the words could not be had: there was no memory for them, or they are no UTF-8.
fn answer_for(error: &io::Error) -> Answer
    ensures memory { error_kind error.now ≡ OutOfMemory → result ≡ Answer.Memory }
    ensures words { error_kind error.now ≢ OutOfMemory → result ≡ Answer.Words }
{
    if error.kind() == io::ErrorKind::OutOfMemory {
        Answer::Memory
    } else {
        Answer::Words
    }
}

// Says why the words could not be had. The status is 9 where memory ran out, and otherwise 2, or 9 where there is no
// memory for the line.
fn refuse_words<M: Sink>(alloc: Global, error: &io::Error, msg: &mut M) -> u8
    ensures memory { error_kind error.now ≡ OutOfMemory → result ≡ 9 }
    ensures status { (result ≡ 2) ⊎ (result ≡ 9) }
    ensures told { error_kind error.now ≢ OutOfMemory →
        Refuses (M.written msg.old) (M.written msg.new) (M.faults msg.old) (M.faults msg.new) Answer.Words result }
{
    ix_cli::refuse(alloc, &answer_for(error), msg)
}
