//! What the words come to before any text is parsed.

ghost use Rattle.std.specs.Prelude.{◌≡◌, ◌≤◌, ℕ, List, Option, IfOk, IfErr, map, string_bytes};
ghost use Rattle.ix_edge.specs.Told.{Told};
ghost use Rattle.ix_model.specs.Answers.CommandLine.{Command as Asked, parse, check, sample, IsCommand};
ghost use Rattle.ix_words.specs.Asked.{asked};
ghost use Rattle.ix_cli.specs.Prepared.{IsPreparedFor, IsReadied};
ghost use Rattle.ix_cli.specs.Refused.{IsRefused, IsRefusedFor};

use crate::answer::Answer;
use crate::load::{load_grammar, load_text};
use crate::output::conforming_output;
use crate::task::{Prepared, Task, Wanted};
use ix_edge::Files;
use ix_engine::compile;
use ix_sample::{grammar, text};
use ix_words::Command;
use std::alloc::Global;

/// What the words come to before any text is parsed: the whole output, or a text to be parsed.
pub fn prepared<F: Files>(
    alloc: Global,
    words: &[String],
    files: &mut F,
) -> Result<Prepared, Answer>
    ensures ready { IfOk result IsReadied }
    ensures ok { IfOk result (λ p. (command : Asked) × IsCommand (map string_bytes words.now) command × IsPreparedFor (F.told files.old) command p) }
    ensures err { IfErr result (IsRefused (map string_bytes words.now) (F.told files.old) (F.faults files.old) (F.faults files.new)) }
    ensures sample { (lines workers : ℕ) → IsCommand (map string_bytes words.now) (sample lines workers) → IfErr result (λ a. a ≡ Answer.Memory) }
    ensures same { F.told files.new ≡ F.told files.old }
    ensures later { (name : List ℕ) → F.faults files.old name ≤ F.faults files.new name }
{
    let command = ix_words::words(alloc, words)?;
    prepared_for(alloc, &command, files)
}

fn prepared_for<F: Files>(
    alloc: Global,
    command: &Command,
    files: &mut F,
) -> Result<Prepared, Answer>
    requires { (words : List (List ℕ)) × IsCommand words (asked command.now) }
    ensures ready { IfOk result IsReadied }
    ensures ok { IfOk result (IsPreparedFor (F.told files.old) (asked command.now)) }
    ensures err { IfErr result (IsRefusedFor (asked command.now) (F.told files.old) (F.faults files.old) (F.faults files.new)) }
    ensures sample { (lines workers : ℕ) → asked command.now ≡ sample lines workers → IfErr result (λ a. a ≡ Answer.Memory) }
    ensures same { F.told files.new ≡ F.told files.old }
    ensures later { (name : List ℕ) → F.faults files.old name ≤ F.faults files.new name }
{
    match command {
        Command::Parse {
            grammar,
            text,
            workers,
        } => loaded(alloc, grammar.as_str(), text.as_str(), *workers, files),
        Command::Check { grammar } => checked(alloc, grammar.as_str(), files),
        Command::Sample { n, workers } => sampled(alloc, *n, *workers),
    }
}

// A text to be parsed under a grammar, each from its file.
fn loaded<F: Files>(
    alloc: Global,
    grammar: &str,
    text: &str,
    workers: u32,
    files: &mut F,
) -> Result<Prepared, Answer>
    requires least { 1 ≤ workers }
    requires most { workers ≤ 64 }
    ensures ready { IfOk result IsReadied }
    ensures ok { IfOk result (IsPreparedFor (F.told files.old) (parse grammar.now text.now workers)) }
    ensures err { IfErr result (IsRefusedFor (parse grammar.now text.now workers) (F.told files.old) (F.faults files.old) (F.faults files.new)) }
    ensures same { F.told files.new ≡ F.told files.old }
    ensures later { (name : List ℕ) → F.faults files.old name ≤ F.faults files.new name }
{
    let grammar = load_grammar(alloc, grammar, files)?;
    let text = load_text(alloc, text, files)?;
    Ok(Prepared::Parse(Task {
        grammar,
        text,
        workers,
        wanted: Wanted::Document,
    }))
}

// The line for a file that holds a conforming grammar.
fn checked<F: Files>(alloc: Global, grammar: &str, files: &mut F) -> Result<Prepared, Answer>
    ensures ready { IfOk result IsReadied }
    ensures ok { IfOk result (IsPreparedFor (F.told files.old) (check grammar.now)) }
    ensures err { IfErr result (IsRefusedFor (check grammar.now) (F.told files.old) (F.faults files.old) (F.faults files.new)) }
    ensures same { F.told files.new ≡ F.told files.old }
    ensures later { (name : List ℕ) → F.faults files.old name ≤ F.faults files.new name }
{
    let _ = load_grammar(alloc, grammar, files)?;
    Ok(Prepared::Output(conforming_output(alloc)?))
}

// The sample with so many lines.
fn sampled(alloc: Global, lines: u32, workers: u32) -> Result<Prepared, Answer>
    requires positive { 1 ≤ lines }
    requires limited { lines ≤ 10000 }
    requires least { 1 ≤ workers }
    requires most { workers ≤ 64 }
    ensures ready { IfOk result IsReadied }
    ensures ok { (files : Option Told) → IfOk result (IsPreparedFor files (sample lines workers)) }
    ensures err { IfErr result (λ a. a ≡ Answer.Memory) }
{
    let grammar = compile(alloc, grammar())?;
    let text = text(alloc, lines)?;
    Ok(Prepared::Parse(Task {
        grammar,
        text,
        workers,
        wanted: Wanted::Figures,
    }))
}
