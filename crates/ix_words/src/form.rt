ghost use Rattle.std.specs.Prelude.{◌≡◌, ◌||◌, IfOk, IsErr, IsTrue, Err, codes, map, string_bytes};
ghost use Rattle.std.specs.Str.{bytes_eq};
ghost use Rattle.ix_model.specs.Answers.CommandLine.{Command as Asked, IsCommand, HasNoForm};
ghost use Rattle.ix_words.specs.Asked.{asked};
ghost use Rattle.ix_words.specs.CommandNames.{names_command};
ghost use Rattle.ix_words.specs.declared.command.WordsFault.TheVariants.{NoForm, Memory};

use crate::asking::command_of;
use crate::matching::{given, matched};
use crate::{Command, WordsFault};
use std::alloc::Global;

/// The command that the words after the program's name ask for: `parse GRAMMAR TEXT`, `check GRAMMAR` or `sample N`, and
/// before the first `--` also `--workers N` or `--workers=N`, but not for `check`.
///
/// `NoForm` comes only where the words ask for no command, and such words never have an `Ok`. `Memory` comes where
/// there is no memory to read words whose first names a command.
pub fn words(alloc: Global, words: &[String]) -> Result<Command, WordsFault>
    ensures ok { IfOk result (λ command. IsCommand (map string_bytes words.now) (asked command)) }
    ensures only { IfOk result (λ command. (other : Asked) → IsCommand (map string_bytes words.now) other → other ≡ asked command) }
    ensures no_form { result ≡ Err NoForm → HasNoForm (map string_bytes words.now) }
    ensures refused { HasNoForm (map string_bytes words.now) → IsErr result }
    ensures memory { result ≡ Err Memory → IsTrue (names_command (map string_bytes words.now)) }
{
    // Before `clap` is asked, which has an answer of its own to words of help.
    if !names_command(words) {
        return Err(WordsFault::NoForm);
    }
    let (name, matches) = matched(alloc, words)?;
    let operands = given(&matches, "operand");
    let values = given(&matches, "workers");
    command_of(alloc, name, operands, values)
}

fn names_command(words: &[String]) -> bool
    ensures { result ≡ names_command (map string_bytes words.now) }
{
    match words {
        [] => false,
        [word, ..] => is_name(word.as_str()),
    }
}

fn is_name(word: &str) -> bool
    ensures { result ≡ (bytes_eq word.now (codes "parse")
        || (bytes_eq word.now (codes "check") || bytes_eq word.now (codes "sample"))) }
{
    word == "parse" || (word == "check" || word == "sample")
}
