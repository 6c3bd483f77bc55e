ghost use Rattle.std.specs.Prelude.{◌≡◌, IfOk, Err, true, codes, map, string_bytes};
ghost use Rattle.ix_model.specs.Answers.CommandLine.{HasNoForm};
ghost use Rattle.ix_words.specs.CommandNames.{names_command};
ghost use Rattle.ix_words.specs.Given.{given};
ghost use Rattle.ix_words.specs.NameAndParts.{IsRead};
ghost use Rattle.ix_words.specs.declared.command.WordsFault.TheVariants.{NoForm};

use crate::WordsFault;
use crate::reader::reader;
use clap::ArgMatches;
use clap::error::ErrorKind;
use std::alloc::Global;

/// The name of the command, and what `clap` makes of the words behind it: the operands stand under `operand`, the
/// values of `--workers` under `workers`. `NoForm` comes only where the words ask for no command.
pub(crate) fn matched<'a>(
    alloc: Global,
    words: &'a [String],
) -> Result<(&'a str, ArgMatches<'a>), WordsFault>
    requires { names_command (map string_bytes words.now) ≡ true }
    ensures ok { IfOk result (λ command. IsRead (map string_bytes words.now) command.0.now
        (given (codes "operand") command.1) (given (codes "workers") command.1)) }
    ensures none { result ≡ Err NoForm → HasNoForm (map string_bytes words.now) }
{
    let reader = reader(alloc)?;
    match reader.try_get_matches_from(words) {
        Ok(matches) => named(matches),
        Err(error) => match error.kind() {
            ErrorKind::OutOfMemory => Err(WordsFault::Memory),
            _ => Err(WordsFault::NoForm),
        },
    }
}

ghost use Rattle.std.specs.Prelude.{IfErr, None, Some};
ghost use Rattle.clap.specs.Words.{found_of, rows_of, subcommand_rows_of};

// The subcommand that was named, with its matches. The walk has always met one.
fn named<'a>(matches: ArgMatches<'a>) -> Result<(&'a str, ArgMatches<'a>), WordsFault>
    ensures ok { IfOk result (λ command. subcommand_rows_of matches.entry
        ≡ Some (command.0.now, rows_of (found_of command.1))) }
    ensures none { IfErr result (λ _. subcommand_rows_of matches.entry ≡ None) }
{
    let mut matches = matches;
    match matches.remove_subcommand() {
        Some(command) => Ok(command),
        None => Err(WordsFault::NoForm),
    }
}

/// The texts that were read under an id, in order.
pub(crate) fn given<'m, 'a>(matches: &'m ArgMatches<'a>, id: &str) -> &'m [&'a str]
    ensures { map (λ text. text.now) result.now ≡ given id.now matches.now }
{
    matches.get_raw(id).unwrap_or_default()
}
