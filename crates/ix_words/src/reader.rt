ghost use Rattle.std.specs.Prelude.{◌≡◌, IfOk};
ghost use Rattle.clap.specs.Words.{app_of};
ghost use Rattle.ix_words.specs.Added.{AddsAs};
ghost use Rattle.ix_words.specs.ReaderApp.{reader_app, subcommand_app};

use clap::{Arg, ArgAction, Command};
use std::alloc::{AllocError, Global};

/// The three commands. None has help, so that words of help are refused as others are.
pub(crate) fn reader<'a>(alloc: Global) -> Result<Command<'a>, AllocError>
    ensures { IfOk result (λ reader. app_of reader ≡ reader_app) }
{
    Command::new(alloc, "ixml")
        .no_binary_name(true)
        .disable_help_flag(true)
        .disable_help_subcommand(true)
        .subcommand(command_named(alloc, "parse")?)?
        .subcommand(command_named(alloc, "check")?)?
        .subcommand(command_named(alloc, "sample")?)
}

// A command with any number of operands and of values of `--workers`. The values stay texts, since the integers of
// `clap` may begin with `+`.
fn command_named<'a>(alloc: Global, name: &'a str) -> Result<Command<'a>, AllocError>
    ensures { IfOk result (λ command. AddsAs command (subcommand_app name.entry.now)) }
{
    let operand = Arg::new(alloc, "operand").action(ArgAction::Append);
    let workers = Arg::new(alloc, "workers")
        .long("workers")
        .action(ArgAction::Append);
    Command::new(alloc, name).arg(operand)?.arg(workers)
}
