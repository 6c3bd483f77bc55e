ghost use Rattle.std.specs.Prelude.{◌≡◌, IfOk, Err, codes, map};
ghost use Rattle.ix_model.specs.Answers.CommandLine.{Command as Asked, Asks};
ghost use Rattle.ix_words.specs.Asked.{asked};
ghost use Rattle.ix_words.specs.declared.command.WordsFault.TheVariants.{NoForm};

use crate::numbers::{count, workers};
use crate::{Command, WordsFault};
use std::alloc::Global;

/// The command of the name with these operands and these values of `--workers`; `NoForm` exactly where there is none.
pub(crate) fn command_of(
    alloc: Global,
    name: &str,
    operands: &[&str],
    values: &[&str],
) -> Result<Command, WordsFault>
    ensures ok { IfOk result (λ command. Asks name.now (map (λ text. text.now) operands.now)
        (map (λ text. text.now) values.now) (asked command)) }
    ensures none { result ≡ Err NoForm → (command : Asked) → ¬ (Asks name.now
        (map (λ text. text.now) operands.now) (map (λ text. text.now) values.now) command) }
{
    if name == "parse" {
        parse(alloc, operands, values)
    } else if name == "check" {
        check(alloc, operands, values)
    } else if name == "sample" {
        sample(operands, values)
    } else {
        Err(WordsFault::NoForm)
    }
}

fn parse(alloc: Global, operands: &[&str], values: &[&str]) -> Result<Command, WordsFault>
    ensures ok { IfOk result (λ command. Asks (codes "parse") (map (λ text. text.now) operands.now)
        (map (λ text. text.now) values.now) (asked command)) }
    ensures none { result ≡ Err NoForm → (command : Asked) → ¬ (Asks (codes "parse")
        (map (λ text. text.now) operands.now) (map (λ text. text.now) values.now) command) }
{
    let [grammar, text] = operands else {
        return Err(WordsFault::NoForm);
    };
    let Some(workers) = workers(values) else {
        return Err(WordsFault::NoForm);
    };
    Ok(Command::Parse {
        grammar: String::from_str(alloc, grammar)?,
        text: String::from_str(alloc, text)?,
        workers,
    })
}

fn check(alloc: Global, operands: &[&str], values: &[&str]) -> Result<Command, WordsFault>
    ensures ok { IfOk result (λ command. Asks (codes "check") (map (λ text. text.now) operands.now)
        (map (λ text. text.now) values.now) (asked command)) }
    ensures none { result ≡ Err NoForm → (command : Asked) → ¬ (Asks (codes "check")
        (map (λ text. text.now) operands.now) (map (λ text. text.now) values.now) command) }
{
    let [grammar] = operands else {
        return Err(WordsFault::NoForm);
    };
    if !values.is_empty() {
        return Err(WordsFault::NoForm);
    }
    Ok(Command::Check {
        grammar: String::from_str(alloc, grammar)?,
    })
}

fn sample(operands: &[&str], values: &[&str]) -> Result<Command, WordsFault>
    ensures ok { IfOk result (λ command. Asks (codes "sample") (map (λ text. text.now) operands.now)
        (map (λ text. text.now) values.now) (asked command)) }
    ensures none { result ≡ Err NoForm → (command : Asked) → ¬ (Asks (codes "sample")
        (map (λ text. text.now) operands.now) (map (λ text. text.now) values.now) command) }
{
    let [number] = operands else {
        return Err(WordsFault::NoForm);
    };
    let Some(n) = count(number, 5, 10_000) else {
        return Err(WordsFault::NoForm);
    };
    let Some(workers) = workers(values) else {
        return Err(WordsFault::NoForm);
    };
    Ok(Command::Sample { n, workers })
}
