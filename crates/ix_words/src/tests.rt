use crate::{Command, WordsFault, words};
use std::alloc::Global;
use std::test::Fail;

fn asked(alloc: Global, line: &str) -> Result<Command, WordsFault> {
    let mut given = Vec::new(alloc);
    for word in line.split_whitespace() {
        let word = String::from_str(alloc, word)?;
        given.push(word).map_err(|_| WordsFault::Memory)?;
    }
    words(alloc, given.as_slice())
}

fn told(alloc: Global, line: &str) -> Result<String, WordsFault> {
    match asked(alloc, line) {
        Ok(
            Command::Parse {
                grammar,
                text,
                workers,
            },
        ) => Ok(format!(in alloc; "parse {grammar} {text} by {workers}")?),
        Ok(Command::Check { grammar }) => Ok(format!(in alloc; "check {grammar}")?),
        Ok(Command::Sample { n, workers }) => Ok(format!(in alloc; "sample {n} by {workers}")?),
        Err(WordsFault::NoForm) => Ok(String::from_str(alloc, "no form")?),
        Err(WordsFault::Memory) => Err(WordsFault::Memory),
    }
}

// Each row: the words, and what they ask for.
#[test]
fn words_ask_for_a_command_or_have_no_form(rt: HostRuntime) -> Result<(), Fail> {
    let alloc = rt.alloc();
    for (line, want) in [
        ("parse g t --workers=8", "parse g t by 8"),
        ("parse --workers 008 g t", "parse g t by 8"),
        ("parse g -- t", "parse g t by 2"),
        ("parse g -- --workers", "parse g --workers by 2"),
        ("check -", "check -"),
        ("sample --workers=64 01000", "sample 1000 by 64"),
        ("parse g", "no form"),
        ("parse g t --workers 0", "no form"),
        ("parse g t --workers +5", "no form"),
        ("parse g t --workers 65", "no form"),
        ("parse g t --workers --", "no form"),
        ("parse g t --work 5", "no form"),
        ("check g --workers 2", "no form"),
        ("sample 10001", "no form"),
        ("parse --help", "no form"),
        ("help parse", "no form"),
        ("--help", "no form"),
        ("", "no form"),
    ] {
        let got = told(alloc, line)?;
        assert_eq!(rt; got.as_str(), want, "{line}");
    }
    Ok(())
}
