ghost use Rattle.std.specs.Prelude.{IfOk, IsTrue};
ghost use Rattle.ix_edge.specs.Entries.{names_differ};

use super::{run, words};
use crate::run_alone;
use ix_edge::{Entry, MemFiles, MemSink};
use std::alloc::{AllocError, Global};
use std::test::Fail;

const FORMS: &[u8] =
    b"ixml: use parse GRAMMAR TEXT [--workers N], check GRAMMAR or sample N [--workers N]\n";

// All of these words ask for the same document.
#[test]
fn workers_and_the_end_of_options_change_nothing(rt: HostRuntime) -> Result<(), Fail> {
    let alloc = rt.alloc();
    for line in [
        "parse g t",
        "parse g t --workers=8",
        "parse --workers 008 g t",
        "parse g -- t",
        "parse g t --workers 3",
        "parse g --workers=64 t",
        "parse --workers=1 -- g t",
        "parse g t --",
    ] {
        let ran = run(alloc, line, b"S: \"a\".", b"a", false)?;
        assert_eq!(rt; ran.status, 0, "{line}");
        assert_eq!(rt; ran.written.as_slice(), b"<S>a</S>\n".as_slice(), "{line}");
        assert_eq!(rt; ran.said.as_slice(), b"".as_slice(), "{line}");
    }
    Ok(())
}

#[test]
fn refuses_words_of_no_form(rt: HostRuntime) -> Result<(), Fail> {
    let alloc = rt.alloc();
    for line in [
        "",
        "g t",
        "parse",
        "parse g",
        "parse g t t",
        "Parse g t",
        "parse g -t",
        "parse g t --workers",
        "parse g t --workers 0",
        "parse g t --workers +5",
        "parse g t --workers 65",
        "parse g t --workers=2 --workers=2",
        "check",
        "check g t",
        "check g --workers 2",
        "sample",
        "sample 0",
        "sample 10001",
        "sample 1 1",
        "--help",
        "parse --help",
        "help parse",
        "--",
    ] {
        let ran = run(alloc, line, b"S: \"a\".", b"a", false)?;
        assert_eq!(rt; ran.status, 2, "{line}");
        assert_eq!(rt; ran.written.as_slice(), b"".as_slice(), "{line}");
        assert_eq!(rt; ran.said.as_slice(), FORMS, "{line}");
    }
    Ok(())
}

// A grammar under the name `-`, and a text under `--workers`.
fn hyphens(alloc: Global) -> Result<Vec<Entry>, AllocError>
    ensures { IfOk result (λ v. IsTrue (names_differ v.items)) }
{
    let mut entries = Vec::new(alloc);
    entries.push(Entry {
        name: String::from_str(alloc, "-")?,
        bytes: Vec::from_slice(alloc, b"S: \"a\".")?,
        faults: 0,
    })?;
    entries.push(Entry {
        name: String::from_str(alloc, "--workers")?,
        bytes: Vec::from_slice(alloc, b"a")?,
        faults: 0,
    })?;
    Ok(entries)
}

// Each row: words that name these files, and what is written.
#[test]
fn hyphens_name_files(rt: HostRuntime) -> Result<(), Fail> {
    let alloc = rt.alloc();
    for (line, written) in [
        ("parse - -- --workers", b"<S>a</S>\n".as_slice()),
        ("parse -- - --workers", b"<S>a</S>\n".as_slice()),
        ("parse --workers 2 -- - --workers", b"<S>a</S>\n".as_slice()),
        ("check -", b"ok\n".as_slice()),
        ("check -- -", b"ok\n".as_slice()),
    ] {
        let mut files = MemFiles::new(hyphens(alloc)?, Vec::new(alloc));
        let mut out = MemSink::new(alloc, 64, Vec::new(alloc), 0)?;
        let mut msg = MemSink::new(alloc, 128, Vec::new(alloc), 0)?;
        let words = words(alloc, line)?;
        assert_eq!(rt;
            run_alone(alloc, &words, &mut files, &mut out, &mut msg),
            0,
            "{line}"
        );
        assert_eq!(rt; out.bytes(), written, "{line}");
        assert_eq!(rt; msg.bytes(), b"".as_slice(), "{line}");
    }
    Ok(())
}
