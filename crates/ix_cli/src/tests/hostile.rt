//! Devices that fail, a grammar and a text that are cut short, and grammars that call themselves for nothing.
use super::{entries, run, words};
use crate::run_alone;
use ix_edge::{MemFiles, MemSink};
use std::alloc::{AllocError, Global};
use std::test::Fail;

// The lines of a grammar of dates.
const DATES: [&str; 6] = [
    "date: day, s, month, s, @year.\n",
    "-s: -\" \"+.\n",
    "day: digit, digit?.\n",
    "month: -\"June\", +\"06\"; -\"July\", +\"07\".\n",
    "year: digit, digit, digit, digit.\n",
    "-digit: [\"0\"-\"9\"].\n",
];

const DATE: &[u8] = b"16 June 2022";

const DOCUMENT: &[u8] = b"<date year=\"2022\"><day>16</day><month>06</month></date>\n";

// The first so many lines of the grammar of dates.
fn dates(alloc: Global, count: usize) -> Result<Vec<u8>, AllocError> {
    let mut grammar = Vec::new(alloc);
    for line in DATES.iter().take(count) {
        grammar.extend_from_slice(line.as_bytes())?;
    }
    Ok(grammar)
}

// The number of the one call that fails. No command here has a call of number 9.
fn only(alloc: Global, call: u64) -> Result<Vec<u64>, AllocError> {
    Ok(vec![in alloc; call]?)
}

// Each row: the load and the put of the document that fail, after how many bytes, the status, what is written, and what is
// said.
#[test]
fn tells_each_device_that_fails(rt: HostRuntime) -> Result<(), Fail> {
    let alloc = rt.alloc();
    let grammar = dates(alloc, 6)?;
    for (load, put, part, status, written, said) in [
        (
            0,
            9,
            0,
            7,
            b"".as_slice(),
            b"ixml: cannot read g\n".as_slice(),
        ),
        (
            1,
            9,
            0,
            7,
            b"".as_slice(),
            b"ixml: cannot read t\n".as_slice(),
        ),
        (
            9,
            0,
            0,
            8,
            b"".as_slice(),
            b"ixml: cannot write\n".as_slice(),
        ),
        (
            9,
            0,
            1,
            8,
            b"<".as_slice(),
            b"ixml: cannot write\n".as_slice(),
        ),
        (
            9,
            0,
            10,
            8,
            b"<date year".as_slice(),
            b"ixml: cannot write\n".as_slice(),
        ),
        (9, 9, 0, 0, DOCUMENT, b"".as_slice()),
    ] {
        let mut files = MemFiles::new(entries(alloc, &grammar, DATE)?, only(alloc, load)?);
        let mut out = MemSink::new(alloc, 64, only(alloc, put)?, part)?;
        let mut msg = MemSink::new(alloc, 64, Vec::new(alloc), 0)?;
        let words = words(alloc, "parse g t")?;
        assert_eq!(rt;
            run_alone(alloc, &words, &mut files, &mut out, &mut msg),
            status
        );
        assert_eq!(rt; out.bytes(), written);
        assert_eq!(rt; msg.bytes(), said);
    }
    Ok(())
}

// A file that is not there is told as one that fails.
#[test]
fn tells_a_text_that_is_not_there(rt: HostRuntime) -> Result<(), Fail> {
    let alloc = rt.alloc();
    let ran = run(alloc, "parse g u", &dates(alloc, 6)?, DATE, false)?;
    assert_eq!(rt; ran.status, 7);
    assert_eq!(rt; ran.written.as_slice(), b"".as_slice());
    assert_eq!(rt; ran.said.as_slice(), b"ixml: cannot read u\n".as_slice());
    Ok(())
}

// The status stands without the line that names the refusal.
#[test]
fn refuses_a_document_without_a_word(rt: HostRuntime) -> Result<(), Fail> {
    let alloc = rt.alloc();
    let entries = entries(alloc, b"S: @x, @x. x: \"a\".", b"aa")?;
    let mut files = MemFiles::new(entries, Vec::new(alloc));
    let mut out = MemSink::new(alloc, 64, Vec::new(alloc), 0)?;
    let mut msg = MemSink::new(alloc, 64, only(alloc, 0)?, 0)?;
    let words = words(alloc, "parse g t")?;
    assert_eq!(rt; run_alone(alloc, &words, &mut files, &mut out, &mut msg), 4);
    assert_eq!(rt; out.bytes(), b"".as_slice());
    assert_eq!(rt; msg.bytes(), b"".as_slice());
    Ok(())
}

// Each row: how many lines of the grammar are there, the status, what is written, and what is said.
#[test]
fn names_the_rule_that_is_cut_off(rt: HostRuntime) -> Result<(), Fail> {
    let alloc = rt.alloc();
    for (count, status, written, said) in [
        (
            0,
            3,
            b"".as_slice(),
            b"ixml: G01: not an ixml grammar\n".as_slice(),
        ),
        (1, 3, b"".as_slice(), b"ixml: G06: no rule day\n".as_slice()),
        (2, 3, b"".as_slice(), b"ixml: G06: no rule day\n".as_slice()),
        (
            3,
            3,
            b"".as_slice(),
            b"ixml: G06: no rule month\n".as_slice(),
        ),
        (
            4,
            3,
            b"".as_slice(),
            b"ixml: G06: no rule year\n".as_slice(),
        ),
        (
            5,
            3,
            b"".as_slice(),
            b"ixml: G06: no rule digit\n".as_slice(),
        ),
        (6, 0, DOCUMENT, b"".as_slice()),
    ] {
        let ran = run(alloc, "parse g t", &dates(alloc, count)?, DATE, false)?;
        assert_eq!(rt; ran.status, status, "{count}");
        assert_eq!(rt; ran.written.as_slice(), written, "{count}");
        assert_eq!(rt; ran.said.as_slice(), said, "{count}");
    }
    Ok(())
}

// Each row: the front of the text, the offset of the failed document, and its column.
#[test]
fn tells_where_a_text_is_cut_off(rt: HostRuntime) -> Result<(), Fail> {
    let alloc = rt.alloc();
    let grammar = dates(alloc, 6)?;
    for (text, offset, column) in [
        ("", 0, 1),
        ("1", 1, 2),
        ("16", 2, 3),
        ("16 ", 3, 4),
        ("16 J", 3, 4),
        ("16 Ju", 3, 4),
        ("16 Jun", 3, 4),
        ("16 June", 7, 8),
        ("16 June ", 8, 9),
        ("16 June 2", 9, 10),
        ("16 June 20", 10, 11),
        ("16 June 202", 11, 12),
    ] {
        let failed = format!(in alloc;
            "<fail xmlns:ixml=\"http://invisiblexml.org/NS\" ixml:state=\"failed\" offset=\"{offset}\" line=\"1\" column=\"{column}\"/>\n"
        )?;
        let ran = run(alloc, "parse g t", &grammar, text.as_bytes(), false)?;
        assert_eq!(rt; ran.status, 1, "{text}");
        assert_eq!(rt; ran.written.as_slice(), failed.as_bytes(), "{text}");
        assert_eq!(rt; ran.said.as_slice(), b"".as_slice(), "{text}");
    }
    Ok(())
}

// Each row: a grammar, a text, and the document, which is marked ambiguous: each text has derivations without end.
#[test]
fn writes_trees_of_cycles(rt: HostRuntime) -> Result<(), Fail> {
    let alloc = rt.alloc();
    for (grammar, text, document) in [
        (
            "S: A. A: B; \"x\". B: A; .",
            "x",
            "<S xmlns:ixml=\"http://invisiblexml.org/NS\" ixml:state=\"ambiguous\"><A>x</A></S>\n",
        ),
        (
            "S: A. A: B; \"x\". B: A; .",
            "",
            "<S xmlns:ixml=\"http://invisiblexml.org/NS\" ixml:state=\"ambiguous\"><A><B/></A></S>\n",
        ),
        (
            "S: (S?)*, \"a\"?.",
            "",
            "<S xmlns:ixml=\"http://invisiblexml.org/NS\" ixml:state=\"ambiguous\"/>\n",
        ),
        (
            "S: (S?)*, \"a\"?.",
            "a",
            "<S xmlns:ixml=\"http://invisiblexml.org/NS\" ixml:state=\"ambiguous\">a</S>\n",
        ),
    ] {
        let ran = run(
            alloc,
            "parse g t",
            grammar.as_bytes(),
            text.as_bytes(),
            false,
        )?;
        assert_eq!(rt; ran.status, 0, "{grammar} on {text}");
        assert_eq!(rt;
            ran.written.as_slice(),
            document.as_bytes(),
            "{grammar} on {text}"
        );
        assert_eq!(rt; ran.said.as_slice(), b"".as_slice(), "{grammar} on {text}");
    }
    Ok(())
}
