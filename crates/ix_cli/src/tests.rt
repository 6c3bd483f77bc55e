ghost use Rattle.std.specs.Prelude.{◌≡◌, IfOk, IsTrue};
ghost use Rattle.ix_edge.specs.Entries.{names_differ};

mod asked;
mod checks;
mod hostile;
mod long;
mod recorded;
mod samples;
mod sharing;

use crate::{Answer, message, run_alone};
use ix_edge::{Entry, Files, MemFiles, MemSink, Sink, SureFiles};
use recorded::RecordedFiles;
use std::alloc::{AllocError, Global};
use std::test::Fail;

fn entries(alloc: Global, grammar: &[u8], text: &[u8]) -> Result<Vec<Entry>, AllocError>
    ensures { IfOk result (λ v. IsTrue (names_differ v.items)) }
{
    let mut entries = Vec::new(alloc);
    entries.push(Entry {
        name: String::from_str(alloc, "g")?,
        bytes: Vec::from_slice(alloc, grammar)?,
        faults: 0,
    })?;
    entries.push(Entry {
        name: String::from_str(alloc, "t")?,
        bytes: Vec::from_slice(alloc, text)?,
        faults: 0,
    })?;
    Ok(entries)
}

fn words(alloc: Global, line: &str) -> Result<Vec<String>, AllocError> {
    let mut words = Vec::new(alloc);
    for word in line.split_whitespace() {
        words.push(String::from_str(alloc, word)?)?;
    }
    Ok(words)
}

// What came of a run: the status, what was written, and what was said.
#[derive(Debug, Drop)]
struct Ran {
    status: u8,
    written: Vec<u8>,
    said: Vec<u8>,
}

// Runs the words over a grammar under the name `g` and a text under `t`. Nothing fails but the first put, where it is to:
// after four bytes.
fn run(
    alloc: Global,
    line: &str,
    grammar: &[u8],
    text: &[u8],
    fails: bool,
) -> Result<Ran, AllocError> {
    let mut files = MemFiles::new(entries(alloc, grammar, text)?, Vec::new(alloc));
    let puts = if fails {
        vec![in alloc; 0]?
    } else {
        Vec::new(alloc)
    };
    let mut out = MemSink::new(alloc, 256, puts, 4)?;
    let mut msg = MemSink::new(alloc, 128, Vec::new(alloc), 0)?;
    let words = words(alloc, line)?;
    let status = run_alone(alloc, &words, &mut files, &mut out, &mut msg);
    Ok(Ran {
        status,
        written: Vec::from_slice(alloc, out.bytes())?,
        said: Vec::from_slice(alloc, msg.bytes())?,
    })
}

// Each row: a grammar, a text, the status, and what is written. Nothing is said.
#[test]
fn writes_a_document_or_a_failed_one(rt: HostRuntime) -> Result<(), Fail> {
    let alloc = rt.alloc();
    for (grammar, text, status, written) in [
        ("S: \"a\".", "a", 0, "<S>a</S>\n"),
        ("S: .", "", 0, "<S/>\n"),
        (
            "S: \"ab\".",
            "ac",
            1,
            "<fail xmlns:ixml=\"http://invisiblexml.org/NS\" ixml:state=\"failed\" offset=\"0\" line=\"1\" column=\"1\"/>\n",
        ),
        (
            "S: \"a\".",
            "ab",
            1,
            "<fail xmlns:ixml=\"http://invisiblexml.org/NS\" ixml:state=\"failed\" offset=\"1\" line=\"1\" column=\"2\"/>\n",
        ),
        (
            "S: S; \"a\".",
            "a",
            0,
            "<S xmlns:ixml=\"http://invisiblexml.org/NS\" ixml:state=\"ambiguous\">a</S>\n",
        ),
        (
            "E: E, \"+\", E; \"1\".",
            "1+1+1",
            0,
            "<E xmlns:ixml=\"http://invisiblexml.org/NS\" ixml:state=\"ambiguous\"><E>1</E>+<E><E>1</E>+<E>1</E></E></E>\n",
        ),
        (
            "S: A; B. A: C. C: \"a\". B: \"a\".",
            "a",
            0,
            "<S xmlns:ixml=\"http://invisiblexml.org/NS\" ixml:state=\"ambiguous\"><B>a</B></S>\n",
        ),
        (
            "S: a*. a: \"x\"?.",
            "",
            0,
            "<S xmlns:ixml=\"http://invisiblexml.org/NS\" ixml:state=\"ambiguous\"/>\n",
        ),
        (
            "S: a*. a: \"x\"?.",
            "x",
            0,
            "<S xmlns:ixml=\"http://invisiblexml.org/NS\" ixml:state=\"ambiguous\"><a>x</a></S>\n",
        ),
        (
            "csv: row++-#a. row: cell++-\",\". cell: ~[\",\"; #a]*.",
            "a,,b",
            0,
            "<csv><row><cell>a</cell><cell/><cell>b</cell></row></csv>\n",
        ),
        (
            "date: day, s, month, s, @year.\n-s: -\" \"+.\nday: digit, digit?.\nmonth: -\"June\", +\"06\"; -\"July\", +\"07\".\nyear: digit, digit, digit, digit.\n-digit: [\"0\"-\"9\"].\n",
            "16 June 2022",
            0,
            "<date year=\"2022\"><day>16</day><month>06</month></date>\n",
        ),
        (
            "S: \"t\", -h. h: -g. g: @a. a: \"v\".",
            "tv",
            0,
            "<S a=\"v\">t</S>\n",
        ),
        ("S: +\"<\", \"a\", +#26.", "a", 0, "<S>&lt;a&amp;</S>\n"),
        ("{a {b} c} S: \"a\". {end}", "a", 0, "<S>a</S>\n"),
        (
            "S: A, \"&\".\nA: \"x\"; \"y\".",
            "y&",
            0,
            "<S><A>y</A>&amp;</S>\n",
        ),
        ("S: b.. b.: \"x\".", "x", 0, "<S><b.>x</b.></S>\n"),
        (
            "E: E, \"+\", E; \"1\".",
            "1+1+1+1",
            0,
            "<E xmlns:ixml=\"http://invisiblexml.org/NS\" ixml:state=\"ambiguous\"><E><E>1</E>+<E>1</E></E>+<E><E>1</E>+<E>1</E></E></E>\n",
        ),
        (
            "S: (A; B), D. A: C. C: \"a\". B: \"a\". D: E. E: F. F: \"b\".",
            "ab",
            0,
            "<S xmlns:ixml=\"http://invisiblexml.org/NS\" ixml:state=\"ambiguous\"><A><C>a</C></A><D><E><F>b</F></E></D></S>\n",
        ),
        (
            "S: a+. a: \"x\"+.",
            "xx",
            0,
            "<S xmlns:ixml=\"http://invisiblexml.org/NS\" ixml:state=\"ambiguous\"><a>xx</a></S>\n",
        ),
        ("S: a**-\",\". a: \"x\"?.", ",", 0, "<S><a/><a/></S>\n"),
        (
            "S: a**-\",\". a: \"x\"?.",
            "",
            0,
            "<S xmlns:ixml=\"http://invisiblexml.org/NS\" ixml:state=\"ambiguous\"/>\n",
        ),
        (
            "S: -a, ^b, c. a: \"1\". -b: \"2\". -c: \"3\".",
            "123",
            0,
            "<S>1<b>2</b>3</S>\n",
        ),
        (
            "S: @a. a: \"x\", @b, -\"y\", +\"z\". b: \"w\".",
            "xwy",
            0,
            "<S a=\"xwz\"/>\n",
        ),
        ("S: @x. x: .", "", 0, "<S x=\"\"/>\n"),
        (
            "S: \"a\", #a, \"b\".",
            "a\nc",
            1,
            "<fail xmlns:ixml=\"http://invisiblexml.org/NS\" ixml:state=\"failed\" offset=\"2\" line=\"2\" column=\"1\"/>\n",
        ),
        ("S: [L]+.", "né", 0, "<S>né</S>\n"),
        ("S: ~[]*.", "\r\n", 0, "<S>&#xD;\n</S>\n"),
    ] {
        let ran = run(
            alloc,
            "parse g t",
            grammar.as_bytes(),
            text.as_bytes(),
            false,
        )?;
        assert_eq!(rt; ran.status, status, "{grammar} on {text}");
        assert_eq!(rt;
            ran.written.as_slice(),
            written.as_bytes(),
            "{grammar} on {text}"
        );
        assert_eq!(rt; ran.said.as_slice(), b"".as_slice(), "{grammar} on {text}");
    }
    Ok(())
}

// Each row: a grammar and a text whose first derivation is no document, and what is said.
#[test]
fn refuses_what_is_no_document(rt: HostRuntime) -> Result<(), Fail> {
    let alloc = rt.alloc();
    for (grammar, text, said) in [
        (
            "S: @x, @x. x: \"a\".",
            "aa",
            "ixml: E05: attribute x twice\n",
        ),
        (
            "-S: a, a. a: \"x\".",
            "xx",
            "ixml: E02: 2 elements and 0 characters at the top\n",
        ),
        ("@S: \"x\".", "x", "ixml: E01: attribute S at the top\n"),
        ("ª: \"x\".", "x", "ixml: E03: ª is no XML name\n"),
        (
            "S: ~[].",
            "\u{1}",
            "ixml: E06: character #1 is not allowed in XML\n",
        ),
        (
            "S: @xmlns. xmlns: \"a\".",
            "a",
            "ixml: E04: attribute xmlns\n",
        ),
    ] {
        let ran = run(
            alloc,
            "parse g t",
            grammar.as_bytes(),
            text.as_bytes(),
            false,
        )?;
        assert_eq!(rt; ran.status, 4, "{grammar} on {text}");
        assert_eq!(rt;
            ran.written.as_slice(),
            b"".as_slice(),
            "{grammar} on {text}"
        );
        assert_eq!(rt; ran.said.as_slice(), said.as_bytes(), "{grammar} on {text}");
    }
    Ok(())
}

// Each row: a grammar, the status, and what is said.
#[test]
fn refuses_what_is_no_grammar(rt: HostRuntime) -> Result<(), Fail> {
    let alloc = rt.alloc();
    for (grammar, status, said) in [
        (b"".as_slice(), 3, "ixml: G01: not an ixml grammar\n"),
        (
            b"S: [LC].".as_slice(),
            3,
            "ixml: G01: not an ixml grammar\n",
        ),
        (
            b"S: \"a\",.".as_slice(),
            3,
            "ixml: G01: not an ixml grammar\n",
        ),
        (
            b"{a {b} c} S: \"a\". {end".as_slice(),
            3,
            "ixml: G01: not an ixml grammar\n",
        ),
        (
            b"ixml version \"2.0\". S: \"a\".".as_slice(),
            3,
            "ixml: G02: version \"2.0\"\n",
        ),
        (
            b"S: #110000.".as_slice(),
            3,
            "ixml: G03: no character has the number #110000\n",
        ),
        (
            b"S: [Xx], #D800.".as_slice(),
            3,
            "ixml: G03: no character has the number #D800\n",
        ),
        (
            b"S: [\"z\"-\"a\"].".as_slice(),
            3,
            "ixml: G04: range from #7a to #61\n",
        ),
        (
            b"S: [\"z\"-\"a\"], b.".as_slice(),
            3,
            "ixml: G04: range from #7a to #61\n",
        ),
        (b"S: [Xx].".as_slice(), 3, "ixml: G05: no class Xx\n"),
        (b"S: b.".as_slice(), 3, "ixml: G06: no rule b\n"),
        (b"S: \xC3\xA9.".as_slice(), 3, "ixml: G06: no rule é\n"),
        (
            b"S: \"a\". S: \"b\".".as_slice(),
            3,
            "ixml: G07: two rules S\n",
        ),
        (
            b"\xEF\xBB\xBFS: \"\xC3\".".as_slice(),
            5,
            "ixml: grammar is not UTF-8 after 7 bytes\n",
        ),
    ] {
        let ran = run(alloc, "parse g t", grammar, b"a", false)?;
        assert_eq!(rt; ran.status, status, "{said}");
        assert_eq!(rt; ran.written.as_slice(), b"".as_slice(), "{said}");
        assert_eq!(rt; ran.said.as_slice(), said.as_bytes());
    }
    Ok(())
}

// A literal among so many parentheses.
fn nested(alloc: Global, depth: usize) -> Result<Vec<u8>, AllocError> {
    let mut grammar = Vec::from_slice(alloc, b"S: ")?;
    grammar.extend_from_slice(&vec![in alloc; b'('; depth]?)?;
    grammar.extend_from_slice(b"\"a\"")?;
    grammar.extend_from_slice(&vec![in alloc; b')'; depth]?)?;
    grammar.push(b'.')?;
    Ok(grammar)
}

// A grammar that spaces make so long.
fn padded(alloc: Global, size: usize) -> Result<Vec<u8>, AllocError> {
    let mut grammar = Vec::from_slice(alloc, b"S: \"a\".")?;
    grammar.resize(size, b' ')?;
    Ok(grammar)
}

#[test]
fn refuses_grammars_by_depth_and_length(rt: HostRuntime) -> Result<(), Fail> {
    let alloc = rt.alloc();
    for (grammar, status, said) in [
        (nested(alloc, 100)?, 0, b"".as_slice()),
        (
            nested(alloc, 101)?,
            3,
            b"ixml: G09: more than 100 open parentheses\n".as_slice(),
        ),
        (padded(alloc, 1_048_576)?, 0, b"".as_slice()),
        (
            padded(alloc, 1_048_577)?,
            3,
            b"ixml: G08: grammar longer than 1048576 bytes\n".as_slice(),
        ),
    ] {
        let ran = run(alloc, "parse g t", &grammar, b"a", false)?;
        assert_eq!(rt; ran.status, status);
        assert_eq!(rt; ran.said.as_slice(), said);
    }
    Ok(())
}

// A text that is not UTF-8, and a put that fails: a short document is one put, and so is a failed one.
#[test]
fn tells_a_text_that_is_none_and_a_write_that_fails(rt: HostRuntime) -> Result<(), Fail> {
    let alloc = rt.alloc();
    for (text, fails, status, written, said) in [
        (
            b"a\xC3".as_slice(),
            false,
            5,
            b"".as_slice(),
            b"ixml: text is not UTF-8 after 1 bytes\n".as_slice(),
        ),
        (
            b"a".as_slice(),
            true,
            8,
            b"<S>a".as_slice(),
            b"ixml: cannot write\n".as_slice(),
        ),
        (
            b"b".as_slice(),
            true,
            8,
            b"<fai".as_slice(),
            b"ixml: cannot write\n".as_slice(),
        ),
    ] {
        let ran = run(alloc, "parse g t", b"S: \"a\".", text, fails)?;
        assert_eq!(rt; ran.status, status);
        assert_eq!(rt; ran.written.as_slice(), written);
        assert_eq!(rt; ran.said.as_slice(), said);
    }
    Ok(())
}

// One byte more than a grammar and a text may have.
const GRAMMAR: (&str, u64) = ("g", 1_048_577);

const TEXT: (&str, u64) = ("t", 16_777_217);

// Each row: the words, the grammar, and the loads that they lead to. A text is loaded only for a grammar that conforms.
#[test]
fn loads_the_grammar_and_then_the_text(rt: HostRuntime) -> Result<(), Fail> {
    let alloc = rt.alloc();
    for (line, grammar, want) in [
        (
            "parse g t",
            b"S: \"a\".".as_slice(),
            [GRAMMAR, TEXT].as_slice(),
        ),
        (
            "parse g t",
            b"S: \"b\".".as_slice(),
            [GRAMMAR, TEXT].as_slice(),
        ),
        ("parse g t", b"S: a.".as_slice(), [GRAMMAR].as_slice()),
        ("parse g t", b"S".as_slice(), [GRAMMAR].as_slice()),
        ("parse g t", b"\xC3".as_slice(), [GRAMMAR].as_slice()),
        ("parse g", b"S: \"a\".".as_slice(), [].as_slice()),
    ] {
        let inner = SureFiles::new(entries(alloc, grammar, b"a")?);
        let mut files = RecordedFiles::new(alloc, inner);
        let mut out = MemSink::new(alloc, 64, Vec::new(alloc), 0)?;
        let mut msg = MemSink::new(alloc, 128, Vec::new(alloc), 0)?;
        let words = words(alloc, line)?;
        let status = run_alone(alloc, &words, &mut files, &mut out, &mut msg);
        assert_eq!(rt; files.loads().len(), want.len(), "{line}: {status}");
        for (load, (name, most)) in files.loads().iter().zip(want.iter()) {
            assert_eq!(rt; load.name.as_str(), *name, "{line}: {status}");
            assert_eq!(rt; load.most, *most, "{line}: {status}");
        }
    }
    Ok(())
}

// Each row: the words, and how many loads they lead to, of which the first is the grammar's: a check loads no text, and a
// sample nothing.
#[test]
fn loads_only_what_the_command_reads(rt: HostRuntime) -> Result<(), Fail> {
    let alloc = rt.alloc();
    for (line, loads) in [
        ("parse g t --workers 3", 2),
        ("check g", 1),
        ("check g t", 0),
        ("sample 1", 0),
    ] {
        let inner = SureFiles::new(entries(alloc, b"S: \"a\".", b"a")?);
        let mut files = RecordedFiles::new(alloc, inner);
        let mut out = MemSink::new(alloc, 64, Vec::new(alloc), 0)?;
        let mut msg = MemSink::new(alloc, 128, Vec::new(alloc), 0)?;
        let words = words(alloc, line)?;
        let status = run_alone(alloc, &words, &mut files, &mut out, &mut msg);
        assert_eq!(rt; files.loads().len(), loads, "{line}: {status}");
        if let Some(load) = files.loads().first() {
            assert_eq!(rt; load.name.as_str(), "g", "{line}: {status}");
            assert_eq!(rt; load.most, 1_048_577, "{line}: {status}");
        }
    }
    Ok(())
}

// Each row: the words, the load that is to fail, the line, and the counts of `g` and of all missing names.
#[test]
fn names_a_file_that_cannot_be_read(rt: HostRuntime) -> Result<(), Fail> {
    let alloc = rt.alloc();
    for (line, fails, told, counts) in [
        ("parse h t", 9, b"ixml: cannot read h\n".as_slice(), [0, 1]),
        ("parse g u", 9, b"ixml: cannot read u\n".as_slice(), [0, 1]),
        ("parse g t", 0, b"ixml: cannot read g\n".as_slice(), [1, 0]),
        ("parse g t", 1, b"ixml: cannot read t\n".as_slice(), [0, 0]),
        ("parse - t", 9, b"ixml: cannot read -\n".as_slice(), [0, 1]),
        ("check h", 9, b"ixml: cannot read h\n".as_slice(), [0, 1]),
        ("check g", 0, b"ixml: cannot read g\n".as_slice(), [1, 0]),
    ] {
        let mut files = MemFiles::new(entries(alloc, b"S: \"a\".", b"a")?, vec![in alloc; fails]?);
        let mut out = MemSink::new(alloc, 64, Vec::new(alloc), 0)?;
        let mut msg = MemSink::new(alloc, 128, Vec::new(alloc), 0)?;
        let words = words(alloc, line)?;
        assert_eq!(rt;
            run_alone(alloc, &words, &mut files, &mut out, &mut msg),
            7,
            "{line}"
        );
        assert_eq!(rt; out.bytes(), b"".as_slice(), "{line}");
        assert_eq!(rt; msg.bytes(), told, "{line}");
        assert_eq!(rt; [files.faults("g"), files.faults("?")], counts, "{line}");
    }
    Ok(())
}

// Each row: the words, and what is written of a put that fails after four bytes.
#[test]
fn tells_a_write_of_each_command_that_fails(rt: HostRuntime) -> Result<(), Fail> {
    let alloc = rt.alloc();
    for (line, written) in [
        ("parse g t --workers 3", b"<S>a".as_slice()),
        ("check g", b"ok\n".as_slice()),
        ("sample 1", b"text".as_slice()),
    ] {
        let ran = run(alloc, line, b"S: \"a\".", b"a", true)?;
        assert_eq!(rt; ran.status, 8, "{line}");
        assert_eq!(rt; ran.written.as_slice(), written, "{line}");
        assert_eq!(rt; ran.said.as_slice(), b"ixml: cannot write\n".as_slice());
    }
    Ok(())
}

#[test]
fn a_failing_message_changes_nothing(rt: HostRuntime) -> Result<(), Fail> {
    let alloc = rt.alloc();
    let mut files = SureFiles::new(entries(alloc, b"S", b"a")?);
    let mut out = MemSink::new(alloc, 64, Vec::new(alloc), 0)?;
    let mut msg = MemSink::new(alloc, 128, vec![in alloc; 0]?, 4)?;
    let words = words(alloc, "parse g t")?;
    assert_eq!(rt; run_alone(alloc, &words, &mut files, &mut out, &mut msg), 3);
    assert_eq!(rt; out.bytes(), b"".as_slice());
    assert_eq!(rt; msg.bytes(), b"ixml".as_slice());
    Ok(())
}

#[test]
fn makes_the_line_of_want_of_memory(rt: HostRuntime) -> Result<(), Fail> {
    let line = message(rt.alloc(), &Answer::Memory)?;
    assert_eq!(rt; line.as_slice(), b"ixml: out of memory\n".as_slice());
    Ok(())
}
