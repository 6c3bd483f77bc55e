use super::{entries, words};
use crate::run_alone;
use ix_edge::{MemFiles, MemSink};
use std::alloc::{AllocError, Global};
use std::test::Fail;

const FAILED: &[u8] =
    b"<fail xmlns:ixml=\"http://invisiblexml.org/NS\" ixml:state=\"failed\" offset=\"0\" line=\"1\" column=\"1\"/>\n";

const TOO_LONG: &[u8] = b"ixml: text longer than 16777216 bytes\n";

// So many ones with a plus sign between them.
pub(super) fn sum(alloc: Global, ones: usize) -> Result<Vec<u8>, AllocError> {
    let mut text = Vec::from_slice(alloc, b"1")?;
    for _ in 1..ones {
        text.extend_from_slice(b"+1")?;
    }
    Ok(text)
}

// An element within an element, so many times, with an `a` behind each inner one.
fn nested(alloc: Global, depth: usize) -> Result<Vec<u8>, AllocError> {
    let mut document = Vec::new(alloc);
    push_times(&mut document, b"<S>", depth)?;
    document.extend_from_slice(b"<S/>")?;
    push_times(&mut document, b"a</S>", depth)?;
    document.push(b'\n')?;
    Ok(document)
}

fn push_times(bytes: &mut Vec<u8>, part: &[u8], times: usize) -> Result<(), AllocError> {
    for _ in 0..times {
        bytes.extend_from_slice(part)?;
    }
    Ok(())
}

// Each row: a grammar, a long text, the status, how many bytes are written, the first of them, and what is said. The first
// document is a tree a hundred thousand levels deep; the second and the third text are as long as a text may be, and longer.
#[test]
fn answers_long_texts(rt: HostRuntime) -> Result<(), Fail> {
    let alloc = rt.alloc();
    for (grammar, text, status, size, front, said) in [
        (
            b"S: S, \"a\"; .".as_slice(),
            vec![in alloc; b'a'; 100_000]?,
            0,
            800_005,
            b"<S><S><S>".as_slice(),
            b"".as_slice(),
        ),
        (
            b"S: \"a\".".as_slice(),
            vec![in alloc; b'b'; 16_777_216]?,
            1,
            FAILED.len(),
            FAILED,
            b"".as_slice(),
        ),
        (
            b"S: \"a\".".as_slice(),
            vec![in alloc; b'b'; 16_777_217]?,
            6,
            0,
            b"".as_slice(),
            TOO_LONG,
        ),
        (
            b"E: E, \"+\", E; \"1\".".as_slice(),
            sum(alloc, 100)?,
            0,
            1_656,
            b"<E xmlns:ixml=".as_slice(),
            b"".as_slice(),
        ),
    ] {
        let mut files = MemFiles::new(entries(alloc, grammar, &text)?, Vec::new(alloc));
        let mut out = MemSink::new(alloc, 800_005, Vec::new(alloc), 0)?;
        let mut msg = MemSink::new(alloc, 128, Vec::new(alloc), 0)?;
        let words = words(alloc, "parse g t")?;
        assert_eq!(rt;
            run_alone(alloc, &words, &mut files, &mut out, &mut msg),
            status
        );
        assert_eq!(rt; out.bytes().len(), size);
        assert!(rt; out.bytes().starts_with(front));
        assert_eq!(rt; msg.bytes(), said);
    }
    Ok(())
}

// Each row: the put that is to fail, the status, how many bytes are written at least and at most, and what is said. The
// document goes out in 13 puts, each of 65,521 to 65,536 bytes but the last.
#[test]
fn writes_a_long_document_in_pieces(rt: HostRuntime) -> Result<(), Fail> {
    let alloc = rt.alloc();
    let document = nested(alloc, 100_000)?;
    for (fails, status, least, most, said) in [
        (13, 0, 800_005, 800_005, b"".as_slice()),
        (12, 8, 786_252, 786_432, b"ixml: cannot write\n".as_slice()),
    ] {
        let text = vec![in alloc; b'a'; 100_000]?;
        let entries = entries(alloc, b"S: S, \"a\"; .", &text)?;
        let mut files = MemFiles::new(entries, Vec::new(alloc));
        let mut out = MemSink::new(alloc, 800_005, vec![in alloc; fails]?, 0)?;
        let mut msg = MemSink::new(alloc, 128, Vec::new(alloc), 0)?;
        let words = words(alloc, "parse g t")?;
        assert_eq!(rt;
            run_alone(alloc, &words, &mut files, &mut out, &mut msg),
            status
        );
        assert!(rt; least <= out.bytes().len());
        assert!(rt; out.bytes().len() <= most);
        assert!(rt; document.as_slice().starts_with(out.bytes()));
        assert_eq!(rt; msg.bytes(), said);
    }
    Ok(())
}

#[test]
fn writes_a_million_levels(rt: HostRuntime) -> Result<(), Fail> {
    let alloc = rt.alloc();
    let text = vec![in alloc; b'a'; 1_000_000]?;
    let entries = entries(alloc, b"S: S, \"a\"; .", &text)?;
    let mut files = MemFiles::new(entries, Vec::new(alloc));
    let mut out = MemSink::new(alloc, 8_000_005, Vec::new(alloc), 0)?;
    let mut msg = MemSink::new(alloc, 128, Vec::new(alloc), 0)?;
    let words = words(alloc, "parse g t")?;
    assert_eq!(rt; run_alone(alloc, &words, &mut files, &mut out, &mut msg), 0);
    let document = nested(alloc, 1_000_000)?;
    assert!(rt; document.as_slice() == out.bytes());
    assert_eq!(rt; msg.bytes(), b"".as_slice());
    Ok(())
}
