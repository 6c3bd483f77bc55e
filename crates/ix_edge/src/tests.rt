ghost use Rattle.std.specs.Prelude.{◌≡◌, IfOk, IsTrue};
ghost use Rattle.ix_edge.specs.Entries.{name_of, names_differ};

use crate::{
    Entry, Failed, Files, LoadFault, MemFiles, MemSink, Sink, SureFiles, TextFault, decode, place,
};
use std::alloc::{AllocError, Global};
use std::test::Fail;

fn entry(alloc: Global, name: &str, bytes: &[u8], faults: u64) -> Result<Entry, AllocError>
    ensures { IfOk result (λ e. name_of e ≡ name.now) }
{
    Ok(Entry {
        name: String::from_str(alloc, name)?,
        bytes: Vec::from_slice(alloc, bytes)?,
        faults,
    })
}

fn entries(alloc: Global) -> Result<Vec<Entry>, AllocError>
    ensures { IfOk result (λ v. IsTrue (names_differ v.items)) }
{
    let mut entries = Vec::new(alloc);
    entries.push(entry(alloc, "a", b"hello", 0)?)?;
    entries.push(entry(alloc, "b", b"", u64::MAX)?)?;
    Ok(entries)
}

#[test]
fn sure_files_hold_nothing_under_other_names(rt: HostRuntime) -> Result<(), Fail> {
    let alloc = rt.alloc();
    let mut files = SureFiles::new(entries(alloc)?);
    for (name, most, want) in [
        ("a", 9, b"hello".as_slice()),
        ("a", 2, b"he".as_slice()),
        ("b", 9, b"".as_slice()),
        ("c", 9, b"".as_slice()),
    ] {
        let got = files.load(alloc, name, most)?;
        assert_eq!(rt; got.as_slice(), want, "{name} to {most}");
        assert_eq!(rt; files.faults(name), 0, "{name}");
    }
    Ok(())
}

// Load 3 is to fail. Each row: a load, and the counts of `a`, `b` and a missing name after it.
#[test]
fn loads_fail_by_number_and_by_name(rt: HostRuntime) -> Result<(), Fail> {
    let alloc = rt.alloc();
    let mut files = MemFiles::new(entries(alloc)?, vec![in alloc; 3]?);
    let failed = Err(LoadFault::Failed);
    for (name, most, want, counts) in [
        ("a", 9, Ok(b"hello".as_slice()), [0, u64::MAX, 0]),
        ("a", 2, Ok(b"he".as_slice()), [0, u64::MAX, 0]),
        ("c", 9, failed, [0, u64::MAX, 1]),
        ("a", 9, failed, [1, u64::MAX, 1]),
        ("d", 9, failed, [1, u64::MAX, 2]),
        ("b", 9, Ok(b"".as_slice()), [1, u64::MAX, 2]),
        ("a", 0, Ok(b"".as_slice()), [1, u64::MAX, 2]),
    ] {
        let got = files.load(alloc, name, most);
        assert_eq!(rt;
            got.as_ref().map(|v| v.as_slice()).map_err(|e| *e),
            want,
            "{name} to {most}"
        );
        let now = [files.faults("a"), files.faults("b"), files.faults("e")];
        assert_eq!(rt; now, counts, "{name} to {most}");
    }
    Ok(())
}

// Room for 6 bytes. Puts 1 and 4 are to fail, after 2 bytes. Each row: a put, the bytes and the count after it.
#[test]
fn puts_fail_by_number_and_for_room(rt: HostRuntime) -> Result<(), Fail> {
    let alloc = rt.alloc();
    let mut sink = MemSink::new(alloc, 6, vec![in alloc; 1, 4]?, 2)?;
    for (bytes, want, written, faults) in [
        (b"ab".as_slice(), Ok(()), b"ab".as_slice(), 0),
        (b"cde".as_slice(), Err(Failed), b"abcd".as_slice(), 1),
        (b"efg".as_slice(), Err(Failed), b"abcd".as_slice(), 2),
        (b"e".as_slice(), Ok(()), b"abcde".as_slice(), 2),
        (b"fg".as_slice(), Err(Failed), b"abcde".as_slice(), 3),
        (b"f".as_slice(), Ok(()), b"abcdef".as_slice(), 3),
        (b"".as_slice(), Ok(()), b"abcdef".as_slice(), 3),
    ] {
        assert_eq!(rt; sink.put(bytes), want);
        assert_eq!(rt; sink.bytes(), written);
        assert_eq!(rt; sink.faults(), faults);
    }
    Ok(())
}

#[test]
fn decodes_text_and_finds_where_it_ends(rt: HostRuntime) -> Result<(), Fail> {
    let alloc = rt.alloc();
    let chars = decode(alloc, "\u{FEFF}né".as_bytes())?;
    assert_eq!(rt; chars.as_slice(), ['n', 'é'].as_slice());
    for (bytes, valid) in [
        (b"a\xC3".as_slice(), 1),
        (b"\xEF\xBB\xBFa\xFF".as_slice(), 4),
        (b"\xED\xA0\x80".as_slice(), 0),
    ] {
        let Err(fault) = decode(alloc, bytes) else {
            panic!(rt; "it is no text");
        };
        assert_eq!(rt; fault, TextFault::NotUtf8 { valid });
    }
    Ok(())
}

#[test]
fn counts_lines_and_columns(rt: HostRuntime) {
    let text = ['a', '\n', 'b', '\r', '\n', '\n'];
    for (offset, line, column) in [
        (0, 1, 1),
        (1, 1, 2),
        (2, 2, 1),
        (4, 2, 3),
        (5, 3, 1),
        (6, 4, 1),
    ] {
        let found = place(&text, offset);
        assert_eq!(rt; found.line, line, "at {offset}");
        assert_eq!(rt; found.column, column, "at {offset}");
    }
}
