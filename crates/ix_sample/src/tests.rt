use crate::{grammar, summary, text};
use ix_model::Counts;
use std::test::Fail;

#[test]
fn the_grammar_has_four_rules(rt: HostRuntime) -> Result<(), Fail> {
    let expected: &[u8] =
        b"log: line*.\nline: @n, -\":\", w, -#a.\nn: [\"0\"-\"9\"]+.\nw: [\"a\"-\"z\"]+.\n";
    assert_eq!(rt; grammar(), expected);
    Ok(())
}

// Each row: how many lines, and the text.
#[test]
fn lines_are_numbered_from_one(rt: HostRuntime) -> Result<(), Fail> {
    let alloc = rt.alloc();
    for (n, want) in [
        (1, "1:ab\n"),
        (2, "1:ab\n2:ab\n"),
        (
            10,
            "1:ab\n2:ab\n3:ab\n4:ab\n5:ab\n6:ab\n7:ab\n8:ab\n9:ab\n10:ab\n",
        ),
    ] {
        let lines = text(alloc, n)?;
        assert_eq!(rt; lines.as_slice(), want.as_bytes());
    }
    Ok(())
}

// 4 bytes of each line, and 9 + 180 + 2700 + 4 digits.
#[test]
fn a_thousand_lines_have_their_length(rt: HostRuntime) -> Result<(), Fail> {
    let lines = text(rt.alloc(), 1000)?;
    assert_eq!(rt; lines.len(), 4 * 1000 + 2893);
    Ok(())
}

#[test]
fn the_summary_has_four_lines(rt: HostRuntime) -> Result<(), Fail> {
    let counts = Counts {
        descriptors: 23,
        subtrees: 456,
    };
    let lines = summary(rt.alloc(), 1, counts, 18_446_744_073_709_551_615)?;
    let expected: &[u8] = b"text 1\ndescriptors 23\nsubtrees 456\noutput 18446744073709551615\n";
    assert_eq!(rt; lines.as_slice(), expected);
    Ok(())
}
