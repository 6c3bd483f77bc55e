use crate::{LexFault, Tok, tokens, unquote};
use std::alloc::Global;
use std::fmt::Write;
use std::test::Fail;

/// Each token by a letter for its kind and its span, as `W0-1`.
fn shown(alloc: Global, file: &str) -> Result<String, LexFault> {
    let chars: Vec<char> = file.chars().collect(alloc)?;
    let mut out = String::new(alloc);
    if chars.len() > 1_048_576 {
        return Ok(out);
    }
    for token in tokens(alloc, &chars)?.as_slice() {
        let kind = match token.kind {
            Tok::Word => 'W',
            Tok::Quote => 'Q',
            Tok::Hex => 'H',
            Tok::Stars => '*',
            Tok::Pluses => '+',
            Tok::Punct => 'P',
        };
        let (low, high) = (token.low, token.high);
        write!(out, " {kind}{low}-{high}")?;
    }
    Ok(out)
}

#[test]
fn characters_are_split_into_tokens(rt: HostRuntime) -> Result<(), Fail> {
    let alloc = rt.alloc();
    for (file, want) in [
        ("", ""),
        (" \t\r\n\u{A0}\u{3000}", ""),
        // Words.
        ("S", " W0-1"),
        ("S T", " W0-1 W2-3"),
        ("_a-b.c\u{B7}1\u{301}é", " W0-10"),
        // Strings.
        ("\"\"", " Q0-2"),
        ("\"a\"'b'", " Q0-3 Q3-6"),
        ("\"a\"\"b\"", " Q0-6"),
        ("\"a\" \"b\"", " Q0-3 Q4-7"),
        ("''''", " Q0-4"),
        ("'\"'\"'\"", " Q0-3 Q3-6"),
        ("'{'S", " Q0-3 W3-4"),
        // Numbers.
        ("#0aF9", " H0-5"),
        ("#1G#2", " H0-2 W2-3 H3-5"),
        // Marks.
        ("@^-:=;|,", " P0-1 P1-2 P2-3 P3-4 P4-5 P5-6 P6-7 P7-8"),
        (".?()[]~", " P0-1 P1-2 P2-3 P3-4 P4-5 P5-6 P6-7"),
        ("*+*", " P0-1 P1-2 P2-3"),
        ("***", " *0-2 P2-3"),
        ("* **", " P0-1 *2-4"),
        ("+++", " +0-2 P2-3"),
        ("++++", " +0-2 +2-4"),
        // Comments.
        ("{}", ""),
        ("{a{b}{{c}}}S{'}T", " W11-12 W15-16"),
        // The last full stop of a word: it stays where what follows may stand behind a name.
        ("b.", " W0-1 P1-2"),
        ("b..", " W0-2 P2-3"),
        ("b...", " W0-3 P3-4"),
        ("b.,", " W0-2 P2-3"),
        ("b.;", " W0-2 P2-3"),
        ("b.|", " W0-2 P2-3"),
        ("b. .", " W0-2 P3-4"),
        ("b.)", " W0-2 P2-3"),
        ("b.*", " W0-2 P2-3"),
        ("b.**", " W0-2 *2-4"),
        ("b.+", " W0-2 P2-3"),
        ("b.?", " W0-2 P2-3"),
        ("b.:", " W0-2 P2-3"),
        ("b.=", " W0-2 P2-3"),
        ("b..:", " W0-3 P3-4"),
        ("b.(", " W0-1 P1-2 P2-3"),
        ("b.[", " W0-1 P1-2 P2-3"),
        ("b.]", " W0-1 P1-2 P2-3"),
        ("b.~", " W0-1 P1-2 P2-3"),
        ("b.@", " W0-1 P1-2 P2-3"),
        ("b.^", " W0-1 P1-2 P2-3"),
        ("b. -", " W0-1 P1-2 P3-4"),
        ("b.-", " W0-3"),
        ("b.#1", " W0-1 P1-2 H2-4"),
        ("b.'x'", " W0-1 P1-2 Q2-5"),
        ("b. c", " W0-1 P1-2 W3-4"),
        ("b.{:}", " W0-1 P1-2"),
        ("b. {c{d}} :", " W0-2 P10-11"),
        ("b.{c}c:", " W0-1 P1-2 W5-6 P6-7"),
        // Rules.
        (
            "S: b.. b.: \"x\".",
            " W0-1 P1-2 W3-5 P5-6 W7-9 P9-10 Q11-14 P14-15",
        ),
        (
            "-a = ['a'-#7A; L]++-\",\"?.",
            " P0-1 W1-2 P3-4 P5-6 Q6-9 P9-10 H10-13 P13-14 W15-16 P16-17 +17-19 P19-20 Q20-23 P23-24 P24-25",
        ),
    ] {
        let got = shown(alloc, file)?;
        assert_eq!(rt; got.as_str(), want, "{file}");
    }
    Ok(())
}

#[test]
fn other_characters_are_refused(rt: HostRuntime) {
    let alloc = rt.alloc();
    for file in [
        // A comment without its end, and an end without a comment.
        "{",
        "{{}",
        "S: 'a'. {",
        "b.{:",
        "}",
        "{}}",
        // A string without its end, and over the end of a line.
        "\"a",
        "'a",
        "\"a'",
        "'a''",
        "\"a\"\"",
        "\"\n\"",
        "'a\r'",
        // `#` without digits.
        "#",
        "# 1",
        "#G",
        // Characters that begin no token.
        "1",
        "-1",
        "!",
        "&",
        "\u{301}",
        "\u{0}",
        "S\u{7F}",
        "\u{200B}",
        "\u{2028}",
        "\u{FEFF}S",
    ] {
        let got = shown(alloc, file);
        assert!(rt; matches!(got, Err(LexFault::Bad)), "{file}");
    }
}

#[test]
fn doubled_quotes_are_halved(rt: HostRuntime) -> Result<(), Fail> {
    let alloc = rt.alloc();
    let content = unquote(alloc, &['"', '\'', '"', '"', '\'', 'a', '"', '"', '"'])?;
    assert_eq!(rt; content.as_slice(), ['\'', '"', '\'', 'a', '"'].as_slice());
    Ok(())
}
