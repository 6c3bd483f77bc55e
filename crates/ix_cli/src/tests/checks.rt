use super::run;
use std::test::Fail;

// Each row: a grammar, the status, what is written, and what is said. The text is none, but nothing is said of it.
#[test]
fn checks_the_grammar_alone(rt: HostRuntime) -> Result<(), Fail> {
    let alloc = rt.alloc();
    for (grammar, status, written, said) in [
        (b"S: \"a\".".as_slice(), 0, "ok\n", ""),
        (b"@S: \"x\".".as_slice(), 0, "ok\n", ""),
        (b"".as_slice(), 3, "", "ixml: G01: not an ixml grammar\n"),
        (
            b"ixml version \"2.0\". S: \"a\".".as_slice(),
            3,
            "",
            "ixml: G02: version \"2.0\"\n",
        ),
        (b"S: a.".as_slice(), 3, "", "ixml: G06: no rule a\n"),
        (
            b"S: \"\xC3\".".as_slice(),
            5,
            "",
            "ixml: grammar is not UTF-8 after 4 bytes\n",
        ),
    ] {
        let ran = run(alloc, "check g", grammar, b"\xC3", false)?;
        assert_eq!(rt; ran.status, status, "{said}");
        assert_eq!(rt; ran.written.as_slice(), written.as_bytes(), "{said}");
        assert_eq!(rt; ran.said.as_slice(), said.as_bytes());
    }
    Ok(())
}
