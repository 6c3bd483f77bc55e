use super::run;
use std::test::Fail;

// Each row: the words, and the figures. What `g` and `t` hold is no grammar and no text, and is not looked at.
#[test]
fn counts_small_samples(rt: HostRuntime) -> Result<(), Fail> {
    let alloc = rt.alloc();
    for (line, written) in [
        (
            "sample 1",
            "text 5\ndescriptors 35\nsubtrees 13\noutput 40\n",
        ),
        (
            "sample 00001 --workers=64",
            "text 5\ndescriptors 35\nsubtrees 13\noutput 40\n",
        ),
        (
            "sample --workers 3 10",
            "text 51\ndescriptors 264\nsubtrees 123\noutput 293\n",
        ),
    ] {
        let ran = run(alloc, line, b"\xC3", b"\xC3", false)?;
        assert_eq!(rt; ran.status, 0, "{line}");
        assert_eq!(rt; ran.written.as_slice(), written.as_bytes(), "{line}");
        assert_eq!(rt; ran.said.as_slice(), b"".as_slice(), "{line}");
    }
    Ok(())
}

#[test]
fn counts_a_sample_of_a_thousand_lines(rt: HostRuntime) -> Result<(), Fail> {
    let ran = run(rt.alloc(), "sample 1000", b"", b"", false)?;
    let figures = b"text 6893\ndescriptors 32582\nsubtrees 15787\noutput 29905\n";
    assert_eq!(rt; ran.status, 0);
    assert_eq!(rt; ran.written.as_slice(), figures.as_slice());
    assert_eq!(rt; ran.said.as_slice(), b"".as_slice());
    Ok(())
}
