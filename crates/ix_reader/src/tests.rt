use crate::{ReadFault, read};
use ix_model::{Alt, Bound, Chars, Factor, Grammar, Mark, Member, Rule, TMark, Term, Text};
use std::alloc::{AllocError, Global};
use std::test::Fail;

/// The most characters of a grammar.
const MOST: usize = 1_048_576;

fn read_text(alloc: Global, text: &str) -> Result<Grammar, ReadFault> {
    let chars: Vec<char> = text.chars().collect(alloc)?;
    if chars.len() > MOST {
        return Err(ReadFault::Memory);
    }
    read(alloc, &chars)
}

fn put_text(out: &mut String, text: &Text) -> Result<(), AllocError> {
    for c in text.as_slice() {
        out.push(*c)?;
    }
    Ok(())
}

/// A string between `<` and `>`, or the digits of a number behind `#`.
fn put_chars(out: &mut String, chars: &Chars) -> Result<(), AllocError> {
    match chars {
        Chars::Quoted(text) => {
            out.push('<')?;
            put_text(out, text)?;
            out.push('>')?;
        }
        Chars::Code(digits) => {
            out.push('#')?;
            put_text(out, digits)?;
        }
    }
    Ok(())
}

fn put_mark(out: &mut String, mark: Option<Mark>) -> Result<(), AllocError> {
    match mark {
        None => {}
        Some(Mark::Element) => out.push('^')?,
        Some(Mark::Attribute) => out.push('@')?,
        Some(Mark::Hidden) => out.push('-')?,
    }
    Ok(())
}

fn put_tmark(out: &mut String, tmark: Option<TMark>) -> Result<(), AllocError> {
    match tmark {
        None => {}
        Some(TMark::Shown) => out.push('^')?,
        Some(TMark::Deleted) => out.push('-')?,
    }
    Ok(())
}

fn put_bound(out: &mut String, bound: &Bound) -> Result<(), AllocError> {
    match bound {
        Bound::Quoted(c) => out.push(*c)?,
        Bound::Code(digits) => {
            out.push('#')?;
            put_text(out, digits)?;
        }
    }
    Ok(())
}

fn put_member(out: &mut String, member: &Member) -> Result<(), AllocError> {
    match member {
        Member::Quoted(text) => {
            out.push('<')?;
            put_text(out, text)?;
            out.push('>')?;
        }
        Member::Code(digits) => {
            out.push('#')?;
            put_text(out, digits)?;
        }
        Member::Range { low, high } => {
            put_bound(out, low)?;
            out.push('-')?;
            put_bound(out, high)?;
        }
        Member::Class(code) => put_text(out, code)?,
    }
    Ok(())
}

/// Each member behind a space, between `[` and `]`.
fn put_members(out: &mut String, exclude: bool, members: &[Member]) -> Result<(), AllocError> {
    if exclude {
        out.push('~')?;
    }
    out.push('[')?;
    for member in members {
        out.push(' ')?;
        put_member(out, member)?;
    }
    out.push(']')?;
    Ok(())
}

#[cycle(shown)]
fn put_factor(out: &mut String, factor: &Factor) -> Result<(), AllocError> {
    match factor {
        Factor::Lit { tmark, chars } => {
            put_tmark(out, *tmark)?;
            put_chars(out, chars)?;
        }
        Factor::Set {
            tmark,
            exclude,
            members,
        } => {
            put_tmark(out, *tmark)?;
            put_members(out, *exclude, members.as_slice())?;
        }
        Factor::Call { mark, name } => {
            put_mark(out, *mark)?;
            put_text(out, name)?;
        }
        Factor::Insert { chars } => {
            out.push('+')?;
            put_chars(out, chars)?;
        }
        Factor::Group { alts } => {
            out.push('(')?;
            put_alts(out, alts.as_slice())?;
            out.push(')')?;
        }
    }
    Ok(())
}

#[cycle(shown)]
fn put_term(out: &mut String, term: &Term) -> Result<(), AllocError> {
    match term {
        Term::One(factor) => put_factor(out, factor)?,
        Term::Opt(factor) => {
            put_factor(out, factor)?;
            out.push('?')?;
        }
        Term::Star { item, sep: None } => {
            put_factor(out, item)?;
            out.push('*')?;
        }
        Term::Star {
            item,
            sep: Some(sep),
        } => {
            put_factor(out, item)?;
            out.push_str("**")?;
            put_factor(out, sep)?;
        }
        Term::Plus { item, sep: None } => {
            put_factor(out, item)?;
            out.push('+')?;
        }
        Term::Plus {
            item,
            sep: Some(sep),
        } => {
            put_factor(out, item)?;
            out.push_str("++")?;
            put_factor(out, sep)?;
        }
    }
    Ok(())
}

/// Each term behind a space.
#[cycle(shown)]
fn put_terms(out: &mut String, terms: &[Term]) -> Result<(), AllocError> {
    for term in terms {
        out.push(' ')?;
        put_term(out, term)?;
    }
    Ok(())
}

/// Each alternative behind a `/`.
#[cycle(shown)]
fn put_alts(out: &mut String, alts: &[Alt]) -> Result<(), AllocError> {
    for alt in alts {
        out.push('/')?;
        put_terms(out, alt.terms.as_slice())?;
    }
    Ok(())
}

fn put_rule(out: &mut String, rule: &Rule) -> Result<(), AllocError> {
    put_mark(out, rule.mark)?;
    put_text(out, &rule.name)?;
    out.push(':')?;
    put_alts(out, rule.alts.as_slice())?;
    out.push('.')?;
    Ok(())
}

/// The version between `<` and `>`, and the rules, each with a full stop at its end.
fn shown(alloc: Global, grammar: &Grammar) -> Result<String, AllocError> {
    let mut out = String::new(alloc);
    if let Some(version) = &grammar.version {
        out.push('<')?;
        put_text(&mut out, version)?;
        out.push('>')?;
    }
    for rule in grammar.rules.as_slice() {
        put_rule(&mut out, rule)?;
    }
    Ok(out)
}

#[test]
fn grammars_are_read(rt: HostRuntime) -> Result<(), Fail> {
    let alloc = rt.alloc();
    for (text, want) in [
        ("S: \"a\".", "S:/ <a>."),
        ("S='a'.", "S:/ <a>."),
        ("{ one {two} }S {c}:{d}\"a\"{e}.{f}\n", "S:/ <a>."),
        ("S: 'it''s', \"say \"\"a\"\"\".", "S:/ <it's> <say \"a\">."),
        ("S: \"a\"; \"b\" | ; .", "S:/ <a>/ <b>//."),
        ("S:.", "S:/."),
        (
            "S: -a, @a, ^a, a. @a:. -b= 'x'. ^c: .",
            "S:/ -a @a ^a a.@a:/.-b:/ <x>.^c:/.",
        ),
        (
            "S: ^\"x\", -'y', ^#41, - #0a, #1F600.",
            "S:/ ^<x> -<y> ^#41 -#0a #1F600.",
        ),
        (
            "S: ['abc'; 'a'-\"z\" | #30 - #39; #41; 'a'-#7a; Lu; L; 'a'; ''].",
            "S:/ [ <abc> a-z #30-#39 #41 a-#7a Lu L <a> <>].",
        ),
        (
            "S: [], ~[L], -[L], ^~['a'].",
            "S:/ [] ~[ L] -[ L] ^~[ <a>].",
        ),
        ("S: +\"x\", + #41.", "S:/ +<x> +#41."),
        (
            "S: a?, a*, a+, a**',', a++(b; +'x').",
            "S:/ a? a* a+ a**<,> a++(/ b/ +<x>).",
        ),
        (
            "S: (a, ('b'; ('c', ())))?.",
            "S:/ (/ a (/ <b>/ (/ <c> (/))))?.",
        ),
        ("ixml version \"1.0\". S: \"a\".", "<1.0>S:/ <a>."),
        ("ixml: \"a\".", "ixml:/ <a>."),
        ("S: a+++\"x\". a: \"y\".", "S:/ a+++<x>.a:/ <y>."),
        ("S: b.. b.: \"x\".", "S:/ b..b.:/ <x>."),
    ] {
        let grammar = read_text(alloc, text)?;
        let got = shown(alloc, &grammar)?;
        assert_eq!(rt; got.as_str(), want, "{text}");
    }
    Ok(())
}

#[test]
fn other_characters_are_no_grammar(rt: HostRuntime) {
    let alloc = rt.alloc();
    for text in [
        "",
        " {S: 'a'.}",
        "S",
        "S:",
        "S: 'a'",
        "S: \"a\",.",
        "S: ,'a'.",
        "S: 'a' 'b'.",
        "S: 'a'; 'b'",
        "S: 'a'.T: 'b'.",
        "S: [LC].",
        "S: [a].",
        "S: ['ab'-'c'].",
        "S: ['a'-].",
        "S: ['a', 'b'].",
        "S: ['a';].",
        "S: ~'a'.",
        "S: a + +\"x\". a: \"y\".",
        "S: a* *'x'. a: 'y'.",
        "S: a**. a: 'y'.",
        "S: a?*. a: 'y'.",
        "S: +a. a: 'y'.",
        "S: ^+'x'.",
        "S: @'a'.",
        "S: @[L].",
        "S: ^(a). a: 'y'.",
        "S: (a. a: 'y'.",
        "S: a). a: 'y'.",
        "S: 'a.",
        "S: 'a\n'.",
        "S: #.",
        "S: #g.",
        "1: 'a'.",
        ": 'a'.",
        "S 'a'.",
        "S:: 'a'.",
        "{S: 'a'.",
        "S: 'a'.}",
        "ixml version 1.0. S: 'a'.",
        "ixml version '1.0' S: 'a'.",
        "ixmlversion '1.0'. S: 'a'.",
        "ixml version'1.0'. S: 'a'.",
        "ixml version '1.0'.",
    ] {
        let got = read_text(alloc, text);
        assert!(rt; matches!(got, Err(ReadFault::NotIxml)), "{text}");
    }
}

/// `before`, so many times the character, and `behind`.
fn repeated(
    alloc: Global,
    before: &str,
    c: char,
    times: usize,
    behind: &str,
) -> Result<String, AllocError> {
    let mut text = String::new(alloc);
    text.push_str(before)?;
    for _ in 0..times {
        text.push(c)?;
    }
    text.push_str(behind)?;
    Ok(text)
}

/// So many parentheses around one call.
fn nested(alloc: Global, times: usize) -> Result<String, AllocError> {
    let closing = repeated(alloc, "a", ')', times, ". a: .")?;
    repeated(alloc, "S: ", '(', times, closing.as_str())
}

#[test]
fn at_most_100_parentheses_are_open(rt: HostRuntime) -> Result<(), Fail> {
    let alloc = rt.alloc();
    let most = nested(alloc, 100)?;
    assert!(rt; read_text(alloc, most.as_str()).is_ok());
    let deep = nested(alloc, 101)?;
    assert!(rt; matches!(read_text(alloc, deep.as_str()), Err(ReadFault::TooDeep)));
    let separator = repeated(
        alloc,
        "S: a, b?, [L]**",
        '(',
        101,
        repeated(alloc, "", ')', 101, "; -c.")?.as_str(),
    )?;
    assert!(rt;
        matches!(
            read_text(alloc, separator.as_str()),
            Err(ReadFault::TooDeep)
        )
    );
    Ok(())
}

/// A value of such a depth would take a call for each of its levels when it is dropped: none is built.
#[test]
fn many_parentheses_take_no_depth(rt: HostRuntime) -> Result<(), Fail> {
    let alloc = rt.alloc();
    let deep = nested(alloc, 60_000)?;
    assert!(rt; matches!(read_text(alloc, deep.as_str()), Err(ReadFault::TooDeep)));
    Ok(())
}

#[test]
fn parentheses_that_are_no_grammar(rt: HostRuntime) -> Result<(), Fail> {
    let alloc = rt.alloc();
    let never_closed = repeated(alloc, "S: ", '(', 101, "a. a: .")?;
    assert!(rt;
        matches!(
            read_text(alloc, never_closed.as_str()),
            Err(ReadFault::NotIxml)
        )
    );
    let comma = repeated(
        alloc,
        "S: ",
        '(',
        101,
        repeated(alloc, "a", ')', 101, ",.")?.as_str(),
    )?;
    assert!(rt; matches!(read_text(alloc, comma.as_str()), Err(ReadFault::NotIxml)));
    Ok(())
}

#[test]
fn parentheses_in_strings_and_comments(rt: HostRuntime) -> Result<(), Fail> {
    let alloc = rt.alloc();
    let string = repeated(alloc, "S: '", '(', 101, "'.")?;
    assert!(rt; read_text(alloc, string.as_str()).is_ok());
    let comment = repeated(alloc, "S: {", '(', 101, "}.")?;
    assert!(rt; read_text(alloc, comment.as_str()).is_ok());
    Ok(())
}
