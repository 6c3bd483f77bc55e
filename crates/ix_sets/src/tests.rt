ghost use Rattle.std.specs.Prelude.{◌≡◌, None};
ghost use Rattle.ix_model.specs.declared.grammar.Factor.{Set};

use crate::build;
use ix_model::{Bound, CharSet, Factor, Member, Text};
use sqlite_items::Items;
use std::alloc::{AllocError, Global};
use std::process::Abort;
use std::test::Fail;

/// The set has each of the first characters, and none of the others.
fn assert_has(rt: &impl Abort, set: &CharSet, name: &str, within: &str, outside: &str) {
    for c in within.chars() {
        assert!(rt; set.contains(c), "{name} has {c:?}");
    }
    for c in outside.chars() {
        assert!(rt; !set.contains(c), "{name} has not {c:?}");
    }
}

/// The set of one class.
fn class_set(alloc: Global, name: &str) -> Result<CharSet, AllocError> {
    let chars: Vec<char> = name.chars().collect(alloc)?;
    let members = vec![in alloc; Member::Class(Text { chars })]?;
    build(
        alloc,
        &Factor::Set {
            tmark: None,
            exclude: false,
            members: Items::from_vec(members),
        },
    )
}

#[test]
fn classes_have_their_characters(rt: HostRuntime) -> Result<(), Fail> {
    for (name, within, outside) in [
        ("L", "Aж", "1 "),
        ("M", "\u{301}\u{903}", "a^"),
        ("N", "7\u{2167}", "a-"),
        ("P", "!_", "+a"),
        ("S", "+$", "-!"),
        ("Z", " \u{2028}", "\t\n"),
        ("C", "\n\u{AD}\u{E000}\u{FFFF}", " a"),
        ("Lu", "A\u{3A9}", "a\u{1C5}"),
        ("Ll", "aß", "A\u{2B0}"),
        ("Lt", "\u{1C5}\u{1F88}", "Aa"),
        ("Lm", "\u{2B0}\u{30FC}", "a^"),
        ("Lo", "\u{5D0}\u{4E2D}", "a\u{2B0}"),
        ("Mn", "\u{300}\u{301}", "\u{903}\u{20DD}"),
        ("Mc", "\u{903}\u{93E}", "\u{301}a"),
        ("Me", "\u{20DD}\u{488}", "\u{301}\u{25CB}"),
        ("Nd", "0\u{663}", "\u{2167}½"),
        ("Nl", "\u{2167}\u{3007}", "8½"),
        ("No", "½²", "2\u{2167}"),
        ("Pc", "_\u{203F}", "- "),
        ("Pd", "-\u{2013}", "_\u{2212}"),
        ("Ps", "([", ")«"),
        ("Pe", ")]", "(»"),
        ("Pi", "«\u{201C}", "»\""),
        ("Pf", "»\u{201D}", "«\""),
        ("Po", "!\"", "(-"),
        ("Sm", "+\u{2212}", "-$"),
        ("Sc", "$€", "+%"),
        ("Sk", "^`", "'~"),
        ("So", "©°", "$^"),
        ("Zs", " \u{A0}", "\t\u{2028}"),
        ("Zl", "\u{2028}", " \u{2029}"),
        ("Zp", "\u{2029}", " \u{2028}"),
        ("Cc", "\n\u{85}", " \u{AD}"),
        ("Cf", "\u{AD}\u{200D}", "\u{85}a"),
        // A surrogate is no character.
        ("Cs", "", "\u{D7FF}\u{E000}"),
        ("Co", "\u{E000}\u{10FFFD}", "\u{10FFFF}\u{D7FF}"),
        ("Cn", "\u{FFFE}\u{FFFF}", "\u{E000}\u{FFFD}"),
    ] {
        let set = class_set(rt.alloc(), name)?;
        assert_has(&rt, &set, name, within, outside);
    }
    Ok(())
}

/// The set of these members, or all other characters.
fn set_of(exclude: bool, members: Vec<Member>) -> Factor
    ensures { result ≡ Set None exclude members.items }
{
    Factor::Set {
        tmark: None,
        exclude,
        members: Items::from_vec(members),
    }
}

/// `["b"-#64; "x"]`
fn listed(alloc: Global) -> Result<CharSet, AllocError> {
    let range = Member::Range {
        low: Bound::Quoted('b'),
        high: Bound::Code(Text::from_slice(alloc, &['6', '4'])?),
    };
    let string = Member::Quoted(Text::from_slice(alloc, &['x'])?);
    build(alloc, &set_of(false, vec![in alloc; range, string]?))
}

/// `~["a"; N]`
fn no_number(alloc: Global) -> Result<CharSet, AllocError> {
    let string = Member::Quoted(Text::from_slice(alloc, &['a'])?);
    let class = Member::Class(Text::from_slice(alloc, &['N'])?);
    build(alloc, &set_of(true, vec![in alloc; string, class]?))
}

/// `~[","; #a]`
fn no_end(alloc: Global) -> Result<CharSet, AllocError> {
    let string = Member::Quoted(Text::from_slice(alloc, &[','])?);
    let code = Member::Code(Text::from_slice(alloc, &['a'])?);
    build(alloc, &set_of(true, vec![in alloc; string, code]?))
}

#[test]
fn sets_have_what_their_members_say(rt: HostRuntime) -> Result<(), Fail> {
    let alloc = rt.alloc();
    assert_has(&rt, &listed(alloc)?, "[\"b\"-#64; \"x\"]", "bcdx", "aewy");
    assert_has(
        &rt,
        &no_number(alloc)?,
        "~[\"a\"; N]",
        "bA\u{10FFFF}",
        "a1½",
    );
    assert_has(&rt, &no_end(alloc)?, "~[\",\"; #a]", "a\r", ",\n");
    let ends = "\0\u{D7FF}\u{E000}\u{10FFFF}";
    let all = build(alloc, &set_of(true, Vec::new(alloc)))?;
    assert_has(&rt, &all, "~[]", ends, "");
    let none = build(alloc, &set_of(false, Vec::new(alloc)))?;
    assert_has(&rt, &none, "[]", "", ends);
    Ok(())
}
