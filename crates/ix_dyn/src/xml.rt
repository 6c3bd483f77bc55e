//! The names and characters of XML (XML 1.0, "Characters" and "Common Syntactic Constructs").
ghost use Rattle.std.specs.Prelude.{◌≡◌};
ghost use Rattle.std.specs.List.{list_all};
ghost use Rattle.ix_model.specs.Documents.XmlNames.{is_in, is_xml_name_start, is_xml_name_char, is_xml_char, is_xml_name};

// What may begin a name: `:`, `A` to `Z`, `_`, `a` to `z`, and the letters beyond ASCII.
const NAME_START: [(char, char); 16] = [
    (':', ':'),
    ('A', 'Z'),
    ('_', '_'),
    ('a', 'z'),
    ('\u{C0}', '\u{D6}'),
    ('\u{D8}', '\u{F6}'),
    ('\u{F8}', '\u{2FF}'),
    ('\u{370}', '\u{37D}'),
    ('\u{37F}', '\u{1FFF}'),
    ('\u{200C}', '\u{200D}'),
    ('\u{2070}', '\u{218F}'),
    ('\u{2C00}', '\u{2FEF}'),
    ('\u{3001}', '\u{D7FF}'),
    ('\u{F900}', '\u{FDCF}'),
    ('\u{FDF0}', '\u{FFFD}'),
    ('\u{10000}', '\u{EFFFF}'),
];

// What may stand within a name beside these: `-` and `.`, `0` to `9`, the middle dot, the combining marks and the two ties.
const NAME_FURTHER: [(char, char); 5] = [
    ('-', '.'),
    ('0', '9'),
    ('\u{B7}', '\u{B7}'),
    ('\u{300}', '\u{36F}'),
    ('\u{203F}', '\u{2040}'),
];

// What may stand in a document: tab, line feed, carriage return, and all but the further controls, FFFE and FFFF.
const CHARS: [(char, char); 5] = [
    ('\t', '\n'),
    ('\r', '\r'),
    (' ', '\u{D7FF}'),
    ('\u{E000}', '\u{FFFD}'),
    ('\u{10000}', '\u{10FFFF}'),
];

// Whether some range has the character, both of its bounds included.
fn is_in(ranges: &[(char, char)], c: char) -> bool
    ensures { result ≡ is_in ranges.now c }
{
    for range in ranges {
        if range.0 <= c && c <= range.1 {
            return true;
        }
    }
    false
}

// Whether a character may begin a name.
#[tactic(auto, unfolding(ix_model::specs::Documents::XmlNames::is_xml_name_start))]
fn is_name_start(c: char) -> bool
    ensures { result ≡ is_xml_name_start c }
{
    is_in(&NAME_START, c)
}

// Whether a character may stand within a name.
#[tactic(auto, unfolding(ix_model::specs::Documents::XmlNames::is_xml_name_char))]
fn is_name_char(c: char) -> bool
    ensures { result ≡ is_xml_name_char c }
{
    is_name_start(c) || is_in(&NAME_FURTHER, c)
}

// Whether a character may stand in a document.
#[tactic(auto, unfolding(ix_model::specs::Documents::XmlNames::is_xml_char))]
pub(crate) fn is_char(c: char) -> bool
    ensures { result ≡ is_xml_char c }
{
    is_in(&CHARS, c)
}

// Whether each of the characters may stand within a name.
fn are_name_chars(chars: &[char]) -> bool
    ensures { result ≡ list_all is_xml_name_char chars.now }
{
    chars.iter().all(|c| is_name_char(*c))
}

// Whether the characters are a name: one that may begin it, and then any that may stand within it.
pub(crate) fn is_name(name: &[char]) -> bool
    ensures { result ≡ is_xml_name name.now }
{
    match name {
        [] => false,
        [first, rest @ ..] => is_name_start(*first) && are_name_chars(rest),
    }
}
