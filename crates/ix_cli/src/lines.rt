//! The line of each answer.

ghost use Rattle.std.specs.Prelude.{◌≡◌, ◌++◌, IfOk, codes, decimal, string_bytes};
ghost use Rattle.ix_model.specs.Answers.Outcome.{hexadecimal};
ghost use Rattle.ix_model.specs.Documents.Xml.{name_bytes};
ghost use Rattle.ix_cli.specs.Lines.{line_of, read_line, refusal_line, fault_line, code_line};

use crate::answer::Answer;
use ix_engine::{DynFault, ParseFault, Refusal};
use ix_model::Text;
use std::alloc::{AllocError, Global};

const WORDS: &[u8] =
    b"ixml: use parse GRAMMAR TEXT [--workers N], check GRAMMAR or sample N [--workers N]\n";

const FILE_TOO_LONG: &[u8] = b"ixml: G08: grammar longer than 1048576 bytes\n";

const NOT_IXML: &[u8] = b"ixml: G01: not an ixml grammar\n";

const TOO_DEEP: &[u8] = b"ixml: G09: more than 100 open parentheses\n";

const VERSION: &str = "ixml: G02: version \"";

const CODE_POINT: &str = "ixml: G03: no character has the number #";

const CLASS: &str = "ixml: G05: no class ";

const UNDEFINED: &str = "ixml: G06: no rule ";

const DUPLICATE: &str = "ixml: G07: two rules ";

const TEXT_TOO_LONG: &[u8] = b"ixml: text longer than 16777216 bytes\n";

const ATTRIBUTE_AT_TOP: &str = "ixml: E01: attribute ";

const BAD_NAME: &str = "ixml: E03: ";

const XMLNS: &[u8] = b"ixml: E04: attribute xmlns\n";

const SAME_ATTRIBUTE: &str = "ixml: E05: attribute ";

const WRITE: &[u8] = b"ixml: cannot write\n";

/// The line of want of memory. It takes none.
pub const MEMORY: &[u8] = b"ixml: out of memory\n";

/// The line of the answer, with its line feed.
pub fn message(alloc: Global, answer: &Answer) -> Result<Vec<u8>, AllocError>
    ensures { IfOk result (λ line. line.items ≡ line_of answer.now) }
{
    match answer {
        Answer::Words => Vec::from_slice(alloc, WORDS),
        Answer::Grammar(refusal) => refusal_message(alloc, refusal),
        Answer::Text(fault) => fault_message(alloc, fault),
        Answer::Read(name) => read_message(alloc, name.as_str()),
        Answer::Write => Vec::from_slice(alloc, WRITE),
        Answer::Memory => Vec::from_slice(alloc, MEMORY),
    }
}

#[tactic(auto, using(crate::proofs::LineForms::grammar_line, crate::proofs::LineForms::version_line, crate::proofs::LineForms::range_line))]
fn refusal_message(alloc: Global, refusal: &Refusal) -> Result<Vec<u8>, AllocError>
    ensures { IfOk result (λ line. line.items ≡ refusal_line refusal.now) }
{
    match refusal {
        Refusal::FileTooLong => Vec::from_slice(alloc, FILE_TOO_LONG),
        Refusal::NotUtf8 { valid } => not_utf8_message(alloc, "grammar", *valid),
        Refusal::NotIxml => Vec::from_slice(alloc, NOT_IXML),
        Refusal::TooDeep => Vec::from_slice(alloc, TOO_DEEP),
        Refusal::Version(text) => about(alloc, VERSION, text, "\"\n"),
        Refusal::CodePoint(digits) => about(alloc, CODE_POINT, digits, "\n"),
        Refusal::Range { low, high } => range_message(alloc, *low, *high),
        Refusal::Class(name) => about(alloc, CLASS, name, "\n"),
        Refusal::Undefined(name) => about(alloc, UNDEFINED, name, "\n"),
        Refusal::Duplicate(name) => about(alloc, DUPLICATE, name, "\n"),
        Refusal::Memory => Vec::from_slice(alloc, MEMORY),
    }
}

#[tactic(auto, using(crate::proofs::LineForms::text_line))]
fn fault_message(alloc: Global, fault: &ParseFault) -> Result<Vec<u8>, AllocError>
    ensures { IfOk result (λ line. line.items ≡ fault_line fault.now) }
{
    match fault {
        ParseFault::TooLong => Vec::from_slice(alloc, TEXT_TOO_LONG),
        ParseFault::NotUtf8 { valid } => not_utf8_message(alloc, "text", *valid),
        ParseFault::Dynamic(code) => code_message(alloc, code),
        ParseFault::Memory => Vec::from_slice(alloc, MEMORY),
    }
}

#[tactic(auto, using(crate::proofs::LineForms::twice_line, crate::proofs::LineForms::character_line))]
fn code_message(alloc: Global, code: &DynFault) -> Result<Vec<u8>, AllocError>
    ensures { IfOk result (λ line. line.items ≡ code_line code.now) }
{
    match code {
        DynFault::AttributeAtTop { name } => about(alloc, ATTRIBUTE_AT_TOP, name, " at the top\n"),
        DynFault::NotOneElement { elements, chars } => top_message(alloc, *elements, *chars),
        DynFault::BadName { name } => about(alloc, BAD_NAME, name, " is no XML name\n"),
        DynFault::Xmlns => Vec::from_slice(alloc, XMLNS),
        DynFault::SameAttribute { name } => about(alloc, SAME_ATTRIBUTE, name, " twice\n"),
        DynFault::BadChar { code } => character_message(alloc, *code),
    }
}

// What is said of characters of the grammar.
fn about(alloc: Global, before: &str, text: &Text, behind: &str) -> Result<Vec<u8>, AllocError>
    ensures { IfOk result (λ line. line.items ≡ before.now ++ (name_bytes text.now ++ behind.now)) }
{
    let text = text_of(alloc, text.as_slice())?;
    Ok(format!(in alloc; "{before}{text}{behind}")?.into_bytes())
}

// The characters in UTF-8.
fn text_of(alloc: Global, chars: &[char]) -> Result<String, AllocError>
    ensures { IfOk result (λ text. string_bytes text ≡ name_bytes chars.now) }
{
    let mut text = String::with_capacity(alloc, chars.len())?;
    for &c in chars {
        text.push(c)?;
    }
    Ok(text)
}

#[tactic(auto, unfolding(ix_model::specs::Answers::Outcome::hexadecimal))]
fn range_message(alloc: Global, low: u32, high: u32) -> Result<Vec<u8>, AllocError>
    ensures { IfOk result (λ line. line.items ≡ codes "ixml: G04: range from #" ++ (hexadecimal low ++ (codes " to #" ++ (hexadecimal high ++ codes "\n")))) }
{
    Ok(format!(in alloc; "ixml: G04: range from #{low:x} to #{high:x}\n")?.into_bytes())
}

fn not_utf8_message(alloc: Global, what: &str, valid: u64) -> Result<Vec<u8>, AllocError>
    ensures { IfOk result (λ line. line.items ≡ codes "ixml: " ++ (what.now ++ (codes " is not UTF-8 after " ++ (decimal valid ++ codes " bytes\n")))) }
{
    Ok(format!(in alloc; "ixml: {what} is not UTF-8 after {valid} bytes\n")?.into_bytes())
}

fn top_message(alloc: Global, elements: u64, chars: u64) -> Result<Vec<u8>, AllocError>
    ensures { IfOk result (λ line. line.items ≡ codes "ixml: E02: " ++ (decimal elements ++ (codes " elements and " ++ (decimal chars ++ codes " characters at the top\n")))) }
{
    Ok(format!(in alloc;
        "ixml: E02: {elements} elements and {chars} characters at the top\n"
    )?.into_bytes())
}

#[tactic(auto, unfolding(ix_model::specs::Answers::Outcome::hexadecimal))]
fn character_message(alloc: Global, code: u32) -> Result<Vec<u8>, AllocError>
    ensures { IfOk result (λ line. line.items ≡ codes "ixml: E06: character #" ++ (hexadecimal code ++ codes " is not allowed in XML\n")) }
{
    Ok(format!(in alloc; "ixml: E06: character #{code:x} is not allowed in XML\n")?.into_bytes())
}

fn read_message(alloc: Global, name: &str) -> Result<Vec<u8>, AllocError>
    ensures { IfOk result (λ line. line.items ≡ read_line name.now) }
{
    Ok(format!(in alloc; "ixml: cannot read {name}\n")?.into_bytes())
}
