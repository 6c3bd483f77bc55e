ghost use Rattle.std.specs.Prelude.{◌≡◌, ◌≤◌, ◌++◌, IfOk, OnOk, string_bytes};
ghost use Rattle.ix_model.specs.Answers.Sample.{sample_grammar, sample_line, sample_text};

use std::alloc::{AllocError, Global};
use std::fmt::Write;

const GRAMMAR: &[u8] =
    b"log: line*.\nline: @n, -\":\", w, -#a.\nn: [\"0\"-\"9\"]+.\nw: [\"a\"-\"z\"]+.\n";

/// The bytes of the sample's grammar, in UTF-8: numbered lines, each with a word.
pub fn grammar() -> &'static [u8]
    ensures { result.now ≡ sample_grammar }
{
    GRAMMAR
}

/// The bytes of the sample's text, in UTF-8: lines 1 to `n`, each its number in decimal, `:ab` and a line feed.
///
/// `AllocError` is want of memory.
pub fn text(alloc: Global, n: u32) -> Result<Vec<u8>, AllocError>
    requires least { 1 ≤ n }
    requires most { n ≤ 10000 }
    ensures { IfOk result (λ v. v.items ≡ sample_text n) }
{
    let mut lines = String::new(alloc);
    for number in 0..n {
        push_line(&mut lines, number + 1)?;
    }
    Ok(lines.into_bytes())
}

// One more line, with its number.
fn push_line(lines: &mut String, number: u32) -> Result<(), AllocError>
    ensures { OnOk result (string_bytes lines.new ≡ string_bytes lines.old ++ sample_line number) }
{
    write!(lines, "{number}:ab\n")
}
