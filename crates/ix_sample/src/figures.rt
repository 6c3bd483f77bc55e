ghost use Rattle.std.specs.Prelude.{◌≡◌, ◌++◌, IfOk, OnOk, string_bytes};
ghost use Rattle.ix_model.specs.Answers.Sample.{figure_line, summary_of};

use ix_model::Counts;
use std::alloc::{AllocError, Global};
use std::fmt::Write;

/// The bytes of the summary, in UTF-8: four lines, each what is counted, a space and how many there are in decimal. `text`
/// and `output` are counted in bytes.
///
/// `AllocError` is want of memory.
pub fn summary(alloc: Global, text: u64, counts: Counts, output: u64) -> Result<Vec<u8>, AllocError>
    ensures { IfOk result (λ v. v.items ≡ summary_of text counts output) }
{
    let mut lines = String::new(alloc);
    push_figure(&mut lines, "text", text)?;
    push_figure(&mut lines, "descriptors", counts.descriptors)?;
    push_figure(&mut lines, "subtrees", counts.subtrees)?;
    push_figure(&mut lines, "output", output)?;
    Ok(lines.into_bytes())
}

// One more line: what is counted, and how many there are.
fn push_figure(lines: &mut String, counted: &str, number: u64) -> Result<(), AllocError>
    ensures { OnOk result (string_bytes lines.new ≡ string_bytes lines.old ++ figure_line counted.now number) }
{
    write!(lines, "{counted} {number}\n")
}
