//! What goes to the output.

ghost use Rattle.std.specs.Prelude.{◌≡◌, ◌⊎◌, ℕ, List, IfOk, IfErr, length};
ghost use Rattle.ix_edge.specs.Causes.{HasCause};
ghost use Rattle.ix_edge.specs.Puts.{Puts};
ghost use Rattle.ix_engine.specs.Parsed.{IsOutcome, IsFault};
ghost use Rattle.ix_marks.specs.InRange.{AreIn};
ghost use Rattle.ix_marks.specs.Standing.{StandsFor};
ghost use Rattle.ix_model.specs.Answers.Outcome.{conforms, failed};
ghost use Rattle.ix_model.specs.Answers.Sample.{summary_of};
ghost use Rattle.ix_model.specs.Documents.Dyn.{HasNoRefusal};
ghost use Rattle.ix_model.specs.Documents.Gives.{Givens};
ghost use Rattle.ix_model.specs.Documents.Xml.{xml};
ghost use Rattle.ix_cli.specs.Contents.{HasBytes, IsWritable};
ghost use Rattle.ix_cli.specs.Shown.{Shows, ShowsWanted};

use crate::task::{Task, Wanted};
use ix_edge::{Failed, Sink};
use ix_engine::{Outcome, ParseFault};
use ix_marks::Marked;
use ix_model::{Counts, Plan, State};
use ix_sample::summary;
use ix_serial::{failed_bytes, size, write};
use std::alloc::{AllocError, Global};

// How many bytes the buffer has that a document is written through.
const BUFFER: usize = 65_536;

/// What goes to the output, whole, and the status that it is answered with: 1 with a failed document, else 0.
#[derive(Drop)]
pub struct Output {
    pub status: u8,
    pub content: Content,
}

/// Bytes that are there, or a document that is still to be written.
#[derive(Drop)]
pub enum Content {
    Bytes(Vec<u8>),
    Document(Document),
}

/// The document of a marked tree of this plan, and the buffer that it is written through.
#[derive(Drop)]
pub struct Document {
    plan: Plan,
    marked: Marked,
    state: State,
    buffer: Vec<u8>,
}

/// Puts it: bytes in one put, a document in as many as its buffer needs. At `Failed` some of it went out, from the front on,
/// or nothing.
pub fn put_content<O: Sink>(content: Content, out: &mut O) -> Result<(), Failed>
    requires { IsWritable content }
    ensures bytes { (bytes : List ℕ) → HasBytes content bytes → Puts (O.written out.old) (O.written out.new) bytes result }
    ensures cause { HasCause (O.faults out.old) (O.faults out.new) result }
{
    match content {
        Content::Bytes(bytes) => out.put(&bytes),
        Content::Document(document) => put_document(document, out),
    }
}

fn put_document<O: Sink>(document: Document, out: &mut O) -> Result<(), Failed>
    requires { IsWritable (Content.Document document) }
    ensures bytes { (bytes : List ℕ) → HasBytes (Content.Document document) bytes → Puts (O.written out.old) (O.written out.new) bytes result }
    ensures cause { HasCause (O.faults out.old) (O.faults out.new) result }
{
    let Document {
        plan,
        marked,
        state,
        mut buffer,
    } = document;
    write(&plan, &marked, state, out, &mut buffer)
}

/// The line for a grammar that conforms.
pub fn conforming_output(alloc: Global) -> Result<Output, AllocError>
    ensures ok { IfOk result (Shows conforms) }
    ensures writable { IfOk result (λ output. IsWritable output.content) }
{
    let mut line = Vec::new(alloc);
    line.extend_from_slice(b"ok\n")?;
    Ok(Output {
        status: 0,
        content: Content::Bytes(line),
    })
}

/// What is wanted of the task's text, of which this came: its document or its figures; or the failed document. Where the
/// document has 2 to the power of 64 bytes or more, its figures are want of memory.
pub fn output_of(
    alloc: Global,
    task: &Task,
    parsed: Result<Outcome, ParseFault>,
) -> Result<Output, ParseFault>
    requires ok { IfOk parsed (IsOutcome task.now.grammar task.now.text.items) }
    requires err { IfErr parsed (IsFault task.now.grammar task.now.text.items) }
    ensures status { IfOk result (λ output. (output.status ≡ 0) ⊎ (output.status ≡ 1)) }
    ensures ok { IfOk result (ShowsWanted task.now.wanted task.now.grammar task.now.text.items) }
    ensures writable { IfOk result (λ output. IsWritable output.content) }
    ensures err { IfErr result (IsFault task.now.grammar task.now.text.items) }
{
    match parsed? {
        Outcome::Tree {
            plan,
            marked,
            state,
            counts,
        } => match task.wanted {
            Wanted::Document => Ok(document_output(alloc, plan, marked, state)?),
            Wanted::Figures => figures_output(alloc, &task.text, &plan, &marked, state, counts),
        },
        Outcome::Failed {
            offset,
            line,
            column,
            counts: _,
        } => Ok(failed_output(alloc, offset, line, column)?),
    }
}

fn document_output(
    alloc: Global,
    plan: Plan,
    marked: Marked,
    state: State,
) -> Result<Output, AllocError>
    requires there { AreIn plan.rules.names marked }
    requires document { (gs : Givens) × StandsFor plan.rules.names marked gs × HasNoRefusal gs }
    ensures status { IfOk result (λ output. output.status ≡ 0) }
    ensures bytes { IfOk result (λ output. (gs : Givens) → StandsFor plan.rules.names marked gs → HasNoRefusal gs → HasBytes output.content (xml gs state)) }
    ensures writable { IfOk result (λ output. IsWritable output.content) }
{
    Ok(Output {
        status: 0,
        content: Content::Document(Document {
            plan,
            marked,
            state,
            buffer: vec![in alloc; 0; BUFFER]?,
        }),
    })
}

fn figures_output(
    alloc: Global,
    text: &[u8],
    plan: &Plan,
    marked: &Marked,
    state: State,
    counts: Counts,
) -> Result<Output, ParseFault>
    requires there { AreIn plan.now.rules.names marked.now }
    requires document { (gs : Givens) × StandsFor plan.now.rules.names marked.now gs × HasNoRefusal gs }
    ensures status { IfOk result (λ output. output.status ≡ 0) }
    ensures bytes { IfOk result (λ output. (gs : Givens) → StandsFor plan.now.rules.names marked.now gs → HasBytes output.content (summary_of (length text.now) counts (length (xml gs state)))) }
    ensures writable { IfOk result (λ output. IsWritable output.content) }
    ensures err { IfErr result (λ fault. fault ≡ ParseFault.Memory) }
{
    let Some(size) = size(plan, marked, state) else {
        return Err(ParseFault::Memory);
    };
    Ok(Output {
        status: 0,
        content: Content::Bytes(summary(alloc, text.len() as u64, counts, size)?),
    })
}

fn failed_output(alloc: Global, offset: u32, line: u32, column: u32) -> Result<Output, AllocError>
    ensures ok { IfOk result (Shows (failed offset line column)) }
    ensures writable { IfOk result (λ output. IsWritable output.content) }
{
    Ok(Output {
        status: 1,
        content: Content::Bytes(failed_bytes(alloc, offset, line, column)?),
    })
}
