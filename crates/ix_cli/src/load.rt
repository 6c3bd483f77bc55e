//! What the files that the words name hold.

ghost use Rattle.std.specs.Prelude.{◌≡◌, ◌≤◌, ℕ, List, IfOk, IfErr, take};
ghost use Rattle.ix_model.specs.Answers.Answer.{HoldsConforming};
ghost use Rattle.ix_model.specs.Answers.Limits.{grammar_limit};
ghost use Rattle.ix_model.specs.Grammars.Breach.{Conforming};
ghost use Rattle.ix_model.specs.Grammars.Size.{size};
ghost use Rattle.ix_cli.specs.Loaded.{Holds, IsLoadFault, IsGrammarFault};

use crate::answer::Answer;
use ix_edge::{Files, LoadFault};
use ix_engine::compile;
use ix_model::Grammar;
use std::alloc::Global;

// One byte more than a file may have: so a longer file is seen to be longer.
const MOST_OF_GRAMMAR: u64 = 1_048_577;

const MOST_OF_TEXT: u64 = 16_777_217;

/// The conforming grammar that the file of this name spells.
pub fn load_grammar<F: Files>(alloc: Global, name: &str, files: &mut F) -> Result<Grammar, Answer>
    ensures conforming { IfOk result (λ g. Conforming g) }
    ensures small { IfOk result (λ g. size g ≤ grammar_limit) }
    ensures ok { IfOk result (λ g. Holds (F.told files.old) name.now (λ bytes. HoldsConforming bytes g)) }
    ensures err { IfErr result (IsGrammarFault (F.told files.old) (F.faults files.old) (F.faults files.new) name.now) }
    ensures same { F.told files.new ≡ F.told files.old }
    ensures later { (other : List ℕ) → F.faults files.old other ≤ F.faults files.new other }
{
    let bytes = load(alloc, name, MOST_OF_GRAMMAR, files)?;
    let grammar = compile(alloc, &bytes)?;
    Ok(grammar)
}

/// The bytes of the text that the file of this name holds; of a text that is too long the front, with one byte more than
/// a text may have.
pub fn load_text<F: Files>(alloc: Global, name: &str, files: &mut F) -> Result<Vec<u8>, Answer>
    ensures ok { IfOk result (λ v. Holds (F.told files.old) name.now (λ bytes. v.items ≡ take 16777217 bytes)) }
    ensures err { IfErr result (IsLoadFault (F.faults files.old) (F.faults files.new) name.now) }
    ensures same { F.told files.new ≡ F.told files.old }
    ensures later { (other : List ℕ) → F.faults files.old other ≤ F.faults files.new other }
{
    load(alloc, name, MOST_OF_TEXT, files)
}

// The first `most` bytes of a file.
fn load<F: Files>(alloc: Global, name: &str, most: u64, files: &mut F) -> Result<Vec<u8>, Answer>
    ensures ok { IfOk result (λ v. Holds (F.told files.old) name.now (λ bytes. v.items ≡ take most bytes)) }
    ensures err { IfErr result (IsLoadFault (F.faults files.old) (F.faults files.new) name.now) }
    ensures same { F.told files.new ≡ F.told files.old }
    ensures later { (other : List ℕ) → F.faults files.old other ≤ F.faults files.new other }
{
    match files.load(alloc, name, most) {
        Ok(bytes) => Ok(bytes),
        Err(LoadFault::Failed) => Err(Answer::Read(String::from_str(alloc, name)?)),
        Err(LoadFault::Memory) => Err(Answer::Memory),
    }
}
