ghost use Rattle.std.specs.Prelude.{◌≤◌, IfOk, IfErr};
ghost use Rattle.ix_model.specs.Answers.Limits.{grammar_limit};
ghost use Rattle.ix_model.specs.Answers.Answer.{HoldsConforming};
ghost use Rattle.ix_model.specs.Grammars.Breach.{Conforming};
ghost use Rattle.ix_model.specs.Grammars.Size.{size};
ghost use Rattle.ix_engine.specs.Compiled.{IsRefusalOf};

use crate::refusal::Refusal;
use ix_edge::decode;
use ix_errors::check;
use ix_model::Grammar;
use ix_reader::read;
use std::alloc::Global;

const MOST: usize = 1_048_576;

/// The conforming grammar that the bytes of a file spell.
///
/// The first that applies is refused, in this order: `FileTooLong`, `NotUtf8`, `NotIxml`, `TooDeep`, and then the least
/// of the codes G02 to G07 that holds, with its first item. Each comes exactly where it applies and none before it does.
/// `Memory` may come anywhere.
#[tactic(auto, using(ix_conformance_laws::proofs::SpelledNumbers::spelled_hex))]
pub fn compile(alloc: Global, bytes: &[u8]) -> Result<Grammar, Refusal>
    ensures ok { IfOk result (HoldsConforming bytes.now) }
    ensures conforming { IfOk result (λ g. Conforming g) }
    ensures small { IfOk result (λ g. size g ≤ grammar_limit) }
    ensures err { IfErr result (IsRefusalOf bytes.now) }
{
    if bytes.len() > MOST {
        return Err(Refusal::FileTooLong);
    }
    let chars = decode(alloc, bytes)?;
    let grammar = read(alloc, &chars)?;
    check(alloc, &grammar)?;
    Ok(grammar)
}
