//! What a literal or an insertion stands for.

ghost use Rattle.std.specs.Prelude.{◌≡◌, IfOk};
ghost use Rattle.std.specs.List.{AllByRecursion};
ghost use Rattle.ix_model.specs.Grammars.Breach.{IsCodePoint};
ghost use Rattle.ix_model.specs.Matching.Codes.{characters};
ghost use Rattle.ix_model.specs.Grammars.Factors.{codes_of_chars};
ghost use Rattle.ix_model.specs.Spelling.Spells.{IsHex};

use ix_model::{Chars, Text, code_point};
use std::alloc::{AllocError, Global};

/// The characters that a literal or an insertion stands for.
pub fn characters_of(alloc: Global, chars: &Chars) -> Result<Text, AllocError>
    requires numbers { AllByRecursion IsHex (codes_of_chars chars.now) }
    requires code_points { AllByRecursion IsCodePoint (codes_of_chars chars.now) }
    ensures { IfOk result (λ text. text ≡ characters chars.now) }
{
    match chars {
        Chars::Quoted(text) => Text::from_slice(alloc, text.as_slice()),
        Chars::Code(digits) => {
            let c = code_point(digits.as_slice()).unwrap();
            Text::from_slice(alloc, &[c])
        }
    }
}
