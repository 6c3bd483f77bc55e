//! The tokens of characters, from the first to the last.

ghost use Rattle.std.specs.Prelude.{◌≡◌, ◌≤◌, ℕ, List, length, drop, IfOk, Err};
ghost use Rattle.ix_model.specs.Answers.Limits.{grammar_limit};
ghost use Rattle.ix_spelling_laws.specs.Reading.Lexing as lexing;
ghost use Rattle.ix_spelling_laws.specs.Reading.Lexing.{Lexes, after};
ghost use Rattle.ix_lex.specs.Spans.{AreTokens};
ghost use Rattle.ix_lex.specs.Turns.{IsTokenAt};
ghost use Rattle.ix_lex.specs.declared.fault.LexFault.TheVariants.{Bad};

use crate::fault::LexFault;
use crate::first::first_token;
use crate::spacing::spacing_len;
use crate::token::Token;
use std::alloc::Global;

/// Where the spacing ends that begins at a place.
fn spacing_end(chars: &[char], at: usize) -> usize
    requires few { length chars.now ≤ grammar_limit }
    requires within { at ≤ length chars.now }
    ensures after { drop result chars.now ≡ after (drop at chars.now) }
    ensures order { at ≤ result }
    ensures within { result ≤ length chars.now }
{
    at + spacing_len(&chars[at..])
}

/// The token that begins at a place.
fn token_at(chars: &[char], low: usize) -> Option<Token>
    requires few { length chars.now ≤ grammar_limit }
    requires within { low ≤ length chars.now }
    ensures { IsTokenAt chars.now low result }
{
    let (kind, taken) = first_token(&chars[low..])?;
    let high = low + taken;
    Some(Token {
        kind,
        low: low as u32,
        high: high as u32,
    })
}

/// The tokens of the characters, in order.
///
/// Spacing alone stands before, between and behind them. Each token is as long as it can be, but a word gives back the
/// last full stop of its run where no character that may follow a name comes next, so that `S: a.` ends with a full
/// stop. `Bad` comes exactly where the characters are no list of tokens and spacing, and `Memory` where memory runs out.
#[tactic(auto, using(crate::proofs::Turning::before_first, crate::proofs::Turning::before_next, crate::proofs::Turning::all_found, crate::proofs::Turning::none_at_all))]
pub fn tokens(alloc: Global, chars: &[char]) -> Result<Vec<Token>, LexFault>
    requires few { length chars.now ≤ grammar_limit }
    ensures ok { IfOk result (λ ts. AreTokens chars.now 0 ts.items) }
    ensures bad { result ≡ Err Bad → (ts : List lexing.Token) → Lexes ts chars.now → ⊥ }
{
    let mut tokens = Vec::new(alloc);
    let mut at = spacing_end(chars, 0);
    while at < chars.len() {
        let Some(token) = token_at(chars, at) else {
            return Err(LexFault::Bad);
        };
        tokens.push(token)?;
        at = spacing_end(chars, token.high as usize);
    }
    Ok(tokens)
}
