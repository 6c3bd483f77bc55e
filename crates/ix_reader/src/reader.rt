//! Characters, read to the grammar that they spell.

ghost use Rattle.std.specs.Prelude.{◌≡◌, ◌≤◌, ◌<◌, length, IfOk, Err, nat_lt};
ghost use Rattle.ix_model.specs.Answers.Limits.{grammar_limit, depth_limit};
ghost use Rattle.ix_model.specs.declared.grammar.Grammar.{Grammar};
ghost use Rattle.ix_model.specs.Spelling.Spells.{Spells};
ghost use Rattle.ix_model.specs.Spelling.Depth.{depth};
ghost use Rattle.ix_spelling_laws.specs.Reading.Machine.{step, run, start};
ghost use Rattle.ix_lex.specs.Spans.{AreTokens, chars_of, lexeme_of, lexed};
ghost use Rattle.ix_lex.specs.Strings.{IsString};
ghost use Rattle.ix_lex.specs.declared.token.Tok.TheVariants.{Quote};
ghost use Rattle.ix_reader.specs.declared.read_fault.ReadFault.TheVariants.{NotIxml, TooDeep};
ghost use Rattle.ix_reader.specs.Outline.{whether};
ghost use Rattle.ix_reader.specs.Parentheses.{deepest};
ghost use Rattle.ix_model.specs.Grammars.Size.{size};
ghost use Rattle.ix_reader.specs.Views.{Gives, phase_of, work_of, state_of};

use crate::lexemes::{lexeme, turn};
use crate::machine::State;
use crate::outline::emptied;
use crate::read_fault::ReadFault;
use crate::step::{finish, start, step};
use ix_lex::{LexFault, Token, tokens};
use ix_model::Grammar;
use std::alloc::Global;

/// The most parentheses that may be open at once.
const MOST_OPEN: u32 = 100;

/// The state behind one more token; the one before it ends at `last`.
fn behind(
    alloc: Global,
    chars: &[char],
    state: State,
    last: u32,
    token: Token,
) -> Result<State, ReadFault>
    requires order { token.low < token.high }
    requires within { token.high ≤ length chars.now }
    requires string { token.kind ≡ Quote → IsString (chars_of chars.now token) }
    ensures { Gives state_of result (step (phase_of state.phase) (work_of state.work) (nat_lt last token.low) (lexeme_of chars.now token)) }
{
    let lexeme = lexeme(alloc, chars, token)?;
    step(alloc, state, last < token.low, lexeme)
}

/// The grammar of the tokens.
fn parse(alloc: Global, chars: &[char], tokens: &[Token]) -> Result<Grammar, ReadFault>
    requires tokens { AreTokens chars.now 0 tokens.now }
    ensures { Gives (λ g. g) result (run (lexed chars.now 0 tokens.now) start) }
{
    let mut state = start(alloc);
    let mut last = 0;
    for token in tokens {
        state = behind(alloc, chars, state, last, *token)?;
        last = token.high;
    }
    finish(state)
}

/// Whether the tokens are those of a grammar. The grammar is not built: a value that is nested deeply would take a call
/// for each of its levels when it is dropped.
fn recognise(alloc: Global, chars: &[char], tokens: &[Token]) -> Result<(), ReadFault>
    requires tokens { AreTokens chars.now 0 tokens.now }
    ensures { Gives (λ u. u) result (whether (run (lexed chars.now 0 tokens.now) start)) }
{
    let mut state = start(alloc);
    let mut last = 0;
    for token in tokens {
        state = emptied(alloc, behind(alloc, chars, state, last, *token)?);
        last = token.high;
    }
    finish(state)?;
    Ok(())
}

/// The most parentheses that are open at once behind one of the tokens.
fn deepest(chars: &[char], tokens: &[Token]) -> u32
    requires tokens { AreTokens chars.now 0 tokens.now }
    requires few { length chars.now ≤ grammar_limit }
    ensures { result ≡ deepest 0 (lexed chars.now 0 tokens.now) }
{
    let mut open = 0;
    let mut most = 0;
    for token in tokens {
        open = turn(chars, *token, open);
        most = open.max(most);
    }
    most
}

/// The grammar of the tokens, where they do not nest too deeply.
fn read_tokens(alloc: Global, chars: &[char], tokens: &[Token]) -> Result<Grammar, ReadFault>
    requires tokens { AreTokens chars.now 0 tokens.now }
    requires few { length chars.now ≤ grammar_limit }
    ensures ok { IfOk result (λ g. Spells chars.now g × (depth g ≤ depth_limit)) }
    ensures size { IfOk result (λ g. size g ≤ length chars.now) }
    ensures not_ixml { result ≡ Err NotIxml → (g : Grammar) → Spells chars.now g → ⊥ }
    ensures too_deep { result ≡ Err TooDeep → (g : Grammar) × Spells chars.now g × (depth_limit < depth g) }
{
    if deepest(chars, tokens) > MOST_OPEN {
        return match recognise(alloc, chars, tokens) {
            Ok(()) => Err(ReadFault::TooDeep),
            Err(fault) => Err(fault),
        };
    }
    parse(alloc, chars, tokens)
}

/// The grammar that the characters spell, by the rules of Invisible XML 1.0.
///
/// `NotIxml` comes exactly where they spell none, and `TooDeep` exactly where they spell one in which more than 100
/// parentheses are open at once; those in strings and comments do not count. `Memory` comes where memory runs out.
pub fn read(alloc: Global, chars: &[char]) -> Result<Grammar, ReadFault>
    requires few { length chars.now ≤ grammar_limit }
    ensures ok { IfOk result (λ g. Spells chars.now g × (depth g ≤ depth_limit)) }
    ensures size { IfOk result (λ g. size g ≤ length chars.now) }
    ensures not_ixml { result ≡ Err NotIxml → (g : Grammar) → Spells chars.now g → ⊥ }
    ensures too_deep { result ≡ Err TooDeep → (g : Grammar) × Spells chars.now g × (depth_limit < depth g) }
{
    match tokens(alloc, chars) {
        Ok(found) => read_tokens(alloc, chars, &found),
        Err(LexFault::Bad) => Err(ReadFault::NotIxml),
        Err(LexFault::Memory) => Err(ReadFault::Memory),
    }
}
