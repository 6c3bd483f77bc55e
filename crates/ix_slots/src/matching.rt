ghost use Rattle.std.specs.Prelude.{◌≡◌, ◌<◌, ◌≤◌, ◌^◌, ℕ, [], ◌∷◌, length, Some, IfSome};
ghost use Rattle.ix_model.specs.Matching.Terminals.{StandsAt};
ghost use Rattle.ix_model.specs.Expansion.FlatDerives.{TerminalMatches};
ghost use Rattle.ix_model.specs.Expansion.Numbered.{terminal_at};
ghost use Rattle.ix_model.specs.Matching.Ranges.{IsInRanges};

use ix_model::{CharSet, Plan, Terminal};
use sqlite_items::at;

/// Where the terminal ends if it stands at the position in the text, in characters from 0. `None` exactly where it does
/// not stand there. What stands there is what the written literal or set matches: `laws::terminal_is_written`.
pub fn matches(plan: &Plan, terminal: u32, pos: u32) -> Option<u32>
    requires terminal { terminal < length plan.now.rules.terminals }
    requires pos { pos ≤ length plan.now.text }
    ensures some { IfSome result (TerminalMatches plan.now.text (terminal_at plan.now.rules terminal) pos) }
    ensures only { (end : ℕ) → TerminalMatches plan.now.text (terminal_at plan.now.rules terminal) pos end → result ≡ Some end }
    ensures within { IfSome result (λ end. (pos ≤ end) × (end ≤ length plan.now.text)) }
{
    // What holds of each plan: positions in its text have 32 bits.
    let _ = plan.slot_count();
    let text = plan.text();
    match plan.terminal(terminal) {
        Terminal::Lit(literal) => literal_end(text, literal.as_slice(), pos),
        Terminal::Set(set) => set_end(text, set, pos),
    }
}

#[tactic(auto, using(ix_model::proofs::TextTests::literal_stands, ix_model::proofs::TextTests::literal_lacks))]
fn literal_end(text: &[char], literal: &[char], pos: u32) -> Option<u32>
    requires pos { pos ≤ length text.now }
    requires small { length text.now < 2 ^ 32 }
    ensures some { IfSome result (StandsAt text.now literal.now pos) }
    ensures only { (end : ℕ) → StandsAt text.now literal.now pos end → result ≡ Some end }
    ensures within { IfSome result (λ end. (pos ≤ end) × (end ≤ length text.now)) }
{
    if text[pos as usize..].starts_with(literal) {
        Some(pos + literal.len() as u32)
    } else {
        None
    }
}

#[tactic(auto, using(ix_model::proofs::TextTests::character_stands, ix_model::proofs::TextTests::character_at))]
fn set_end(text: &[char], set: &CharSet, pos: u32) -> Option<u32>
    requires small { length text.now < 2 ^ 32 }
    ensures some { IfSome result (λ end. (c : ℕ) × IsInRanges c set.now × StandsAt text.now (c ∷ []) pos end) }
    ensures only { (c end : ℕ) → IsInRanges c set.now → StandsAt text.now (c ∷ []) pos end → result ≡ Some end }
    ensures within { IfSome result (λ end. (pos ≤ end) × (end ≤ length text.now)) }
{
    match at(text, pos as usize) {
        Some(c) => {
            if set.contains(*c) {
                Some(pos + 1)
            } else {
                None
            }
        }
        None => None,
    }
}
