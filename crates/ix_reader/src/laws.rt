//! Laws of the definitions. The contract is the law, and the body is empty.

ghost use Rattle.std.specs.Prelude.{◌≡◌, ℕ, [], Some, None, Ok, Err};
ghost use Rattle.ix_spelling_laws.specs.Reading.Machine.{start};
ghost use Rattle.ix_reader.specs.Examples.{excluding_set, named, one_pair, parenthesised};
ghost use Rattle.ix_reader.specs.Outline.{IsBare};
ghost use Rattle.ix_reader.specs.Parentheses.{deepest};
ghost use Rattle.ix_reader.specs.Views.{Gives};
ghost use Rattle.ix_reader.specs.declared.read_fault.ReadFault.TheVariants.{NotIxml};

/// In `(())()` two parentheses are open at once, and in `()` one.
pub fn worked_depths()
    ensures none { deepest 0 [] ≡ 0 }
    ensures one { deepest 0 one_pair ≡ 1 }
    ensures two { deepest 0 parenthesised ≡ 2 }
{}

/// A number that is given is told by itself alone, and a refusal by nothing that is given.
pub fn worked_views()
    ensures told { Gives {X = ℕ} {Y = ℕ} (λ n. n) (Ok 1) (Some 1) }
    ensures another { ¬ (Gives {X = ℕ} {Y = ℕ} (λ n. n) (Ok 2) (Some 1)) }
    ensures refused { Gives {X = ℕ} {Y = ℕ} (λ n. n) (Err NotIxml) None }
    ensures not_refused { ¬ (Gives {X = ℕ} {Y = ℕ} (λ n. n) (Err NotIxml) (Some 1)) }
{}

/// Before the first token no value was read; behind the name of a rule and in a set one was.
pub fn worked_outlines()
    ensures start { IsBare start }
    ensures name { ¬ (IsBare named) }
    ensures set { ¬ (IsBare excluding_set) }
{}
