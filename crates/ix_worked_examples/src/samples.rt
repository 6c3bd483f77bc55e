ghost use Rattle.std.specs.Prelude.{◌≡◌, ℕ, List, [], ◌∷◌, ◌++◌, Option, length, codes};
ghost use Rattle.ix_model.specs.declared.counts.Counts.{Counts};
ghost use Rattle.ix_model.specs.declared.grammar.Grammar.{Grammar};
ghost use Rattle.ix_model.specs.declared.state.State.{State};
ghost use Rattle.ix_model.specs.Closure.Figures.{IsCounted};
ghost use Rattle.ix_model.specs.Documents.Gives.{Givens};
ghost use Rattle.ix_model.specs.Answers.CommandLine.{check, parse, sample};
ghost use Rattle.ix_model.specs.Answers.Sample.{sample_grammar, sample_line, sample_text, summary_of};
ghost use Rattle.ix_model.specs.Answers.Outcome.{Outcome, conforms, text_too_long, failed, document, summarised, status_of, output_of, message_of};
ghost use Rattle.ix_model.specs.Answers.Answer.{HoldsConforming, Measured, CommandAnswered, Answered};
ghost use Rattle.ix_examples.specs.SmallGrammars.{only_a};
ghost use Rattle.ix_examples.specs.SmallRules.{a_plan};
ghost use Rattle.ix_sample_laws.specs.SampleRules.{sample_rules};

/// The text of so many lines: each has its number, from 1 on, and one line feed.
pub fn lines_of_samples()
    ensures none { sample_text 0 ≡ [] }
    ensures one { sample_text 1 ≡ codes "1:ab" ++ 10 ∷ [] }
    ensures two { sample_text 2 ≡ codes "1:ab\n2:ab\n" }
    ensures ten { sample_text 10 ≡ codes "1:ab\n2:ab\n3:ab\n4:ab\n5:ab\n6:ab\n7:ab\n8:ab\n9:ab\n10:ab\n" }
    ensures last { sample_line 10000 ≡ codes "10000:ab\n" }
{}

/// The bytes of the grammar, line by line, and what they spell.
pub fn grammar_of_samples()
    ensures bytes { sample_grammar ≡ codes "log: line*." ++ (10 ∷ codes "line: @n, -\":\", w, -#a." ++ (10 ∷ codes "n: [\"0\"-\"9\"]+." ++ (10 ∷ codes "w: [\"a\"-\"z\"]+." ++ 10 ∷ []))) }
    ensures count { length sample_grammar ≡ 66 }
    ensures held { HoldsConforming sample_grammar sample_rules }
    ensures no_other { (g : Grammar) → HoldsConforming sample_grammar g → g ≡ sample_rules }
{}

/// The four lines of a summary, with the figures in their order.
pub fn summaries()
    ensures four_numbers { summary_of 5 (record { descriptors = 1234; subtrees = 67 }) 890 ≡ codes "text 5\ndescriptors 1234\nsubtrees 67\noutput 890\n" }
    ensures zeros { summary_of 0 (record { descriptors = 0; subtrees = 0 }) 0 ≡ codes "text 0\ndescriptors 0\nsubtrees 0\noutput 0\n" }
    ensures output { output_of (summarised 5 (record { descriptors = 1234; subtrees = 67 }) 890) ≡ codes "text 5\ndescriptors 1234\nsubtrees 67\noutput 890" ++ 10 ∷ [] }
    ensures status { (text output : ℕ) (counts : Counts) → status_of (summarised text counts output) ≡ 0 }
    ensures message { (text output : ℕ) (counts : Counts) → message_of (summarised text counts output) ≡ [] }
{}

/// What comes of a text whose figures are asked for: those of its text, its plan and its document, or what comes in place of a document.
pub fn measured_texts()
    ensures figures { (counts : Counts) → IsCounted only_a (codes "a") (a_plan (codes "a")) counts → Measured only_a (codes "a") (summarised 1 counts 9) }
    ensures behind_mark { (counts : Counts) → IsCounted only_a (codes "a") (a_plan (codes "a")) counts → Measured only_a (239 ∷ 187 ∷ 191 ∷ codes "a") (summarised 4 counts 9) }
    ensures other_text { (counts : Counts) → ¬ (Measured only_a (codes "a") (summarised 2 counts 9)) }
    ensures other_output { (counts : Counts) → ¬ (Measured only_a (codes "a") (summarised 1 counts 10)) }
    ensures no_document { (g : Grammar) (bytes : List ℕ) (gs : Givens) (state : State) → ¬ (Measured g bytes (document gs state)) }
    ensures failed { Measured only_a (codes "ab") (failed 1 1 2) }
    ensures no_figures { (text output : ℕ) (counts : Counts) → ¬ (Measured only_a (codes "ab") (summarised text counts output)) }
    ensures too_long { (g : Grammar) (bytes : List ℕ) → length bytes ≡ 16777217 → Measured g bytes text_too_long }
    ensures not_too_long { (g : Grammar) (bytes : List ℕ) → length bytes ≡ 16777216 → ¬ (Measured g bytes text_too_long) }
{}

/// A sample looks at no file, and workers change nothing.
pub fn sampled_commands()
    ensures any_files { (map other : List ℕ → Option (List ℕ)) (lines : ℕ) (outcome : Outcome) → CommandAnswered map (sample lines 1) outcome → CommandAnswered other (sample lines 64) outcome }
    ensures no_document { (map : List ℕ → Option (List ℕ)) (lines workers : ℕ) (gs : Givens) (state : State) → ¬ (CommandAnswered map (sample lines workers) (document gs state)) }
    ensures not_checked { (map : List ℕ → Option (List ℕ)) (lines workers : ℕ) → ¬ (CommandAnswered map (sample lines workers) conforms) }
    ensures no_summary_of_parse { (map : List ℕ → Option (List ℕ)) (grammar text : List ℕ) (workers bytes output : ℕ) (counts : Counts) → ¬ (CommandAnswered map (parse grammar text workers) (summarised bytes counts output)) }
    ensures no_summary_of_check { (map : List ℕ → Option (List ℕ)) (grammar : List ℕ) (bytes output : ℕ) (counts : Counts) → ¬ (CommandAnswered map (check grammar) (summarised bytes counts output)) }
{}
