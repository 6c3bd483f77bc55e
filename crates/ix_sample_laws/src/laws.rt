//! Laws of the sample. Each function's contract is the law; the bodies are empty.
ghost use Rattle.ix_model.specs.Answers.Sample.{sample_grammar};
ghost use Rattle.ix_model.specs.Answers.Answer.{HoldsConforming};
ghost use Rattle.ix_sample_laws.specs.Laws.{SampleIsPlanned};
ghost use Rattle.ix_sample_laws.specs.SampleRules.{sample_rules};

/// The bytes of the sample's grammar hold a conforming grammar: this one.
pub fn sample_conforms()
    ensures { HoldsConforming sample_grammar sample_rules }
{}

/// The sample's grammar has a plan for a text of characters, fewer than 2 ^ 32.
pub fn sample_is_planned()
    ensures { SampleIsPlanned }
{}
