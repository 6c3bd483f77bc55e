//! The law of spelling. Its function's contract is the law; the body is empty.
ghost use Rattle.ix_spelling_laws.specs.Laws.{SpellingIsOne};

/// The same characters spell at most one grammar.
pub fn spelling_is_one()
    ensures { SpellingIsOne }
{}
