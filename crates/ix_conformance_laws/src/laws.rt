//! Laws of breaches and of conforming grammars. Each function's contract is the law; the bodies are empty.
ghost use Rattle.ix_conformance_laws.specs.Laws.{FaultlessIsUnrefused, EachIsJudged, LeastBreachIsOne, SpelledIsWritten};

/// No code holds of a grammar exactly where it is without a fault: its calls name rules, no two rules have one name, and so on.
pub fn faultless_is_unrefused()
    ensures { FaultlessIsUnrefused }
{}

/// Of each grammar a least code holds, or none does.
pub fn each_is_judged()
    ensures { EachIsJudged }
{}

/// No grammar has two least codes, nor two items of one.
pub fn least_breach_is_one()
    ensures { LeastBreachIsOne }
{}

/// What characters spell has a rule, and its numbers are written in hexadecimal digits.
pub fn spelled_is_written()
    ensures { SpelledIsWritten }
{}
