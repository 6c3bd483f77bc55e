//! The law of least heights, and worked examples. Each function's contract is the law or the example; the bodies are empty.
ghost use Rattle.ix_height.specs.HeightLaws.{GraphIsExact};
ghost use Rattle.ix_height.specs.Laws.{SlotIsOfUse, RuleIsOfUse, FirstSlotIsOfNoUse, ShortRuleIsOfNoUse, LetterIsAWay, WholeIsAWay, CallIsAWay, CallNeedsItsRule, RuleHasItsNumber, SlotHasAnother, LetterIsAGraph, EdgeIsMissing, RuleIsNotRaised, OnceIsLow, AroundIsLow, RuleIsNotLower, OnceIsLeast, AroundIsNotLeast, LeastIsNotLeftOut, OnceHasOne, AroundHasTwo, SlotHasNone, RuleHasMore, OneIsTheLeast, TwoIsNotTheLeast, ZeroIsNoHeight, RuleIsAnswered, NoUseIsNoAnswer, AnswerIsNotLeftOut, NoUseIsNotAnswered, RuleIsFound, SlotIsNotFound};

/// In a graph whose edges are the ways of spans, a span is reached with the heights of its trees.
pub fn graph_is_exact()
    ensures { GraphIsExact }
{}

/// A span is of use where a derivation of the whole text has it, or it is not.
pub fn spans_are_of_use_or_not()
    ensures slot { SlotIsOfUse }
    ensures rule { RuleIsOfUse }
    ensures first { FirstSlotIsOfNoUse }
    ensures short { ShortRuleIsOfNoUse }
{}

/// A span is derived by other spans, and not without one that it needs.
pub fn spans_have_ways_or_not()
    ensures letter { LetterIsAWay }
    ensures whole { WholeIsAWay }
    ensures call { CallIsAWay }
    ensures needed { CallNeedsItsRule }
{}

/// A span stands under its number, and not under another.
pub fn spans_have_their_numbers()
    ensures rule { RuleHasItsNumber }
    ensures slot { SlotHasAnother }
{}

/// Edges are those of all ways, or one is missing, or a rule is not raised.
pub fn edges_are_a_graph_or_not()
    ensures graph { LetterIsAGraph }
    ensures missing { EdgeIsMissing }
    ensures raised { RuleIsNotRaised }
{}

/// A node is reached with a height, or not.
pub fn nodes_are_low_or_not()
    ensures once { OnceIsLow }
    ensures around { AroundIsLow }
    ensures lower { RuleIsNotLower }
{}

/// Heights of nodes are the least, or one is higher, or left out.
pub fn heights_are_least_or_not()
    ensures least { OnceIsLeast }
    ensures higher { AroundIsNotLeast }
    ensures left_out { LeastIsNotLeftOut }
{}

/// Trees of a span have a height, or none has it.
pub fn trees_have_heights_or_not()
    ensures once { OnceHasOne }
    ensures around { AroundHasTwo }
    ensures slot { SlotHasNone }
    ensures more { RuleHasMore }
{}

/// A height is the least of a span, or another is lower, or no tree has it.
pub fn one_height_is_the_least()
    ensures one { OneIsTheLeast }
    ensures two { TwoIsNotTheLeast }
    ensures zero { ZeroIsNoHeight }
{}

/// A span has its answer, or it is left out, or there is one that should not be.
pub fn spans_are_answered_or_not()
    ensures some { RuleIsAnswered }
    ensures none { NoUseIsNoAnswer }
    ensures left_out { AnswerIsNotLeftOut }
    ensures too_many { NoUseIsNotAnswered }
{}

/// What is found is that of the span, and not that of another.
pub fn heights_are_found_or_not()
    ensures rule { RuleIsFound }
    ensures slot { SlotIsNotFound }
{}
