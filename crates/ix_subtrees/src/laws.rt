//! Laws of useful subtrees, and worked examples. Each function's contract is the law or the example; the bodies are empty.
ghost use Rattle.ix_subtrees.specs.Laws.{PartsAreListed, PartIsLeftOut, LeftRecursiveIsListed, LeftRecursiveIsListedOnce, LeftRecursiveIsUseful, ThreeAreUseful, ClosureIsNotUseful, WaysAreListed, UselessWayIsNotListed, LastSlotEnds, InnerSlotDoesNotEnd, AltsAreListed, EmptyAltIsNotLeftOut, ListsAreTheSet, WaysAreNotTheSet, PivotsAreInOrder, TwiceIsNotInOrder, ChoiceIsFound, ChoiceIsNotMissed, TwoChoicesOfOneSpan, OneChoiceOfEachSpan, SomeSpanHasTwo, NoSpanHasTwo};
ghost use Rattle.ix_subtrees.specs.WrittenLaws.{AmbiguousIsTwoWays, DerivedIsUseful};

/// The text has a derivation under the grammar exactly where some subtree is useful.
pub fn derived_is_useful()
    ensures { DerivedIsUseful }
{}

/// The text is ambiguous under the grammar exactly where some span has two ways.
pub fn ambiguous_is_two_ways()
    ensures { AmbiguousIsTwoWays }
{}

/// A list has exactly the subtrees of a closure, or misses one.
pub fn subtrees_are_listed_or_missed()
    ensures listed { PartsAreListed }
    ensures missed { PartIsLeftOut }
{}

/// A list has exactly the subtrees of a closure that grows with the text, and each of them once.
pub fn left_recursion_is_listed()
    ensures listed { LeftRecursiveIsListed }
    ensures once { LeftRecursiveIsListedOnce }
{}

/// Of the subtrees of that closure all are useful but one, which ends with the text and still wants a letter.
pub fn left_recursion_is_useful()
    ensures { LeftRecursiveIsUseful }
{}

/// A list has exactly the useful subtrees, or the whole closure.
pub fn useful_subtrees_are_listed_or_all()
    ensures useful { ThreeAreUseful }
    ensures all { ClosureIsNotUseful }
{}

/// The pivots of useful subtrees are listed, or one more.
pub fn pivots_are_listed_or_one_more()
    ensures listed { WaysAreListed }
    ensures more { UselessWayIsNotListed }
{}

/// A slot ends its alternative, or a symbol is left.
pub fn slots_end_alternatives_or_do_not()
    ensures last { LastSlotEnds }
    ensures inner { InnerSlotDoesNotEnd }
{}

/// The alternatives of useful subtrees are listed, or one is left out.
pub fn alternatives_are_listed_or_left_out()
    ensures listed { AltsAreListed }
    ensures left_out { EmptyAltIsNotLeftOut }
{}

/// Two lists are the set of a plan, or one of them is missing.
pub fn lists_are_the_set_or_not()
    ensures set { ListsAreTheSet }
    ensures missing { WaysAreNotTheSet }
{}

/// Pivots of one span are in order, or one stands twice.
pub fn pivots_are_in_order_or_twice()
    ensures order { PivotsAreInOrder }
    ensures twice { TwiceIsNotInOrder }
{}

/// The choices of a span are found, or one is missed.
pub fn choices_are_found_or_missed()
    ensures found { ChoiceIsFound }
    ensures missed { ChoiceIsNotMissed }
{}

/// Two choices are of one span, or of two.
pub fn choices_are_of_one_span_or_two()
    ensures one { TwoChoicesOfOneSpan }
    ensures two { OneChoiceOfEachSpan }
    ensures some { SomeSpanHasTwo }
    ensures none { NoSpanHasTwo }
{}
