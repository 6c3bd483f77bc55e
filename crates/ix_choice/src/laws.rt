//! Worked examples of what tasks stand for and of the choices that they make. Each function's contract is the example; the bodies are empty.
ghost use Rattle.ix_choice.specs.SlotLaws.{SlotHasTwoSymbols, LaterSlotHasOneSymbol, EmptySlotHasNoSymbol, NoneIsBefore, OneIsBefore, TwoAreBefore, TwoAreTooMany, OneHasItsSpan, NoneIsFlat, OneIsOneHigh, OneIsNotFlat, OneIsNotTwoHigh, RuleIsOneHigh, LiteralIsFlat, InsertionIsFlat, RuleIsNotFlat, RuleIsNotTwoHigh, LiteralIsNotEmpty, TwoAreWithinOne, TwoAreNotWithinZero, OneIsTooFew, SoonerIsFirst, LaterIsNotFirst, NoneIsFirstWithinZero, MayStartSooner, MayStartLater, LiteralMayStart, NothingLeadsToIt, NothingComesOfIt, TooHighBefore, TooHighItself, SoonerIsLeast, OnlyIsLeast, LaterIsNotLeast, NoneIsLeastWithinZero, LiteralEndsWithinZero, CallEndsWithinOne, LaterRuleHasItsEnd, CallIsTooHigh, LiteralIsNotFirst, BeginningIsNoEnd, RuleIsOfUse, LiteralIsOfUse, InsertionIsOfUse, RuleIsOfNoUse, SlotIsOfUse, BeginningIsOfUse, SlotIsOfNoUse, NoSlotIsOfNoUse};
ghost use Rattle.ix_choice.specs.TaskLaws.{TextIsOneTask, InsertionIsOneTask, EmptyIsThreeTasks, NoTreeIsOneTask, OneTextIsThreeTasks, HalvesAreElevenTasks, LeaveGivesItsStep, LeaveGivesNoLess, LeaveIsOneTask, TreeGivesItsSteps, MarkIsThatOfTheCall, TreeIsLeft, TreeIsFiveTasks, TreeIsTooHigh, TreeIsOfNoUse, TreesGiveTheirSteps, DeletedIsNotShown, TreesAreInOrder, TreesAreElevenTasks, TreesAreTooHigh, TreesAreOfNoUse, NoTaskGivesNothing, NoTaskGivesNoStep, NoTaskIsNone, LastComesFirst, FirstComesLast, SizesAreAdded, NodeIsEntered, OtherTaskIsKept, OtherStepIsNotGiven, NothingIsNotEnough, SameTaskIsNoLess, LeaveIsDoneByItsStep, LeaveIsNotDoneByNothing, NoTreeIsDoneByNothing, TreesCanBeDone, TooHighCannotBeDone};

/// A slot has the symbols of its alternative.
pub fn slots_have_symbols()
    ensures two { SlotHasTwoSymbols }
    ensures one { LaterSlotHasOneSymbol }
    ensures none { EmptySlotHasNoSymbol }
{}

/// Trees stand before a slot's dot, or they are too many, or over another span.
pub fn trees_are_before_or_not()
    ensures none { NoneIsBefore }
    ensures one { OneIsBefore }
    ensures two { TwoAreBefore }
    ensures many { TwoAreTooMany }
    ensures span { OneHasItsSpan }
{}

/// Trees before a slot's dot have a height, or another one.
pub fn trees_before_have_heights_or_not()
    ensures none { NoneIsFlat }
    ensures one { OneIsOneHigh }
    ensures lower { OneIsNotFlat }
    ensures higher { OneIsNotTwoHigh }
{}

/// A symbol has trees of a height, or of another one, or no tree.
pub fn symbols_have_heights_or_not()
    ensures rule { RuleIsOneHigh }
    ensures literal { LiteralIsFlat }
    ensures insertion { InsertionIsFlat }
    ensures lower { RuleIsNotFlat }
    ensures higher { RuleIsNotTwoHigh }
    ensures no_tree { LiteralIsNotEmpty }
{}

/// Trees before a slot's dot are within a bound, or too high, or too few.
pub fn trees_before_are_within_or_not()
    ensures within { TwoAreWithinOne }
    ensures high { TwoAreNotWithinZero }
    ensures few { OneIsTooFew }
{}

/// Of the trees before a slot's dot those are first whose last one starts sooner, if they are within the bound.
pub fn trees_before_are_first_or_not()
    ensures first { SoonerIsFirst }
    ensures later { LaterIsNotFirst }
    ensures high { NoneIsFirstWithinZero }
{}

/// A symbol may start where those before it and itself have trees within the bound.
pub fn symbols_may_start_or_not()
    ensures sooner { MayStartSooner }
    ensures later { MayStartLater }
    ensures literal { LiteralMayStart }
    ensures before { NothingLeadsToIt }
    ensures behind { NothingComesOfIt }
    ensures high_before { TooHighBefore }
    ensures high { TooHighItself }
{}

/// A start is the least, or another is less, or there is none.
pub fn one_start_is_the_least()
    ensures least { SoonerIsLeast }
    ensures only { OnlyIsLeast }
    ensures later { LaterIsNotLeast }
    ensures none { NoneIsLeastWithinZero }
{}

/// A slot ends the first alternative within the bound, or one that is too high, or a later one, or none.
pub fn slots_end_alternatives_or_not()
    ensures literal { LiteralEndsWithinZero }
    ensures call { CallEndsWithinOne }
    ensures rule { LaterRuleHasItsEnd }
    ensures high { CallIsTooHigh }
    ensures later { LiteralIsNotFirst }
    ensures beginning { BeginningIsNoEnd }
{}

/// A symbol is of use with its span: a rule where a useful subtree has it, and every other symbol.
pub fn symbols_are_of_use_or_not()
    ensures rule { RuleIsOfUse }
    ensures literal { LiteralIsOfUse }
    ensures insertion { InsertionIsOfUse }
    ensures not { RuleIsOfNoUse }
{}

/// A slot is of use with its span: where a useful subtree has it, and where its dot is at the beginning.
pub fn slots_are_of_use_or_not()
    ensures slot { SlotIsOfUse }
    ensures beginning { BeginningIsOfUse }
    ensures not { SlotIsOfNoUse }
    ensures past { NoSlotIsOfNoUse }
{}

/// How many tasks trees make.
pub fn trees_make_tasks()
    ensures text { TextIsOneTask }
    ensures insertion { InsertionIsOneTask }
    ensures node { EmptyIsThreeTasks }
    ensures no_trees { NoTreeIsOneTask }
    ensures one { OneTextIsThreeTasks }
    ensures two { HalvesAreElevenTasks }
{}

/// The end of a node gives its step, and is one task.
pub fn ends_give_steps()
    ensures steps { LeaveGivesItsStep }
    ensures less { LeaveGivesNoLess }
    ensures size { LeaveIsOneTask }
{}

/// The first tree of a symbol gives its steps and its tasks, if it is within the bound and its span is of use.
pub fn trees_give_steps_or_not()
    ensures steps { TreeGivesItsSteps }
    ensures mark { MarkIsThatOfTheCall }
    ensures less { TreeIsLeft }
    ensures size { TreeIsFiveTasks }
    ensures high { TreeIsTooHigh }
    ensures useless { TreeIsOfNoUse }
{}

/// The first trees before a slot's dot give their steps and their tasks, if they are within the bound and their span is of use.
pub fn slots_give_steps_or_not()
    ensures steps { TreesGiveTheirSteps }
    ensures symbols { DeletedIsNotShown }
    ensures order { TreesAreInOrder }
    ensures size { TreesAreElevenTasks }
    ensures high { TreesAreTooHigh }
    ensures useless { TreesAreOfNoUse }
{}

/// Several tasks give their steps, those of the last task first.
pub fn tasks_give_steps_or_not()
    ensures none { NoTaskGivesNothing }
    ensures no_step { NoTaskGivesNoStep }
    ensures no_size { NoTaskIsNone }
    ensures order { LastComesFirst }
    ensures exchanged { FirstComesLast }
    ensures size { SizesAreAdded }
{}

/// A task is done by steps, and by fewer tasks behind the others.
pub fn tasks_are_done_or_not()
    ensures entered { NodeIsEntered }
    ensures tasks { OtherTaskIsKept }
    ensures steps { OtherStepIsNotGiven }
    ensures nothing { NothingIsNotEnough }
    ensures same { SameTaskIsNoLess }
{}

/// A task is done, whatever it stands for; or it is not done; or it stands for nothing.
pub fn tasks_are_done_whatever_they_give()
    ensures done { LeaveIsDoneByItsStep }
    ensures not { LeaveIsNotDoneByNothing }
    ensures nothing { NoTreeIsDoneByNothing }
{}

/// A task can be done where it stands for something.
pub fn tasks_can_be_done_or_not()
    ensures can { TreesCanBeDone }
    ensures not { TooHighCannotBeDone }
{}
