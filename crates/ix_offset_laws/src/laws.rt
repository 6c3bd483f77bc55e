//! Laws of the furthest descriptor, and worked examples of it and of what is entered. The contract is the law; the body is empty.
ghost use Rattle.std.specs.Prelude.{[], codes};
ghost use Rattle.ix_model.specs.declared.grammar.Term.{One, Opt};
ghost use Rattle.ix_model.specs.Derivations.Entered.{Entered};
ghost use Rattle.ix_model.specs.Derivations.Offset.{IsReached, Offset};
ghost use Rattle.ix_model.specs.Expansion.Planned.{IsPlanned, IsPlanOf};
ghost use Rattle.ix_examples.specs.SmallGrammars.{literal, quoted, inserted, of_term, of_terms, a_or_b, commas};
ghost use Rattle.ix_examples.specs.SmallRules.{a_list};
ghost use Rattle.ix_examples.specs.SmallPlans.{only_a};
ghost use Rattle.ix_offset_laws.specs.Examples.{commas_plan, no_rules, a_plus, either, two_of_a_name};
ghost use Rattle.ix_offset_laws.specs.Furthest.{HasDotAt, Furthest};
ghost use Rattle.ix_offset_laws.specs.OffsetLaws.{DescriptorsAreReached, ReachedHaveDescriptors, FurthestIsOffset, FurthestIsOne};

/// Where a descriptor has its dot, the text begins, or a literal or set that is entered ends.
pub fn descriptors_are_reached()
    ensures { DescriptorsAreReached }
{}

/// Where a literal or set that is entered ends, a descriptor has its dot.
pub fn reached_have_descriptors()
    ensures { ReachedHaveDescriptors }
{}

/// The furthest position of a descriptor is the offset of the text. Both premises hold of a plan that is made of the
/// rules of a conforming grammar and a text of characters.
pub fn furthest_is_offset()
    ensures { FurthestIsOffset }
{}

/// No two positions are the furthest.
pub fn furthest_is_one()
    ensures { FurthestIsOne }
{}

/// A descriptor's dot stands before the literal of `S: "a".`, and behind it where it matches.
pub fn dots_of_one_literal()
    ensures before { HasDotAt (only_a (codes "ab")) 0 }
    ensures behind { HasDotAt (only_a (codes "ab")) 1 }
    ensures not_behind_all { ¬ (HasDotAt (only_a (codes "ab")) 2) }
    ensures not_without_match { ¬ (HasDotAt (only_a (codes "b")) 1) }
    ensures not_without_rules { ¬ (HasDotAt (no_rules (codes "a")) 0) }
{}

/// The furthest dot stands behind what is read, and at 0 where nothing is read or no rule is there.
pub fn furthest_dots()
    ensures shorter { Furthest (only_a (codes "ab")) 1 }
    ensures not_nothing { ¬ (Furthest (only_a (codes "ab")) 0) }
    ensures no_match { Furthest (only_a (codes "b")) 0 }
    ensures not_unread { ¬ (Furthest (only_a (codes "b")) 1) }
    ensures no_rule { Furthest (no_rules (codes "a")) 0 }
    ensures not_of_no_rule { ¬ (Furthest (no_rules (codes "a")) 1) }
{}

/// On `aa` the second item of `S: "a"++",".` is not read, since no separator stands before it.
pub fn missing_separator()
    ensures planned { IsPlanned (commas_plan (codes "aa")) }
    ensures plan { IsPlanOf (of_term commas) (commas_plan (codes "aa")) }
    ensures furthest { Furthest (commas_plan (codes "aa")) 1 }
    ensures not_both { ¬ (Furthest (commas_plan (codes "aa")) 2) }
    ensures offset { Offset (of_term commas) (codes "aa") 1 }
{}

/// An insertion is entered and reaches nothing; an empty literal reaches where it begins.
pub fn insertions_and_empty_literals()
    ensures entered { Entered (of_term (inserted (codes "x"))) [] (inserted (codes "x")) 0 }
    ensures not_reached { ¬ (IsReached (of_term (inserted (codes "x"))) [] 0) }
    ensures empty { IsReached (of_term (quoted [])) [] 0 }
{}

/// A call enters each rule of its name, where several rules have it.
pub fn rules_of_one_name()
    ensures earlier { Entered two_of_a_name (codes "b") (quoted (codes "a")) 0 }
    ensures later { Entered two_of_a_name (codes "b") (quoted (codes "b")) 0 }
{}

/// A later alternative of the first rule is entered at the front, and what a group or an option holds where that is.
pub fn entered_later()
    ensures alternative { Entered either (codes "b") (quoted (codes "b")) 0 }
    ensures group { Entered (of_terms (quoted (codes "c")) (One a_or_b)) (codes "ca") (quoted (codes "a")) 1 }
    ensures option { Entered (of_terms (quoted (codes "c")) (Opt (literal (codes "a")))) (codes "c") (quoted (codes "a")) 1 }
{}

/// Items of either repetition are entered behind items, with a separator or without, and nowhere else.
pub fn items_behind_items()
    ensures item { Entered (of_term a_plus) (codes "aa") (quoted (codes "a")) 1 }
    ensures separated { Entered (of_term a_list) (codes "a,") (quoted (codes "a")) 2 }
    ensures nowhere_else { Offset (of_term a_plus) (codes "ba") 0 }
{}
