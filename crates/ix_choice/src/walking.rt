ghost use Rattle.std.specs.Prelude.{◌≡◌, ◌<◌, ◌+◌, ℕ, List, [], ◌∷◌, ◌++◌, length, None, OnOk, IfOk};
ghost use Rattle.ix_model.specs.declared.grammar.Grammar.{Grammar as AGrammar};
ghost use Rattle.ix_model.specs.declared.rules.Kind.TheVariants.{Named};
ghost use Rattle.ix_model.specs.declared.rules.Sym.TheVariants as sym;
ghost use Rattle.ix_model.specs.declared.step.Step.{Step as AStep};
ghost use Rattle.ix_model.specs.Derivations.Order.{First};
ghost use Rattle.ix_model.specs.Derivations.Trees.{Tree};
ghost use Rattle.ix_model.specs.Documents.Bare.{bare_root};
ghost use Rattle.ix_model.specs.Documents.WalkGives.{AreWalks};
ghost use Rattle.ix_model.specs.Expansion.FlatOrder.{FlatFirst};
ghost use Rattle.ix_model.specs.Expansion.FlatTrees.{FlatTree};
ghost use Rattle.ix_model.specs.Expansion.Numbered.{kind_at};
ghost use Rattle.ix_model.specs.Expansion.Planned.{IsPlanOf, IsPlanned};
ghost use Rattle.ix_model.specs.Expansion.Walk.{walk as a_walk};
ghost use Rattle.ix_subtrees.specs.Sets.{IsSetOf};
ghost use Rattle.ix_first_laws.specs.Nested.{IsNested};
ghost use Rattle.ix_height.specs.Heights.{AreHeights};
ghost use Rattle.ix_choice.specs.declared.task.Task.TheVariants as task;
ghost use Rattle.ix_choice.specs.Tasks.{CanDo, Does};

use crate::forest::Forest;
use crate::task::Task;
use ix_height::Heights;
use ix_model::{Kind, Mark, Plan, Step, Sym};
use ix_subtrees::SubSet;
use std::alloc::{AllocError, Global};

// The last symbol before the dot, and those before it.
fn do_before(
    forest: &Forest,
    slot: u32,
    low: u32,
    high: u32,
    bound: u64,
    tasks: &mut Vec<Task>,
) -> Result<(), AllocError>
    requires planned { IsPlanned forest.now }
    requires nested { IsNested forest.now.rules }
    requires can { CanDo forest.now (task.Before slot low high bound) }
    ensures { OnOk result ((steps : List AStep) → Does forest.now (task.Before slot low high bound) tasks.old.items tasks.new.items steps steps) }
{
    if let Some((before, sym)) = forest.before(slot) {
        let pivot = forest.start(before, sym, low, high, bound);
        let last = Task::Tree {
            sym,
            low: pivot,
            high,
            bound,
        };
        let others = Task::Before {
            slot: before,
            low,
            high: pivot,
            bound,
        };
        // The last task is done first.
        tasks.extend_from_slice(&[last, others])?;
    }
    Ok(())
}

// A node of a helper rule, which has no steps of its own and leaves its bound to its symbols.
fn do_helper(
    forest: &Forest,
    rule: u32,
    mark: Option<Mark>,
    low: u32,
    high: u32,
    bound: u64,
    tasks: &mut Vec<Task>,
) -> Result<(), AllocError>
    requires planned { IsPlanned forest.now }
    requires nested { IsNested forest.now.rules }
    requires can { CanDo forest.now (task.Tree (sym.Rule rule mark) low high bound) }
    requires helper { kind_at forest.now.rules rule ≡ Named → ⊥ }
    ensures { OnOk result ((steps : List AStep) → Does forest.now (task.Tree (sym.Rule rule mark) low high bound) tasks.old.items tasks.new.items steps steps) }
{
    let slot = forest.alternative(rule, low, high, bound);
    let inside = Task::Before {
        slot,
        low,
        high,
        bound,
    };
    tasks.push(inside)?;
    Ok(())
}

// A node of a named rule. It has the least height, and its symbols one less.
fn do_named(
    forest: &Forest,
    rule: u32,
    mark: Option<Mark>,
    low: u32,
    high: u32,
    tasks: &mut Vec<Task>,
    steps: &mut Vec<Step>,
) -> Result<(), AllocError>
    requires planned { IsPlanned forest.now }
    requires nested { IsNested forest.now.rules }
    requires can { (b : ℕ) × CanDo forest.now (task.Tree (sym.Rule rule mark) low high b) }
    requires named { kind_at forest.now.rules rule ≡ Named }
    ensures { OnOk result ((b : ℕ) → Does forest.now (task.Tree (sym.Rule rule mark) low high b) tasks.old.items tasks.new.items steps.old.items steps.new.items) }
{
    let lowered = forest.rule_height(rule, low, high) - 1;
    let slot = forest.alternative(rule, low, high, lowered);
    let mark = mark.unwrap_or(forest.mark(rule));
    let inside = Task::Before {
        slot,
        low,
        high,
        bound: lowered,
    };
    steps.push(Step::Enter { name: rule, mark })?;
    tasks.extend_from_slice(&[Task::Leave, inside])?;
    Ok(())
}

// The first tree of a symbol.
#[tactic(auto, using(crate::proofs::Doing::text_done, crate::proofs::Doing::insert_done))]
fn do_tree(
    forest: &Forest,
    sym: Sym,
    low: u32,
    high: u32,
    bound: u64,
    tasks: &mut Vec<Task>,
    steps: &mut Vec<Step>,
) -> Result<(), AllocError>
    requires planned { IsPlanned forest.now }
    requires nested { IsNested forest.now.rules }
    requires can { CanDo forest.now (task.Tree sym low high bound) }
    ensures { OnOk result (Does forest.now (task.Tree sym low high bound) tasks.old.items tasks.new.items steps.old.items steps.new.items) }
{
    match sym {
        Sym::Term { terminal: _, shown } => {
            steps.push(Step::Text { low, high, shown })?;
            Ok(())
        }
        Sym::Insert { insert } => {
            steps.push(Step::Insert { insert })?;
            Ok(())
        }
        Sym::Rule { rule, mark } => match forest.kind(rule) {
            Kind::Named => do_named(forest, rule, mark, low, high, tasks, steps),
            _ => do_helper(forest, rule, mark, low, high, bound, tasks),
        },
    }
}

#[tactic(auto, using(crate::proofs::Doing::leave_done))]
fn do_task(
    forest: &Forest,
    task: Task,
    tasks: &mut Vec<Task>,
    steps: &mut Vec<Step>,
) -> Result<(), AllocError>
    requires planned { IsPlanned forest.now }
    requires nested { IsNested forest.now.rules }
    requires can { CanDo forest.now task }
    ensures { OnOk result (Does forest.now task tasks.old.items tasks.new.items steps.old.items steps.new.items) }
{
    match task {
        Task::Leave => {
            steps.push(Step::Leave)?;
            Ok(())
        }
        Task::Tree {
            sym,
            low,
            high,
            bound,
        } => do_tree(forest, sym, low, high, bound, tasks, steps),
        Task::Before {
            slot,
            low,
            high,
            bound,
        } => do_before(forest, slot, low, high, bound, tasks),
    }
}

/// The steps of the first derivation of the text, in preorder.
///
/// Of two derivations the lower one is first. Of equally high ones it is the one with the earlier
/// alternative of its rule; then the one whose last part starts sooner; then the parts before the
/// last count, and at last the last one, each in the same way. An option that is there is before an
/// absent one, a repetition of fewer items before one of more. The order is this project's own:
/// Invisible XML 1.0 leaves it open which derivation of an ambiguous text is taken.
///
/// The set is the plan's, with a derivation in it, and the heights are those of the plan. An error
/// is want of memory.
pub fn walk(
    alloc: Global,
    plan: &Plan,
    set: &SubSet,
    heights: &Heights,
) -> Result<Vec<Step>, AllocError>
    requires of_plan { IsSetOf plan.now set.now }
    requires heights { AreHeights plan.now heights.now }
    requires nested { IsNested plan.now.rules }
    requires root { 0 < length set.now.ways }
    ensures numbered { IfOk result (λ steps. (e : FlatTree) × FlatFirst plan.now e × (steps.items ≡ a_walk plan.now.rules e (sym.Rule 0 None))) }
    ensures written { (g : AGrammar) → IsPlanOf g plan.now → IfOk result (λ steps. (d : Tree) × First g plan.now.text d × AreWalks plan.now.rules (bare_root g d) steps.items) }
{
    let forest = Forest::of(plan, set, heights);
    let end = plan.text().len() as u32;
    let bound = forest.rule_height(0, 0, end);
    let mut tasks = Vec::new(alloc);
    let mut steps = Vec::new(alloc);
    tasks.push(Task::Tree {
        sym: Sym::Rule {
            rule: 0,
            mark: None,
        },
        low: 0,
        high: end,
        bound,
    })?;
    while let Some(task) = tasks.pop() {
        do_task(&forest, task, &mut tasks, &mut steps)?;
    }
    Ok(steps)
}
