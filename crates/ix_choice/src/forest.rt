ghost use Rattle.std.specs.Prelude.{◌≡◌, ◌↔◌, ◌<◌, ◌+◌, ℕ, IsTrue, None, IfSome, length};
ghost use Rattle.ix_model.specs.declared.rules.Kind.TheVariants.{Named};
ghost use Rattle.ix_model.specs.Expansion.FlatDerives.{FlatDerives};
ghost use Rattle.ix_model.specs.Expansion.FlatTrees.{FlatTree, FlatTrees};
ghost use Rattle.ix_model.specs.Expansion.Numbered.{kind_at, lines_at, mark_at, syms_at};
ghost use Rattle.ix_model.specs.Expansion.Planned.{IsPlanned};
ghost use Rattle.ix_model.specs.Expansion.SlotPlaces.{HasNext};
ghost use Rattle.ix_model.specs.Expansion.Slots.{IsSlot, info_at};
ghost use Rattle.ix_model.specs.Closure.Useful.{sub_at, Useful};
ghost use Rattle.ix_subtrees.specs.Sets.{IsSetOf};
ghost use Rattle.ix_first_laws.specs.Least.{AltWithin, IsLeastHeight};
ghost use Rattle.ix_first_laws.specs.Nested.{IsNested};
ghost use Rattle.ix_height.specs.Heights.{AreHeights, IsLeastOf};
ghost use Rattle.ix_height.specs.Spans.{IsOfUse, of_rule, of_slot};
ghost use Rattle.ix_choice.specs.SlotTrees.{AreBefore, EndsLeastAlt, HasHeightBefore, HasSymHeight, IsLeastStart, IsSlotOfUse, IsSymOfUse, MayStart};

use ix_height::Heights;
use ix_model::{Kind, Mark, Plan, Sym};
use ix_subtrees::SubSet;
use std::marker::Model;

/// A plan with its useful subtrees and their least heights: all trees of its derivations.
#[derive(Drop)]
pub struct Forest<'f> {
    plan: &'f Plan,
    set: &'f SubSet,
    heights: &'f Heights,
}

impl<'f> Model for Forest<'f> {
    ghost use Rattle.ix_model.specs.Expansion.Parts.{Parts};
    ghost use Rattle.ix_model.specs.Expansion.Planned.{IsPlanned};
    ghost use Rattle.ix_subtrees.specs.Sets.{IsSetOf};
    ghost use Rattle.ix_height.specs.Heights.{AreHeights};

    ghost Value = { Parts };

    ghost view = { λ f. f.plan.now };

    ghost invariant = { λ f. IsPlanned f.plan.now × IsSetOf f.plan.now f.set.now × AreHeights f.plan.now f.heights.now };
}

impl<'f> Forest<'f> {
    pub fn of(plan: &'f Plan, set: &'f SubSet, heights: &'f Heights) -> Forest<'f>
        requires set { IsSetOf plan.now set.now }
        requires heights { AreHeights plan.now heights.now }
        ensures plan { result ≡ plan.now }
        ensures planned { IsPlanned plan.now }
    {
        // What holds of every plan.
        let _ = plan.slot_count();
        Forest { plan, set, heights }
    }

    pub fn kind(&self, rule: u32) -> Kind
        requires { rule < length self.now.rules.flats }
        ensures { result ≡ kind_at self.now.rules rule }
    {
        self.plan.kind(rule)
    }

    /// The mark of a named rule.
    pub fn mark(&self, rule: u32) -> Mark
        requires rule { rule < length self.now.rules.flats }
        requires named { kind_at self.now.rules rule ≡ Named }
        ensures { result ≡ mark_at self.now.rules rule }
    {
        self.plan.rule_mark(rule)
    }

    /// The slot with its dot before the last symbol that stands before the slot's dot, and that symbol.
    pub fn before(&self, slot: u32) -> Option<(u32, Sym)>
        requires { slot < length self.now.slots }
        ensures some { IfSome result (λ p. (p.0 + 1 ≡ slot) × HasNext self.now p.0 slot p.1) }
        ensures none { result ≡ None → (info_at self.now slot).dot ≡ 0 }
    {
        // The first slot has its dot at a beginning, by what holds of every plan.
        let _ = &self.plan;
        if slot == 0 {
            return None;
        }
        match self.plan.sym(slot - 1) {
            None => None,
            Some(sym) => Some((slot - 1, sym)),
        }
    }

    /// The least height of the rule's trees over the span.
    pub fn rule_height(&self, rule: u32, low: u32, high: u32) -> u64
        requires { IsOfUse self.now (of_rule rule low high) }
        ensures { IsLeastHeight self.now rule low high result }
    {
        self.heights.of_rule(rule, low, high).unwrap()
    }

    // The least height of the symbol's trees over the span.
    fn sym_height(&self, sym: Sym, low: u32, high: u32) -> u64
        requires used { IsSymOfUse self.now sym low high }
        requires tree { (d : FlatTree) × FlatDerives self.now d sym low high }
        ensures { IsLeastOf (HasSymHeight self.now sym low high) result }
    {
        match sym {
            Sym::Rule { rule, mark: _ } => self.rule_height(rule, low, high),
            Sym::Term { .. } => 0,
            Sym::Insert { .. } => 0,
        }
    }

    // The least that the highest of the trees before the dot can be. Nothing is 0 high.
    fn height_before(&self, slot: u32, low: u32, high: u32) -> u64
        requires used { IsSlotOfUse self.now slot low high }
        requires trees { (ds : FlatTrees) × AreBefore self.now slot low high ds }
        ensures { IsLeastOf (HasHeightBefore self.now slot low high) result }
    {
        self.heights.of_slot(slot, low, high).unwrap_or(0)
    }

    // Whether the symbol may start at the pivot.
    fn may_start(&self, before: u32, sym: Sym, low: u32, pivot: u32, high: u32, bound: u64) -> bool
        requires next { HasNext self.now before (before + 1) sym }
        requires useful { Useful self.now (sub_at (before + 1) low pivot high) }
        ensures { IsTrue result ↔ MayStart self.now bound before sym low high pivot }
    {
        // The slots are the plan's, by what holds of every plan.
        let _ = &self.plan;
        let first = self.height_before(before, low, pivot);
        let last = self.sym_height(sym, pivot, high);
        first.max(last) <= bound
    }

    /// The least position at which the symbol after the dot may start.
    pub fn start(&self, before: u32, sym: Sym, low: u32, high: u32, bound: u64) -> u32
        requires next { HasNext self.now before (before + 1) sym }
        requires used { IsOfUse self.now (of_slot (before + 1) low high) }
        requires some { (k : ℕ) × MayStart self.now bound before sym low high k }
        ensures { IsLeastStart self.now bound before sym low high result }
    {
        let pivots = self.set.ways(before + 1, low, high);
        // Some pivot is right, so where no earlier one is, the last is: most often the only one.
        for at in 1..pivots.len() {
            let pivot = pivots[at - 1];
            if self.may_start(before, sym, low, pivot, high, bound) {
                return pivot;
            }
        }
        pivots[pivots.len() - 1]
    }

    // Whether the alternative has trees that are no higher than the bound.
    fn fits(&self, rule: u32, alt: u32, low: u32, high: u32, bound: u64) -> Option<u32>
        requires used { (s : ℕ) × IsSlot self.now s rule alt (length (syms_at self.now.rules rule alt)) × IsOfUse self.now (of_slot s low high) }
        requires rule { rule < length self.now.rules.flats }
        requires alt { alt < length (lines_at self.now.rules rule) }
        ensures some { IfSome result (λ s. IsSlot self.now s rule alt (length (syms_at self.now.rules rule alt)) × ((ds : FlatTrees) × AltWithin self.now bound rule low high alt ds)) }
        ensures none { result ≡ None → (ds : FlatTrees) → AltWithin self.now bound rule low high alt ds → ⊥ }
    {
        let last = self.plan.last(rule, alt);
        if self.height_before(last, low, high) <= bound {
            Some(last)
        } else {
            None
        }
    }

    /// The end of the first alternative that has trees no higher than the bound.
    pub fn alternative(&self, rule: u32, low: u32, high: u32, bound: u64) -> u32
        requires used { IsOfUse self.now (of_rule rule low high) }
        requires some { (a : ℕ) × (ds : FlatTrees) × (a < length (lines_at self.now.rules rule)) × AltWithin self.now bound rule low high a ds }
        ensures { EndsLeastAlt self.now bound rule low high result }
    {
        let alts = self.set.alts(rule, low, high);
        // Some alternative fits, so where no earlier one does, the last does.
        for at in 1..alts.len() {
            if let Some(last) = self.fits(rule, alts[at - 1], low, high, bound) {
                return last;
            }
        }
        self.plan.last(rule, alts[alts.len() - 1])
    }
}
