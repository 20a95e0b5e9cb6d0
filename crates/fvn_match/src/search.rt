//! The search for a matcher: pairs first, then sums.
ghost use Rattle.std.specs.Prelude.{◌≡◌, ◌*◌, ◌≤◌, [], ◌∷◌, length, IfOk};
ghost use Rattle.std.specs.List.{AllZip};
ghost use Rattle.fvn_terms.specs.Signature.{axioms};
ghost use Rattle.fvn_terms.specs.Equality.{IsAssociative};
ghost use Rattle.fvn_forms.specs.Flat.{fvar};
ghost use Rattle.fvn_flat.specs.Forms.{head_of};
ghost use Rattle.fvn_match.specs.inner.Choices.{quotients};
ghost use Rattle.fvn_match.specs.inner.Variables.{AreOnce};
ghost use Rattle.fvn_match.specs.inner.Summands.{references};
ghost use Rattle.fvn_match.specs.inner.Goals.{IsPair, StateFits};
ghost use Rattle.fvn_match.specs.inner.Searching.{
  IsCrossing,
  SumStateFits,
  IsGroup,
  SearchesGoals,
  SearchesPair,
  SearchesLists,
  SearchesEither,
  SearchesSum,
  SearchesChoice,
  SearchesChoices,
};

use crate::answers::answer;
use crate::apart::{may_make, untouched};
use crate::choices::{advanced, quotients, reduced, zeros};
use crate::goals::{Bound, Goals, Latest, Pairs, SumGoal};
use crate::known::{has_known, without_known};
use crate::pairing::{has_sort_of, lacks_sort};
use crate::refusing::is_hopeless;
use crate::rests::rests_last;
use crate::summands::{after, alike, count_pieces, is_headed, summands};
use crate::waiting::{first_sum, other_sums, with_sum};
use crate::wholes::{are_zero, room, whole};
use fvn_flat::{Flat, Subst};
use fvn_signature::Signature;
use fvn_terms::{NoMemory, OpId, Var};
use std::alloc::Global;

// A search for the values of some variables, so deep in choices.
#[derive(Clone, Copy)]
pub(crate) struct Search<'s> {
    pub(crate) alloc: Global,
    pub(crate) sig: &'s Signature,
    pub(crate) vars: &'s [Var],
    pub(crate) depth: usize,
}

// So many pairs and groups of summands may be chosen for one within another; each takes stack. A sum of variables on a
// left side has fewer.
const DEEPEST: usize = 210;

impl Search<'_> {
    // Pairs in their order, and when there are none left, sums.
    #[cycle(search)]
    pub(crate) fn solve(
        &self,
        goals: &Goals<'_>,
        sums: &[SumGoal<'_>],
        bound: &Bound<'_>,
    ) -> Result<Option<Subst>, NoMemory>
        requires vars { AreOnce self.now.vars.now }
        requires state { StateFits self.now.sig.now goals.now sums.now bound.now }
        ensures { IfOk result (SearchesGoals self.now goals.now sums.now bound.now) }
    {
        match goals {
            Goals::Lists(ps, ts, rest) => self.lists(*ps, *ts, &**rest, &*sums, &*bound),
            Goals::Pairs(pairs, rest) => {
                self.again(
                    pairs.patterns,
                    pairs.targets,
                    pairs.seen,
                    &**rest,
                    &*sums,
                    &*bound,
                )
            }
            Goals::Done => {
                if sums.is_empty() {
                    let s = answer(self.alloc, self.vars, bound)?;
                    return Ok(Some(s));
                }
                self.sum(first_sum(&*sums), other_sums(&*sums), &*bound)
            }
        }
    }

    // The pairs of two lists, taken apart as far as there is nothing to choose, then other goals.
    #[cycle(search)]
    fn lists<'x>(
        &self,
        ps: &'x [Flat],
        ts: &'x [Flat],
        rest: &Goals<'_>,
        sums: &[SumGoal<'_>],
        bound: &'x Bound<'x>,
    ) -> Result<Option<Subst>, NoMemory>
        requires vars { AreOnce self.now.vars.now }
        requires lengths { length ps.now ≡ length ts.now }
        requires pairs { AllZip (IsPair self.now.sig.now) ps.now ts.now }
        requires state { StateFits self.now.sig.now rest.now sums.now bound.now }
        ensures { IfOk result (SearchesLists self.now ps.now ts.now rest.now sums.now bound.now) }
    {
        let seen = bound.count();
        let mut parts = untouched(self.alloc);
        let can = parts.take_all(self.sig, &*bound, &*ps, &*ts)?;
        if !can {
            return Ok(None);
        }
        let patterns = parts.patterns.as_slice();
        let targets = parts.targets.as_slice();
        let values = Latest {
            pairs: parts.values.as_slice(),
        };
        let more = Bound::Several(values, &*bound);
        self.again(patterns, targets, seen, &*rest, &*sums, &more)
    }

    // Pairs that were kept, taken apart by what was bound since, then other goals.
    #[cycle(search)]
    fn again<'x>(
        &self,
        ps: &'x [&'x Flat],
        ts: &'x [&'x Flat],
        seen: usize,
        rest: &Goals<'_>,
        sums: &[SumGoal<'_>],
        bound: &'x Bound<'x>,
    ) -> Result<Option<Subst>, NoMemory>
        requires vars { AreOnce self.now.vars.now }
        requires lengths { length ps.now ≡ length ts.now }
        requires pairs { AllZip (IsPair self.now.sig.now) (references ps.now) (references ts.now) }
        requires state { StateFits self.now.sig.now rest.now sums.now bound.now }
        ensures { IfOk result (SearchesLists self.now (references ps.now) (references ts.now)
            rest.now sums.now bound.now) }
    {
        let known = bound.count();
        if known == seen {
            return self.one_by_one(&*ps, &*ts, seen, &*rest, &*sums, &*bound);
        }
        let mut parts = untouched(self.alloc);
        let can = parts.take_each(self.sig, &*bound, &*ps, &*ts)?;
        if !can {
            return Ok(None);
        }
        let patterns = parts.patterns.as_slice();
        let targets = parts.targets.as_slice();
        let values = Latest {
            pairs: parts.values.as_slice(),
        };
        let more = Bound::Several(values, &*bound);
        self.one_by_one(patterns, targets, known, &*rest, &*sums, &more)
    }

    // The first of such pairs, if there are any, then the others and other goals.
    #[cycle(search)]
    fn one_by_one<'x>(
        &self,
        ps: &'x [&'x Flat],
        ts: &'x [&'x Flat],
        seen: usize,
        rest: &'x Goals<'x>,
        sums: &[SumGoal<'_>],
        bound: &Bound<'_>,
    ) -> Result<Option<Subst>, NoMemory>
        requires vars { AreOnce self.now.vars.now }
        requires lengths { length ps.now ≡ length ts.now }
        requires pairs { AllZip (IsPair self.now.sig.now) (references ps.now) (references ts.now) }
        requires state { StateFits self.now.sig.now rest.now sums.now bound.now }
        ensures { IfOk result (SearchesLists self.now (references ps.now) (references ts.now)
            rest.now sums.now bound.now) }
    {
        if ps.is_empty() {
            return self.solve(&*rest, &*sums, &*bound);
        }
        let others = Pairs {
            patterns: &ps[1..],
            targets: &ts[1..],
            seen,
        };
        let later = Goals::Pairs(others, &*rest);
        let deeper = Search {
            alloc: self.alloc,
            sig: self.sig,
            vars: self.vars,
            depth: self.depth.saturating_add(1),
        };
        deeper.pair(ps[0], ts[0], &later, &*sums, &*bound)
    }

    // One pair, then other goals.
    #[cycle(search)]
    fn pair(
        &self,
        p: &Flat,
        t: &Flat,
        rest: &Goals<'_>,
        sums: &[SumGoal<'_>],
        bound: &Bound<'_>,
    ) -> Result<Option<Subst>, NoMemory>
        requires vars { AreOnce self.now.vars.now }
        requires pair { IsPair self.now.sig.now p.now t.now }
        requires state { StateFits self.now.sig.now rest.now sums.now bound.now }
        ensures { IfOk result (SearchesPair self.now p.now t.now rest.now sums.now bound.now) }
    {
        if self.depth >= DEEPEST {
            return Err(NoMemory);
        }
        if let Some(x) = p.as_var() {
            return self.variable(x, &*t, &*rest, &*sums, &*bound);
        }
        let f = match p.head() {
            None => return Ok(None),
            Some(f) => f,
        };
        self.sig.recall_good();
        let axioms = self.sig.axioms(f);
        if axioms.is_sum() {
            return self.summed(f, &*p, &*t, &*rest, &*sums, &*bound);
        }
        if !is_headed(t, f) {
            return Ok(None);
        }
        if axioms.is_commutative() {
            return self.either(p.args(), t.args(), &*rest, &*sums, &*bound);
        }
        self.lists(p.args(), t.args(), &*rest, &*sums, &*bound)
    }

    // The value of a variable, then other goals.
    #[cycle(search)]
    #[inline(never)]
    fn variable<'x>(
        &self,
        x: Var,
        t: &'x Flat,
        rest: &Goals<'_>,
        sums: &[SumGoal<'_>],
        bound: &'x Bound<'x>,
    ) -> Result<Option<Subst>, NoMemory>
        requires vars { AreOnce self.now.vars.now }
        requires pair { IsPair self.now.sig.now (fvar x) t.now }
        requires state { StateFits self.now.sig.now rest.now sums.now bound.now }
        ensures { IfOk result (SearchesPair self.now (fvar x) t.now rest.now sums.now bound.now) }
    {
        match bound.get(x) {
            Some(v) => {
                if !v.same(t) {
                    return Ok(None);
                }
                self.solve(&*rest, &*sums, &*bound)
            }
            None => {
                if !has_sort_of(self.sig, x, t) {
                    return Ok(None);
                }
                let more = Bound::Bind(x, &*t, &*bound);
                self.solve(&*rest, &*sums, &more)
            }
        }
    }

    // Two pairs place by place, or else crosswise, then other goals.
    #[cycle(search)]
    #[inline(never)]
    fn either<'x>(
        &self,
        ps: &'x [Flat],
        ts: &'x [Flat],
        rest: &Goals<'_>,
        sums: &[SumGoal<'_>],
        bound: &'x Bound<'x>,
    ) -> Result<Option<Subst>, NoMemory>
        requires vars { AreOnce self.now.vars.now }
        requires patterns { length ps.now ≡ 2 }
        requires targets { length ts.now ≡ 2 }
        requires pairs { IsCrossing self.now.sig.now ps.now ts.now }
        requires state { StateFits self.now.sig.now rest.now sums.now bound.now }
        ensures { IfOk result (SearchesEither self.now ps.now ts.now rest.now sums.now bound.now) }
    {
        let t = &ts[0];
        let u = &ts[1];
        let found = self.way(&*ps, t, u, &*rest, &*sums, &*bound)?;
        if found.is_some() {
            return Ok(found);
        }
        self.way(&*ps, u, t, &*rest, &*sums, &*bound)
    }

    // Two pairs in one order of the targets, taken apart as far as there is nothing to choose, then other goals.
    #[cycle(search)]
    fn way<'x>(
        &self,
        ps: &'x [Flat],
        t: &'x Flat,
        u: &'x Flat,
        rest: &Goals<'_>,
        sums: &[SumGoal<'_>],
        bound: &'x Bound<'x>,
    ) -> Result<Option<Subst>, NoMemory>
        requires vars { AreOnce self.now.vars.now }
        requires two { length ps.now ≡ 2 }
        requires pairs { AllZip (IsPair self.now.sig.now) ps.now (t.now ∷ u.now ∷ []) }
        requires state { StateFits self.now.sig.now rest.now sums.now bound.now }
        ensures { IfOk result (SearchesLists self.now ps.now (t.now ∷ u.now ∷ [])
            rest.now sums.now bound.now) }
    {
        let seen = bound.count();
        let mut parts = untouched(self.alloc);
        let can = parts.take_both(self.sig, &*bound, &*ps, &*t, &*u)?;
        if !can {
            return Ok(None);
        }
        let patterns = parts.patterns.as_slice();
        let targets = parts.targets.as_slice();
        let values = Latest {
            pairs: parts.values.as_slice(),
        };
        let more = Bound::Several(values, &*bound);
        self.again(patterns, targets, seen, &*rest, &*sums, &more)
    }

    // Other goals, then the summands of a pair.
    #[cycle(search)]
    #[inline(never)]
    fn summed(
        &self,
        f: OpId,
        p: &Flat,
        t: &Flat,
        rest: &Goals<'_>,
        sums: &[SumGoal<'_>],
        bound: &Bound<'_>,
    ) -> Result<Option<Subst>, NoMemory>
        requires vars { AreOnce self.now.vars.now }
        requires head { head_of p.now ≡ Some f }
        requires associative { IsAssociative (axioms self.now.sig.now f) }
        requires pair { IsPair self.now.sig.now p.now t.now }
        requires state { StateFits self.now.sig.now rest.now sums.now bound.now }
        ensures { IfOk result (SearchesPair self.now p.now t.now rest.now sums.now bound.now) }
    {
        self.sig.recall_good();
        if lacks_sort(self.sig, p, t) {
            return Ok(None);
        }
        let patterns = rests_last(self.alloc, self.sig, f, p.args())?;
        let counted = count_pieces(self.alloc, summands(self.sig, f, t))?;
        let goal = SumGoal {
            op: f,
            patterns: patterns.as_slice(),
            pieces: counted.pieces.as_slice(),
            left: counted.left.as_slice(),
            seen: 0,
        };
        let more = with_sum(self.alloc, goal, &*sums)?;
        self.solve(&*rest, more.as_slice(), &*bound)
    }

    // A sum without what is known of it, then other sums.
    #[cycle(search)]
    #[inline(never)]
    fn sum(
        &self,
        goal: &SumGoal<'_>,
        sums: &[SumGoal<'_>],
        bound: &Bound<'_>,
    ) -> Result<Option<Subst>, NoMemory>
        requires vars { AreOnce self.now.vars.now }
        requires state { SumStateFits self.now.sig.now goal.now sums.now bound.now }
        ensures { IfOk result (SearchesSum self.now goal.now sums.now bound.now) }
    {
        if is_hopeless(self.sig, goal) {
            return Ok(None);
        }
        let seen = bound.count();
        if !has_known(goal, bound, seen) {
            let same = SumGoal {
                op: goal.op,
                patterns: goal.patterns,
                pieces: goal.pieces,
                left: goal.left,
                seen,
            };
            return self.pick(&same, &*sums, &*bound);
        }
        let open = match without_known(self.alloc, self.sig, &*goal, &*bound)? {
            None => return Ok(None),
            Some(open) => open,
        };
        let smaller = SumGoal {
            op: goal.op,
            patterns: open.patterns.as_slice(),
            pieces: goal.pieces,
            left: open.left.as_slice(),
            seen,
        };
        self.pick(&smaller, &*sums, &*bound)
    }

    // The first pattern of a sum, with what may be its summands, then what is left.
    #[cycle(search)]
    fn pick(
        &self,
        goal: &SumGoal<'_>,
        sums: &[SumGoal<'_>],
        bound: &Bound<'_>,
    ) -> Result<Option<Subst>, NoMemory>
        requires vars { AreOnce self.now.vars.now }
        requires state { SumStateFits self.now.sig.now goal.now sums.now bound.now }
        ensures { IfOk result (SearchesSum self.now goal.now sums.now bound.now) }
    {
        if goal.patterns.is_empty() {
            if !are_zero(goal.left) {
                return Ok(None);
            }
            return self.solve(&Goals::Done, &*sums, &*bound);
        }
        let p = goal.patterns[0];
        let k = alike(goal.patterns);
        let limits = quotients(self.alloc, goal.left, k)?;
        if k == goal.patterns.len() {
            return self.choose(&*goal, &*p, k, limits.as_slice(), &*sums, &*bound);
        }
        let room = room(self.sig, goal, p, k);
        self.choose_any(&*goal, &*p, k, limits.as_slice(), room, &*sums, &*bound)
    }

    // Each choice of summands in turn for the first pattern of a sum, then what is left.
    #[cycle(search)]
    #[inline(never)]
    fn choose_any(
        &self,
        goal: &SumGoal<'_>,
        p: &Flat,
        k: usize,
        limits: &[usize],
        room: usize,
        sums: &[SumGoal<'_>],
        bound: &Bound<'_>,
    ) -> Result<Option<Subst>, NoMemory>
        requires vars { AreOnce self.now.vars.now }
        requires state { SumStateFits self.now.sig.now goal.now sums.now bound.now }
        requires group { IsGroup self.now.sig.now goal.now p.now k }
        requires within { k ≤ length goal.now.patterns.now }
        requires limits { limits.now ≡ quotients k goal.now.left.now }
        ensures { IfOk result (SearchesChoices self.now goal.now p.now k limits.now room
            sums.now bound.now) }
    {
        let mut chosen = zeros(self.alloc, limits.len())?;
        loop {
            let found = self.choose(&*goal, &*p, k, chosen.as_slice(), &*sums, &*bound)?;
            if found.is_some() {
                return Ok(found);
            }
            chosen = match advanced(chosen, limits, room) {
                None => return Ok(None),
                Some(next) => next,
            };
        }
    }

    // One choice of summands for the first pattern of a sum, then what is left.
    #[cycle(search)]
    fn choose(
        &self,
        goal: &SumGoal<'_>,
        p: &Flat,
        k: usize,
        chosen: &[usize],
        sums: &[SumGoal<'_>],
        bound: &Bound<'_>,
    ) -> Result<Option<Subst>, NoMemory>
        requires vars { AreOnce self.now.vars.now }
        requires state { SumStateFits self.now.sig.now goal.now sums.now bound.now }
        requires group { IsGroup self.now.sig.now goal.now p.now k }
        requires within { k ≤ length goal.now.patterns.now }
        requires long { length chosen.now ≡ length goal.now.left.now }
        requires choice { AllZip (λ j n. k * j ≤ n) chosen.now goal.now.left.now }
        ensures { IfOk result (SearchesChoice self.now goal.now p.now k chosen.now
            sums.now bound.now) }
    {
        self.sig.recall_good();
        let whole = match whole(self.alloc, self.sig, goal, chosen)? {
            None => return Ok(None),
            Some(t) => t,
        };
        let may = may_make(self.alloc, self.sig, &*bound, &*p, &whole)?;
        if !may {
            return Ok(None);
        }
        let left = reduced(self.alloc, k, goal.left, chosen)?;
        let others = after(goal.patterns, k);
        let smaller = SumGoal {
            op: goal.op,
            patterns: others,
            pieces: goal.pieces,
            left: left.as_slice(),
            seen: goal.seen,
        };
        let more = with_sum(self.alloc, smaller, &*sums)?;
        let deeper = Search {
            alloc: self.alloc,
            sig: self.sig,
            vars: self.vars,
            depth: self.depth.saturating_add(1),
        };
        deeper.pair(&*p, &whole, &Goals::Done, more.as_slice(), &*bound)
    }
}
