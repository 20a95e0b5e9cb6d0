//! How sorts of variables are lowered until terms have given sorts: down the ranks that give them.
ghost use Rattle.std.specs.Prelude.{◌≡◌, ◌≤◌, ◌∷◌, [], ◌&&◌, if◌then◌else◌, IfOk, IsTrue, MatchOption, length, false};
ghost use Rattle.fvn_terms.specs.Signature.{axioms};
ghost use Rattle.fvn_terms.specs.Equality.{IsAssociative};
ghost use Rattle.fvn_forms.specs.SortOrder.{at_or_below};
ghost use Rattle.fvn_forms.specs.Flat.{fvar, fapp, fpack};
ghost use Rattle.fvn_flat.specs.Fits.{Fits, AllFit};
ghost use Rattle.fvn_refine.specs.inner.Rows.{IsRow, IsRowBelow, HasAbove, with_row, placed};
ghost use Rattle.fvn_refine.specs.inner.Found.{
  AreSummands,
  AreRows,
  Finds,
  Narrows,
  IsUnder,
  AreUnder,
  IsResultUnder,
  IsSumUnder,
  IsPairUnder,
};

use crate::arguments::arguments;
use crate::places::{beside, placed};
use crate::rows::{alone, is_at_or_below, with_row, with_rows};
use fvn_base::Seq;
use fvn_flat::{Flat, is_listed};
use fvn_signature::Signature;
use fvn_terms::{NoMemory, OpId, SortId, Var};
use std::alloc::Global;

// A search for the sorts of some variables.
#[derive(Clone, Copy)]
pub(crate) struct Search<'s> {
    pub(crate) alloc: Global,
    pub(crate) sig: &'s Signature,
    pub(crate) vars: &'s [Var],
}

// Whether the operator is associative.
fn is_associative(sig: &Signature, f: OpId) -> bool
    ensures yes { IsTrue result → IsAssociative (axioms sig.now f) }
    ensures no { result ≡ false → IsAssociative (axioms sig.now f) → ⊥ }
{
    sig.axioms(f).is_sum()
}

// Whether the operator takes the terms as summands.
pub(crate) fn is_sum(sig: &Signature, f: OpId, ts: &[Flat]) -> bool
    ensures yes { IsTrue result → (IsAssociative (axioms sig.now f) × (1 ≤ length ts.now)) }
    ensures no { result ≡ false → IsAssociative (axioms sig.now f) → ts.now ≡ [] }
{
    if ts.is_empty() {
        return false;
    }
    is_associative(sig, f)
}

// The two sorts of the row, where there are two.
pub(crate) fn pair_of(row: &[SortId]) -> Option<(SortId, SortId)>
    ensures { MatchOption result (length row.now ≡ 2 → ⊥) (λ pair. row.now ≡ pair.0 ∷ pair.1 ∷ []) }
{
    if row.len() != 2 {
        return None;
    }
    Some((row[0], row[1]))
}

// The place of the largest of the terms; past them where they are tried with one list of sorts alone.
fn largest(ts: &[Flat], lists: usize) -> usize {
    let mut place = ts.len();
    if lists < 2 {
        return place;
    }
    let mut most: u64 = 0;
    for (i, t) in ts.iter().enumerate() {
        let size = t.size();
        if most <= size {
            most = size;
            place = i;
        }
    }
    place
}

// Whether a term that is tried with several lists of sorts is larger than the others together.
fn is_larger(t: &Flat, others: &[Flat], lists: usize) -> bool {
    if lists < 2 {
        return false;
    }
    let mut size: u64 = 0;
    for u in others {
        size = size.saturating_add(u.size());
    }
    size < t.size()
}

impl Search<'_> {
    // The rows at or below this one at which the variable has the sort or one below it.
    fn lower_variable(
        &self,
        way: &[SortId],
        y: Var,
        s: SortId,
    ) -> Result<Vec<Seq<SortId>>, NoMemory>
        requires row { IsRow self.now.sig.now self.now.vars.now way.now }
        ensures { let d = self.now.sig.now in let xs = self.now.vars.now in
            IfOk result (λ rows.
            Finds d xs (λ m. IsRowBelow d m way.now × IsUnder d xs (fvar y) s m) rows.items) }
    {
        self.sig.recall_good();
        self.sig.recall_completed();
        let kind = self.sig.kind(y.sort);
        let here = beside(self.vars, way, y, kind);
        if self.sig.leq(here, s) {
            let rows = alone(self.alloc, way)?;
            return Ok(rows);
        }
        let mut rows = Vec::new(self.alloc);
        if !is_listed(self.vars, y) {
            return Ok(rows);
        }
        for n in 0..self.sig.declarations().sorts {
            rows = self.with_sort(rows, way, y, SortId(n), here, s)?;
        }
        Ok(rows)
    }

    // The rows with one more, in which the variable has this sort, if it is at or below both others.
    fn with_sort(
        &self,
        rows: Vec<Seq<SortId>>,
        way: &[SortId],
        y: Var,
        z: SortId,
        here: SortId,
        s: SortId,
    ) -> Result<Vec<Seq<SortId>>, NoMemory>
        requires { length self.now.vars.now ≡ length way.now }
        ensures { let d = self.now.sig.now in
            IfOk result (λ all.
            all.items ≡ (if at_or_below d z here && at_or_below d z s
            then with_row d rows.items (placed self.now.vars.now way.now y z)
            else rows.items)) }
    {
        if !is_at_or_below(self.sig, z, here) {
            return Ok(rows);
        }
        if !is_at_or_below(self.sig, z, s) {
            return Ok(rows);
        }
        let row = placed(self.alloc, self.vars, way, y, z)?;
        let all = with_row(self.alloc, self.sig, rows, Seq::from_vec(row))?;
        Ok(all)
    }

    // The rows at or below this one at which the term has the sort or one below it.
    #[cycle(lower)]
    fn lower(&self, way: &[SortId], t: &Flat, s: SortId) -> Result<Vec<Seq<SortId>>, NoMemory>
        requires row { IsRow self.now.sig.now self.now.vars.now way.now }
        requires term { Fits self.now.sig.now t.now }
        ensures { let d = self.now.sig.now in let xs = self.now.vars.now in
            IfOk result (λ rows.
            Finds d xs (λ m. IsRowBelow d m way.now × IsUnder d xs t.now s m) rows.items) }
    {
        if let Some(y) = t.as_var() {
            let rows = self.lower_variable(way, y, s)?;
            return Ok(rows);
        }
        let f = match t.head() {
            None => return Ok(Vec::new(self.alloc)),
            Some(f) => f,
        };
        self.sig.recall_good();
        let ts = t.args();
        if is_sum(self.sig, f, ts) {
            let rows = self.lower_sum(way, f, ts, s)?;
            return Ok(rows);
        }
        let rows = self.lower_over(way, f, ts, s)?;
        Ok(rows)
    }

    // The rows at or below one of these at which the term has the sort or one below it.
    #[cycle(lower)]
    pub(crate) fn lower_rows(
        &self,
        rows: &[Seq<SortId>],
        t: &Flat,
        s: SortId,
    ) -> Result<Vec<Seq<SortId>>, NoMemory>
        requires rows { AreRows self.now.sig.now self.now.vars.now rows.now }
        requires term { Fits self.now.sig.now t.now }
        ensures { let d = self.now.sig.now in let xs = self.now.vars.now in
            IfOk result (λ all.
            Finds d xs (λ m. HasAbove d rows.now m × IsUnder d xs t.now s m) all.items) }
    {
        let mut all = Vec::new(self.alloc);
        for row in rows {
            let more = self.lower(row.as_slice(), &*t, s)?;
            all = with_rows(self.alloc, self.sig, all, more)?;
        }
        Ok(all)
    }

    // Rows at or below this one that have above them all at which each term has the sort in its place or one below it: all
    // terms but the largest have their sorts there. So a list that a small term refuses is not tried with a large one.
    #[cycle(lower)]
    fn narrowed(
        &self,
        way: &[SortId],
        ts: &[Flat],
        args: &[SortId],
        large: usize,
    ) -> Result<Vec<Seq<SortId>>, NoMemory>
        requires row { IsRow self.now.sig.now self.now.vars.now way.now }
        requires terms { AllFit self.now.sig.now ts.now }
        requires long { length ts.now ≡ length args.now }
        ensures { IfOk result (λ rows.
            Narrows self.now.sig.now self.now.vars.now way.now
            (AreUnder self.now.sig.now self.now.vars.now ts.now args.now) rows.items) }
    {
        let mut rows = alone(self.alloc, way)?;
        if large >= ts.len() {
            return Ok(rows);
        }
        for (i, t) in ts.iter().enumerate() {
            if i == large {
                continue;
            }
            rows = self.lower_rows(rows.as_slice(), t, args[i])?;
        }
        Ok(rows)
    }

    // The rows at or below this one at which each term has the sort in its place or one below it.
    #[cycle(lower)]
    fn lower_all(
        &self,
        way: &[SortId],
        ts: &[Flat],
        args: &[SortId],
        large: usize,
    ) -> Result<Vec<Seq<SortId>>, NoMemory>
        requires row { IsRow self.now.sig.now self.now.vars.now way.now }
        requires terms { AllFit self.now.sig.now ts.now }
        ensures { let d = self.now.sig.now in let xs = self.now.vars.now in
            IfOk result (λ rows. Finds d xs (λ m. IsRowBelow d m way.now
            × AreUnder d xs ts.now args.now m) rows.items) }
    {
        self.sig.recall_good();
        if ts.len() != args.len() {
            return Ok(Vec::new(self.alloc));
        }
        let mut rows = self.narrowed(way, ts, args, large)?;
        for (i, t) in ts.iter().enumerate() {
            rows = self.lower_rows(rows.as_slice(), t, args[i])?;
        }
        Ok(rows)
    }

    // The rows at or below this one at which the operator over the terms has the sort or one below it.
    #[cycle(lower)]
    fn lower_over(
        &self,
        way: &[SortId],
        f: OpId,
        ts: &[Flat],
        s: SortId,
    ) -> Result<Vec<Seq<SortId>>, NoMemory>
        requires row { IsRow self.now.sig.now self.now.vars.now way.now }
        requires term { Fits self.now.sig.now (fapp f false (fpack ts.now)) }
        ensures { let d = self.now.sig.now in let xs = self.now.vars.now in
            IfOk result (λ rows. Finds d xs (λ m. IsRowBelow d m way.now
            × IsResultUnder d xs f ts.now s m) rows.items) }
    {
        self.sig.recall_good();
        let lists = arguments(self.alloc, self.sig, f, s)?;
        let large = largest(ts, lists.len());
        let mut all = Vec::new(self.alloc);
        for args in lists.as_slice() {
            let more = self.lower_all(way, ts, args.as_slice(), large)?;
            all = with_rows(self.alloc, self.sig, all, more)?;
        }
        Ok(all)
    }

    // The rows at or below this one at which the sum of the terms has the sort or one below it.
    #[cycle(lower)]
    fn lower_sum(
        &self,
        way: &[SortId],
        f: OpId,
        ts: &[Flat],
        s: SortId,
    ) -> Result<Vec<Seq<SortId>>, NoMemory>
        requires row { IsRow self.now.sig.now self.now.vars.now way.now }
        requires sum { AreSummands self.now.sig.now f ts.now }
        ensures { let d = self.now.sig.now in let xs = self.now.vars.now in
            IfOk result (λ rows. Finds d xs (λ m. IsRowBelow d m way.now
            × IsSumUnder d xs f ts.now s m) rows.items) }
    {
        self.sig.recall_good();
        let last = ts.len() - 1;
        let end = &ts[last];
        if last == 0 {
            let rows = self.lower(way, &*end, s)?;
            return Ok(rows);
        }
        let front = &ts[..last];
        let lists = arguments(self.alloc, self.sig, f, s)?;
        let large = is_larger(end, front, lists.len());
        let mut all = Vec::new(self.alloc);
        for args in lists.as_slice() {
            let more = self.lower_pair(way, f, front, &*end, args.as_slice(), large)?;
            all = with_rows(self.alloc, self.sig, all, more)?;
        }
        Ok(all)
    }

    // Rows at or below this one that have above them all at which the sum of the terms has the sort or one below it: those at
    // which it has, where what comes next is large.
    #[cycle(lower)]
    fn narrowed_sum(
        &self,
        way: &[SortId],
        f: OpId,
        ts: &[Flat],
        s: SortId,
        large: bool,
    ) -> Result<Vec<Seq<SortId>>, NoMemory>
        requires row { IsRow self.now.sig.now self.now.vars.now way.now }
        requires sum { AreSummands self.now.sig.now f ts.now }
        ensures { let d = self.now.sig.now in let xs = self.now.vars.now in
            IfOk result (λ rows. Narrows d xs way.now (IsSumUnder d xs f ts.now s) rows.items) }
    {
        if !large {
            let rows = alone(self.alloc, way)?;
            return Ok(rows);
        }
        let rows = self.lower_sum(way, f, ts, s)?;
        Ok(rows)
    }

    // The rows at or below this one at which the sum of the first terms, and the last one, have the two sorts.
    #[cycle(lower)]
    fn lower_pair(
        &self,
        way: &[SortId],
        f: OpId,
        front: &[Flat],
        last: &Flat,
        args: &[SortId],
        large: bool,
    ) -> Result<Vec<Seq<SortId>>, NoMemory>
        requires row { IsRow self.now.sig.now self.now.vars.now way.now }
        requires sum { AreSummands self.now.sig.now f front.now }
        requires term { Fits self.now.sig.now last.now }
        ensures { let d = self.now.sig.now in let xs = self.now.vars.now in
            IfOk result (λ rows. Finds d xs (λ m. IsRowBelow d m way.now
            × IsPairUnder d xs f front.now last.now args.now m) rows.items) }
    {
        self.sig.recall_good();
        let pair = match pair_of(args) {
            None => return Ok(Vec::new(self.alloc)),
            Some(pair) => pair,
        };
        let start = self.narrowed_sum(way, f, front, pair.0, large)?;
        let rows = self.lower_rows(start.as_slice(), last, pair.1)?;
        let all = self.lower_sum_rows(rows.as_slice(), f, front, pair.0)?;
        Ok(all)
    }

    // The rows at or below one of these at which the sum of the terms has the sort or one below it.
    #[cycle(lower)]
    fn lower_sum_rows(
        &self,
        rows: &[Seq<SortId>],
        f: OpId,
        ts: &[Flat],
        s: SortId,
    ) -> Result<Vec<Seq<SortId>>, NoMemory>
        requires rows { AreRows self.now.sig.now self.now.vars.now rows.now }
        requires sum { AreSummands self.now.sig.now f ts.now }
        ensures { let d = self.now.sig.now in let xs = self.now.vars.now in
            IfOk result (λ all.
            Finds d xs (λ m. HasAbove d rows.now m × IsSumUnder d xs f ts.now s m) all.items) }
    {
        let mut all = Vec::new(self.alloc);
        for row in rows {
            let more = self.lower_sum(row.as_slice(), f, ts, s)?;
            all = with_rows(self.alloc, self.sig, all, more)?;
        }
        Ok(all)
    }
}
