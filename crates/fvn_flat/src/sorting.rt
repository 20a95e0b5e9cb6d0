//! The least sort of a flat term, and its kind.
ghost use Rattle.std.specs.Prelude.{◌≡◌, ◌<◌, []};
ghost use Rattle.fvn_terms.specs.Signature.{kind, HasKind};
ghost use Rattle.fvn_terms.specs.Sorts.{IsLeastSort};
ghost use Rattle.fvn_forms.specs.Flat.{plain};
ghost use Rattle.fvn_forms.specs.LeastSort.{least_sort};
ghost use Rattle.fvn_flat.specs.Fits.{Fits};
ghost use Rattle.fvn_flat.specs.inner.SumSorts.{with_summand, whole_sort};

use crate::flat::{Flat, Node};
use fvn_base::limits::ARGUMENTS;
use fvn_signature::Signature;
use fvn_terms::{OpId, SortId};

// The sort of a sum with one more summand of this sort.
fn with_summand(sig: &Signature, f: OpId, sum: Option<SortId>, sort: SortId) -> SortId
    ensures { result ≡ with_summand sig.now f sum sort }
{
    match sum {
        None => sort,
        Some(s) => sig.result(f, &[s, sort]),
    }
}

// The sort of a sum, from that of its summands.
fn whole_sort(sig: &Signature, f: OpId, sum: Option<SortId>) -> SortId
    ensures { result ≡ whole_sort sig.now f sum }
{
    match sum {
        None => sig.result(f, &[]),
        Some(s) => s,
    }
}

impl Flat {
    // One pass: at a sum from the left, else the operator's result over the arguments' sorts.
    fn sort_in(&self, sig: &Signature) -> SortId
        requires { Fits sig.now self.now }
        ensures { result ≡ least_sort sig.now self.now }
    {
        sig.recall_good();
        match &self.node {
            Node::Var(x) => x.sort,
            Node::App(f, joined, ts) => {
                if *joined {
                    let mut sum: Option<SortId> = None;
                    for t in ts {
                        let sort = t.sort_in(sig);
                        sum = Some(with_summand(sig, *f, sum, sort));
                    }
                    return whole_sort(sig, *f, sum);
                }
                let mut sorts = [SortId(0); ARGUMENTS];
                let mut i: usize = 0;
                for u in ts {
                    sorts[i] = u.sort_in(sig);
                    i += 1;
                }
                sig.result(*f, &sorts[..i])
            }
        }
    }

    /// The least sort of the term, and so of each that is equal to it modulo the axioms.
    pub fn least_sort(&self, sig: &Signature) -> SortId
        requires { Fits sig.now self.now }
        ensures exact { result ≡ least_sort sig.now self.now }
        ensures least { IsLeastSort sig.now (plain self.now) result }
    {
        sig.recall_good();
        self.sort_in(sig)
    }

    /// The kind of the term, and so of each that is equal to it modulo the axioms.
    ///
    /// Its head tells it: all declarations of an operator give one kind.
    pub fn kind(&self, sig: &Signature) -> SortId
        requires { Fits sig.now self.now }
        ensures exact { result ≡ kind sig.now (least_sort sig.now self.now) }
        ensures has { HasKind sig.now (plain self.now) result }
    {
        sig.recall_good();
        match &self.node {
            Node::Var(x) => sig.kind(x.sort),
            Node::App(f, _, _) => sig.operator_kind(*f),
        }
    }
}
