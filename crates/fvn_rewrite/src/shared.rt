//! Terms whose parts may be shared, with a sort at each operator.
ghost use Rattle.std.specs.Prelude.{◌≡◌, ◌↔◌, map, IsTrue, IfOk};
ghost use Rattle.fvn_terms.specs.Plain.{term};
ghost use Rattle.fvn_forms.specs.Ranks.{result as least_result};
ghost use Rattle.fvn_rewrite.specs.inner.SortedTerms.{svar, sapp, spack, sort_of, operator_of, parts_of, term_of};

use fvn_signature::Signature;
use fvn_terms::{Args, NoMemory, OpId, Plain, SortId, Var};
use std::alloc::Global;
use std::marker::Model;
use std::rc::Rc;

// A term whose parts may be shared with other terms.
#[cycle(shared)]
#[derive(Drop)]
pub(crate) struct Shared {
    content: Rc<Content>,
}

// An operator has its sort and the number of symbols, or the greatest number.
#[cycle(shared)]
#[derive(Drop)]
pub(crate) enum Content {
    Var(Var),
    App(OpId, SortId, u64, Vec<Shared>),
}

impl Model for Shared {
    ghost use Rattle.fvn_rewrite.specs.inner.SortedTerms.{SortedTerm};
    ghost use Rattle.fvn_rewrite.specs.inner.SortedCode.{coded_sorted};

    ghost Value = { SortedTerm };

    ghost coded = { coded_sorted };

    ghost use Rattle.fvn_rewrite.specs.inner.Content.{term_in};
    ghost use Rattle.fvn_rewrite.specs.inner.SortedTerms.{weight};

    ghost view = { λ t. term_in t.content.value };

    ghost size = { weight };

    ghost use Rattle.std.proofs.Common.{arith};
    ghost use Rattle.fvn_rewrite.specs.inner.SortedFalls.{deep_le_weight};

    ghost size_decreases = { λ t h. Prim.omega (arith, deep_le_weight t.content.value) };
}

// The sorts of the terms.
fn sorts_of(alloc: Global, ts: &[Shared]) -> Result<Vec<SortId>, NoMemory>
    ensures { IfOk result (λ sorts. sorts.items ≡ map sort_of ts.now) }
{
    let mut sorts = Vec::new(alloc);
    for t in ts {
        sorts.push(t.sort())?;
    }
    Ok(sorts)
}

// The symbols of an operator over the terms, or the greatest number.
fn symbols_over(ts: &[Shared]) -> u64 {
    let mut count: u64 = 1;
    for t in ts {
        count = count.saturating_add(t.symbols());
    }
    count
}

impl Shared {
    // A variable.
    pub(crate) fn var(alloc: Global, x: Var) -> Result<Shared, NoMemory>
        ensures { IfOk result (λ t. t ≡ svar x) }
    {
        let content = Rc::new(alloc, Content::Var(x))?;
        Ok(Shared { content })
    }

    // An operator over terms, with the least sort.
    pub(crate) fn app(
        alloc: Global,
        sig: &Signature,
        f: OpId,
        ts: Vec<Shared>,
    ) -> Result<Shared, NoMemory>
        ensures { IfOk result (λ t.
            t ≡ sapp f (least_result sig.now f (map sort_of ts.items)) (spack ts.items)) }
    {
        let sorts = sorts_of(alloc, ts.as_slice())?;
        let sort = sig.result(f, sorts.as_slice());
        let symbols = symbols_over(ts.as_slice());
        let content = Rc::new(alloc, Content::App(f, sort, symbols, ts))?;
        Ok(Shared { content })
    }

    // The same term, in the same memory.
    pub(crate) fn share(&self) -> Result<Shared, NoMemory>
        ensures { IfOk result (λ t. t ≡ self.now) }
    {
        let content = self.content.clone()?;
        Ok(Shared { content })
    }

    // The sort.
    pub(crate) fn sort(&self) -> SortId
        ensures { result ≡ sort_of self.now }
    {
        match self.content.as_ref() {
            Content::Var(x) => x.sort,
            Content::App(_, sort, _, _) => *sort,
        }
    }

    // The number of symbols, or the greatest number.
    pub(crate) fn symbols(&self) -> u64 {
        match self.content.as_ref() {
            Content::Var(_) => 1,
            Content::App(_, _, symbols, _) => *symbols,
        }
    }

    // The operator that heads the term.
    pub(crate) fn head(&self) -> Option<OpId>
        ensures { result ≡ operator_of self.now }
    {
        match self.content.as_ref() {
            Content::Var(_) => None,
            Content::App(f, _, _, _) => Some(*f),
        }
    }

    // The arguments; a variable has none.
    pub(crate) fn args(&self) -> &[Shared]
        ensures { result.now ≡ parts_of self.now }
    {
        match self.content.as_ref() {
            Content::Var(_) => &[],
            Content::App(_, _, _, ts) => ts.as_slice(),
        }
    }

    // Whether the two are one term.
    #[cycle(same)]
    pub(crate) fn same(&self, other: &Shared) -> bool
        ensures { IsTrue result → self.now ≡ other.now }
    {
        match (self.content.as_ref(), other.content.as_ref()) {
            (Content::Var(x), Content::Var(y)) => *x == *y,
            (Content::App(f, s, _, ts), Content::App(g, q, _, us)) => {
                *f == *g && *s == *q && same_all(ts, us)
            }
            _ => false,
        }
    }

    // The term without sorts, in memory of its own.
    pub(crate) fn to_plain(&self, alloc: Global) -> Result<Plain, NoMemory>
        ensures { IfOk result (λ t. term t ≡ term_of self.now) }
    {
        match self.content.as_ref() {
            Content::Var(x) => Ok(Plain::Var(*x)),
            Content::App(f, _, _, ts) => {
                let mut items = Vec::new(alloc);
                for t in ts {
                    items.push(t.to_plain(alloc)?)?;
                }
                Ok(Plain::App(*f, Args::from_vec(items)))
            }
        }
    }
}

// Whether the two lists are one.
#[cycle(same)]
fn same_all(ts: &[Shared], us: &[Shared]) -> bool
    ensures { IsTrue result → ts.now ≡ us.now }
{
    let count = ts.len();
    if us.len() != count {
        return false;
    }
    for i in 0..count {
        if !ts[i].same(&us[i]) {
            return false;
        }
    }
    true
}
