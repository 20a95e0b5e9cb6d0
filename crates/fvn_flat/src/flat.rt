//! Flat terms: arguments of sums are one sorted list, and identities are gone.
ghost use Rattle.std.specs.Prelude.{◌≡◌, ◌-◌, ◌^◌, ◌↔◌, min, IsTrue, IfOk};
ghost use Rattle.fvn_terms.specs.Substitution.{Occurs};
ghost use Rattle.fvn_forms.specs.Flat.{fvar, plain, symbols};
ghost use Rattle.fvn_flat.specs.Forms.{variable_of, head_of, args_of};
ghost use Rattle.fvn_flat.specs.Fits.{FitWhere};
ghost use Rattle.fvn_flat.specs.Own.{own};

use fvn_terms::{NoMemory, OpId, Var};
use std::alloc::Global;
use std::marker::Model;

/// A term in flat form, seen as that form.
///
/// An operator holds its arguments; at a sum they are all summands, in order and without identities.
#[cycle(flat)]
#[derive(Drop)]
pub struct Flat {
    pub(crate) node: Node,
}

// The mark is true at a sum.
#[cycle(flat)]
#[derive(Drop)]
pub(crate) enum Node {
    Var(Var),
    App(OpId, bool, Vec<Flat>),
}

impl Model for Flat {
    ghost use Rattle.fvn_forms.specs.Flat.{FlatTerm};
    ghost use Rattle.fvn_flat.specs.inner.FlatCode.{coded_flat};

    ghost Value = { FlatTerm };

    ghost coded = { coded_flat };

    ghost use Rattle.fvn_flat.specs.inner.Node.{form_of};
    ghost use Rattle.fvn_flat.specs.Weight.{places};

    ghost view = { λ t. form_of t.node };

    ghost size = { places };

    ghost use Rattle.std.proofs.Common.{arith};
    ghost use Rattle.fvn_flat.specs.inner.Falls.{deep_le_places};

    ghost size_decreases = { λ t h. Prim.omega (arith, deep_le_places t.node) };
}

// The symbols besides those of the arguments.
fn own_symbols(joined: bool, count: usize) -> u64
    ensures { result ≡ own joined count }
{
    if joined && count != 0 {
        count as u64 - 1
    } else {
        1
    }
}

impl Flat {
    /// The variable as a term.
    pub fn var(v: Var) -> Flat
        ensures { result ≡ fvar v }
    {
        Flat { node: Node::Var(v) }
    }

    /// The variable that the term is.
    pub fn as_var(&self) -> Option<Var>
        ensures { result ≡ variable_of self.now }
    {
        match &self.node {
            Node::Var(x) => Some(*x),
            Node::App(_, _, _) => None,
        }
    }

    /// The operator that heads the term.
    pub fn head(&self) -> Option<OpId>
        ensures { result ≡ head_of self.now }
    {
        match &self.node {
            Node::Var(_) => None,
            Node::App(f, _, _) => Some(*f),
        }
    }

    /// The arguments; a variable and a constant have none.
    pub fn args(&self) -> &[Flat]
        ensures exact { result.now ≡ args_of self.now }
        ensures fit { FitWhere self.now result.now }
    {
        match &self.node {
            Node::Var(_) => &[],
            Node::App(_, _, ts) => ts.as_slice(),
        }
    }

    /// The same term, in memory of its own.
    pub fn copy(&self, alloc: Global) -> Result<Flat, NoMemory>
        ensures { IfOk result (λ t. t ≡ self.now) }
    {
        match &self.node {
            Node::Var(x) => Ok(Flat::var(*x)),
            Node::App(f, joined, ts) => {
                let mut items = Vec::with_capacity(alloc, ts.len())?;
                for t in ts {
                    items.push(t.copy(alloc)?)?;
                }
                Ok(Flat {
                    node: Node::App(*f, *joined, items),
                })
            }
        }
    }

    /// The number of symbols of the plain term, or the greatest number.
    pub fn size(&self) -> u64
        ensures { result ≡ min (symbols self.now) (2 ^ 64 - 1) }
    {
        match &self.node {
            Node::Var(_) => 1,
            Node::App(_, joined, ts) => {
                let mut count = own_symbols(*joined, ts.len());
                for t in ts {
                    count = count.saturating_add(t.size());
                }
                count
            }
        }
    }

    /// Whether the variable occurs in the term.
    pub fn has_var(&self, v: Var) -> bool
        ensures { IsTrue result ↔ Occurs v (plain self.now) }
    {
        match &self.node {
            Node::Var(x) => *x == v,
            Node::App(_, _, ts) => {
                for t in ts {
                    if t.has_var(v) {
                        return true;
                    }
                }
                false
            }
        }
    }
}
