//! A search through the choices for the variables of a term.
ghost use Rattle.std.specs.Prelude.{◌≡◌, ◌≤◌, ◌<◌, ◌+◌, length, drop, false, Contains, IsTrue};
ghost use Rattle.std.specs.List.{list_any};
ghost use Rattle.fvn_terms.specs.Plain.{term};
ghost use Rattle.fvn_terms.specs.Signature.{IsTerm};
ghost use Rattle.fvn_cohere.specs.inner.Searching.{shapes_by, is_lost_at, is_variable_root, is_identity_root, with_shape, some_choice};
ghost use Rattle.fvn_cohere.specs.inner.Outlooks.{AreAllowed, IsAllowed};
ghost use Rattle.fvn_cohere.specs.inner.Posed.{IsPosed, is_sought};
ghost use Rattle.fvn_rewrite_laws.specs.declared.shapes.Shape.{Shape};
ghost use Rattle.fvn_rewrite_laws.specs.Shapes.{shape_in};

use crate::identities::{is_at_or_below, is_listed};
use crate::outlooks::PartialChoice;
use crate::shapes::{Chosen, shape};
use fvn_base::Seq;
use fvn_rewrite_laws::{Root, Shape};
use fvn_signature::Signature;
use fvn_terms::{OpId, Plain, SortId, Var};

// So many instances make it worth asking, before they are tried, what can come of them.
const MANY: usize = 16;

// What is sought: a choice under which the right side has a sort that is not at or below that of the
// left side, or one under which the left side has this sort and the right side has not, or one under
// which the left side is a variable, or an identity.
#[derive(Clone, Copy, PartialEq, Eq)]
pub(crate) enum Sought {
    Loss,
    LossAt(SortId),
    ToVariable,
    ToIdentity,
}

// A search: the variables with their choices, and the sides of an equation.
#[derive(Clone, Copy)]
pub(crate) struct Search<'s> {
    pub(crate) sig: &'s Signature,
    pub(crate) identities: &'s [OpId],
    pub(crate) sought: Sought,
    pub(crate) left: &'s Plain,
    pub(crate) right: &'s Plain,
    pub(crate) unchosen: &'s [(Var, Seq<Shape>)],
}

/// Whether what stands at the root is a variable.
pub(crate) fn is_variable_root(root: Root) -> bool
    ensures { result ≡ is_variable_root root }
{
    match root {
        Root::Variable => true,
        Root::Constant(_) => false,
        Root::Compound => false,
    }
}

/// Whether what stands at the root is one of these constants.
pub(crate) fn is_identity_root(es: &[OpId], root: Root) -> bool
    ensures { result ≡ is_identity_root es.now root }
{
    match root {
        Root::Variable => false,
        Root::Constant(e) => is_listed(es, e),
        Root::Compound => false,
    }
}

impl Search<'_> {
    // Whether the left side, which has this least sort, has the sort s, and the right side has not.
    fn is_lost_at(&self, s: SortId, left: SortId, chosen: &Chosen<'_>) -> bool
        requires { IsTerm self.now.sig.now (term self.now.right.now) }
        ensures { result ≡ is_lost_at self.now.sig.now s left
            (shape_in self.now.sig.now (shapes_by chosen.now) (term self.now.right.now)).sort }
    {
        if !is_at_or_below(self.sig, left, s) {
            return false;
        }
        let right = shape(self.sig, chosen, self.right);
        !is_at_or_below(self.sig, right.sort, s)
    }

    // Whether the choice is one that is sought.
    fn is_met(&self, chosen: &Chosen<'_>) -> bool
        requires left { IsTerm self.now.sig.now (term self.now.left.now) }
        requires right { IsTerm self.now.sig.now (term self.now.right.now) }
        ensures { result ≡ is_sought self.now (shapes_by chosen.now) }
    {
        let left = shape(self.sig, chosen, self.left);
        match self.sought {
            Sought::Loss => {
                let right = shape(self.sig, chosen, self.right);
                !is_at_or_below(self.sig, right.sort, left.sort)
            }
            Sought::LossAt(s) => self.is_lost_at(s, left.sort, chosen),
            Sought::ToVariable => is_variable_root(left.root),
            Sought::ToIdentity => is_identity_root(self.identities, left.root),
        }
    }

    // Whether the choices that are left, from a number on, make so many instances that it pays to
    // ask what can come of them.
    fn are_many(&self, from: usize) -> bool
        requires { from < length self.now.unchosen.now }
    {
        if self.unchosen[from].1.len() < 2 {
            return false;
        }
        let mut count: usize = 1;
        for v in &self.unchosen[from..] {
            count = count.saturating_mul(v.1.len());
            if count >= MANY {
                return true;
            }
        }
        false
    }

    // Whether it is seen that none of the choices that are left, from a number on, is sought.
    fn is_hopeless(&self, from: usize, chosen: &Chosen<'_>) -> bool
        requires within { from < length self.now.unchosen.now }
        requires posed { IsPosed self.now }
        requires allowed { AreAllowed self.now.sig.now (shapes_by chosen.now) }
        ensures { IsTrue result →
            some_choice (is_sought self.now) (drop from self.now.unchosen.now)
            (shapes_by chosen.now)
            ≡ false }
    {
        self.sig.recall_good();
        self.sig.recall_completed();
        if !self.are_many(from) {
            return false;
        }
        let partial = PartialChoice {
            sig: self.sig,
            identities: self.identities,
            unchosen: &self.unchosen[from..],
            chosen,
        };
        partial.excludes(self.sought, self.left, self.right)
    }

    // Whether one of the choices that are left, from a number on, is sought.
    #[cycle(find)]
    pub(crate) fn find(&self, from: usize, chosen: &Chosen<'_>) -> bool
        requires within { from ≤ length self.now.unchosen.now }
        requires posed { IsPosed self.now }
        requires allowed { AreAllowed self.now.sig.now (shapes_by chosen.now) }
        ensures { result ≡
            some_choice (is_sought self.now) (drop from self.now.unchosen.now)
            (shapes_by chosen.now) }
    {
        let all = self.unchosen;
        if from == all.len() {
            return self.is_met(chosen);
        }
        self.sig.recall_good();
        self.sig.recall_completed();
        if self.is_hopeless(from, chosen) {
            return false;
        }
        let v = &all[from];
        self.find_for(v.0, v.1.as_slice(), from, chosen)
    }

    // Whether one of the choices that are left is sought in which the variable stands for one of
    // these shapes.
    #[cycle(find)]
    fn find_for(&self, x: Var, shapes: &[Shape], from: usize, chosen: &Chosen<'_>) -> bool
        requires within { from < length self.now.unchosen.now }
        requires posed { IsPosed self.now }
        requires allowed { AreAllowed self.now.sig.now (shapes_by chosen.now) }
        requires shapes { (o : Shape) → Contains shapes.now o → IsAllowed self.now.sig.now x o }
        ensures { result ≡ list_any (λ o.
            some_choice (is_sought self.now) (drop (from + 1) self.now.unchosen.now)
            (with_shape (shapes_by chosen.now) x o)) shapes.now }
    {
        for o in shapes {
            let more = Chosen::Choose(x, *o, &*chosen);
            if self.find(from + 1, &more) {
                return true;
            }
        }
        false
    }
}
