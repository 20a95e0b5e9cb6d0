//! Losses, sought for one sort of the left side after another.
ghost use Rattle.std.specs.Prelude.{◌≡◌, false, IsTrue, MatchOption, IfOk};
ghost use Rattle.std.specs.List.{AllZip};
ghost use Rattle.fvn_terms.specs.declared.plain.Var.{Var};
ghost use Rattle.fvn_terms.specs.Plain.{term};
ghost use Rattle.fvn_rewrite_laws.specs.declared.shapes.Shape.{Shape};
ghost use Rattle.fvn_rewrite_laws.specs.Kinds.{IsKindedEquation};
ghost use Rattle.fvn_cohere.specs.inner.Searching.{with_shape};
ghost use Rattle.fvn_cohere.specs.inner.Outlooks.{Fills};
ghost use Rattle.fvn_cohere.specs.inner.Posed.{IsPosed, is_sought};
ghost use Rattle.fvn_cohere.specs.inner.Narrowing.{staying, others_of, KeepsShapes, IsNarrowed, FindsAs, LosesIn};

use crate::outlooks::PartialChoice;
use crate::searching::{Search, Sought};
use crate::shapes::Chosen;
use fvn_base::Seq;
use fvn_rewrite_laws::Shape;
use fvn_terms::{NoMemory, SortId, Var};
use std::alloc::Global;

// How many choices for all variables there are.
fn instances(unchosen: &[(Var, Seq<Shape>)]) -> usize {
    let mut count: usize = 1;
    for v in unchosen {
        count = count.saturating_mul(v.1.len());
    }
    count
}

// The variables but this one, with their choices.
fn others(
    alloc: Global,
    unchosen: &[(Var, Seq<Shape>)],
    x: Var,
) -> Result<Vec<(Var, Seq<Shape>)>, NoMemory>
    ensures { IfOk result (λ all. all.items ≡ others_of x unchosen.now) }
{
    let mut all = Vec::new(alloc);
    for v in unchosen {
        if v.0 == x {
            continue;
        }
        let shapes = Seq::from_slice(alloc, v.1.as_slice())?;
        all.push((v.0, shapes))?;
    }
    Ok(all)
}

impl Search<'_> {
    // Whether a variable that stands for this shape makes nothing that is sought with any choice for
    // the others.
    fn is_excluded(&self, others: &[(Var, Seq<Shape>)], x: Var, o: Shape) -> bool
        requires posed { IsPosed self.now }
        ensures { IsTrue result → (filled : Var → Shape) →
            Fills self.now.sig.now others.now (with_shape staying x o) filled →
            is_sought self.now filled ≡ false }
    {
        let none = Chosen::Nothing;
        let one = Chosen::Choose(x, o, &none);
        let partial = PartialChoice {
            sig: self.sig,
            identities: self.identities,
            unchosen: others,
            chosen: &one,
        };
        partial.excludes(self.sought, self.left, self.right)
    }

    // Those of these shapes for the variable that are not excluded.
    fn narrowed_shapes(
        &self,
        alloc: Global,
        others: &[(Var, Seq<Shape>)],
        x: Var,
        shapes: &[Shape],
    ) -> Result<Vec<Shape>, NoMemory>
        requires posed { IsPosed self.now }
        ensures { IfOk result (λ kept. KeepsShapes self.now others.now x shapes.now kept.items) }
    {
        let mut kept = Vec::new(alloc);
        for o in shapes {
            if self.is_excluded(others, x, *o) {
                continue;
            }
            kept.push(*o)?;
        }
        Ok(kept)
    }

    // The variables, each with those of its choices that are not excluded.
    fn narrowed(&self, alloc: Global) -> Result<Vec<(Var, Seq<Shape>)>, NoMemory>
        requires posed { IsPosed self.now }
        ensures { IfOk result (λ some.
            AllZip (IsNarrowed self.now) self.now.unchosen.now some.items) }
    {
        let all = self.unchosen;
        let mut some = Vec::new(alloc);
        for v in all {
            let rest = others(alloc, all, v.0)?;
            let kept = self.narrowed_shapes(alloc, rest.as_slice(), v.0, v.1.as_slice())?;
            some.push((v.0, Seq::from_vec(kept)))?;
        }
        Ok(some)
    }

    // Whether it is seen that none of the choices is sought.
    fn excludes_all(&self) -> bool
        requires posed { IsPosed self.now }
        ensures { IsTrue result → FindsAs self.now false }
    {
        let none = Chosen::Nothing;
        let whole = PartialChoice {
            sig: self.sig,
            identities: self.identities,
            unchosen: self.unchosen,
            chosen: &none,
        };
        whole.excludes(self.sought, self.left, self.right)
    }

    // Whether one of the choices is sought, where at most so many are not excluded one by one; and how
    // many more might have been.
    fn find_narrowed(&self, alloc: Global, room: usize) -> Result<Option<(bool, usize)>, NoMemory>
        requires posed { IsPosed self.now }
        ensures { IfOk result (λ r. MatchOption r (Unit {0}) (λ p. FindsAs self.now p.0)) }
    {
        let some = self.narrowed(alloc)?;
        let left_over = some.as_slice();
        let narrow = Search {
            sig: self.sig,
            identities: self.identities,
            sought: self.sought,
            left: self.left,
            right: self.right,
            unchosen: left_over,
        };
        if narrow.excludes_all() {
            return Ok(Some((false, room)));
        }
        let size = instances(left_over);
        if size > room {
            return Ok(None);
        }
        let found = narrow.find(0, &Chosen::Nothing);
        Ok(Some((found, room - size)))
    }

    // Whether a sort is lost under one of the choices; none where so many are left for the sorts of the
    // left side, taken one after another, that it is as well to try all.
    pub(crate) fn loss_by_sorts(&self, alloc: Global) -> Result<Option<bool>, NoMemory>
        requires posed { IsPosed self.now }
        requires kinded { IsKindedEquation self.now.sig.now
            (term self.now.left.now, term self.now.right.now) }
        ensures { IfOk result (λ r. MatchOption r (Unit {0}) (LosesIn self.now)) }
    {
        self.sig.recall_good();
        self.sig.recall_completed();
        let mut room = instances(self.unchosen);
        for n in 0..self.sig.declarations().sorts {
            let at = Search {
                sig: self.sig,
                identities: self.identities,
                sought: Sought::LossAt(SortId(n)),
                left: self.left,
                right: self.right,
                unchosen: self.unchosen,
            };
            match at.find_narrowed(alloc, room)? {
                None => return Ok(None),
                Some(p) => {
                    if p.0 {
                        return Ok(Some(true));
                    }
                    room = p.1;
                }
            }
        }
        Ok(Some(false))
    }
}
