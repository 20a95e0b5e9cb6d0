//! Children that unifiers make of a variant.
ghost use Rattle.std.specs.Prelude.{◌≡◌, [], All, IfOk};
ghost use Rattle.fvn_flat.specs.Bindings.{BindingsFit};
ghost use Rattle.fvn_flat.specs.Fits.{AllFit};
ghost use Rattle.fvn_cover.specs.Covering.{IsFlatVariant};
ghost use Rattle.fvn_rewrite.specs.Usable.{equations_by};
ghost use Rattle.fvn_exploring.specs.declared.ends.ExpandEnd.TheVariants.{Whole};
ghost use Rattle.fvn_narrow_children.specs.Values.{AreValuesUnder, AreSmallValues, AreIrreducible};
ghost use Rattle.fvn_narrow_children.specs.Growing.{AreGrown, IsLost};
ghost use Rattle.fvn_narrow_children.specs.inner.Outcomes.{OutcomeAs, IsTaken};
ghost use Rattle.fvn_narrow_children.specs.inner.Renaming.{value_variables};

use crate::resting::{Rested, rest_all};
use crate::starts::value_names;
use crate::values::{large_value, some_moved, some_reducible, values_under};
use fvn_base::Seq;
use fvn_cover::Variant;
use fvn_exploring::{ExpandEnd, Expansion};
use fvn_flat::{Flat, SizeCause, Subst};
use fvn_rewrite::Rewriter;
use fvn_rewrite_laws::sequences_are_lawful;
use fvn_terms::{NoMemory, Var, rewriting_is_lawful};
use std::alloc::Global;

// What one unifier makes of a variant.
#[derive(Drop)]
pub(crate) enum Outcome {
    Child(Variant),
    Lost,
    Stopped(ExpandEnd),
}

/// No child, and no reason to stop.
pub fn no_children(alloc: Global) -> Expansion
    ensures children { result.children ≡ [] }
    ensures end { result.end ≡ Whole }
{
    Expansion {
        children: Seq::new(alloc),
        end: ExpandEnd::Whole,
    }
}

// The child, where its values are known and irreducible.
fn with_terms(
    alloc: Global,
    rewriter: &Rewriter<'_>,
    v: &Variant,
    members: &[Flat],
    s: &Subst,
    subst: Subst,
) -> Result<Outcome, NoMemory>
    requires unifier { BindingsFit rewriter.now.signature s.now }
    requires members { AllFit rewriter.now.signature members.now }
    requires values { AreValuesUnder rewriter.now.signature v.now s.now subst }
    requires small { AreSmallValues v.now.vars subst rewriter.now.bounds.size }
    requires kept { IsLost rewriter.now v.now members.now s.now → ⊥ }
    requires irreducible { AreIrreducible rewriter.now.signature (equations_by rewriter.now)
        v.now.vars subst }
    ensures { IfOk result (OutcomeAs rewriter.now v.now members.now s.now) }
{
    let vars = Seq::from_slice(alloc, v.vars.as_slice())?;
    let forms = rest_all(alloc, rewriter, s, members)?;
    match forms {
        Rested::Forms(terms) => Ok(Outcome::Child(Variant { terms, subst, vars })),
        Rested::Stopped(end) => Ok(Outcome::Stopped(end)),
    }
}

// What one unifier makes of a variant: first what it gives the variables of the values is tested, then its values, and
// only then its terms are brought to normal form.
fn tried(
    alloc: Global,
    rewriter: &Rewriter<'_>,
    size: u64,
    v: &Variant,
    names: &[Var],
    members: &[Flat],
    s: &Subst,
) -> Result<Outcome, NoMemory>
    requires size { size ≡ rewriter.now.bounds.size }
    requires unifier { BindingsFit rewriter.now.signature s.now }
    requires members { AllFit rewriter.now.signature members.now }
    requires variant { IsFlatVariant rewriter.now.signature v.now }
    requires irreducible { AreIrreducible rewriter.now.signature (equations_by rewriter.now)
        v.now.vars v.now.subst }
    requires names { names.now ≡ value_variables v.now.subst v.now.vars [] }
    ensures { IfOk result (OutcomeAs rewriter.now v.now members.now s.now) }
{
    rewriter.recall();
    rewriting_is_lawful();
    sequences_are_lawful();
    let moved = some_moved(rewriter, names, s)?;
    if moved {
        return Ok(Outcome::Lost);
    }
    let subst = values_under(alloc, rewriter.signature(), v, s)?;
    let vars = v.vars.as_slice();
    let lost = some_reducible(rewriter, vars, &v.subst, &subst)?;
    if lost {
        return Ok(Outcome::Lost);
    }
    let large = large_value(alloc, vars, &subst, size)?;
    if let Some(t) = large {
        return Ok(Outcome::Stopped(ExpandEnd::Size(SizeCause::Term(t))));
    }
    let made = with_terms(alloc, rewriter, v, members, s, subst)?;
    Ok(made)
}

// The children with what comes of one more unifier, and the end at which it stopped.
fn with_outcome(
    children: Vec<Variant>,
    next: Outcome,
) -> Result<(Vec<Variant>, Option<ExpandEnd>), NoMemory>
    ensures { IfOk result (λ r. IsTaken children.items next r.0.items r.1) }
{
    let mut all = children;
    match next {
        Outcome::Child(c) => {
            all.push(c)?;
            Ok((all, None))
        }
        Outcome::Lost => Ok((all, None)),
        Outcome::Stopped(end) => Ok((all, Some(end))),
    }
}

/// What the unifiers make of a variant with irreducible values, in their order, up to the first that stops.
///
/// The members are the variant's terms after a step, not yet under the unifier.
pub fn grown(
    alloc: Global,
    rewriter: &Rewriter<'_>,
    size: u64,
    v: &Variant,
    members: &[Flat],
    unifiers: &[Subst],
) -> Result<Expansion, NoMemory>
    requires size { size ≡ rewriter.now.bounds.size }
    requires unifiers { All (BindingsFit rewriter.now.signature) unifiers.now }
    requires members { AllFit rewriter.now.signature members.now }
    requires variant { IsFlatVariant rewriter.now.signature v.now }
    requires irreducible { AreIrreducible rewriter.now.signature (equations_by rewriter.now)
        v.now.vars v.now.subst }
    ensures { IfOk result (AreGrown rewriter.now v.now members.now unifiers.now) }
{
    let names = value_names(alloc, v)?;
    let mut children = Vec::new(alloc);
    for s in unifiers {
        let next = tried(alloc, rewriter, size, v, names.as_slice(), members, s)?;
        let (all, stop) = with_outcome(children, next)?;
        children = all;
        if let Some(end) = stop {
            return Ok(Expansion {
                children: Seq::from_vec(children),
                end,
            });
        }
    }
    Ok(Expansion {
        children: Seq::from_vec(children),
        end: ExpandEnd::Whole,
    })
}
