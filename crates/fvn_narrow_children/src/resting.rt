//! Normal forms of a list of terms.
ghost use Rattle.std.specs.Prelude.{map, IfOk};
ghost use Rattle.fvn_forms.specs.Canon.{inst};
ghost use Rattle.fvn_flat.specs.Bindings.{value, BindingsFit};
ghost use Rattle.fvn_flat.specs.Fits.{AllFit};
ghost use Rattle.fvn_narrow_children.specs.inner.Resting.{RestedAs};

use fvn_base::Seq;
use fvn_exploring::ExpandEnd;
use fvn_flat::{Flat, Normal, SizeCause, Subst};
use fvn_rewrite::Rewriter;
use fvn_terms::NoMemory;
use std::alloc::Global;

// The normal forms of some terms, or why one of them has none within the limits.
#[derive(Drop)]
pub(crate) enum Rested {
    Forms(Seq<Flat>),
    Stopped(ExpandEnd),
}

// The normal forms of the instances.
pub(crate) fn rest_all(
    alloc: Global,
    rewriter: &Rewriter<'_>,
    s: &Subst,
    ts: &[Flat],
) -> Result<Rested, NoMemory>
    requires subst { BindingsFit rewriter.now.signature s.now }
    requires terms { AllFit rewriter.now.signature ts.now }
    ensures { IfOk result (RestedAs rewriter.now
        (map (inst rewriter.now.signature (value s.now)) ts.now)) }
{
    let mut forms = Vec::new(alloc);
    for t in ts {
        let u = s.apply(alloc, rewriter.signature(), t)?;
        let normal = rewriter.normal(&u)?;
        match normal {
            Normal::Form(form) => forms.push(form)?,
            Normal::Steps(start, end) => {
                return Ok(Rested::Stopped(ExpandEnd::Steps(start, end)));
            }
            Normal::Size(large) => {
                return Ok(Rested::Stopped(ExpandEnd::Size(SizeCause::Term(large))));
            }
        }
    }
    Ok(Rested::Forms(Seq::from_vec(forms)))
}
