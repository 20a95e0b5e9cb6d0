//! Forms whose normal forms are to be one.
ghost use Rattle.std.specs.Prelude.{IfOk};
ghost use Rattle.fvn_flat.specs.Fits.{Fits};
ghost use Rattle.fvn_critical.specs.inner.Comparing.{ComparedAs, AgainstAs};

use crate::fault::CriticalFault;
use fvn_flat::{Flat, Normal, SizeCause};
use fvn_rewrite::Rewriter;
use fvn_terms::NoMemory;

// The numbers of two equations.
#[derive(Clone, Copy)]
pub(crate) struct Numbers {
    pub(crate) outer: usize,
    pub(crate) inner: usize,
}

// Nothing where the forms are one; else they are told in the order of the equations that they begin with.
fn compared(numbers: Numbers, left: Flat, right: Flat) -> Option<CriticalFault>
    ensures { ComparedAs numbers.outer numbers.inner left right result }
{
    let same = left.same(&right);
    if same {
        return None;
    }
    let ordered = numbers.outer <= numbers.inner;
    if ordered {
        Some(CriticalFault::Apart(numbers.outer, numbers.inner, left, right))
    } else {
        Some(CriticalFault::Apart(numbers.inner, numbers.outer, right, left))
    }
}

// Nothing where the normal form is one of the other form too.
pub(crate) fn against(
    rewriter: &Rewriter<'_>,
    numbers: Numbers,
    left: Flat,
    form: &Flat,
) -> Result<Option<CriticalFault>, NoMemory>
    requires { Fits rewriter.now.signature form.now }
    ensures { IfOk result (AgainstAs numbers.outer numbers.inner left rewriter.now form.now) }
{
    let found = rewriter.normal(form)?;
    match found {
        Normal::Form(right) => Ok(compared(numbers, left, right)),
        Normal::Steps(start, end) => Ok(Some(CriticalFault::Steps(start, end))),
        Normal::Size(u) => Ok(Some(CriticalFault::Size(SizeCause::Term(u)))),
    }
}
