//! An expander that keeps terms fixed.
ghost use Rattle.std.specs.Prelude.{◌≡◌, [], length, map, IsTrue};
ghost use Rattle.fvn_forms.specs.Flat.{plain};
ghost use Rattle.fvn_exploring.specs.declared.ends.ExpandEnd.TheVariants.{Whole};
ghost use Rattle.fvn_tests_vunify.specs.Settings.{fixing};

use crate::listed::Listed;
use fvn_cover::Variant;
use fvn_exploring::{ExpandEnd, Expander, Expansion};
use fvn_flat::{Flat, Normal};
use fvn_terms::NoMemory;
use std::alloc::Global;

/// Keeps some terms fixed, and else answers as an expander that keeps none does, where that finds no child.
#[derive(Drop)]
pub struct Fixing<'a, E: Expander> {
    inner: &'a E,
    listed: Listed<'a>,
    ghost one_signature: { listed.declarations ≡ (E.setting inner.now).declarations },
    ghost none_fixed: { length (E.setting inner.now).fixed ≡ 0 },
}

impl<'a, E: Expander> Fixing<'a, E> {
    /// Stands before this expander, and keeps these terms fixed.
    pub fn new(inner: &'a E, listed: Listed<'a>) -> Fixing<'a, E>
        requires one_signature { listed.declarations ≡ (E.setting inner.now).declarations }
        requires none_fixed { length (E.setting inner.now).fixed ≡ 0 }
        ensures inner { result.inner.now ≡ inner.now }
    {
        Fixing { inner, listed }
    }
}

// Whether the expansion has no children, and leaves nothing open.
fn has_none(e: &Expansion) -> bool
    ensures children { IsTrue result → e.now.children ≡ [] }
    ensures end { IsTrue result → e.now.end ≡ Whole }
{
    match &e.end {
        ExpandEnd::Whole => e.children.as_slice().is_empty(),
        ExpandEnd::Steps(_, _) => false,
        ExpandEnd::Size(_) => false,
        ExpandEnd::Basis(_, _) => false,
        ExpandEnd::Unifiers(_, _) => false,
    }
}

impl<E: Expander> Expander for Fixing<'_, E> {
    ghost setting = { λ e. fixing (map plain e.listed.terms) (E.setting e.inner.now) };

    ghost drawn = { λ e. E.drawn e.inner.now };

    fn fixed(&self) -> &[Flat] {
        self.listed.terms()
    }

    // Children under which a fixed term is reducible are not told apart.
    fn expand(&self, alloc: Global, v: &Variant, first_fresh: u32) -> Result<Expansion, NoMemory> {
        let e = self.inner.expand(alloc, v, first_fresh)?;
        if has_none(&e) {
            return Ok(e);
        }
        Err(NoMemory)
    }

    fn rest(&self, alloc: Global, t: &Flat) -> Result<Normal, NoMemory> {
        let form = self.inner.rest(alloc, t)?;
        Ok(form)
    }
}
