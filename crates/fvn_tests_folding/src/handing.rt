//! An expander that hands each question on.
ghost use Rattle.std.specs.Prelude.{◌≡◌};

use fvn_cover::Variant;
use fvn_exploring::{Expander, Expansion};
use fvn_flat::{Flat, Normal};
use fvn_terms::NoMemory;
use std::alloc::Global;

/// Answers as another expander does.
#[derive(Drop)]
pub struct Handing<'a, E: Expander> {
    inner: &'a E,
}

impl<'a, E: Expander> Handing<'a, E> {
    /// Stands before this expander.
    pub fn new(inner: &'a E) -> Handing<'a, E>
        ensures { result.inner.now ≡ inner.now }
    {
        Handing { inner }
    }
}

impl<E: Expander> Expander for Handing<'_, E> {
    ghost setting = { λ e. E.setting e.inner.now };

    ghost drawn = { λ e. E.drawn e.inner.now };

    fn fixed(&self) -> &[Flat] {
        self.inner.fixed()
    }

    fn expand(&self, alloc: Global, v: &Variant, first_fresh: u32) -> Result<Expansion, NoMemory> {
        let e = self.inner.expand(alloc, v, first_fresh)?;
        Ok(e)
    }

    fn rest(&self, alloc: Global, t: &Flat) -> Result<Normal, NoMemory> {
        let form = self.inner.rest(alloc, t)?;
        Ok(form)
    }
}
