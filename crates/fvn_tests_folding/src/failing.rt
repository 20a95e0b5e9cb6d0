//! An expander that runs out of memory.
ghost use Rattle.std.specs.Prelude.{◌≡◌};

use fvn_cover::Variant;
use fvn_exploring::{Expander, Expansion};
use fvn_flat::{Flat, Normal};
use fvn_terms::NoMemory;
use std::alloc::Global;
use std::sync::atomic::{AtomicU32, Ordering};

/// Answers so many questions as another expander does, and each later one by want of memory.
#[derive(Drop)]
pub struct Failing<'a, E: Expander> {
    inner: &'a E,
    most: u32,
    asked: AtomicU32,
}

impl<'a, E: Expander> Failing<'a, E> {
    /// Stands before this expander, for so many questions.
    pub fn new(inner: &'a E, most: u32) -> Failing<'a, E>
        ensures { result.inner.now ≡ inner.now }
    {
        Failing {
            inner,
            most,
            asked: AtomicU32::new(0),
        }
    }
}

// Whether one more question is answered, of so many.
fn has_memory(asked: &AtomicU32, most: u32) -> bool {
    asked.fetch_add(1, Ordering::SeqCst) < most
}

impl<E: Expander> Expander for Failing<'_, E> {
    ghost setting = { λ e. E.setting e.inner.now };

    ghost drawn = { λ e. E.drawn e.inner.now };

    fn fixed(&self) -> &[Flat] {
        self.inner.fixed()
    }

    fn expand(&self, alloc: Global, v: &Variant, first_fresh: u32) -> Result<Expansion, NoMemory> {
        if !has_memory(&self.asked, self.most) {
            return Err(NoMemory);
        }
        let e = self.inner.expand(alloc, v, first_fresh)?;
        Ok(e)
    }

    fn rest(&self, alloc: Global, t: &Flat) -> Result<Normal, NoMemory> {
        if !has_memory(&self.asked, self.most) {
            return Err(NoMemory);
        }
        let form = self.inner.rest(alloc, t)?;
        Ok(form)
    }
}
