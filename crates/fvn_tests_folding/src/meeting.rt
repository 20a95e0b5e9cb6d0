//! An expander in which two expansions look for each other.
ghost use Rattle.std.specs.Prelude.{◌≡◌};

use fvn_cover::Variant;
use fvn_exploring::{Expander, Expansion};
use fvn_flat::{Flat, Normal};
use fvn_terms::NoMemory;
use std::alloc::Global;
use std::sync::atomic::{AtomicU32, Ordering};
use std::thread::yield_now;

// The looks of an expansion for another one.
const LOOKS: u32 = 10_000_000;

/// Each expansion waits inside for a second one; `met` counts those that saw it, and then answers as another expander does.
#[derive(Drop)]
pub struct Meeting<'a, E: Expander> {
    inner: &'a E,
    come: AtomicU32,
    met: AtomicU32,
}

impl<'a, E: Expander> Meeting<'a, E> {
    /// Stands before this expander; nobody has come yet.
    pub fn new(inner: &'a E) -> Meeting<'a, E>
        ensures { result.inner.now ≡ inner.now }
    {
        Meeting {
            inner,
            come: AtomicU32::new(0),
            met: AtomicU32::new(0),
        }
    }

    /// The expansions that saw another one inside.
    pub fn met(&self) -> u32 {
        self.met.load(Ordering::SeqCst)
    }
}

// Comes in and looks for a second expansion, and counts where it has come.
fn look(come: &AtomicU32, met: &AtomicU32) {
    come.fetch_add(1, Ordering::SeqCst);
    for _ in 0..LOOKS {
        if come.load(Ordering::SeqCst) >= 2 {
            met.fetch_add(1, Ordering::SeqCst);
            return;
        }
        yield_now();
    }
}

impl<E: Expander> Expander for Meeting<'_, E> {
    ghost setting = { λ e. E.setting e.inner.now };

    ghost drawn = { λ e. E.drawn e.inner.now };

    fn fixed(&self) -> &[Flat] {
        self.inner.fixed()
    }

    fn expand(&self, alloc: Global, v: &Variant, first_fresh: u32) -> Result<Expansion, NoMemory> {
        look(&self.come, &self.met);
        let e = self.inner.expand(alloc, v, first_fresh)?;
        Ok(e)
    }

    fn rest(&self, alloc: Global, t: &Flat) -> Result<Normal, NoMemory> {
        let form = self.inner.rest(alloc, t)?;
        Ok(form)
    }
}
