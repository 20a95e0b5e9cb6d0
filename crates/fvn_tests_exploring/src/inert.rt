//! An expander without equations: the promises of expanders, met by a body.
ghost use Rattle.std.specs.Prelude.{◌≡◌};
ghost use Rattle.fvn_tests_exploring.specs.Settings.{without_equations};

use fvn_base::Seq;
use fvn_cover::Variant;
use fvn_exploring::{ExpandEnd, Expander, Expansion};
use fvn_flat::{Flat, Normal};
use fvn_terms::{Declarations, NoMemory};
use fvn_theory::Bounds;
use std::alloc::Global;

/// Has no equations: no variant has a child, and each term is a normal form.
#[derive(Drop)]
pub struct Inert<'a> {
    declarations: &'a Declarations,
    bounds: Bounds,
}

impl<'a> Inert<'a> {
    /// The expander over these declarations, within these bounds.
    pub fn new(declarations: &'a Declarations, bounds: Bounds) -> Inert<'a>
        ensures declarations { result.declarations.now ≡ declarations.now }
        ensures bounds { result.bounds ≡ bounds }
    {
        Inert {
            declarations,
            bounds,
        }
    }
}

impl Expander for Inert<'_> {
    ghost setting = { λ e. without_equations e.declarations.now e.bounds };

    // Any substitution may be drawn.
    ghost drawn = { λ e problem s. Unit {0} };

    // No term is asked to stay irreducible.
    fn fixed(&self) -> &[Flat] {
        &[]
    }

    fn expand(
        &self,
        alloc: Global,
        _v: &Variant,
        _first_fresh: u32,
    ) -> Result<Expansion, NoMemory> {
        Ok(Expansion {
            children: Seq::new(alloc),
            end: ExpandEnd::Whole,
        })
    }

    fn rest(&self, alloc: Global, t: &Flat) -> Result<Normal, NoMemory> {
        let form = t.copy(alloc)?;
        if form.size() > self.bounds.size {
            return Ok(Normal::Size(form));
        }
        Ok(Normal::Form(form))
    }
}
