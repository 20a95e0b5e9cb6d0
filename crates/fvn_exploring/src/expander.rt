//! What every expander of variants promises.
ghost use Rattle.std.specs.Prelude.{◌≡◌, ◌≤◌, map, IfOk};
ghost use Rattle.fvn_terms.specs.Substitution.{Substitution};
ghost use Rattle.fvn_terms.specs.Unifiers.{Problem};
ghost use Rattle.fvn_base.specs.declared.limits.TheConstants.{EXPANDED_FRESH};
ghost use Rattle.fvn_forms.specs.Flat.{plain};
ghost use Rattle.fvn_flat.specs.Fits.{Fits, AllFit};
ghost use Rattle.fvn_exploring.specs.Setting.{Setting, AreLawfulIn, IsRested};
ghost use Rattle.fvn_exploring.specs.Expansions.{IsExpandable, AreChildren, IsWhole, HasExpandCause};

use crate::ends::Expansion;
use fvn_cover::Variant;
use fvn_flat::{Flat, Normal};
use fvn_terms::NoMemory;
use std::alloc::Global;

/// What finds the children of variants and brings terms to normal form. It may be shared between threads.
pub trait Expander: Sync {
    /// The signature, the equations, what stays irreducible, and the limits.
    ghost setting: { Self → Setting };

    /// Which substitutions its solver may give for a problem.
    ghost drawn: { Self → Problem → Substitution → Type 0 };

    /// The terms that are to stay irreducible.
    fn fixed(&self) -> &[Flat]
        ensures exact { map plain result.now ≡ (setting self.now).fixed }
        ensures fit { AllFit (setting self.now).declarations result.now };

    /// The children of a variant.
    fn expand(&self, alloc: Global, v: &Variant, first_fresh: u32) -> Result<Expansion, NoMemory>
        requires variant { IsExpandable (setting self.now) first_fresh v.now }
        requires first { first_fresh ≤ EXPANDED_FRESH }

        // Each child is a drawn successor, brought to normal form.
        ensures children { IfOk result (AreChildren (setting self.now) (drawn self.now) v.now) }

        // Where the expander says so, every reducible instance with irreducible values lifts into a child.
        ensures whole { IfOk result (IsWhole (setting self.now) v.now) }

        // Every other end shows why it came.
        ensures cause { IfOk result (HasExpandCause (setting self.now) (drawn self.now) v.now) };

    /// A normal form of a term.
    fn rest(&self, alloc: Global, t: &Flat) -> Result<Normal, NoMemory>
        requires { Fits (setting self.now).declarations t.now }
        ensures normal { IfOk result (IsRested (setting self.now) t.now) }
        ensures lawful { IfOk result (λ _. AreLawfulIn (setting self.now)) };
}
