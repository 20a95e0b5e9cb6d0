//! A signature from what was collected.
ghost use Rattle.std.specs.Prelude.{◌≡◌, ◌⊎◌, IfOk, IfErr, OnOk};
ghost use Rattle.fvn_forms.specs.Good.{IsGood};
ghost use Rattle.fvn_signature_draft.specs.Collected.{IsClosed, completed};
ghost use Rattle.fvn_sorts.specs.Faults.{HasNoFault, IsFirstFault};

use crate::builder::SignatureBuilder;
use crate::conditions::fault::SigFault;
use crate::conditions::sizes::is_too_large;
use crate::conditions::stages::first_fault;
use fvn_signature::Signature;
use fvn_signature_draft::{Collected, draft_of};
use fvn_terms::NoMemory;
use std::alloc::Global;

// The signature of what is collected, or its first fault.
fn signature_of(alloc: Global, collected: &Collected) -> Result<Signature, SigFault>
    requires { IsClosed collected.now }
    ensures good { IfOk result IsGood }
    ensures collected { IfOk result (λ s. s ≡ completed collected.now) }
    ensures exact { OnOk result (HasNoFault collected.now) }
    ensures first { IfErr result (λ k. (k ≡ SigFault.NoMemory) ⊎ IsFirstFault collected.now k) }
{
    if is_too_large(collected) {
        return Err(SigFault::TooMany);
    }
    let draft = draft_of(alloc, collected)?;
    match first_fault(alloc, &draft, collected)? {
        Some(fault) => return Err(fault),
        None => {}
    }
    let signature = Signature::from_draft(alloc, draft)?;
    Ok(signature)
}

impl SignatureBuilder {
    /// The signature of what was collected, where it is good; else its first fault.
    ///
    /// Faults are told in the order of their conditions: too much of something, a cycle, kinds, shapes,
    /// axioms and identities of declarations, sorts without a least result, brackets, and sorts that are
    /// not at or below those of their sums with an identity. Within one condition the first operator is
    /// told, with its first list of sorts in lexicographic order of their numbers.
    pub fn finish(self, alloc: Global) -> Result<Signature, SigFault>
        // The signature is good, and is what was collected with kinds.
        ensures good { IfOk result IsGood }
        ensures collected { IfOk result (λ s. s ≡ completed self) }

        // What is good is not refused, and what is refused is told by its first fault.
        ensures exact { OnOk result (HasNoFault self) }
        ensures first { IfErr result (λ k. (k ≡ SigFault.NoMemory) ⊎ IsFirstFault self k) }
    {
        signature_of(alloc, &self.collected)
    }
}
