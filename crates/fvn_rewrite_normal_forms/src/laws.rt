//! Laws of normal forms, each the contract of a function that does nothing.
ghost use Rattle.fvn_rewrite_normal_forms.specs.Laws.{NormalFormsAreLawful};

use fvn_rewrite_coherence::{rules_are_coherent, sequences_keep_sorts};
use fvn_rewrite_laws::{
    agreement_is_lawful, kinded_theories_are_lawful, lists_are_lawful, sequences_are_lawful,
};
use fvn_terms::{rewriting_is_lawful, theory_equality_is_lawful};

/// A term is reducible or not; where the equations terminate, terms and solutions have normal forms.
pub fn normal_forms_are_lawful()
    ensures { NormalFormsAreLawful }
{
    rewriting_is_lawful();
    theory_equality_is_lawful();
    sequences_are_lawful();
    lists_are_lawful();
    agreement_is_lawful();
    kinded_theories_are_lawful();
    rules_are_coherent();
    sequences_keep_sorts();
}
