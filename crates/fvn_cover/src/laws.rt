//! Laws of variants, each the contract of a function that does nothing.
ghost use Rattle.std.specs.Prelude.{◌≡◌};
ghost use Rattle.fvn_cover.specs.declared.marking.TheConstants.{WORKERS};
ghost use Rattle.fvn_cover.specs.Laws.{CoveringOfUnifiersIsInstance, CoveringOfVariantsIsAPreorder};

use fvn_terms::covering_is_reflexive_and_transitive;

/// Covering is reflexive and, among variants of one list of terms, transitive.
pub fn covering_of_variants_is_a_preorder()
    ensures { CoveringOfVariantsIsAPreorder }
{
    covering_is_reflexive_and_transitive();
}

/// Unifiers are variants without terms: one covers another exactly where the other is an instance of it.
pub fn covering_of_unifiers_is_instance()
    ensures { CoveringOfUnifiersIsInstance }
{}

/// At most sixteen workers can be asked for.
pub fn at_most_sixteen_workers()
    ensures { WORKERS ≡ 16 }
{}
