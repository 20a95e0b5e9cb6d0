//! What is asked of the axioms of operators that head members of classes.
ghost use Rattle.std.specs.Prelude.{◌≡◌, ◌↔◌, IsTrue};
ghost use Rattle.fvn_flat.specs.Partitions.{HasNoIdentity};

use fvn_terms::Axioms;

/// Whether these axioms are commutativity alone.
pub fn is_only_commutative(axioms: Axioms) -> bool
    ensures { IsTrue result ↔ (axioms ≡ Axioms.Comm) }
{
    if axioms.is_sum() {
        return false;
    }
    axioms.is_commutative()
}

/// Whether operators with these axioms have no identity.
pub fn has_no_identity(axioms: Axioms) -> bool
    ensures { IsTrue result ↔ HasNoIdentity axioms }
{
    axioms.identity().is_none()
}
