//! The conditions on kinds, axioms and identities of an operator's declarations.
ghost use Rattle.std.specs.Prelude.{◌≡◌, ◌↔◌, [], ◌∷◌, map, Any, IsTrue, MatchOption};
ghost use Rattle.fvn_terms.specs.Signature.{kind, declared, axioms, HasKind};
ghost use Rattle.fvn_terms.specs.Equality.{constant as constant_term};
ghost use Rattle.fvn_signature_draft.specs.Collected.{declarations_of, completed, meant_or_kind, rank_meant};
ghost use Rattle.fvn_signature_draft.specs.DraftOf.{IsDraftOf};
ghost use Rattle.fvn_forms.specs.FitsKinds.{HaveOneKind, TakesTwoAlike};
ghost use Rattle.fvn_sorts.specs.Faults.{Differ, HasBadShape, HasBadIdentity, HasFault};
ghost use Rattle.fvn_sorts.specs.inner.Searches.{fault_at, IsFirstOperator};

use fvn_signature::Draft;
use fvn_signature_draft::{Collected, Declaration, first_axioms, meant_or_kind};
use fvn_terms::{Axioms, Declarations, OpId, Rank, SortId};

/// A condition that speaks of the declarations of one operator alone.
#[derive(Clone, Copy)]
pub enum Condition {
    Kinds,
    Shape,
    Same,
    Identity,
}

/// Whether two lists of sorts have the same kinds.
fn have_same_kinds(declarations: &Declarations, some: &[SortId], others: &[SortId]) -> bool
    ensures { IsTrue result ↔ (map (kind declarations.now) some.now ≡ map
        (kind declarations.now) others.now) }
{
    if some.len() != others.len() {
        return false;
    }
    for (s, q) in some.iter().zip(others.iter()) {
        if declarations.kind(*s) != declarations.kind(*q) {
            return false;
        }
    }
    true
}

/// Whether the two ranks have arguments and results of the same kinds.
fn have_one_kind(declarations: &Declarations, one: &Rank, other: &Rank) -> bool
    ensures { IsTrue result ↔ HaveOneKind declarations.now one.now other.now }
{
    have_same_kinds(declarations, one.args.as_slice(), other.args.as_slice())
        && declarations.kind(one.result) == declarations.kind(other.result)
}

/// Whether two ranks differ in their kinds.
fn kinds_differ(declarations: &Declarations, ranks: &[Rank]) -> bool
    ensures { IsTrue result ↔ Differ (HaveOneKind declarations.now) ranks.now }
{
    for rank in ranks {
        if !have_one_kind(declarations, &ranks[0], rank) {
            return true;
        }
    }
    false
}

/// The kind of the sort that a number in a rank names.
fn kind_meant(draft: &Draft, collected: &Collected, partial: bool, s: SortId) -> SortId
    requires { IsDraftOf collected.now draft.now }
    ensures { result ≡ kind (completed collected.now) (meant_or_kind collected.now partial s) }
{
    let list = draft.declarations.kinds.as_slice();
    draft
        .declarations
        .kind(meant_or_kind(collected, list, partial, s))
}

/// The kind of the two arguments, where there are two of one kind.
fn kind_of_both(draft: &Draft, collected: &Collected, declaration: &Declaration) -> Option<SortId>
    requires { IsDraftOf collected.now draft.now }
    ensures { MatchOption result (TakesTwoAlike (completed collected.now)
        (rank_meant collected.now declaration.now) →
        ⊥) (λ k. map (kind (completed collected.now))
        (rank_meant collected.now declaration.now).args ≡ k ∷ k ∷ []) }
{
    let args = declaration.rank.args.as_slice();
    if args.len() != 2 {
        return None;
    }
    let first = kind_meant(draft, collected, declaration.partial, args[0]);
    let second = kind_meant(draft, collected, declaration.partial, args[1]);
    if first == second { Some(first) } else { None }
}

/// Whether the declaration's axioms do not stand on its shape.
fn has_bad_shape(draft: &Draft, collected: &Collected, declaration: &Declaration) -> bool
    requires { IsDraftOf collected.now draft.now }
    ensures { IsTrue result ↔ HasBadShape collected.now declaration.now }
{
    let both = match kind_of_both(draft, collected, declaration) {
        Some(kind) => kind,
        None => return declaration.axioms.is_commutative(),
    };
    if !declaration.axioms.is_sum() {
        return false;
    }
    kind_meant(
        draft,
        collected,
        declaration.partial,
        declaration.rank.result,
    ) != both
}

/// Whether it is one of the operator, with axioms that do not stand on its shape.
fn is_bad_of(draft: &Draft, collected: &Collected, op: OpId, declaration: &Declaration) -> bool
    requires { IsDraftOf collected.now draft.now }
    ensures { IsTrue result
        ↔ ((declaration.now.op ≡ op) × HasBadShape collected.now declaration.now) }
{
    if declaration.op != op {
        return false;
    }
    has_bad_shape(draft, collected, declaration)
}

/// Whether some declaration of the operator has axioms that do not stand on its shape.
fn has_bad_declaration(draft: &Draft, collected: &Collected, op: OpId) -> bool
    requires { IsDraftOf collected.now draft.now }
    ensures { IsTrue result ↔ Any (λ e. (e.op ≡ op)
        × HasBadShape collected.now e) collected.now.declarations }
{
    for declaration in collected.declarations.as_slice() {
        if is_bad_of(draft, collected, op, declaration) {
            return true;
        }
    }
    false
}

/// Whether it is one of the operator, with other axioms.
fn has_other_axioms(declaration: &Declaration, op: OpId, axioms: Axioms) -> bool
    ensures { IsTrue result ↔ ((declaration.now.op ≡ op) × (declaration.now.axioms ≡ axioms → ⊥)) }
{
    if declaration.op != op {
        return false;
    }
    declaration.axioms != axioms
}

/// Whether two declarations of the operator differ in axioms.
fn axioms_differ(collected: &Collected, op: OpId) -> bool
    ensures { IsTrue result ↔ Differ (λ e g. e.axioms ≡ g.axioms)
        (declarations_of collected.now op) }
{
    let first = first_axioms(collected, op);
    for declaration in collected.declarations.as_slice() {
        if has_other_axioms(declaration, op, first) {
            return true;
        }
    }
    false
}

/// Whether a constant of this name has the kind.
fn is_constant_of(declarations: &Declarations, op: OpId, kind: SortId) -> bool
    ensures { IsTrue result ↔ HasKind declarations.now (constant_term op) kind }
{
    let declared = match declarations.declared(op) {
        Some(declared) => declared,
        None => return false,
    };
    for rank in declared.ranks.as_slice() {
        if rank.args.is_empty() && declarations.kind(rank.result) == kind {
            return true;
        }
    }
    false
}

/// Whether the operator has an identity that is not a constant of the kind that a rank of it gives.
fn has_bad_identity(draft: &Draft, collected: &Collected, op: OpId) -> bool
    requires { IsDraftOf collected.now draft.now }
    ensures { IsTrue result ↔ HasBadIdentity collected.now op }
{
    let declared = match draft.declarations.declared(op) {
        Some(declared) => declared,
        None => return false,
    };
    let identity = match declared.axioms.identity() {
        Some(identity) => identity,
        None => return false,
    };
    has_other_kind(&draft.declarations, declared.ranks.as_slice(), identity)
}

/// Whether some rank gives another kind than the constant's.
fn has_other_kind(declarations: &Declarations, ranks: &[Rank], constant: OpId) -> bool
    ensures { IsTrue result ↔ Any (λ r. HasKind declarations.now (constant_term constant)
        (kind declarations.now r.result) → ⊥) ranks.now }
{
    for rank in ranks {
        if !is_constant_of(declarations, constant, declarations.kind(rank.result)) {
            return true;
        }
    }
    false
}

/// Whether the operator fails the condition.
pub fn fails(draft: &Draft, collected: &Collected, condition: Condition, op: OpId) -> bool
    requires { IsDraftOf collected.now draft.now }
    ensures { IsTrue result ↔ HasFault collected.now (fault_at condition op) }
{
    match condition {
        Condition::Kinds => kinds_differ(&draft.declarations, draft.declared_ranks(op)),
        Condition::Shape => has_bad_declaration(draft, collected, op),
        Condition::Same => axioms_differ(collected, op),
        Condition::Identity => has_bad_identity(draft, collected, op),
    }
}

/// The first operator that fails the condition.
pub fn first_failing(draft: &Draft, collected: &Collected, condition: Condition) -> Option<OpId>
    requires { IsDraftOf collected.now draft.now }
    ensures { IsFirstOperator (λ f. HasFault collected.now (fault_at condition f)) result }
{
    for op in 0..collected.operators {
        if fails(draft, collected, condition, OpId(op)) {
            return Some(OpId(op));
        }
    }
    None
}
