//! What the variables of a term may stand for.
ghost use Rattle.std.specs.Prelude.{◌≡◌, ◌∷◌, ◌++◌, map, IfOk};
ghost use Rattle.fvn_rewrite_laws.specs.Identities.{identities};
ghost use Rattle.fvn_rewrite_laws.specs.Choices.{variable_shape, identity_shape, sorts_below};
ghost use Rattle.fvn_cohere.specs.inner.Searching.{choices_for, unchosen_of};

use crate::identities::{identities_below, sorts_below};
use crate::searching::Sought;
use fvn_base::Seq;
use fvn_rewrite_laws::{Root, Shape};
use fvn_signature::Signature;
use fvn_terms::{NoMemory, OpId, SortId, Var};
use std::alloc::Global;

// Variables of these sorts.
fn variable_shapes(alloc: Global, sorts: &[SortId]) -> Result<Vec<Shape>, NoMemory>
    ensures { IfOk result (λ all. all.items ≡ map variable_shape sorts.now) }
{
    let mut all = Vec::new(alloc);
    for s in sorts {
        all.push(Shape {
            root: Root::Variable,
            sort: *s,
        })?;
    }
    Ok(all)
}

// The identity as a shape.
fn identity_shape(sig: &Signature, e: OpId) -> Shape
    ensures { result ≡ identity_shape sig.now e }
{
    let sort = sig.result(e, &[]);
    Shape {
        root: Root::Constant(e),
        sort,
    }
}

// Some shapes, and then those of these identities.
fn with_identity_shapes(
    sig: &Signature,
    shapes: Vec<Shape>,
    es: &[OpId],
) -> Result<Vec<Shape>, NoMemory>
    ensures { IfOk result (λ all. all.items ≡ shapes.items ++ map (identity_shape sig.now) es.now) }
{
    let mut all = shapes;
    for e in es {
        let shape = identity_shape(sig, *e);
        all.push(shape)?;
    }
    Ok(all)
}

// A variable of a sort at or below this one, or one of these identities.
fn lower_or_identities(
    alloc: Global,
    sig: &Signature,
    es: &[OpId],
    s: SortId,
) -> Result<Vec<Shape>, NoMemory>
    ensures { IfOk result (λ all. all.items ≡
        map variable_shape (sorts_below sig.now s) ++ map (identity_shape sig.now) es.now) }
{
    let sorts = sorts_below(alloc, sig, s)?;
    let lower = variable_shapes(alloc, sorts.as_slice())?;
    let all = with_identity_shapes(sig, lower, es)?;
    Ok(all)
}

// A variable of this sort, or one of these identities.
fn itself_or_identities(
    alloc: Global,
    sig: &Signature,
    es: &[OpId],
    s: SortId,
) -> Result<Vec<Shape>, NoMemory>
    ensures { IfOk result (λ all. all.items ≡
        variable_shape s ∷ map (identity_shape sig.now) es.now) }
{
    let first = variable_shapes(alloc, &[s])?;
    let all = with_identity_shapes(sig, first, es)?;
    Ok(all)
}

// What a variable of the sort may stand for in such a search.
fn choices(
    alloc: Global,
    sig: &Signature,
    es: &[OpId],
    sought: Sought,
    s: SortId,
) -> Result<Vec<Shape>, NoMemory>
    requires { es.now ≡ identities sig.now }
    ensures { IfOk result (λ all. all.items ≡ choices_for sig.now sought s) }
{
    let below = identities_below(alloc, sig, es, s)?;
    let ids = below.as_slice();
    match sought {
        Sought::Loss => {
            let all = lower_or_identities(alloc, sig, ids, s)?;
            Ok(all)
        }
        Sought::LossAt(_) => {
            let all = lower_or_identities(alloc, sig, ids, s)?;
            Ok(all)
        }
        Sought::ToVariable => {
            let all = itself_or_identities(alloc, sig, ids, s)?;
            Ok(all)
        }
        Sought::ToIdentity => {
            let all = itself_or_identities(alloc, sig, ids, s)?;
            Ok(all)
        }
    }
}

// The variables with their choices.
pub(crate) fn unchosen(
    alloc: Global,
    sig: &Signature,
    es: &[OpId],
    sought: Sought,
    vars: &[Var],
) -> Result<Vec<(Var, Seq<Shape>)>, NoMemory>
    requires { es.now ≡ identities sig.now }
    ensures { IfOk result (λ all. all.items ≡ unchosen_of (choices_for sig.now sought) vars.now) }
{
    let mut all = Vec::new(alloc);
    for x in vars {
        let shapes = choices(alloc, sig, es, sought, x.sort)?;
        all.push((*x, Seq::from_vec(shapes)))?;
    }
    Ok(all)
}
