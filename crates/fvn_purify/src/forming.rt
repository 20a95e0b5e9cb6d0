//! Flat forms of nodes.
ghost use Rattle.std.specs.Prelude.{◌≡◌, ◌<◌, ℕ, length, map, IfOk, All};
ghost use Rattle.fvn_terms.specs.Plain.{term};
ghost use Rattle.fvn_terms.specs.Signature.{IsTerm};
ghost use Rattle.fvn_combine_nodes.specs.Table.{term_at};
ghost use Rattle.fvn_purify.specs.Parts.{form_at};

use fvn_combine_nodes::{Node, Table};
use fvn_flat::{Flat, flatten};
use fvn_signature::Signature;
use fvn_terms::{Args, NoMemory, Plain};
use std::alloc::Global;

// The term of node i.
#[cycle(plain_at)]
fn plain_at(alloc: Global, table: &Table, i: usize) -> Result<Plain, NoMemory>
    requires { i < length table.now.nodes }
    ensures { IfOk result (λ t. term t ≡ term_at table.now.nodes i) }
{
    table.recall_well_made();
    match table.node(i) {
        Node::Var(x) => Ok(Plain::Var(*x)),
        Node::App(f, arguments) => {
            let mut items = Vec::new(alloc);
            for n in 0..arguments.len() {
                let k = arguments.as_slice()[n];
                let t = plain_at(alloc, table, k)?;
                items.push(t)?;
            }
            Ok(Plain::App(*f, Args::from_vec(items)))
        }
    }
}

// The flat form of node i.
fn form_at(alloc: Global, sig: &Signature, table: &Table, i: usize) -> Result<Flat, NoMemory>
    requires within { i < length table.now.nodes }
    requires kinded { IsTerm sig.now (term_at table.now.nodes i) }
    ensures { IfOk result (λ t. t ≡ form_at sig.now table.now i) }
{
    let t = plain_at(alloc, table, i)?;
    let form = flatten(alloc, sig, &t)?;
    Ok(form)
}

/// The flat forms of these nodes.
pub(crate) fn forms(
    alloc: Global,
    sig: &Signature,
    table: &Table,
    list: &[usize],
) -> Result<Vec<Flat>, NoMemory>
    requires within { All (λ i. i < length table.now.nodes) list.now }
    requires kinded { (i : ℕ) → i < length table.now.nodes →
        IsTerm sig.now (term_at table.now.nodes i) }
    ensures { IfOk result (λ forms. forms.items ≡ map (form_at sig.now table.now) list.now) }
{
    let mut forms = Vec::new(alloc);
    for i in list {
        let form = form_at(alloc, sig, table, *i)?;
        forms.push(form)?;
    }
    Ok(forms)
}

/// The flat forms of these pairs of nodes.
pub(crate) fn pair_forms(
    alloc: Global,
    sig: &Signature,
    table: &Table,
    list: &[(usize, usize)],
) -> Result<Vec<(Flat, Flat)>, NoMemory>
    requires within { All (λ p.
        (p.0 < length table.now.nodes) × (p.1 < length table.now.nodes)) list.now }
    requires kinded { (i : ℕ) → i < length table.now.nodes →
        IsTerm sig.now (term_at table.now.nodes i) }
    ensures { IfOk result (λ forms. forms.items
        ≡ map (λ p. (form_at sig.now table.now p.0, form_at sig.now table.now p.1)) list.now) }
{
    let mut forms = Vec::new(alloc);
    for (i, j) in list {
        let left = form_at(alloc, sig, table, *i)?;
        let right = form_at(alloc, sig, table, *j)?;
        forms.push((left, right))?;
    }
    Ok(forms)
}
