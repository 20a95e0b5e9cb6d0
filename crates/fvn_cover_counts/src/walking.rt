//! The rows of terms, made in one walk.
ghost use Rattle.std.specs.Prelude.{◌<◌, ◌+◌, ◌^◌, length, replicate, IfOk};
ghost use Rattle.std.specs.List.{AllByRecursion};
ghost use Rattle.fvn_forms.specs.Flat.{plain};
ghost use Rattle.fvn_forms.specs.Settled.{Settled};
ghost use Rattle.fvn_cover_counts.specs.Weights.{times};
ghost use Rattle.fvn_cover_counts.specs.Places.{column, places_from};
ghost use Rattle.fvn_cover_counts.specs.inner.Rows.{Notes};

use crate::rows::{Row, with_symbol};
use crate::symbols::{further, top_symbol};
use fvn_flat::Flat;
use fvn_signature::Signature;
use fvn_terms::NoMemory;
use std::alloc::Global;

// The rows with all symbols of a term noted at a place.
fn with_symbols(
    alloc: Global,
    sig: &Signature,
    rows: Vec<Row>,
    t: &Flat,
    place: u64,
) -> Result<Vec<Row>, NoMemory>
    requires { Settled sig.now t.now }
    ensures { IfOk result (λ all.
        Notes rows.items (λ s. replicate (times s (plain t.now)) place) all.items) }
{
    let mut all = with_symbol(alloc, rows, top_symbol(t), place, further(sig, t))?;
    for u in t.args() {
        all = with_symbols(alloc, sig, all, u, place)?;
    }
    Ok(all)
}

// The rows with all symbols of some terms noted, each at the number of its term, from `first` on.
pub(crate) fn with_all_symbols(
    alloc: Global,
    sig: &Signature,
    rows: Vec<Row>,
    terms: &[Flat],
    first: u64,
) -> Result<Vec<Row>, NoMemory>
    requires settled { AllByRecursion (Settled sig.now) terms.now }
    requires room { first + length terms.now < 2 ^ 64 }
    ensures { IfOk result (λ all.
        Notes rows.items (λ s. places_from first (column s terms.now)) all.items) }
{
    let mut all = rows;
    let mut place = first;
    for t in terms {
        all = with_symbols(alloc, sig, all, t, place)?;
        place += 1;
    }
    Ok(all)
}
