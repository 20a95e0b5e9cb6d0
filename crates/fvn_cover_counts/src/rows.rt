//! Symbols with the places at which they stand.
ghost use Rattle.std.specs.Prelude.{◌≡◌, ◌+◌, ◌++◌, [], length, replicate, IfOk, OnOk};
ghost use Rattle.fvn_cover_counts.specs.inner.Rows.{position, noted};

use crate::symbols::{Symbol, is_same};
use fvn_terms::NoMemory;
use std::alloc::Global;
use std::marker::Model;

/// Numbers of terms, each as often as something stands in that term; contracts see their list.
#[derive(Drop)]
pub(crate) struct Places {
    items: Vec<u64>,
}

impl Model for Places {
    ghost use Rattle.std.specs.Prelude.{List, ℕ};

    ghost Value = { List ℕ };

    ghost view = { λ p. p.items.items };
}

impl Places {
    // No place.
    pub(crate) fn new(alloc: Global) -> Places
        ensures { result ≡ [] }
    {
        Places {
            items: Vec::new(alloc),
        }
    }

    // The number of places.
    pub(crate) fn len(&self) -> usize
        ensures { result ≡ length self.now }
    {
        self.items.len()
    }

    // The places as a slice.
    pub(crate) fn as_slice(&self) -> &[u64]
        ensures { result.now ≡ self.now }
    {
        self.items.as_slice()
    }

    // Puts a place at the end, once and so many times more.
    fn add(&mut self, place: u64, more: usize) -> Result<(), NoMemory>
        ensures { OnOk result (self.new ≡ self.old ++ replicate (more + 1) place) }
    {
        self.items.push(place)?;
        for _ in 0..more {
            self.items.push(place)?;
        }
        Ok(())
    }
}

/// A symbol with the places at which it stands.
#[derive(Drop)]
pub(crate) struct Row {
    pub(crate) symbol: Symbol,
    pub(crate) places: Places,
}

// The number of the first row of the symbol, or of all rows.
fn position(rows: &[Row], s: Symbol) -> usize
    ensures { result ≡ position s rows.now }
{
    for (i, r) in rows.iter().enumerate() {
        if is_same(r.symbol, s) {
            return i;
        }
    }
    rows.len()
}

// The rows with a symbol noted at a place, once and so many times more.
pub(crate) fn with_symbol(
    alloc: Global,
    rows: Vec<Row>,
    s: Symbol,
    place: u64,
    more: usize,
) -> Result<Vec<Row>, NoMemory>
    ensures { IfOk result (λ all. all.items ≡ noted s (replicate (more + 1) place) rows.items) }
{
    let mut all = rows;
    let at = position(all.as_slice(), s);
    if at < all.len() {
        all[at].places.add(place, more)?;
        return Ok(all);
    }
    let mut places = Places::new(alloc);
    places.add(place, more)?;
    all.push(Row { symbol: s, places })?;
    Ok(all)
}
