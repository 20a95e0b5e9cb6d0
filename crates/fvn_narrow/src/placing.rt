//! The places in terms at which steps are tried: one for each form under whose head a rule is needed.
ghost use Rattle.std.specs.Prelude.{◌≡◌, ◌≤◌, ◌<◌, length, IsTrue, IfOk};
ghost use Rattle.fvn_narrow.specs.inner.Placing.{HasPlace, StandsAt, StandsIn, ArePlacesWith, ArePlaces};

use fvn_base::Seq;
use fvn_flat::Flat;
use fvn_places::{form_at, paths};
use fvn_rewrite_rules::Rules;
use fvn_terms::{NoMemory, OpId};
use std::alloc::Global;

// A form in one of the terms: the path to it, its head, and its size.
#[derive(Drop)]
pub(crate) struct Place<'t> {
    pub(crate) member: usize,
    pub(crate) path: Seq<usize>,
    pub(crate) at: &'t Flat,
    pub(crate) head: OpId,
    pub(crate) size: u64,
}

// Whether the place has the form. Forms of other sizes, which are known, are not compared.
fn has_form(place: &Place<'_>, at: &Flat, size: u64) -> bool
    ensures { IsTrue result → place.now.at.now ≡ at.now }
{
    if place.size != size {
        return false;
    }
    place.at.same(at)
}

// Whether one of the places has the form.
fn is_placed(places: &[Place<'_>], at: &Flat, size: u64) -> bool
    ensures { IsTrue result → HasPlace places.now at.now }
{
    for place in places {
        let has = has_form(place, at, size);
        if has {
            return true;
        }
    }
    false
}

// The places, and the one at the end of the path where a rule is needed there and the form has none yet.
fn with_form<'t>(
    alloc: Global,
    rules: &Rules,
    terms: &'t [Flat],
    member: usize,
    path: &[usize],
    places: Vec<Place<'t>>,
) -> Result<Vec<Place<'t>>, NoMemory>
    requires { member < length terms.now }
    ensures { IfOk result (λ all.
        ArePlacesWith rules.now terms.now (StandsAt terms.now member path.now) places.entry.items all.items) }
{
    let Some(at) = form_at(&terms[member], path) else {
        return Ok(places);
    };
    let Some(head) = at.head() else {
        return Ok(places);
    };
    let unneeded = rules.headed(head).is_empty();
    if unneeded {
        return Ok(places);
    }
    let size = at.size();
    let placed = is_placed(places.as_slice(), at, size);
    if placed {
        return Ok(places);
    }
    let copy = Seq::from_slice(alloc, path)?;
    let mut all = places;
    all.push(Place {
        member,
        path: copy,
        at,
        head,
        size,
    })?;
    Ok(all)
}

// The places, and those of one of the terms.
fn with_member<'t>(
    alloc: Global,
    rules: &Rules,
    terms: &'t [Flat],
    member: usize,
    places: Vec<Place<'t>>,
) -> Result<Vec<Place<'t>>, NoMemory>
    requires { member < length terms.now }
    ensures { IfOk result (λ all.
        ArePlacesWith rules.now terms.now (StandsIn terms.now member) places.entry.items all.items) }
{
    let list = paths(alloc, &terms[member])?;
    let mut all = places;
    for path in &list {
        all = with_form(alloc, rules, terms, member, path.as_slice(), all)?;
    }
    Ok(all)
}

// One place for each form in the terms under whose head a rule is needed: the first, by members and paths.
pub(crate) fn all_places<'t>(
    alloc: Global,
    rules: &Rules,
    terms: &'t [Flat],
) -> Result<Vec<Place<'t>>, NoMemory>
    ensures { IfOk result (λ all. ArePlaces rules.now terms.now all.items) }
{
    let mut all = Vec::new(alloc);
    for member in 0..terms.len() {
        all = with_member(alloc, rules, terms, member, all)?;
    }
    Ok(all)
}
