//! What two lists of classes have in common.
ghost use Rattle.std.specs.Prelude.{◌≡◌, ◌<◌, ◌↔◌, length, slice_index, Some, IfOk, IfSome, IsTrue};
ghost use Rattle.fvn_combine_inferring.specs.inner.Lists.{IsTakenOut, IsCancelled, IsWithout};

use fvn_terms::NoMemory;
use std::alloc::Global;

// A place of x in the list.
fn place_of(list: &[usize], x: usize) -> Option<usize>
    ensures { IfSome result (λ j. (j < length list.now) × (slice_index list.now j ≡ x)) }
{
    for j in 0..list.len() {
        if list[j] == x {
            return Some(j);
        }
    }
    None
}

// Takes x out of the list once, and answers whether it stood there.
fn take_out(list: &mut Vec<usize>, x: usize) -> bool
    ensures { IsTakenOut list.old.items list.new.items x result }
{
    match place_of(list.as_slice(), x) {
        None => false,
        Some(j) => {
            let _taken = list.remove(j);
            true
        }
    }
}

// Takes out of the first list what both have, and gives what is left of the second.
pub(crate) fn cancel(
    alloc: Global,
    left: &mut Vec<usize>,
    right: &[usize],
) -> Result<Vec<usize>, NoMemory>
    ensures { IfOk result (λ rest. IsCancelled left.old.items right.now left.new.items rest.items) }
{
    let mut rest = Vec::new(alloc);
    for x in right {
        if take_out(left, *x) {
            continue;
        }
        rest.push(*x)?;
    }
    Ok(rest)
}

// Whether x is the number that is given, if one is.
fn is_given(given: Option<usize>, x: usize) -> bool
    ensures { IsTrue result ↔ (given ≡ Some x) }
{
    match given {
        None => false,
        Some(e) => e == x,
    }
}

// The list without the number that is given, if one is.
pub(crate) fn without(
    alloc: Global,
    list: &[usize],
    given: Option<usize>,
) -> Result<Vec<usize>, NoMemory>
    ensures { IfOk result (λ kept. IsWithout given list.now kept.items) }
{
    let mut kept = Vec::new(alloc);
    for x in list {
        if is_given(given, *x) {
            continue;
        }
        kept.push(*x)?;
    }
    Ok(kept)
}
