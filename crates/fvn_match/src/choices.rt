//! Choices of so many of each piece, one after another.
ghost use Rattle.std.specs.Prelude.{◌≡◌, ◌≤◌, ◌<◌, ◌*◌, ◌^◌, length, replicate, sum, option_map, nat_lt, ◌&&◌, IfOk};
ghost use Rattle.std.specs.List.{AllZip};
ghost use Rattle.fvn_match.specs.inner.Choices.{advanced, quotients, reduced};

use fvn_terms::NoMemory;
use std::alloc::Global;

// All numbers together.
pub(crate) fn total(ns: &[usize]) -> usize
    requires { sum ns.now < 2 ^ 64 }
    ensures { result ≡ sum ns.now }
{
    ns.iter().sum()
}

// A number of zeros.
#[inline(never)]
pub(crate) fn zeros(alloc: Global, n: usize) -> Result<Vec<usize>, NoMemory>
    ensures { IfOk result (λ all. all.items ≡ replicate n 0) }
{
    let mut all = Vec::new(alloc);
    for _ in 0..n {
        all.push(0)?;
    }
    Ok(all)
}

// How often each number holds another.
#[inline(never)]
pub(crate) fn quotients(alloc: Global, ns: &[usize], k: usize) -> Result<Vec<usize>, NoMemory>
    requires { 1 ≤ k }
    ensures { IfOk result (λ all. all.items ≡ quotients k ns.now) }
{
    let mut all = Vec::new(alloc);
    for n in ns {
        all.push(*n / k)?;
    }
    Ok(all)
}

// What is left of the numbers after a choice was taken a number of times.
#[inline(never)]
pub(crate) fn reduced(
    alloc: Global,
    k: usize,
    ns: &[usize],
    chosen: &[usize],
) -> Result<Vec<usize>, NoMemory>
    requires { AllZip (λ j n. k * j ≤ n) chosen.now ns.now }
    ensures { IfOk result (λ all. all.items ≡ reduced k ns.now chosen.now) }
{
    let mut all = Vec::new(alloc);
    for i in 0..ns.len() {
        all.push(ns[i] - k * chosen[i])?;
    }
    Ok(all)
}

// Whether a place may rise.
fn may_rise(n: usize, limit: usize, together: usize, room: usize) -> bool
    ensures { result ≡ (nat_lt n limit && nat_lt together room) }
{
    if n < limit { together < room } else { false }
}

// The next choice within the limits that leaves room.
#[inline(never)]
pub(crate) fn advanced(chosen: Vec<usize>, limits: &[usize], room: usize) -> Option<Vec<usize>>
    requires long { length chosen.items ≡ length limits.now }
    requires small { sum chosen.items < 2 ^ 64 }
    ensures { option_map (λ all. all.items) result ≡ advanced room limits.now chosen.items }
{
    let mut all = chosen;
    let mut together = total(all.as_slice());
    for i in 0..limits.len() {
        if may_rise(all[i], limits[i], together, room) {
            all[i] += 1;
            return Some(all);
        }
        together -= all[i];
        all[i] = 0;
    }
    None
}
