//! How many workers share a piece of work: a run must be worth threads, and each worker have as much as is worth one.
ghost use Rattle.std.specs.Prelude.{◌≡◌, ◌⊎◌, ◌≤◌, ◌<◌, ◌*◌};

use fvn_cover::piece_count;

/// Children of a level whose run is worth threads.
const CHILDREN: usize = 300;

/// Members whose expansions are worth a thread, in a run that is worth threads.
pub(crate) const MEMBERS: usize = 4;

/// Comparisons of candidates with kept variants that are worth a thread, in a run that is worth threads.
pub(crate) const COMPARISONS: usize = 65536;

/// The most children that were expected of a level of the run: before, or of the next level, if each of its members has
/// as many as each of this one had.
pub(crate) fn most_children(before: usize, next: usize, children: usize, members: usize) -> usize {
    if members == 0 {
        return before;
    }
    before.max(next.saturating_mul(children) / members)
}

/// How many of the workers a level has: all, if the run has come to a level that is worth threads, or one.
pub(crate) fn run_workers(workers: u32, expected: usize) -> u32
    requires { 1 ≤ workers }
    ensures some { 1 ≤ result }
    ensures most { result ≤ workers }
{
    if expected < CHILDREN { 1 } else { workers }
}

/// How many of the workers share so much work: each has as much as is worth a thread, or one has all.
pub(crate) fn sharers(workers: u32, work: usize, worth: usize) -> u32
    requires some { 1 ≤ workers }
    requires worth { 0 < worth }
    ensures some { 1 ≤ result }
    ensures most { result ≤ workers }
    ensures worth { (result ≡ 1) ⊎ (result * worth ≤ work) }
{
    let count = piece_count(workers, work / worth);
    let none = count == 0;
    if none {
        return 1;
    }
    count
}
