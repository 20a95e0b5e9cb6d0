//! Two pieces of one run that are in work at once.
use super::{row_of, row_told};
use fvn_cover::Gate;
use fvn_terms::NoMemory;
use std::alloc::Global;
use std::process::Abort;
use std::sync::atomic::{AtomicBool, AtomicU32, Ordering};
use std::thread::{Threads, yield_now};

/// The looks of a piece for another.
const LOOKS: u32 = 10_000_000;

/// Eighteen steps lead from the start: were there as many from each of those below, its level would have 324 children,
/// which is work for two.
const CHOICE: &str =
    "fmod CHOICE is sort S . ops a b c d e g h i j k l m n o p q r s : -> S . op f : S -> S . var X : S . eq f(a) = a [variant] . eq f(b) = b [variant] . eq f(c) = c [variant] . eq f(d) = d [variant] . eq f(e) = e [variant] . eq f(g) = g [variant] . eq f(h) = h [variant] . eq f(i) = i [variant] . eq f(j) = j [variant] . eq f(k) = k [variant] . eq f(l) = l [variant] . eq f(m) = m [variant] . eq f(n) = n [variant] . eq f(o) = o [variant] . eq f(p) = p [variant] . eq f(q) = q [variant] . eq f(r) = r [variant] . eq f(s) = s [variant] . endfm";

const VARIANTS: &str =
    "variants | f(X) | --workers | 2 ==> 0 | a {X:S --> a} | b {X:S --> b} | c {X:S --> c} | d {X:S --> d} | e {X:S --> e} | f(#1:S) {X:S --> #1:S} | g {X:S --> g} | h {X:S --> h} | i {X:S --> i} | j {X:S --> j} | k {X:S --> k} | l {X:S --> l} | m {X:S --> m} | n {X:S --> n} | o {X:S --> o} | p {X:S --> p} | q {X:S --> q} | r {X:S --> r} | s {X:S --> s} | complete 19";

const UNIFIERS: &str = "vunify | f(X) =? a | --workers | 2 ==> 0 | {X:S --> a} | complete 1";

/// Counts the pieces that are inside; each looks for a second one before it leaves.
#[derive(Drop)]
struct Meeting {
    come: AtomicU32,
    inside: AtomicU32,
    seen: AtomicBool,
}

impl Meeting {
    /// Nobody has come yet.
    fn new() -> Meeting {
        Meeting {
            come: AtomicU32::new(0),
            inside: AtomicU32::new(0),
            seen: AtomicBool::new(false),
        }
    }

    /// Looks for two inside.
    fn look(&self) {
        for _ in 0..LOOKS {
            if self.seen.load(Ordering::SeqCst) {
                return;
            }
            if self.inside.load(Ordering::SeqCst) >= 2 {
                self.seen.store(true, Ordering::SeqCst);
                return;
            }
            yield_now();
        }
    }
}

impl Gate for Meeting {
    /// From the third piece on each looks for another one.
    fn enter(&self, _piece: u32) {
        // The first level has one variant, and few children: neither piece has anybody to meet.
        if self.come.fetch_add(1, Ordering::SeqCst) < 2 {
            return;
        }
        self.inside.fetch_add(1, Ordering::SeqCst);
        self.look();
        self.inside.fetch_sub(1, Ordering::SeqCst);
    }
}

/// The run writes what it writes with one worker, and two of its pieces met.
fn assert_met<R: Abort + Threads + Sync>(rt: &R, alloc: Global, row: &str) -> Result<(), NoMemory> {
    let gate = Meeting::new();
    row_told(rt, &gate, alloc, &row_of(row, CHOICE))?;
    assert!(rt; gate.seen.load(Ordering::SeqCst));
    Ok(())
}

#[test]
fn two_workers_are_inside_at_once(rt: HostRuntime) -> Result<(), NoMemory> {
    assert_met(&rt, rt.alloc(), VARIANTS)
}

#[test]
fn two_workers_solve_at_once(rt: HostRuntime) -> Result<(), NoMemory> {
    assert_met(&rt, rt.alloc(), UNIFIERS)
}
