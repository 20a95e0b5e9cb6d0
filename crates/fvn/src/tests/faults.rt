//! Reads and writes that fail, and modules that end too early, whatever the command.
use super::{Row, Setting, plain, row_of, text_of, told, words_of};
use fvn_cover::OpenGate;
use fvn_terms::NoMemory;
use std::alloc::Global;
use std::process::Abort;
use std::string::String;
use std::thread::Threads;

/// Rows of which each read and each write fails in turn; `work` reads nothing. Each exits with 0 where none fails, and its
/// number is not read.
const ROWS: &str = "\
check <= fmod PLUS is sort N . op 0 : -> N . op s : N -> N . op + : N N -> N . vars X Y : N . eq +(0,Y) = Y [variant] . endfm ==> 0 | module PLUS sorts 1 kinds 1 operators 3 equations 1 | sorts kept
variants | dec(X,Y) <= fmod ENC is sort S . ops enc dec : S S -> S . vars X Y : S . eq dec(enc(X,Y),Y) = X [variant] . endfm ==> 0 | #1:S {X:S --> enc(#1:S,#2:S), Y:S --> #2:S} | dec(#1:S,#2:S) {X:S --> #1:S, Y:S --> #2:S} | complete 2
vunify | dec(X,a) =? a <= fmod ENC is sort S . op a : -> S . ops enc dec : S S -> S . vars X Y : S . eq dec(enc(X,Y),Y) = X [variant] . endfm ==> 0 | {X:S --> enc(a,a)} | complete 1
verify | X =? a | {X:S --> a} <= fmod FREE is sort S . ops a b : -> S . op p : S S -> S . vars X Y : S . endfm ==> 0 | yes
unify | p(X,b) =? p(a,Y) <= fmod FREE is sort S . ops a b : -> S . op p : S S -> S . vars X Y : S . endfm ==> 0 | {X:S --> a, Y:S --> b} | complete 1
terminates | s : 1 1 <= fmod S is sort S . op 0 : -> S . op s : S -> S . eq s(s(0)) = 0 [variant] . endfm ==> 0 | terminates
unify | a =? a <= fmod AC is sort S . ops a b : -> S . op g : S -> S . op c : S S -> S [comm] . op _+_ : S S -> S [assoc comm] . vars X Y Z U V : S . endfm ==> 0 | {} | complete 1
work | 2 <=  ==> 0 | complete 7
check <= fmod M is sort A . endfm ==> 0 | module M sorts 1 kinds 1 operators 0 equations 0 | sorts kept";

/// Of the lines those bytes are written that stand before a fault, or all if there is none.
fn front_told<R: Abort + Threads + Sync>(
    rt: &R,
    alloc: Global,
    setting: &Setting,
    number: u8,
    text: &str,
    count: usize,
) -> Result<(), NoMemory> {
    if count >= text.len() {
        return told(rt, &OpenGate, alloc, setting, 0, text);
    }
    let front = text.get(..count).unwrap_or(text);
    told(rt, &OpenGate, alloc, setting, number, front)
}

/// How many reads of 16 bytes are made: the last one finds the end. Over an empty module nothing is read.
fn reads_of(module: &[u8]) -> usize {
    if module.is_empty() {
        return 0;
    }
    module.len().div_ceil(16).saturating_add(1)
}

/// Of reads of 16 bytes and then of writes of 3 bytes so many do not fail, and then the sink has room for all but so many
/// bytes.
fn faults_told<R: Abort + Threads + Sync>(
    rt: &R,
    alloc: Global,
    words: &[String],
    module: &[u8],
    text: &str,
    k: usize,
) -> Result<(), NoMemory> {
    let next = (k as u64).saturating_add(1);
    let mut setting = plain(words, module);
    setting.failing_read = next;
    let read = if k < reads_of(module) { 0 } else { text.len() };
    front_told(rt, alloc, &setting, 6, text, read)?;
    setting.failing_read = 0;
    setting.failing_write = next;
    front_told(rt, alloc, &setting, 7, text, k.saturating_mul(3))?;
    setting.failing_write = 0;
    setting.room = text.len().saturating_sub(k);
    front_told(rt, alloc, &setting, 7, text, setting.room)
}

/// Each read and each write fails in turn, and then none.
fn each_told<R: Abort + Threads + Sync>(
    rt: &R,
    alloc: Global,
    words: &[String],
    module: &[u8],
    text: &str,
) -> Result<(), NoMemory> {
    let writes = (text.len() / 3).saturating_add(1);
    for k in 0..=reads_of(module).max(writes) {
        faults_told(rt, alloc, words, module, text, k)?;
    }
    Ok(())
}

/// The module is refused where it is cut, at each length that does not hold its last byte.
fn fronts_refused<R: Abort + Threads + Sync>(
    rt: &R,
    alloc: Global,
    words: &[String],
    module: &[u8],
) -> Result<(), NoMemory> {
    for n in 0..module.len() {
        let setting = plain(words, &module[..n]);
        told(rt, &OpenGate, alloc, &setting, 3, "module 2\n")?;
    }
    Ok(())
}

/// The faults of a row, and the fronts of its module.
fn row_fails<R: Abort + Threads + Sync>(rt: &R, alloc: Global, row: &Row) -> Result<(), NoMemory> {
    let words = words_of(alloc, row.command)?;
    let text = text_of(alloc, row.lines)?;
    let module = row.module.as_bytes();
    each_told(rt, alloc, words.as_slice(), module, text.as_str())?;
    fronts_refused(rt, alloc, words.as_slice(), module)
}

#[test]
fn each_command_is_told_of_failing_calls(rt: HostRuntime) -> Result<(), NoMemory> {
    for line in ROWS.lines() {
        row_fails(&rt, rt.alloc(), &row_of(line, ""))?;
    }
    Ok(())
}
