//! Modules and problems with what is replied.

ghost use Rattle.fvn_cmd_exploring.specs.Searches.{KeepsSome};

use fvn_cmd::Status;
use fvn_cmd_vunify::vunify_reply;
use fvn_cmd_words::Reach;
use fvn_cover::OpenGate;
use fvn_terms::NoMemory;
use std::alloc::Global;
use std::process::Abort;
use std::string::String;
use std::thread::Threads;

// Each line has the name of a module and its statements.
const MODULES: &str =
    "ENC sorts Msg Key . ops a b : -> Msg . ops k l : -> Key . ops enc dec : Msg Key -> Msg . vars X M N : Msg . vars K L : Key . eq dec(enc(M,K),K) = M [variant] .
PLUS sort Nat . op 0 : -> Nat . op s : Nat -> Nat . op + : Nat Nat -> Nat . vars X Y Z : Nat . eq +(0,Y) = Y [variant] . eq +(s(X),Y) = s(+(X,Y)) [variant] .
XOR sort S . ops mt a b : -> S . op * : S S -> S [assoc comm] . vars X Y Z : S . eq *(X,X) = mt [variant] . eq *(X,X,Y) = Y [variant] . eq *(X,mt) = X [variant] .
LOSES sorts A B . subsort A < B . op a : -> A . op f : A -> A . op g : B -> B . var X : A . var Y : B . eq f(X) = g(X) [variant] .
FREE sort S . ops a b : -> S . op f : S S -> S [assoc comm] . op g : S S -> S . vars X Y Z W A B C D E F : S .";

// Each line has the name of a module, numbers of levels, of variants and of steps, a problem, the number of the status,
// and the lines of the text.
const REPLIES: &str = "ENC 9 99 99 dec(X,k) =? a => 0 {X:Msg --> enc(a,k)} | complete 1
ENC 9 99 99 dec(enc(a,k),k) =? a => 0 {} | complete 1
ENC 9 99 99 dec(enc(a,k),l) =? a => 1 complete 0
ENC 9 99 99 a =? b => 1 complete 0
ENC 9 99 99 X =? enc(dec(M,K),K) /\\ M =? enc(a,K) => 0 {X:Msg --> enc(a,#1:Key), M:Msg --> enc(a,#1:Key), K:Key --> #1:Key} | complete 1
ENC 9 99 99 X =? dec(M,K) /\\ M =? enc(a,K) => 0 {X:Msg --> a, M:Msg --> enc(a,#1:Key), K:Key --> #1:Key} | complete 1
ENC 9 99 0 X =? dec(M,k) /\\ M =? enc(a,k) => 5 {X:Msg --> a, M:Msg --> enc(a,k)} | bound steps 0 dec(enc(a,k),k)
ENC 0 99 0 X =? dec(M,k) /\\ M =? enc(a,k) => 5 bound levels 0
ENC 9 99 0 dec(enc(X,k),k) =? a => 5 bound steps 0 dec(enc(#1:Msg,k),k)
ENC 9 99 99 dec(X,K) =? dec(M,L) => 0 {X:Msg --> #1:Msg, K:Key --> #2:Key, M:Msg --> #1:Msg, L:Key --> #2:Key} | {X:Msg --> #1:Msg, K:Key --> #2:Key, M:Msg --> enc(dec(#1:Msg,#2:Key),#3:Key), L:Key --> #3:Key} | {X:Msg --> enc(#1:Msg,#2:Key), K:Key --> #2:Key, M:Msg --> enc(#1:Msg,#3:Key), L:Key --> #3:Key} | {X:Msg --> enc(dec(#1:Msg,#2:Key),#3:Key), K:Key --> #3:Key, M:Msg --> #1:Msg, L:Key --> #2:Key} | complete 4
PLUS 3 99 99 +(X,s(0)) =? s(s(0)) => 5 {X:Nat --> s(0)} | bound levels 3
PLUS 3 99 99 +(X,Y) =? s(0) => 5 {X:Nat --> 0, Y:Nat --> s(0)} | {X:Nat --> s(0), Y:Nat --> 0} | bound levels 3
PLUS 9 2 99 +(X,Y) =? Z => 5 {X:Nat --> #1:Nat, Y:Nat --> #2:Nat, Z:Nat --> +(#1:Nat,#2:Nat)} | {X:Nat --> 0, Y:Nat --> #1:Nat, Z:Nat --> #1:Nat} | bound variants 2
PLUS 3 99 99 +(X,Y) =? +(X,Y) => 0 {X:Nat --> #1:Nat, Y:Nat --> #2:Nat} | complete 1
PLUS 3 99 99 +(s(Y),X) =? s(+(Y,X)) /\\ Z =? +(0,Z) => 0 {Y:Nat --> #1:Nat, X:Nat --> #2:Nat, Z:Nat --> #3:Nat} | complete 1
PLUS 9 99 99 s(X) =? s(s(Y)) /\\ Y =? 0 => 0 {X:Nat --> s(0), Y:Nat --> 0} | complete 1
XOR 9 99 99 *(X,Y) =? mt => 0 {X:S --> #1:S, Y:S --> #1:S} | complete 1
XOR 9 99 99 *(a,b,a) =? b => 0 {} | complete 1
XOR 0 99 99 *(X,Y,X,Z) =? *(Z,mt,Y) => 0 {X:S --> #1:S, Y:S --> #2:S, Z:S --> #3:S} | complete 1
XOR 9 99 99 *(X,Y) =? Z => 0 {X:S --> #1:S, Y:S --> #1:S, Z:S --> mt} | {X:S --> #1:S, Y:S --> #2:S, Z:S --> *(#1:S,#2:S)} | {X:S --> #1:S, Y:S --> *(#1:S,#2:S), Z:S --> #2:S} | {X:S --> #1:S, Y:S --> mt, Z:S --> #1:S} | {X:S --> *(#1:S,#2:S), Y:S --> #1:S, Z:S --> #2:S} | {X:S --> *(#1:S,#2:S), Y:S --> *(#1:S,#3:S), Z:S --> *(#2:S,#3:S)} | {X:S --> mt, Y:S --> #1:S, Z:S --> #1:S} | complete 7
LOSES 9 99 99 f(X) =? Y => 5 {X:A --> #1:A, Y:B --> g(#1:A)} | cause sorts 1
FREE 9 99 99 g(X,b) =? g(a,Y) => 0 {X:S --> a, Y:S --> b} | complete 1
FREE 9 99 99 f(X,a) =? f(Y,b) => 0 {X:S --> b, Y:S --> a} | {X:S --> f(#1:S,b), Y:S --> f(#1:S,a)} | complete 2
FREE 9 99 99 f(X,Y,Z,W,A) =? f(B,C,D,E,F) => 5 bound basis f
FREE 9 99 99 A =? g(B,B) /\\ B =? g(C,C) /\\ C =? g(D,D) /\\ D =? g(E,E) /\\ E =? g(F,F) /\\ F =? g(X,X) /\\ X =? g(Y,Y) /\\ Y =? g(Z,Z) /\\ Z =? g(W,W) => 5 bound size 1000
FREE 9 99 99 X =? => 4 problem 2";

// The same with a row for an answer of very many lines, of which the last is there.
const LONG: &str = "FREE 9 99 99 f(X,Y) =? f(A,B,C,D,E,F,Z,W) => 5 bound unifiers 4096";

// The number of a status.
fn number_of(status: Status) -> &'static str {
    match status {
        Status::Solved => "0",
        Status::Nothing => "1",
        Status::ProblemRefused => "4",
        Status::Ended => "5",
        _ => "another",
    }
}

// What stands before the first of these marks, and what behind it.
fn cut<'a>(text: &'a str, mark: &str) -> (&'a str, &'a str) {
    text.split_once(mark).unwrap_or((text, ""))
}

// The module of this name.
fn module_of(alloc: Global, name: &str) -> Result<String, NoMemory> {
    let mut text = String::new(alloc);
    text.push_str("fmod M is ")?;
    for line in MODULES.lines() {
        let (first, statements) = cut(line, " ");
        if first == name {
            text.push_str(statements)?;
        }
    }
    text.push_str(" endfm")?;
    Ok(text)
}

// A number of variants is at least one.
fn reach_of(levels: &str, variants: &str, steps: &str) -> Reach
    ensures { KeepsSome result }
{
    Reach {
        levels: levels.parse::<u32>().unwrap_or(0),
        variants: variants.parse::<u32>().unwrap_or(1).max(1),
        steps: steps.parse::<u64>().unwrap_or(0),
    }
}

// The lines, each ended.
fn lines_of(alloc: Global, lines: &str) -> Result<String, NoMemory> {
    let mut text = String::new(alloc);
    for line in lines.split(" | ") {
        text.push_str(line)?;
        text.push_str("\n")?;
    }
    Ok(text)
}

// The reply to the problem of a row has its number and ends with its lines; no more is there if it is whole.
fn assert_row<R: Threads + Abort + Sync>(
    rt: &R,
    alloc: Global,
    row: &str,
    whole: bool,
) -> Result<(), NoMemory> {
    let (asked, said) = cut(row, " => ");
    let (number, lines) = cut(said, " ");
    let (name, after_name) = cut(asked, " ");
    let (levels, after_levels) = cut(after_name, " ");
    let (variants, after_variants) = cut(after_levels, " ");
    let (steps, problem) = cut(after_variants, " ");
    let reach = reach_of(levels, variants, steps);
    let module = module_of(alloc, name)?;
    let text = lines_of(alloc, lines)?;
    let reply = vunify_reply(
        rt,
        &OpenGate,
        alloc,
        module.as_bytes(),
        problem.as_bytes(),
        reach,
        1,
    )?;
    assert_eq!(rt; number_of(reply.status), number, "{problem}");
    assert!(rt;
        reply.text.as_slice().ends_with(text.as_bytes()),
        "{problem}"
    );
    assert!(rt;
        !whole || reply.text.as_slice().len() == text.len(),
        "{problem}"
    );
    Ok(())
}

#[test]
fn problems_are_replied_to(rt: HostRuntime) -> Result<(), NoMemory> {
    for row in REPLIES.lines() {
        assert_row(&rt, rt.alloc(), row, true)?;
    }
    Ok(())
}

#[test]
fn the_limit_of_unifiers_is_told(rt: HostRuntime) -> Result<(), NoMemory> {
    assert_row(&rt, rt.alloc(), LONG, false)
}
