//! Modules and problems with what is replied.
use fvn_cmd::Status;
use fvn_cmd_unify::unify_reply;
use fvn_terms::NoMemory;
use std::alloc::Global;
use std::process::Abort;
use std::string::String;

// Sums with and without an identity over elements, a free and a commutative operator, and a long tower's operator.
const MODULE: &str =
    "fmod M is sorts E S . subsort E < S . ops a b : -> E . op z : -> S . ops c1 c2 c3 c4 c5 c6 c7 c8 c9 c10 c11 c12 c13 c14 c15 c16 c17 c18 c19 c20 c21 c22 c23 c24 : -> S . op s : S -> S . op p : S S -> S . op c : S S -> S [comm] . op _+_ : S S -> S [assoc comm] . op _;_ : S S -> S [assoc comm id: z] . vars X Y Z : S . vars A B : E . endfm";

// A problem, the number of the status, and the lines of the text.
const REPLIES: &str = "X =? s(Y) => 0 {X:S --> s(#1:S), Y:S --> #1:S} | complete 1
p(X,a) =? p(b,Y) => 0 {X:S --> b, Y:S --> a} | complete 1
A =? X => 0 {A:E --> #1:E, X:S --> #1:E} | complete 1
c(X,a) =? c(b,Y) => 0 {X:S --> b, Y:S --> a} | complete 1
_+_(X,a) =? _+_(Y,b) => 0 {X:S --> _+_(#1:S,b), Y:S --> _+_(#1:S,a)} | {X:S --> b, Y:S --> a} | complete 2
_;_(X,a) =? _;_(Y,b) => 0 {X:S --> _;_(#1:S,b), Y:S --> _;_(#1:S,a)} | complete 1
X =? a /\\ Y =? s(X) => 0 {X:S --> a, Y:S --> s(a)} | complete 1
X =? X => 0 {X:S --> #1:S} | complete 1
a =? b => 1 complete 0
A =? _+_(X,Y) => 1 complete 0
X =? s(X) => 1 complete 0
X =? => 4 problem 2
_;_(A,X) =? _;_(c1,c2,c3,c4,c5,c6,c7,c8,c9,c10,c11,c12,c13,c14,c15,a) => 0 {A:E --> a, X:S --> _;_(c1,c10,c11,c12,c13,c14,c15,c2,c3,c4,c5,c6,c7,c8,c9)} | complete 1
_;_(A,X) =? _;_(c1,c2,c3,c4,c5,c6,c7,c8,c9,c10,c11,c12,c13,c14,c15,c16,c17,c18,c19,c20,c21,c22,c23,c24,a) => 0 {A:E --> a, X:S --> _;_(c1,c10,c11,c12,c13,c14,c15,c16,c17,c18,c19,c2,c20,c21,c22,c23,c24,c3,c4,c5,c6,c7,c8,c9)} | complete 1
_+_(X,c1,c2,c3,c4,c5,c6) =? _+_(Y,c7,c8,c9,c10) => 0 {X:S --> _+_(#1:S,c10,c7,c8,c9), Y:S --> _+_(#1:S,c1,c2,c3,c4,c5,c6)} | {X:S --> _+_(c10,c7,c8,c9), Y:S --> _+_(c1,c2,c3,c4,c5,c6)} | complete 2
_;_(X,c1,c2,c3,c4,c5,c6) =? _;_(Y,c7,c8,c9,c10) => 0 {X:S --> _;_(#1:S,c10,c7,c8,c9), Y:S --> _;_(#1:S,c1,c2,c3,c4,c5,c6)} | complete 1
_+_(X,X,c1,c2,c3,c4,c5) =? _+_(Y,Y,Y) => 0 {X:S --> _+_(#1:S,#1:S,#1:S,c1,c2,c3,c4,c5), Y:S --> _+_(#1:S,#1:S,c1,c2,c3,c4,c5)} | {X:S --> _+_(c1,c2,c3,c4,c5), Y:S --> _+_(c1,c2,c3,c4,c5)} | complete 2
_+_(X,c1,c2,c3,c4,c5,c6,c7,c8,c9,c10,c11,c12,c13,c14,c15,c16,c17,c18,c19,c20,c21,c22,c23,c24) =? _+_(Y,c1,c2,c3,c4,c5,c6,c7,c8,c9,c10,c11,c12) => 0 {X:S --> #1:S, Y:S --> _+_(#1:S,c13,c14,c15,c16,c17,c18,c19,c20,c21,c22,c23,c24)} | complete 1
_+_(X,c1,c2,c3,c4,c5,c6,c7,c8,c9,c10,c11,c12) =? _+_(Y,c13,c14,c15,c16,c17,c18,c19,c20,c21,c22,c23,c24) => 0 {X:S --> _+_(#1:S,c13,c14,c15,c16,c17,c18,c19,c20,c21,c22,c23,c24), Y:S --> _+_(#1:S,c1,c10,c11,c12,c2,c3,c4,c5,c6,c7,c8,c9)} | {X:S --> _+_(c13,c14,c15,c16,c17,c18,c19,c20,c21,c22,c23,c24), Y:S --> _+_(c1,c10,c11,c12,c2,c3,c4,c5,c6,c7,c8,c9)} | complete 2
_+_(X,s(c1),s(c2),s(c3),s(c4),s(c5),s(c6),s(c7),s(c8),s(c9),s(c10),s(c11),s(c12),s(c13),s(c14),s(c15),s(c16),s(c17),s(c18),s(c19),s(c20),s(c21),s(c22)) =? _+_(Y,p(Z1:S,a),p(Z2:S,a),p(Z3:S,a),p(Z4:S,a),p(Z5:S,a)) => 0 {X:S --> _+_(#1:S,p(#2:S,a),p(#3:S,a),p(#4:S,a),p(#5:S,a),p(#6:S,a)), Y:S --> _+_(#1:S,s(c1),s(c10),s(c11),s(c12),s(c13),s(c14),s(c15),s(c16),s(c17),s(c18),s(c19),s(c2),s(c20),s(c21),s(c22),s(c3),s(c4),s(c5),s(c6),s(c7),s(c8),s(c9)), Z1:S --> #2:S, Z2:S --> #3:S, Z3:S --> #4:S, Z4:S --> #5:S, Z5:S --> #6:S} | {X:S --> _+_(p(#1:S,a),p(#2:S,a),p(#3:S,a),p(#4:S,a),p(#5:S,a)), Y:S --> _+_(s(c1),s(c10),s(c11),s(c12),s(c13),s(c14),s(c15),s(c16),s(c17),s(c18),s(c19),s(c2),s(c20),s(c21),s(c22),s(c3),s(c4),s(c5),s(c6),s(c7),s(c8),s(c9)), Z1:S --> #1:S, Z2:S --> #2:S, Z3:S --> #3:S, Z4:S --> #4:S, Z5:S --> #5:S} | complete 2
_;_(X,s(c1),s(c2),s(c3),s(c4),s(c5),s(c6),s(c7),s(c8),s(c9),s(c10),s(c11),s(c12),s(c13),s(c14),s(c15),s(c16),s(c17),s(c18),s(c19),s(c20),s(c21),s(c22)) =? _;_(Y,p(Z1:S,a),p(Z2:S,a),p(Z3:S,a),p(Z4:S,a),p(Z5:S,a)) => 0 {X:S --> _;_(#1:S,p(#2:S,a),p(#3:S,a),p(#4:S,a),p(#5:S,a),p(#6:S,a)), Y:S --> _;_(#1:S,s(c1),s(c10),s(c11),s(c12),s(c13),s(c14),s(c15),s(c16),s(c17),s(c18),s(c19),s(c2),s(c20),s(c21),s(c22),s(c3),s(c4),s(c5),s(c6),s(c7),s(c8),s(c9)), Z1:S --> #2:S, Z2:S --> #3:S, Z3:S --> #4:S, Z4:S --> #5:S, Z5:S --> #6:S} | complete 1
_;_(A,X,Y) =? _;_(B,Z,W:S) => 0 {A:E --> #1:E, X:S --> _;_(#2:E,#3:S,#4:S), Y:S --> _;_(#5:S,#6:S), B:E --> #2:E, Z:S --> _;_(#1:E,#3:S,#5:S), W:S --> _;_(#4:S,#6:S)} | {A:E --> #1:E, X:S --> _;_(#2:E,#3:S,#4:S), Y:S --> _;_(#5:S,#6:S), B:E --> #2:E, Z:S --> _;_(#3:S,#5:S), W:S --> _;_(#1:E,#4:S,#6:S)} | {A:E --> #1:E, X:S --> _;_(#2:S,#3:S), Y:S --> _;_(#4:E,#5:S,#6:S), B:E --> #4:E, Z:S --> _;_(#1:E,#2:S,#5:S), W:S --> _;_(#3:S,#6:S)} | {A:E --> #1:E, X:S --> _;_(#2:S,#3:S), Y:S --> _;_(#4:E,#5:S,#6:S), B:E --> #4:E, Z:S --> _;_(#2:S,#5:S), W:S --> _;_(#1:E,#3:S,#6:S)} | {A:E --> #1:E, X:S --> _;_(#2:S,#3:S), Y:S --> _;_(#4:S,#5:S), B:E --> #1:E, Z:S --> _;_(#2:S,#4:S), W:S --> _;_(#3:S,#5:S)} | complete 5
s(_;_(X,Y,Z)) =? s(_;_(U:S,V:S,W:S)) => 0 {X:S --> _;_(#1:S,#2:S,#3:S), Y:S --> _;_(#4:S,#5:S,#6:S), Z:S --> _;_(#7:S,#8:S,#9:S), U:S --> _;_(#3:S,#6:S,#9:S), V:S --> _;_(#2:S,#5:S,#8:S), W:S --> _;_(#1:S,#4:S,#7:S)} | complete 1
_+_(X,X,Y,Y,Z) =? _+_(A,B,C:S,D:S,E:S,F:S) => 5 bound basis _+_";

// The number of a status.
fn number_of(status: Status) -> &'static str {
    match status {
        Status::Solved => "0",
        Status::Nothing => "1",
        Status::ProblemRefused => "4",
        Status::Ended => "5",
        _ => "another",
    }
}

// The reply to a problem has this number and these lines.
fn assert_reply(rt: &impl Abort, alloc: Global, problem: &str, said: &str) -> Result<(), NoMemory> {
    let (number, lines) = said.split_once(" ").unwrap_or((said, ""));
    let reply = unify_reply(alloc, MODULE.as_bytes(), problem.as_bytes())?;
    let mut text = String::from_str(alloc, "")?;
    for line in lines.split(" | ") {
        text = format!(in alloc; "{text}{line}\n")?;
    }
    assert_eq!(rt; number_of(reply.status), number, "{problem}");
    assert!(rt; reply.text.as_slice() == text.as_bytes(), "{problem}");
    Ok(())
}

#[test]
fn problems_are_replied_to(rt: HostRuntime) -> Result<(), NoMemory> {
    for row in REPLIES.lines() {
        let (problem, said) = row.split_once(" => ").unwrap_or((row, "no arrow"));
        assert_reply(&rt, rt.alloc(), problem, said)?;
    }
    Ok(())
}
