//! Each limit of what is read, made and kept: the last value and one more, for each command that meets it.
use super::table_told;
use fvn_terms::NoMemory;

/// Modules at a limit and one beyond, what `check` prints of each, and what the other commands answer over it, if it is read.
/// The limits are: bytes, with and without a module; sorts; operators; arguments; equations; symbols of a left side, also
/// where it is very deep, and of a right one; and instances by identities, 2 to the 12, and by sorts, 2 to the 24.
const MODULES: &str = "\
~1048576% ~ <=
check ==> 3 | module 2
unify | X:S =? a ==> 3 | module 2
variants | a ==> 3 | module 2
vunify | a =? a ==> 3 | module 2
verify | a =? a | {} ==> 3 | module 2
terminates | g : 1 1 ==> 3 | module 2

~1048577% ~ <=
check ==> 3 | module 14
unify | X:S =? a ==> 3 | module 14
variants | a ==> 3 | module 14
vunify | a =? a ==> 3 | module 14
verify | a =? a | {} ==> 3 | module 14
terminates | g : 1 1 ==> 3 | module 14

fmod M is sort S . op a : -> S . op g : S -> S . endfm~1048522% ~ <=
check ==> 0 | module M sorts 1 kinds 1 operators 2 equations 0 | sorts kept
unify | X:S =? a ==> 0 | {X:S --> a} | complete 1
variants | a ==> 0 | a {} | complete 1
vunify | a =? a ==> 0 | {} | complete 1
verify | a =? a | {} ==> 0 | yes
terminates | g : 1 1 ==> 0 | terminates

fmod M is sort S . op a : -> S . op g : S -> S . endfm~1048523% ~ <=
check ==> 3 | module 14
unify | X:S =? a ==> 3 | module 14
variants | a ==> 3 | module 14
vunify | a =? a ==> 3 | module 14
verify | a =? a | {} ==> 3 | module 14
terminates | g : 1 1 ==> 3 | module 14

fmod M is sorts S ~63%T@ ~. op a : -> S . op g : S -> S . endfm <=
check ==> 0 | module M sorts 64 kinds 64 operators 2 equations 0 | sorts kept
unify | X:S =? a ==> 0 | {X:S --> a} | complete 1
variants | a ==> 0 | a {} | complete 1
vunify | a =? a ==> 0 | {} | complete 1
verify | a =? a | {} ==> 0 | yes
terminates | g : 1 1 ==> 0 | terminates

fmod M is sorts S ~64%T@ ~. op a : -> S . op g : S -> S . endfm <=
check ==> 3 | module 9.9
unify | X:S =? a ==> 3 | module 9.9
variants | a ==> 3 | module 9.9
vunify | a =? a ==> 3 | module 9.9
verify | a =? a | {} ==> 3 | module 9.9
terminates | g : 1 1 ==> 3 | module 9.9

fmod M is sort S . op a : -> S . op g : S -> S . ops ~254%b@ ~: -> S . endfm <=
check ==> 0 | module M sorts 1 kinds 1 operators 256 equations 0 | sorts kept
unify | X:S =? a ==> 0 | {X:S --> a} | complete 1
variants | a ==> 0 | a {} | complete 1
vunify | a =? a ==> 0 | {} | complete 1
verify | a =? a | {} ==> 0 | yes
terminates | g : 1 1 ==> 0 | terminates

fmod M is sort S . op a : -> S . op g : S -> S . ops ~255%b@ ~: -> S . endfm <=
check ==> 3 | module 9.9
unify | X:S =? a ==> 3 | module 9.9
variants | a ==> 3 | module 9.9
vunify | a =? a ==> 3 | module 9.9
verify | a =? a | {} ==> 3 | module 9.9
terminates | g : 1 1 ==> 3 | module 9.9

fmod M is sorts S ~63%T@ ~. subsorts ~63%T@ ~< S . op a : -> S . op g : S -> S . op f : ~8%S ~-> S . endfm <=
check ==> 0 | module M sorts 64 kinds 1 operators 3 equations 0 | sorts kept
unify | X:S =? a ==> 0 | {X:S --> a} | complete 1
variants | a ==> 0 | a {} | complete 1
vunify | a =? a ==> 0 | {} | complete 1
verify | a =? a | {} ==> 0 | yes
terminates | g : 1 1 ==> 0 | terminates

fmod M is sorts S ~63%T@ ~. subsorts ~63%T@ ~< S . op a : -> S . op g : S -> S . op f : ~9%S ~-> S . endfm <=
check ==> 3 | module 9.9
unify | X:S =? a ==> 3 | module 9.9
variants | a ==> 3 | module 9.9
vunify | a =? a ==> 3 | module 9.9
verify | a =? a | {} ==> 3 | module 9.9
terminates | g : 1 1 ==> 3 | module 9.9

fmod M is sort S . op a : -> S . op g : S -> S . ~256%eq g(a) = a [variant] . ~endfm <=
check ==> 0 | module M sorts 1 kinds 1 operators 2 equations 256 | sorts kept
unify | X:S =? a ==> 0 | {X:S --> a} | complete 1
variants | a ==> 0 | a {} | complete 1
vunify | a =? a ==> 0 | {} | complete 1
verify | a =? a | {} ==> 0 | yes
terminates | g : 1 1 ==> 0 | terminates

fmod M is sort S . op a : -> S . op g : S -> S . ~257%eq g(a) = a [variant] . ~endfm <=
check ==> 3 | module 13 statement 260
unify | X:S =? a ==> 3 | module 13 statement 260
variants | a ==> 3 | module 13 statement 260
vunify | a =? a ==> 3 | module 13 statement 260
verify | a =? a | {} ==> 3 | module 13 statement 260
terminates | g : 1 1 ==> 3 | module 13 statement 260

fmod M is sort S . op a : -> S . op g : S -> S . eq ~399%g(~a~399%)~ = a [variant] . endfm <=
check ==> 0 | module M sorts 1 kinds 1 operators 2 equations 1 | sorts kept
unify | X:S =? a ==> 0 | {X:S --> a} | complete 1
variants | a ==> 0 | a {} | complete 1
vunify | a =? a ==> 0 | {} | complete 1
verify | a =? a | {} ==> 0 | yes
terminates | g : 1 1 ==> 0 | terminates

fmod M is sort S . op a : -> S . op g : S -> S . eq ~400%g(~a~400%)~ = a [variant] . endfm <=
check ==> 3 | module 13 equation 1
unify | X:S =? a ==> 3 | module 13 equation 1
variants | a ==> 3 | module 13 equation 1
vunify | a =? a ==> 3 | module 13 equation 1
verify | a =? a | {} ==> 3 | module 13 equation 1
terminates | g : 1 1 ==> 3 | module 13 equation 1

fmod M is sort S . op a : -> S . op g : S -> S . eq ~20000%g(~g(a)~20000%)~ = a [variant] . endfm <=
check ==> 3 | module 13 equation 1
unify | X:S =? a ==> 3 | module 13 equation 1
variants | a ==> 3 | module 13 equation 1
vunify | a =? a ==> 3 | module 13 equation 1
verify | a =? a | {} ==> 3 | module 13 equation 1
terminates | g : 1 1 ==> 3 | module 13 equation 1

fmod M is sort S . op a : -> S . op g : S -> S . op h : S -> S . eq g(a) = ~399%h(~a~399%)~ [variant] . endfm <=
check ==> 0 | module M sorts 1 kinds 1 operators 3 equations 1 | sorts kept
unify | X:S =? a ==> 0 | {X:S --> a} | complete 1
variants | a ==> 0 | a {} | complete 1
vunify | a =? a ==> 0 | {} | complete 1
verify | a =? a | {} ==> 0 | yes
terminates | g : 1 1 ==> 0 | terminates

fmod M is sort S . op a : -> S . op g : S -> S . op h : S -> S . eq g(a) = ~400%h(~a~400%)~ [variant] . endfm <=
check ==> 3 | module 13 equation 1
unify | X:S =? a ==> 3 | module 13 equation 1
variants | a ==> 3 | module 13 equation 1
vunify | a =? a ==> 3 | module 13 equation 1
verify | a =? a | {} ==> 3 | module 13 equation 1
terminates | g : 1 1 ==> 3 | module 13 equation 1

fmod M is sort S . op a : -> S . op g : S -> S . op p : S S -> S . op e : -> S . op h : S S -> S [assoc comm id: e] . eq ~12%p(X@:S,~g(a)~12%)~ = a [variant] . endfm <=
check ==> 0 | module M sorts 1 kinds 1 operators 5 equations 1 | sorts kept
unify | X:S =? a ==> 0 | {X:S --> a} | complete 1
variants | a ==> 0 | a {} | complete 1
vunify | a =? a ==> 0 | {} | complete 1
verify | a =? a | {} ==> 0 | yes
terminates | g : 1 1 ==> 0 | terminates

fmod M is sort S . op a : -> S . op g : S -> S . op p : S S -> S . op e : -> S . op h : S S -> S [assoc comm id: e] . eq ~13%p(X@:S,~g(a)~13%)~ = a [variant] . endfm <=
check ==> 3 | module 13 equation 1
unify | X:S =? a ==> 3 | module 13 equation 1
variants | a ==> 3 | module 13 equation 1
vunify | a =? a ==> 3 | module 13 equation 1
verify | a =? a | {} ==> 3 | module 13 equation 1
terminates | g : 1 1 ==> 3 | module 13 equation 1

fmod M is sorts A S . subsort A < S . op a : -> S . op g : S -> S . op p : S S -> S . eq ~24%p(X@:S,~g(a)~24%)~ = a [variant] . endfm <=
check ==> 0 | module M sorts 2 kinds 1 operators 3 equations 1 | sorts kept
unify | X:S =? a ==> 0 | {X:S --> a} | complete 1
variants | a ==> 0 | a {} | complete 1
vunify | a =? a ==> 0 | {} | complete 1
verify | a =? a | {} ==> 0 | yes
terminates | g : 1 1 ==> 0 | terminates

fmod M is sorts A S . subsort A < S . op a : -> S . op g : S -> S . op p : S S -> S . eq ~25%p(X@:S,~g(a)~25%)~ = a [variant] . endfm <=
check ==> 3 | module 13 equation 1
unify | X:S =? a ==> 3 | module 13 equation 1
variants | a ==> 3 | module 13 equation 1
vunify | a =? a ==> 3 | module 13 equation 1
verify | a =? a | {} ==> 3 | module 13 equation 1
terminates | g : 1 1 ==> 3 | module 13 equation 1";

/// Modules, and under each commands with words at a limit and one beyond, and what is printed of these. Parentheses have
/// no limit. The limits are: symbols of a problem and of a term, 400; of a bound term and of what is made, 1,000, and of a
/// part of a term together with a left side; minimal solutions, 24, also on the way, and numbers in them over 65,535;
/// choices of a match one within another, 209, as 69 sums have, and as many summands as a left side may have; steps, levels
/// and variants; bytes of a module. Over the first module one unifier has terms of 511 symbols and fewer, each twice the
/// next; two have a sum of such terms, of 999 symbols and of 1,001; one has a term of 1,023; and one binds twenty variables.
const QUESTIONS: &str = "\
fmod FREE is
  sort S .
  ops a b : -> S .
  op p : S S -> S .
  vars X Y : S .
endfm
 <=
unify | p(V0:S,p(V1:S,p(V2:S,p(V3:S,p(V4:S,p(V5:S,p(V6:S,V7:S))))))) =? p(p(V1:S,V1:S),p(p(V2:S,V2:S),p(p(V3:S,V3:S),p(p(V4:S,V4:S),p(p(V5:S,V5:S),p(p(V6:S,V6:S),p(p(V7:S,V7:S),p(V8:S,V8:S)))))))) ==> 0 | {V0:S --> p(p(p(p(p(p(p(p(#1:S,#1:S),p(#1:S,#1:S)),p(p(#1:S,#1:S),p(#1:S,#1:S))),p(p(p(#1:S,#1:S),p(#1:S,#1:S)),p(p(#1:S,#1:S),p(#1:S,#1:S)))),p(p(p(p(#1:S,#1:S),p(#1:S,#1:S)),p(p(#1:S,#1:S),p(#1:S,#1:S))),p(p(p(#1:S,#1:S),p(#1:S,#1:S)),p(p(#1:S,#1:S),p(#1:S,#1:S))))),p(p(p(p(p(#1:S,#1:S),p(#1:S,#1:S)),p(p(#1:S,#1:S),p(#1:S,#1:S))),p(p(p(#1:S,#1:S),p(#1:S,#1:S)),p(p(#1:S,#1:S),p(#1:S,#1:S)))),p(p(p(p(#1:S,#1:S),p(#1:S,#1:S)),p(p(#1:S,#1:S),p(#1:S,#1:S))),p(p(p(#1:S,#1:S),p(#1:S,#1:S)),p(p(#1:S,#1:S),p(#1:S,#1:S)))))),p(p(p(p(p(p(#1:S,#1:S),p(#1:S,#1:S)),p(p(#1:S,#1:S),p(#1:S,#1:S))),p(p(p(#1:S,#1:S),p(#1:S,#1:S)),p(p(#1:S,#1:S),p(#1:S,#1:S)))),p(p(p(p(#1:S,#1:S),p(#1:S,#1:S)),p(p(#1:S,#1:S),p(#1:S,#1:S))),p(p(p(#1:S,#1:S),p(#1:S,#1:S)),p(p(#1:S,#1:S),p(#1:S,#1:S))))),p(p(p(p(p(#1:S,#1:S),p(#1:S,#1:S)),p(p(#1:S,#1:S),p(#1:S,#1:S))),p(p(p(#1:S,#1:S),p(#1:S,#1:S)),p(p(#1:S,#1:S),p(#1:S,#1:S)))),p(p(p(p(#1:S,#1:S),p(#1:S,#1:S)),p(p(#1:S,#1:S),p(#1:S,#1:S))),p(p(p(#1:S,#1:S),p(#1:S,#1:S)),p(p(#1:S,#1:S),p(#1:S,#1:S))))))),p(p(p(p(p(p(p(#1:S,#1:S),p(#1:S,#1:S)),p(p(#1:S,#1:S),p(#1:S,#1:S))),p(p(p(#1:S,#1:S),p(#1:S,#1:S)),p(p(#1:S,#1:S),p(#1:S,#1:S)))),p(p(p(p(#1:S,#1:S),p(#1:S,#1:S)),p(p(#1:S,#1:S),p(#1:S,#1:S))),p(p(p(#1:S,#1:S),p(#1:S,#1:S)),p(p(#1:S,#1:S),p(#1:S,#1:S))))),p(p(p(p(p(#1:S,#1:S),p(#1:S,#1:S)),p(p(#1:S,#1:S),p(#1:S,#1:S))),p(p(p(#1:S,#1:S),p(#1:S,#1:S)),p(p(#1:S,#1:S),p(#1:S,#1:S)))),p(p(p(p(#1:S,#1:S),p(#1:S,#1:S)),p(p(#1:S,#1:S),p(#1:S,#1:S))),p(p(p(#1:S,#1:S),p(#1:S,#1:S)),p(p(#1:S,#1:S),p(#1:S,#1:S)))))),p(p(p(p(p(p(#1:S,#1:S),p(#1:S,#1:S)),p(p(#1:S,#1:S),p(#1:S,#1:S))),p(p(p(#1:S,#1:S),p(#1:S,#1:S)),p(p(#1:S,#1:S),p(#1:S,#1:S)))),p(p(p(p(#1:S,#1:S),p(#1:S,#1:S)),p(p(#1:S,#1:S),p(#1:S,#1:S))),p(p(p(#1:S,#1:S),p(#1:S,#1:S)),p(p(#1:S,#1:S),p(#1:S,#1:S))))),p(p(p(p(p(#1:S,#1:S),p(#1:S,#1:S)),p(p(#1:S,#1:S),p(#1:S,#1:S))),p(p(p(#1:S,#1:S),p(#1:S,#1:S)),p(p(#1:S,#1:S),p(#1:S,#1:S)))),p(p(p(p(#1:S,#1:S),p(#1:S,#1:S)),p(p(#1:S,#1:S),p(#1:S,#1:S))),p(p(p(#1:S,#1:S),p(#1:S,#1:S)),p(p(#1:S,#1:S),p(#1:S,#1:S)))))))), V1:S --> p(p(p(p(p(p(p(#1:S,#1:S),p(#1:S,#1:S)),p(p(#1:S,#1:S),p(#1:S,#1:S))),p(p(p(#1:S,#1:S),p(#1:S,#1:S)),p(p(#1:S,#1:S),p(#1:S,#1:S)))),p(p(p(p(#1:S,#1:S),p(#1:S,#1:S)),p(p(#1:S,#1:S),p(#1:S,#1:S))),p(p(p(#1:S,#1:S),p(#1:S,#1:S)),p(p(#1:S,#1:S),p(#1:S,#1:S))))),p(p(p(p(p(#1:S,#1:S),p(#1:S,#1:S)),p(p(#1:S,#1:S),p(#1:S,#1:S))),p(p(p(#1:S,#1:S),p(#1:S,#1:S)),p(p(#1:S,#1:S),p(#1:S,#1:S)))),p(p(p(p(#1:S,#1:S),p(#1:S,#1:S)),p(p(#1:S,#1:S),p(#1:S,#1:S))),p(p(p(#1:S,#1:S),p(#1:S,#1:S)),p(p(#1:S,#1:S),p(#1:S,#1:S)))))),p(p(p(p(p(p(#1:S,#1:S),p(#1:S,#1:S)),p(p(#1:S,#1:S),p(#1:S,#1:S))),p(p(p(#1:S,#1:S),p(#1:S,#1:S)),p(p(#1:S,#1:S),p(#1:S,#1:S)))),p(p(p(p(#1:S,#1:S),p(#1:S,#1:S)),p(p(#1:S,#1:S),p(#1:S,#1:S))),p(p(p(#1:S,#1:S),p(#1:S,#1:S)),p(p(#1:S,#1:S),p(#1:S,#1:S))))),p(p(p(p(p(#1:S,#1:S),p(#1:S,#1:S)),p(p(#1:S,#1:S),p(#1:S,#1:S))),p(p(p(#1:S,#1:S),p(#1:S,#1:S)),p(p(#1:S,#1:S),p(#1:S,#1:S)))),p(p(p(p(#1:S,#1:S),p(#1:S,#1:S)),p(p(#1:S,#1:S),p(#1:S,#1:S))),p(p(p(#1:S,#1:S),p(#1:S,#1:S)),p(p(#1:S,#1:S),p(#1:S,#1:S))))))), V2:S --> p(p(p(p(p(p(#1:S,#1:S),p(#1:S,#1:S)),p(p(#1:S,#1:S),p(#1:S,#1:S))),p(p(p(#1:S,#1:S),p(#1:S,#1:S)),p(p(#1:S,#1:S),p(#1:S,#1:S)))),p(p(p(p(#1:S,#1:S),p(#1:S,#1:S)),p(p(#1:S,#1:S),p(#1:S,#1:S))),p(p(p(#1:S,#1:S),p(#1:S,#1:S)),p(p(#1:S,#1:S),p(#1:S,#1:S))))),p(p(p(p(p(#1:S,#1:S),p(#1:S,#1:S)),p(p(#1:S,#1:S),p(#1:S,#1:S))),p(p(p(#1:S,#1:S),p(#1:S,#1:S)),p(p(#1:S,#1:S),p(#1:S,#1:S)))),p(p(p(p(#1:S,#1:S),p(#1:S,#1:S)),p(p(#1:S,#1:S),p(#1:S,#1:S))),p(p(p(#1:S,#1:S),p(#1:S,#1:S)),p(p(#1:S,#1:S),p(#1:S,#1:S)))))), V3:S --> p(p(p(p(p(#1:S,#1:S),p(#1:S,#1:S)),p(p(#1:S,#1:S),p(#1:S,#1:S))),p(p(p(#1:S,#1:S),p(#1:S,#1:S)),p(p(#1:S,#1:S),p(#1:S,#1:S)))),p(p(p(p(#1:S,#1:S),p(#1:S,#1:S)),p(p(#1:S,#1:S),p(#1:S,#1:S))),p(p(p(#1:S,#1:S),p(#1:S,#1:S)),p(p(#1:S,#1:S),p(#1:S,#1:S))))), V4:S --> p(p(p(p(#1:S,#1:S),p(#1:S,#1:S)),p(p(#1:S,#1:S),p(#1:S,#1:S))),p(p(p(#1:S,#1:S),p(#1:S,#1:S)),p(p(#1:S,#1:S),p(#1:S,#1:S)))), V5:S --> p(p(p(#1:S,#1:S),p(#1:S,#1:S)),p(p(#1:S,#1:S),p(#1:S,#1:S))), V6:S --> p(p(#1:S,#1:S),p(#1:S,#1:S)), V7:S --> p(#1:S,#1:S), V8:S --> #1:S} | complete 1
unify | p(X,p(V0:S,p(V1:S,p(V2:S,p(V3:S,p(V4:S,p(V5:S,p(V6:S,V7:S)))))))) =? p(p(V0:S,p(V1:S,p(V2:S,p(V3:S,p(V4:S,V6:S))))),p(p(V1:S,V1:S),p(p(V2:S,V2:S),p(p(V3:S,V3:S),p(p(V4:S,V4:S),p(p(V5:S,V5:S),p(p(V6:S,V6:S),p(p(V7:S,V7:S),p(V8:S,V8:S))))))))) ==> 0 | 1 lines | complete 1
unify | p(X,p(V0:S,p(V1:S,p(V2:S,p(V3:S,p(V4:S,p(V5:S,p(V6:S,V7:S)))))))) =? p(p(V0:S,p(V1:S,p(V2:S,p(V3:S,p(V4:S,p(V6:S,V8:S)))))),p(p(V1:S,V1:S),p(p(V2:S,V2:S),p(p(V3:S,V3:S),p(p(V4:S,V4:S),p(p(V5:S,V5:S),p(p(V6:S,V6:S),p(p(V7:S,V7:S),p(V8:S,V8:S))))))))) ==> 5 | bound size 1000
unify | p(V0:S,p(V1:S,p(V2:S,p(V3:S,p(V4:S,p(V5:S,p(V6:S,p(V7:S,V8:S)))))))) =? p(p(V1:S,V1:S),p(p(V2:S,V2:S),p(p(V3:S,V3:S),p(p(V4:S,V4:S),p(p(V5:S,V5:S),p(p(V6:S,V6:S),p(p(V7:S,V7:S),p(p(V8:S,V8:S),p(V9:S,V9:S))))))))) ==> 5 | bound size 1000
unify | p(V1:S,p(V2:S,p(V3:S,p(V4:S,p(V5:S,p(V6:S,p(V7:S,p(V8:S,p(V9:S,p(V10:S,p(V11:S,p(V12:S,p(V13:S,p(V14:S,p(V15:S,p(V16:S,p(V17:S,p(V18:S,p(V19:S,V20:S))))))))))))))))))) =? p(a,p(a,p(a,p(a,p(a,p(a,p(a,p(a,p(a,p(a,p(a,p(a,p(a,p(a,p(a,p(a,p(a,p(a,p(a,a))))))))))))))))))) ==> 0 | {V1:S --> a, V2:S --> a, V3:S --> a, V4:S --> a, V5:S --> a, V6:S --> a, V7:S --> a, V8:S --> a, V9:S --> a, V10:S --> a, V11:S --> a, V12:S --> a, V13:S --> a, V14:S --> a, V15:S --> a, V16:S --> a, V17:S --> a, V18:S --> a, V19:S --> a, V20:S --> a} | complete 1

fmod M is sort S . op a : -> S . op g : S -> S . eq ~20000%(~g(a)~20000%)~ = a [variant] . endfm <=
check ==> 0 | module M sorts 1 kinds 1 operators 2 equations 1 | sorts kept
unify | X:S =? g(a) ==> 0 | {X:S --> g(a)} | complete 1
variants | g(a) ==> 0 | a {} | complete 1
vunify | g(a) =? a ==> 0 | {} | complete 1
verify | g(a) =? a | {} ==> 0 | yes
terminates | g : 1 1 ==> 0 | terminates

fmod AC is sort S . ops a b : -> S . op g : S -> S . op c : S S -> S [comm] . op _+_ : S S -> S [assoc comm] . vars X Y Z U V : S . endfm <=
unify | ~199%g(~a~199%)~ =? ~199%g(~a~199%)~ ==> 0 | {} | complete 1
unify | ~200%g(~a~200%)~ =? ~199%g(~a~199%)~ ==> 4 | problem 6
vunify | ~199%g(~a~199%)~ =? ~199%g(~a~199%)~ ==> 0 | {} | complete 1
vunify | ~200%g(~a~200%)~ =? ~199%g(~a~199%)~ ==> 4 | problem 6
verify | ~199%g(~a~199%)~ =? ~199%g(~a~199%)~ | {} ==> 0 | yes
verify | ~200%g(~a~200%)~ =? ~199%g(~a~199%)~ | {} ==> 4 | problem 6
variants | ~399%g(~a~399%)~ ==> 0 | ~399%g(~a~399%)~ {} | complete 1
variants | ~400%g(~a~400%)~ ==> 4 | problem 6
unify | X =? ~398%g(~Y~398%)~ ==> 0 | {X:S --> ~398%g(~#1:S~398%)~, Y:S --> #1:S} | complete 1
verify | X =? X | {X:S --> ~999%g(~a~999%)~} ==> 0 | yes
verify | X =? X | {X:S --> ~1000%g(~a~1000%)~} ==> 4 | problem 6
verify | g(c(X,X)) =? a | {X:S --> ~498%g(~a~498%)~} ==> 1 | no 1
verify | c(X,X) =? a | {X:S --> ~499%g(~a~499%)~} ==> 5 | bound size 1000
unify | X =? g(c(Y,Y)) /\\ Y =? c(Z,Z) /\\ Z =? c(U,U) /\\ U =? ~123%g(~a~123%)~ ==> 0 | 1 lines | complete 1
unify | X =? g(g(c(Y,Y))) /\\ Y =? c(Z,Z) /\\ Z =? c(U,U) /\\ U =? ~123%g(~a~123%)~ ==> 5 | bound size 1000
vunify | X =? g(c(Y,Y)) /\\ Y =? c(Z,Z) /\\ Z =? c(U,U) /\\ U =? ~123%g(~a~123%)~ ==> 0 | 1 lines | complete 1
vunify | X =? g(g(c(Y,Y))) /\\ Y =? c(Z,Z) /\\ Z =? c(U,U) /\\ U =? ~123%g(~a~123%)~ ==> 5 | bound size 1000
unify | X =? _+_(V:S~23%,V@:S~) ==> 0 | 1 lines | complete 1
unify | X =? _+_(V:S~24%,V@:S~) ==> 0 | 1 lines | complete 1
unify | X =? ~40%g(_+_(~Y~40%,a))~ ==> 0 | 1 lines | complete 1
vunify | X =? _+_(V:S~23%,V@:S~) ==> 0 | 1 lines | complete 1
vunify | X =? _+_(V:S~24%,V@:S~) ==> 0 | 1 lines | complete 1
unify | _+_(X~40%,X~) =? _+_(Y~39%,Y~) /\\ _+_(Y~40%,Y~) =? _+_(Z~39%,Z~) ==> 5 | bound basis _+_

fmod DOUBLE is sort S . op a : -> S . ops f g : S -> S . op p : S S -> S . var X : S . eq f(X) = p(X,X) [variant] . endfm <=
variants | g(f(f(f(~123%g(~a~123%)~)))) ==> 0 | 1 lines | complete 1
variants | g(g(f(f(f(~123%g(~a~123%)~))))) ==> 5 | bound size 1000
vunify | f(f(f(~123%g(~a~123%)~))) =? a ==> 1 | complete 0
vunify | g(f(f(f(~123%g(~a~123%)~)))) =? a ==> 1 | complete 0
vunify | f(f(f(~123%g(~a~123%)~))) =? X ==> 0 | 1 lines | complete 1
vunify | g(f(f(f(~123%g(~a~123%)~)))) =? X ==> 5 | bound size 1000
verify | g(f(f(f(~123%g(~a~123%)~)))) =? a | {} ==> 1 | no 1
verify | g(g(f(f(f(~123%g(~a~123%)~))))) =? a | {} ==> 5 | bound size 1000

fmod WIDE is sort S . op a : -> S . ops f g h : S -> S . op p : S S S -> S . vars X Y Z : S . eq f(p(X,X,X)) = g(X) [variant] . eq g(~332%h(~a~332%)~) = a [variant] . endfm <=
variants | f(X) ==> 0 | 3 lines | complete 3

fmod WIDE is sort S . op a : -> S . ops f g h : S -> S . op p : S S S -> S . vars X Y Z : S . eq f(p(X,X,X)) = g(X) [variant] . eq g(~333%h(~a~333%)~) = a [variant] . endfm <=
variants | f(X) ==> 5 | f(#1:S) {X:S --> #1:S} | g(#1:S) {X:S --> p(#1:S,#1:S,#1:S)} | bound size 1000

fmod WIDE is sort S . op a : -> S . ops f g h : S -> S . op p : S S S -> S . vars X Y Z : S . eq f(p(X,X,X)) = g(X) [variant] . eq g(~333%h(~a~333%)~) = a [variant] . eq p(h(X),Y,Z) = a [variant] . endfm <=
variants | f(X) ==> 0 | f(#1:S) {X:S --> #1:S} | g(#1:S) {X:S --> p(#1:S,#1:S,#1:S)} | complete 2

fmod PART is sort S . op a : -> S . ops f g h : S -> S . op p : S S -> S . vars X Y : S . eq f(X) = p(X,X) [variant] . eq p(X,~396%h(~a~396%)~) = a [variant] . endfm <=
variants | p(f(f(f(~73%g(~a~73%)~))),Y) ==> 0 | 2 lines | complete 2
vunify | p(f(f(f(~73%g(~a~73%)~))),Y) =? a ==> 0 | {Y:S --> ~396%h(~a~396%)~} | complete 1

fmod PART is sort S . op a : -> S . ops f g h : S -> S . op p : S S -> S . vars X Y : S . eq f(X) = p(X,X) [variant] . eq p(X,~397%h(~a~397%)~) = a [variant] . endfm <=
variants | p(f(f(f(~73%g(~a~73%)~))),Y) ==> 5 | 1 lines | bound size 1000
vunify | p(f(f(f(~73%g(~a~73%)~))),Y) =? a ==> 5 | bound size 1000

fmod SUMS is sort S . ops a b : -> S . op f : S S -> S . op _+_ : S S -> S [assoc comm] . vars X Y : S . eq f(_+_(~4%A@:S,~A4:S),a) = b [variant] . endfm <=
variants | f(_+_(B0:S,B1:S,B2:S,B3:S,B4:S),Y) ==> 5 | f(_+_(#1:S,#2:S,#3:S,#4:S,#5:S),#6:S) {B0:S --> #1:S, B1:S --> #2:S, B2:S --> #3:S, B3:S --> #4:S, B4:S --> #5:S, Y:S --> #6:S} | bound basis _+_
variants | f(_+_(B0:S,B1:S,B2:S,B3:S,a),Y) ==> 5 | 1 lines | bound basis _+_
vunify | f(_+_(B0:S,B1:S,B2:S,B3:S,B4:S),Y) =? b ==> 5 | bound basis _+_

fmod WIDEST is sort S . ops a b : -> S . op f : S -> S . op _+_ : S S -> S [assoc comm] . eq f(_+_(~198%X@:S,~X:S)) = a [variant] . endfm <=
verify | f(Y:S) =? a | {Y:S --> _+_(~199%a,~b)} ==> 0 | yes

fmod NESTED is sort S . op a : -> S . ops f g : S -> S . op _+_ : S S -> S [assoc comm] . eq f(~69%_+_(X@:S,g(~V:S~69%))~) = a [variant] . endfm <=
verify | f(Y:S) =? a | {Y:S --> ~69%_+_(a,g(~a~69%))~} ==> 0 | yes

fmod NESTED is sort S . op a : -> S . ops f g : S -> S . op _+_ : S S -> S [assoc comm] . eq f(~70%_+_(X@:S,g(~V:S~70%))~) = a [variant] . endfm <=
verify | f(Y:S) =? a | {Y:S --> ~70%_+_(a,g(~a~70%))~} ==> 8 | nothing

fmod PLUS is sort Nat . op 0 : -> Nat . op s : Nat -> Nat . op + : Nat Nat -> Nat . vars X Y : Nat . eq +(0,Y) = Y [variant] . eq +(s(X),Y) = s(+(X,Y)) [variant] . endfm <=
variants | +(s(s(s(0))),0) | --steps | 4 ==> 0 | s(s(s(0))) {} | complete 1
variants | +(s(s(s(0))),0) | --steps | 3 ==> 5 | bound steps 3 +(s(s(s(0))),0)
vunify | +(s(s(s(0))),0) =? s(s(s(0))) | --steps | 4 ==> 0 | {} | complete 1
vunify | +(s(s(s(0))),0) =? s(s(s(0))) | --steps | 3 ==> 5 | bound steps 3 +(s(s(s(0))),0)
verify | +(s(s(s(0))),0) =? s(s(s(0))) | {} | --steps | 4 ==> 0 | yes
verify | +(s(s(s(0))),0) =? s(s(s(0))) | {} | --steps | 3 ==> 5 | bound steps 3 +(s(s(s(0))),0)

fmod ENC is sorts Msg Key . op a : -> Msg . op k : -> Key . ops enc dec : Msg Key -> Msg . vars X M : Msg . vars Y K : Key . eq dec(enc(M,K),K) = M [variant] . endfm <=
variants | dec(X,Y) | --levels | 1000 ==> 0 | #1:Msg {X:Msg --> enc(#1:Msg,#2:Key), Y:Key --> #2:Key} | dec(#1:Msg,#2:Key) {X:Msg --> #1:Msg, Y:Key --> #2:Key} | complete 2
variants | dec(X,Y) | --levels | 1001 ==> 2 | usage: fvn check|unify|variants|vunify|verify|work|terminates
vunify | dec(X,k) =? a | --levels | 1000 ==> 0 | {X:Msg --> enc(a,k)} | complete 1
vunify | dec(X,k) =? a | --levels | 1001 ==> 2 | usage: fvn check|unify|variants|vunify|verify|work|terminates
variants | dec(X,Y) | --variants | 2 ==> 0 | 2 lines | complete 2
variants | dec(X,Y) | --variants | 1 ==> 5 | dec(#1:Msg,#2:Key) {X:Msg --> #1:Msg, Y:Key --> #2:Key} | bound variants 1
vunify | dec(X,k) =? a | --variants | 2 ==> 0 | {X:Msg --> enc(a,k)} | complete 1
vunify | dec(X,k) =? a | --variants | 1 ==> 5 | bound variants 1

fmod FREE is sort S . ops a b : -> S . op p : S S -> S . vars X Y : S . endfm~1048499% ~ <=
unify | p(X,b) =? p(a,Y) ==> 0 | {X:S --> a, Y:S --> b} | complete 1

fmod FREE is sort S . ops a b : -> S . op p : S S -> S . vars X Y : S . endfm~1048500% ~ <=
unify | p(X,b) =? p(a,Y) ==> 3 | module 14";

/// The same for the number of unifiers, 4,095 and one more, of a problem and of one on the way: each of twelve elements is in
/// one of two sets, of which one may not be empty, or both may.
const MANY: &str = "\
fmod SETS is sorts N S . subsort N < S . ops c ~11%c@ ~: -> N . op mt : -> S . op _;_ : S S -> S [assoc comm id: mt] . op _;_ : N S -> N [ditto] . endfm <=
unify | _;_(X:N,Y:S) =? _;_(c~11%,c@~) ==> 0 | 4095 lines | complete 4095
unify | _;_(X:S,Y:S) =? _;_(c~11%,c@~) ==> 5 | 4096 lines | bound unifiers 4096
vunify | _;_(X:N,Y:S) =? _;_(c~11%,c@~) ==> 0 | 4095 lines | complete 4095
vunify | _;_(X:S,Y:S) =? _;_(c~11%,c@~) ==> 5 | 4096 lines | bound unifiers 4096

fmod PART is sorts N S . subsort N < S . ops c ~11%c@ ~: -> N . ops mt a b : -> S . op _;_ : S S -> S [assoc comm id: mt] . op _;_ : N S -> N [ditto] . op g : S S -> S . eq g(_;_(X:N,Y:S),a) = b [variant] . endfm <=
variants | g(_;_(c~11%,c@~),Z:S) ==> 0 | 2 lines | complete 2
vunify | g(_;_(c~11%,c@~),Z:S) =? b ==> 0 | {Z:S --> a} | complete 1

fmod PART is sorts N S . subsort N < S . ops c ~11%c@ ~: -> N . ops mt a b : -> S . op _;_ : S S -> S [assoc comm id: mt] . op _;_ : N S -> N [ditto] . op g : S S -> S . eq g(_;_(X:S,Y:S),a) = b [variant] . endfm <=
variants | g(_;_(c~11%,c@~),Z:S) ==> 5 | 2 lines | bound unifiers 4096
vunify | g(_;_(c~11%,c@~),Z:S) =? b ==> 5 | {Z:S --> a} | bound unifiers 4096";

#[test]
fn modules_at_a_limit_are_read(rt: HostRuntime) -> Result<(), NoMemory> {
    table_told(&rt, rt.alloc(), MODULES)
}

#[test]
fn questions_at_a_limit_are_answered(rt: HostRuntime) -> Result<(), NoMemory> {
    table_told(&rt, rt.alloc(), QUESTIONS)
}

#[test]
fn unifiers_at_the_limit_are_told(rt: HostRuntime) -> Result<(), NoMemory> {
    table_told(&rt, rt.alloc(), MANY)
}
