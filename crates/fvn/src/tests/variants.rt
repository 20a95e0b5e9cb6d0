//! What `variants` and `vunify` print.
use super::table_told;
use fvn_terms::NoMemory;

/// Modules, words, a term or a problem among them, and the lines that are printed of the variants or unifiers, worked out by
/// hand or by Maude.
const THEORIES: &str = "\
fmod XOR is sorts Nat NatSet . subsort Nat < NatSet . op 0 : -> Nat [ctor] . op s : Nat -> Nat [ctor] . op mt : -> NatSet [ctor] . op _*_ : NatSet NatSet -> NatSet [ctor assoc comm] . vars X Y Z : [NatSet] . eq [idem] : _*_(X,X) = mt [variant] . eq [idem-Coh] : _*_(X,X,Z) = Z [variant] . eq [id] : _*_(X,mt) = X [variant] . endfm <=
variants | _*_(X,Y) ==> 0 | #1:[NatSet] {X:[NatSet] --> #1:[NatSet], Y:[NatSet] --> mt} | #1:[NatSet] {X:[NatSet] --> #2:[NatSet], Y:[NatSet] --> _*_(#1:[NatSet],#2:[NatSet])} | #1:[NatSet] {X:[NatSet] --> _*_(#1:[NatSet],#2:[NatSet]), Y:[NatSet] --> #2:[NatSet]} | #1:[NatSet] {X:[NatSet] --> mt, Y:[NatSet] --> #1:[NatSet]} | _*_(#1:[NatSet],#2:[NatSet]) {X:[NatSet] --> #1:[NatSet], Y:[NatSet] --> #2:[NatSet]} | _*_(#1:[NatSet],#2:[NatSet]) {X:[NatSet] --> _*_(#1:[NatSet],#3:[NatSet]), Y:[NatSet] --> _*_(#2:[NatSet],#3:[NatSet])} | mt {X:[NatSet] --> #1:[NatSet], Y:[NatSet] --> #1:[NatSet]} | complete 7
variants | _*_(X,Y) | --workers | 1 ==> 0 | #1:[NatSet] {X:[NatSet] --> #1:[NatSet], Y:[NatSet] --> mt} | #1:[NatSet] {X:[NatSet] --> #2:[NatSet], Y:[NatSet] --> _*_(#1:[NatSet],#2:[NatSet])} | #1:[NatSet] {X:[NatSet] --> _*_(#1:[NatSet],#2:[NatSet]), Y:[NatSet] --> #2:[NatSet]} | #1:[NatSet] {X:[NatSet] --> mt, Y:[NatSet] --> #1:[NatSet]} | _*_(#1:[NatSet],#2:[NatSet]) {X:[NatSet] --> #1:[NatSet], Y:[NatSet] --> #2:[NatSet]} | _*_(#1:[NatSet],#2:[NatSet]) {X:[NatSet] --> _*_(#1:[NatSet],#3:[NatSet]), Y:[NatSet] --> _*_(#2:[NatSet],#3:[NatSet])} | mt {X:[NatSet] --> #1:[NatSet], Y:[NatSet] --> #1:[NatSet]} | complete 7
variants | _*_(X,Y) | --workers | 2 ==> 0 | #1:[NatSet] {X:[NatSet] --> #1:[NatSet], Y:[NatSet] --> mt} | #1:[NatSet] {X:[NatSet] --> #2:[NatSet], Y:[NatSet] --> _*_(#1:[NatSet],#2:[NatSet])} | #1:[NatSet] {X:[NatSet] --> _*_(#1:[NatSet],#2:[NatSet]), Y:[NatSet] --> #2:[NatSet]} | #1:[NatSet] {X:[NatSet] --> mt, Y:[NatSet] --> #1:[NatSet]} | _*_(#1:[NatSet],#2:[NatSet]) {X:[NatSet] --> #1:[NatSet], Y:[NatSet] --> #2:[NatSet]} | _*_(#1:[NatSet],#2:[NatSet]) {X:[NatSet] --> _*_(#1:[NatSet],#3:[NatSet]), Y:[NatSet] --> _*_(#2:[NatSet],#3:[NatSet])} | mt {X:[NatSet] --> #1:[NatSet], Y:[NatSet] --> #1:[NatSet]} | complete 7
variants | _*_(X,Y) | --workers | 16 ==> 0 | #1:[NatSet] {X:[NatSet] --> #1:[NatSet], Y:[NatSet] --> mt} | #1:[NatSet] {X:[NatSet] --> #2:[NatSet], Y:[NatSet] --> _*_(#1:[NatSet],#2:[NatSet])} | #1:[NatSet] {X:[NatSet] --> _*_(#1:[NatSet],#2:[NatSet]), Y:[NatSet] --> #2:[NatSet]} | #1:[NatSet] {X:[NatSet] --> mt, Y:[NatSet] --> #1:[NatSet]} | _*_(#1:[NatSet],#2:[NatSet]) {X:[NatSet] --> #1:[NatSet], Y:[NatSet] --> #2:[NatSet]} | _*_(#1:[NatSet],#2:[NatSet]) {X:[NatSet] --> _*_(#1:[NatSet],#3:[NatSet]), Y:[NatSet] --> _*_(#2:[NatSet],#3:[NatSet])} | mt {X:[NatSet] --> #1:[NatSet], Y:[NatSet] --> #1:[NatSet]} | complete 7
vunify | _*_(X,Y) =? mt ==> 0 | {X:[NatSet] --> #1:[NatSet], Y:[NatSet] --> #1:[NatSet]} | complete 1
vunify | _*_(X,Y) =? U:[NatSet] ==> 0 | {X:[NatSet] --> #1:[NatSet], Y:[NatSet] --> #1:[NatSet], U:[NatSet] --> mt} | {X:[NatSet] --> #1:[NatSet], Y:[NatSet] --> #2:[NatSet], U:[NatSet] --> _*_(#1:[NatSet],#2:[NatSet])} | {X:[NatSet] --> #1:[NatSet], Y:[NatSet] --> _*_(#1:[NatSet],#2:[NatSet]), U:[NatSet] --> #2:[NatSet]} | {X:[NatSet] --> #1:[NatSet], Y:[NatSet] --> mt, U:[NatSet] --> #1:[NatSet]} | {X:[NatSet] --> _*_(#1:[NatSet],#2:[NatSet]), Y:[NatSet] --> #1:[NatSet], U:[NatSet] --> #2:[NatSet]} | {X:[NatSet] --> _*_(#1:[NatSet],#2:[NatSet]), Y:[NatSet] --> _*_(#1:[NatSet],#3:[NatSet]), U:[NatSet] --> _*_(#2:[NatSet],#3:[NatSet])} | {X:[NatSet] --> mt, Y:[NatSet] --> #1:[NatSet], U:[NatSet] --> #1:[NatSet]} | complete 7

fmod XORN is sorts Nat NatSet . subsort Nat < NatSet . op 0 : -> Nat [ctor] . op s : Nat -> Nat [ctor] . op mt : -> NatSet [ctor] . op _*_ : NatSet NatSet -> NatSet [ctor assoc comm] . vars X Y Z : [NatSet] . eq [idem] : _*_(X,X) = mt [variant] . eq [id] : _*_(X,mt) = X [variant] . endfm <=
variants | _*_(X,Y) ==> 0 | #1:[NatSet] {X:[NatSet] --> #1:[NatSet], Y:[NatSet] --> mt} | #1:[NatSet] {X:[NatSet] --> #2:[NatSet], Y:[NatSet] --> _*_(#1:[NatSet],#2:[NatSet])} | #1:[NatSet] {X:[NatSet] --> _*_(#1:[NatSet],#2:[NatSet]), Y:[NatSet] --> #2:[NatSet]} | #1:[NatSet] {X:[NatSet] --> mt, Y:[NatSet] --> #1:[NatSet]} | _*_(#1:[NatSet],#2:[NatSet]) {X:[NatSet] --> #1:[NatSet], Y:[NatSet] --> #2:[NatSet]} | _*_(#1:[NatSet],#2:[NatSet]) {X:[NatSet] --> _*_(#1:[NatSet],#3:[NatSet]), Y:[NatSet] --> _*_(#2:[NatSet],#3:[NatSet])} | mt {X:[NatSet] --> #1:[NatSet], Y:[NatSet] --> #1:[NatSet]} | complete 7

fmod ENC is sorts Msg Key . op a : -> Msg . op k : -> Key . ops enc dec : Msg Key -> Msg . vars X M : Msg . vars Y K : Key . eq dec(enc(M,K),K) = M [variant] . endfm <=
variants | dec(X,Y) ==> 0 | #1:Msg {X:Msg --> enc(#1:Msg,#2:Key), Y:Key --> #2:Key} | dec(#1:Msg,#2:Key) {X:Msg --> #1:Msg, Y:Key --> #2:Key} | complete 2
variants | dec(X) ==> 4 | problem 4
variants | dec(X,Y) =? a ==> 4 | problem 2
variants | dec(X,Y) | --workers | 2 ==> 0 | #1:Msg {X:Msg --> enc(#1:Msg,#2:Key), Y:Key --> #2:Key} | dec(#1:Msg,#2:Key) {X:Msg --> #1:Msg, Y:Key --> #2:Key} | complete 2
vunify | dec(X,k) =? a ==> 0 | {X:Msg --> enc(a,k)} | complete 1
vunify | enc(X,k) =? a ==> 1 | complete 0
vunify | a =? k ==> 4 | problem 5
vunify | --workers=3 | dec(X,k) =? a | --variants=2 ==> 0 | {X:Msg --> enc(a,k)} | complete 1
vunify | --levels=5 | dec(X,k) =? a ==> 0 | {X:Msg --> enc(a,k)} | complete 1
vunify | --levels | 5 | --levels | 5 | dec(X,k) =? a ==> 2 | usage: fvn check|unify|variants|vunify|verify|work|terminates

fmod FREE is sort S . ops a b : -> S . op p : S S -> S . vars X Y : S . endfm <=
variants | p(X,Y) ==> 0 | p(#1:S,#2:S) {X:S --> #1:S, Y:S --> #2:S} | complete 1
variants | x | --levels | 0 ==> 2 | usage: fvn check|unify|variants|vunify|verify|work|terminates
vunify | p(X,b) =? p(a,Y) ==> 0 | {X:S --> a, Y:S --> b} | complete 1

fmod RAISE is sorts A B . subsort A < B . op f : B -> A . op g : B -> B . var X : B . eq f(X) = g(X) [variant] . endfm <=
variants | f(X) ==> 5 | g(#1:B) {X:B --> #1:B} | cause sorts 1
vunify | f(X) =? g(X) ==> 5 | {X:B --> #1:B} | cause sorts 1

fmod LOOP is sort S . op a : -> S . op f : S -> S . var X : S . eq f(X) = f(X) [variant] . endfm <=
variants | f(a) ==> 5 | bound steps 10000 f(a)
variants | --steps | 5 | -- | f(a) ==> 5 | bound steps 5 f(a)
variants | f(a) | --steps | 5 ==> 5 | bound steps 5 f(a)
vunify | f(a) =? a ==> 5 | bound steps 10000 f(a)

fmod GROW is sort S . op a : -> S . op g : S -> S . op p : S S -> S . var X : S . eq g(X) = g(p(X,X)) [variant] . endfm <=
variants | g(a) ==> 5 | bound size 1000

fmod LOST is sort S . op a : -> S . ops f g h : S -> S . op p : S S S -> S . vars X Y Z : S . eq f(p(X,X,X)) = g(X) [variant] . eq g(h(X)) = g(h(X)) [variant] . eq p(h(X),Y,Z) = a [variant] . endfm <=
variants | f(X) ==> 0 | f(#1:S) {X:S --> #1:S} | g(#1:S) {X:S --> p(#1:S,#1:S,#1:S)} | complete 2

fmod NOPRE is sorts A B C . subsorts A < B . subsorts A < C . op f : B -> B . op f : C -> C . endfm <=
variants | f(X) ==> 3 | module 9.6 f A
vunify | X =? a ==> 3 | module 9.6 f A

fmod PLUS is sort Nat . op 0 : -> Nat . op s : Nat -> Nat . op + : Nat Nat -> Nat . vars X Y : Nat . eq +(0,Y) = Y [variant] . eq +(s(X),Y) = s(+(X,Y)) [variant] . endfm <=
variants | +(X,Y) | --levels | 1 ==> 5 | #1:Nat {X:Nat --> 0, Y:Nat --> #1:Nat} | +(#1:Nat,#2:Nat) {X:Nat --> #1:Nat, Y:Nat --> #2:Nat} | s(+(#1:Nat,#2:Nat)) {X:Nat --> s(#1:Nat), Y:Nat --> #2:Nat} | bound levels 1
variants | --variants=1 | +(X,Y) ==> 5 | +(#1:Nat,#2:Nat) {X:Nat --> #1:Nat, Y:Nat --> #2:Nat} | bound variants 1
variants | +(X,Y) | --variants | 1 ==> 5 | +(#1:Nat,#2:Nat) {X:Nat --> #1:Nat, Y:Nat --> #2:Nat} | bound variants 1
vunify | +(X,s(0)) =? s(s(0)) | --levels=3 ==> 5 | {X:Nat --> s(0)} | bound levels 3
vunify | +(X,s(0)) =? s(s(0)) | --levels | 3 ==> 5 | {X:Nat --> s(0)} | bound levels 3
vunify | +(X,Y) =? s(0) | --levels | 3 ==> 5 | {X:Nat --> 0, Y:Nat --> s(0)} | {X:Nat --> s(0), Y:Nat --> 0} | bound levels 3";

#[test]
fn variants_and_unifiers_are_found(rt: HostRuntime) -> Result<(), NoMemory> {
    table_told(&rt, rt.alloc(), THEORIES)
}
