//! Lines of bindings, which are read back as what they print, and answer texts.
mod ending;
mod filling;
mod printing;

use crate::tests::ending::answer_of;
use crate::tests::printing::{line_of_texts, variant_of_texts};
use fvn_module::{Module, read_module};
use fvn_terms::NoMemory;
use std::alloc::Global;
use std::process::Abort;

// Each block has the statements of a module, and rows: a problem, bindings of its variables, and their line. In a row
// with a `v` what the first variable is bound to is the term of a variant, and the others have its substitution. A
// program beside (numberings.py) tries all numberings for each row. In a row with an `m` there are more than six
// variables, whose numbers are open.
const LINES: &str =
    "sort S . ops a b : -> S . op g : S -> S . op c : S S -> S [comm] . op _+_ : S S -> S [assoc comm] .
u _+_(X:S,Y:S) =? _+_(U:S,V:S) # {X:S --> Q2:S, Y:S --> Q6:S, U:S --> Q2:S, V:S --> Q6:S} => {X:S --> #1:S, Y:S --> #2:S, U:S --> #1:S, V:S --> #2:S}
u _+_(X:S,Y:S) =? _+_(U:S,V:S) # {X:S --> Q1:S, Y:S --> Q7:S, U:S --> Q7:S, V:S --> Q1:S} => {X:S --> #1:S, Y:S --> #2:S, U:S --> #2:S, V:S --> #1:S}
u _+_(X:S,Y:S) =? _+_(U:S,V:S) # {X:S --> Q5:S, Y:S --> _+_(Q1:S,Q8:S), U:S --> Q1:S, V:S --> _+_(Q5:S,Q8:S)} => {X:S --> #1:S, Y:S --> _+_(#2:S,#3:S), U:S --> #2:S, V:S --> _+_(#1:S,#3:S)}
u _+_(X:S,Y:S) =? _+_(U:S,V:S) # {X:S --> Q4:S, Y:S --> _+_(Q9:S,Q6:S), U:S --> _+_(Q4:S,Q9:S), V:S --> Q6:S} => {X:S --> #1:S, Y:S --> _+_(#2:S,#3:S), U:S --> _+_(#1:S,#2:S), V:S --> #3:S}
u _+_(X:S,Y:S) =? _+_(U:S,V:S) # {X:S --> _+_(Q3:S,Q2:S), Y:S --> Q1:S, U:S --> Q3:S, V:S --> _+_(Q2:S,Q1:S)} => {X:S --> _+_(#1:S,#2:S), Y:S --> #3:S, U:S --> #1:S, V:S --> _+_(#2:S,#3:S)}
u _+_(X:S,Y:S) =? _+_(U:S,V:S) # {X:S --> _+_(Q8:S,Q5:S), Y:S --> Q6:S, U:S --> _+_(Q8:S,Q6:S), V:S --> Q5:S} => {X:S --> _+_(#1:S,#2:S), Y:S --> #3:S, U:S --> _+_(#1:S,#3:S), V:S --> #2:S}
u _+_(X:S,Y:S) =? _+_(U:S,V:S) # {X:S --> _+_(Q1:S,Q2:S), Y:S --> _+_(Q6:S,Q3:S), U:S --> _+_(Q1:S,Q6:S), V:S --> _+_(Q2:S,Q3:S)} => {X:S --> _+_(#1:S,#2:S), Y:S --> _+_(#3:S,#4:S), U:S --> _+_(#1:S,#3:S), V:S --> _+_(#2:S,#4:S)}
u _+_(X:S,X:S) =? _+_(Y:S,Z:S) # {X:S --> Q7:S, Y:S --> Q7:S, Z:S --> Q7:S} => {X:S --> #1:S, Y:S --> #1:S, Z:S --> #1:S}
u _+_(X:S,X:S) =? _+_(Y:S,Z:S) # {X:S --> _+_(Q4:S,Q1:S), Y:S --> Q4:S, Z:S --> _+_(Q4:S,Q1:S,Q1:S)} => {X:S --> _+_(#1:S,#2:S), Y:S --> #1:S, Z:S --> _+_(#1:S,#2:S,#2:S)}
u _+_(X:S,X:S) =? _+_(Y:S,Z:S) # {X:S --> _+_(Q3:S,Q5:S), Y:S --> _+_(Q3:S,Q3:S), Z:S --> _+_(Q5:S,Q5:S)} => {X:S --> _+_(#1:S,#2:S), Y:S --> _+_(#1:S,#1:S), Z:S --> _+_(#2:S,#2:S)}
u _+_(X:S,X:S) =? _+_(Y:S,Z:S) # {X:S --> _+_(Q2:S,Q6:S), Y:S --> _+_(Q2:S,Q2:S,Q6:S), Z:S --> Q6:S} => {X:S --> _+_(#1:S,#2:S), Y:S --> _+_(#1:S,#1:S,#2:S), Z:S --> #2:S}
u _+_(X:S,X:S) =? _+_(Y:S,Z:S) # {X:S --> _+_(Q2:S,Q9:S,Q4:S), Y:S --> _+_(Q2:S,Q2:S,Q9:S), Z:S --> _+_(Q9:S,Q4:S,Q4:S)} => {X:S --> _+_(#1:S,#2:S,#3:S), Y:S --> _+_(#1:S,#1:S,#2:S), Z:S --> _+_(#2:S,#3:S,#3:S)}
u _+_(X:S,a) =? _+_(Y:S,b) # {X:S --> _+_(Q3:S,b), Y:S --> _+_(Q3:S,a)} => {X:S --> _+_(#1:S,b), Y:S --> _+_(#1:S,a)}
u _+_(X:S,a) =? _+_(Y:S,b) # {X:S --> b, Y:S --> a} => {X:S --> b, Y:S --> a}
u _+_(X:S,g(U:S)) =? _+_(g(V:S),a) # {X:S --> a, U:S --> Q2:S, V:S --> Q2:S} => {X:S --> a, U:S --> #1:S, V:S --> #1:S}
u c(X:S,Y:S) =? c(a,b) # {X:S --> a, Y:S --> b} => {X:S --> a, Y:S --> b}
u c(X:S,Y:S) =? c(a,b) # {X:S --> b, Y:S --> a} => {X:S --> b, Y:S --> a}
u a =? a # {} => {}

sorts Elt Set . subsort Elt < Set . ops a b : -> Elt . op mt : -> Set . op _;_ : Set Set -> Set [assoc comm id: mt] .
u X:Set =? _;_(X:Set,Y:Set) # {X:Set --> Q1:Set, Y:Set --> mt} => {X:Set --> #1:Set, Y:Set --> mt}
u E:Elt =? _;_(X:Set,Y:Set) # {E:Elt --> Q7:Elt, X:Set --> Q7:Elt, Y:Set --> mt} => {E:Elt --> #1:Elt, X:Set --> #1:Elt, Y:Set --> mt}
u E:Elt =? _;_(X:Set,Y:Set) # {E:Elt --> Q1:Elt, X:Set --> mt, Y:Set --> Q1:Elt} => {E:Elt --> #1:Elt, X:Set --> mt, Y:Set --> #1:Elt}
u _;_(X:Set,a) =? _;_(Y:Set,b) # {X:Set --> _;_(Q3:Set,b), Y:Set --> _;_(Q3:Set,a)} => {X:Set --> _;_(#1:Set,b), Y:Set --> _;_(#1:Set,a)}

sorts Nat NatSet . subsort Nat < NatSet . op 0 : -> Nat . op s : Nat -> Nat . op mt : -> NatSet . op _*_ : NatSet NatSet -> NatSet [assoc comm] .
v T:[NatSet] =? _*_(X:[NatSet],Y:[NatSet]) # {T:[NatSet] --> Q7:[NatSet], X:[NatSet] --> Q7:[NatSet], Y:[NatSet] --> mt} => #1:[NatSet] {X:[NatSet] --> #1:[NatSet], Y:[NatSet] --> mt}
v T:[NatSet] =? _*_(X:[NatSet],Y:[NatSet]) # {T:[NatSet] --> Q9:[NatSet], X:[NatSet] --> Q5:[NatSet], Y:[NatSet] --> _*_(Q9:[NatSet],Q5:[NatSet])} => #1:[NatSet] {X:[NatSet] --> #2:[NatSet], Y:[NatSet] --> _*_(#1:[NatSet],#2:[NatSet])}
v T:[NatSet] =? _*_(X:[NatSet],Y:[NatSet]) # {T:[NatSet] --> Q3:[NatSet], X:[NatSet] --> _*_(Q3:[NatSet],Q9:[NatSet]), Y:[NatSet] --> Q9:[NatSet]} => #1:[NatSet] {X:[NatSet] --> _*_(#1:[NatSet],#2:[NatSet]), Y:[NatSet] --> #2:[NatSet]}
v T:[NatSet] =? _*_(X:[NatSet],Y:[NatSet]) # {T:[NatSet] --> Q2:[NatSet], X:[NatSet] --> mt, Y:[NatSet] --> Q2:[NatSet]} => #1:[NatSet] {X:[NatSet] --> mt, Y:[NatSet] --> #1:[NatSet]}
v T:[NatSet] =? _*_(X:[NatSet],Y:[NatSet]) # {T:[NatSet] --> _*_(Q1:[NatSet],Q2:[NatSet]), X:[NatSet] --> Q1:[NatSet], Y:[NatSet] --> Q2:[NatSet]} => _*_(#1:[NatSet],#2:[NatSet]) {X:[NatSet] --> #1:[NatSet], Y:[NatSet] --> #2:[NatSet]}
v T:[NatSet] =? _*_(X:[NatSet],Y:[NatSet]) # {T:[NatSet] --> _*_(Q2:[NatSet],Q3:[NatSet]), X:[NatSet] --> _*_(Q2:[NatSet],Q8:[NatSet]), Y:[NatSet] --> _*_(Q3:[NatSet],Q8:[NatSet])} => _*_(#1:[NatSet],#2:[NatSet]) {X:[NatSet] --> _*_(#1:[NatSet],#3:[NatSet]), Y:[NatSet] --> _*_(#2:[NatSet],#3:[NatSet])}
v T:[NatSet] =? _*_(X:[NatSet],Y:[NatSet]) # {T:[NatSet] --> mt, X:[NatSet] --> Q2:[NatSet], Y:[NatSet] --> Q2:[NatSet]} => mt {X:[NatSet] --> #1:[NatSet], Y:[NatSet] --> #1:[NatSet]}
u _*_(X:[NatSet],Y:[NatSet]) =? mt # {X:[NatSet] --> Q9:[NatSet], Y:[NatSet] --> Q9:[NatSet]} => {X:[NatSet] --> #1:[NatSet], Y:[NatSet] --> #1:[NatSet]}
u X:[Nat] =? Y:[NatSet,Nat] # {X:[NatSet] --> Q8:[NatSet], Y:[NatSet] --> Q6:[NatSet]} => {X:[NatSet] --> #1:[NatSet], Y:[NatSet] --> #2:[NatSet]}

sorts Msg Key . op a : -> Msg . op k : -> Key . ops enc dec : Msg Key -> Msg .
v T:Msg =? dec(X:Msg,Y:Key) # {T:Msg --> Q3:Msg, X:Msg --> enc(Q3:Msg,Q7:Key), Y:Key --> Q7:Key} => #1:Msg {X:Msg --> enc(#1:Msg,#2:Key), Y:Key --> #2:Key}
v T:Msg =? dec(X:Msg,Y:Key) # {T:Msg --> dec(Q7:Msg,Q9:Key), X:Msg --> Q7:Msg, Y:Key --> Q9:Key} => dec(#1:Msg,#2:Key) {X:Msg --> #1:Msg, Y:Key --> #2:Key}
u dec(X:Msg,k) =? a # {X:Msg --> enc(a,k)} => {X:Msg --> enc(a,k)}

sort Nat . op 0 : -> Nat . op s : Nat -> Nat . op + : Nat Nat -> Nat .
v T:Nat =? +(X:Nat,Y:Nat) # {T:Nat --> Q3:Nat, X:Nat --> 0, Y:Nat --> Q3:Nat} => #1:Nat {X:Nat --> 0, Y:Nat --> #1:Nat}
v T:Nat =? +(X:Nat,Y:Nat) # {T:Nat --> +(Q3:Nat,Q7:Nat), X:Nat --> Q3:Nat, Y:Nat --> Q7:Nat} => +(#1:Nat,#2:Nat) {X:Nat --> #1:Nat, Y:Nat --> #2:Nat}
v T:Nat =? +(X:Nat,Y:Nat) # {T:Nat --> s(+(Q2:Nat,Q9:Nat)), X:Nat --> s(Q2:Nat), Y:Nat --> Q9:Nat} => s(+(#1:Nat,#2:Nat)) {X:Nat --> s(#1:Nat), Y:Nat --> #2:Nat}

sorts Even Odd Nat . subsorts Even Odd < Nat . op + : Nat Nat -> Nat . op + : Even Even -> Even . op + : Odd Odd -> Even . op + : Even Odd -> Odd . op + : Odd Even -> Odd .
u E:Even =? +(X:Nat,Y:Nat) # {E:Even --> +(Q8:Even,Q5:Even), X:Nat --> Q8:Even, Y:Nat --> Q5:Even} => {E:Even --> +(#1:Even,#2:Even), X:Nat --> #1:Even, Y:Nat --> #2:Even}
u E:Even =? +(X:Nat,Y:Nat) # {E:Even --> +(Q4:Odd,Q5:Odd), X:Nat --> Q4:Odd, Y:Nat --> Q5:Odd} => {E:Even --> +(#1:Odd,#2:Odd), X:Nat --> #1:Odd, Y:Nat --> #2:Odd}

sort Bag . ops a b none : -> Bag . op _,_ : Bag Bag -> Bag [assoc comm id: none] .
u _`,_(X:Bag, a) =? _`,_(a, b) # {X:Bag --> b} => {X:Bag --> b}
u X:Bag =? Y:Bag # {X:Bag --> _`,_(Q2:Bag,Q5:Bag,a), Y:Bag --> _`,_(Q2:Bag,Q2:Bag)} => {X:Bag --> _`,_(#1:Bag,#2:Bag,a), Y:Bag --> _`,_(#1:Bag,#1:Bag)}

sort S . ops a b : -> S . op p : S S -> S .
u p(X:S,b) =? p(a,Y:S) # {X:S --> a, Y:S --> b} => {X:S --> a, Y:S --> b}
u .:S =? -:S # {.:S --> p(a,Q8:S), -:S --> Q8:S} => {.:S --> p(a,#1:S), -:S --> #1:S}
u --:S =? **:S # {--:S --> Q6:S, **:S --> Q6:S} => {--:S --> #1:S, **:S --> #1:S}

sorts A` B C` . subsorts A` < B . subsorts C` < B . op c` : -> A` . op f` : B B -> B [comm] . op h : B -> B . op k` : C` -> C` . op #o : -> A` . op #p : B -> B . ops -- --> a--- : -> B .
u X:B =? Y:B # {X:B --> c` , Y:B --> h(c` )} => {X:B --> c` , Y:B --> h(c` )}
u X:B =? Y:B # {X:B --> f` (Q9:B,c` ), Y:B --> f` (c` ,h(Q9:B))} => {X:B --> f` (#1:B,c` ), Y:B --> f` (c` ,h(#1:B))}
u X:A` =? Y:B # {X:A` --> Q8:A` , Y:B --> f` (Q8:A` ,h(Q3:B))} => {X:A` --> #1:A` , Y:B --> f` (#1:A` ,h(#2:B))}
u X:B =? Y:C` # {X:B --> k` (Q4:C` ), Y:C` --> k` (k` (Q4:C` ))} => {X:B --> k` (#1:C` ), Y:C` --> k` (k` (#1:C` ))}
u X:[B] =? h(Y:[B]) # {X:[B] --> h(Q4:B), Y:[B] --> Q2:[B]} => {X:[B] --> h(#1:B), Y:[B] --> #2:[B]}
u X:B =? Y:B # {X:B --> #p(#o), Y:B --> #p(Q4:B)} => {X:B --> #p(#o), Y:B --> #p(#1:B)}
u X`:B =? `Y:B # {X`:B --> #o, `Y:B --> c` } => {X`:B --> #o, `Y:B --> c` }
u Z:C` =? Y:C` # {Z:C` --> Q1:C` , Y:C` --> Q1:C` } => {Z:C` --> #1:C` , Y:C` --> #1:C` }
u X:B =? Y:B # {X:B --> -->, Y:B --> f` (--,a---)} => {X:B --> -->, Y:B --> f` (--,a---)}
u --:B =? a---:B # {--:B --> h(--), a---:B --> Q5:B} => {--:B --> h(--), a---:B --> #1:B}
u X:B =? Y:A` # {X:B --> f` (Q3:B,Q7:B), Y:A` --> Q1:A` } => {X:B --> f` (#1:B,#2:B), Y:A` --> #3:A` }

sort S . ops a b : -> S . op g : S -> S . op c : S S -> S [comm] . op f : S S -> S . op _+_ : S S -> S [assoc comm] .
u X:S =? Y:S # {X:S --> _+_(_+_(Q0:S,c(Q0:S,Q0:S),_+_(Q0:S,Q0:S)),Q0:S), Y:S --> _+_(_+_(_+_(Q0:S,Q0:S,Q0:S),f(Q0:S,Q0:S),Q0:S),g(Q0:S))} => {X:S --> _+_(#1:S,#1:S,#1:S,#1:S,c(#1:S,#1:S)), Y:S --> _+_(#1:S,#1:S,#1:S,#1:S,f(#1:S,#1:S),g(#1:S))}
u X:S =? Y:S # {X:S --> _+_(_+_(f(Q0:S,Q0:S),Q0:S,Q0:S),c(c(Q1:S,b),g(Q1:S))), Y:S --> g(Q0:S)} => {X:S --> _+_(#1:S,#1:S,c(c(#2:S,b),g(#2:S)),f(#1:S,#1:S)), Y:S --> g(#1:S)}
u X:S =? a # {X:S --> c(c(c(Q0:S,Q1:S),_+_(b,a)),Q2:S)} => {X:S --> c(#1:S,c(_+_(a,b),c(#2:S,#3:S)))}
u f(X:S,Y:S) =? Z:S # {X:S --> Q3:S, Y:S --> Q2:S, Z:S --> _+_(g(_+_(Q1:S,Q3:S)),f(g(Q0:S),f(Q3:S,Q1:S)),f(_+_(Q3:S,Q3:S),_+_(Q0:S,b,Q3:S)))} => {X:S --> #1:S, Y:S --> #2:S, Z:S --> _+_(f(_+_(#1:S,#1:S),_+_(#1:S,#3:S,b)),f(g(#3:S),f(#1:S,#4:S)),g(_+_(#1:S,#4:S)))}
u f(X:S,Y:S) =? Z:S # {X:S --> _+_(_+_(g(Q2:S),_+_(Q0:S,Q3:S)),Q2:S,Q4:S), Y:S --> Q3:S, Z:S --> c(f(Q1:S,_+_(Q1:S,Q0:S)),f(g(Q1:S),_+_(Q2:S,Q4:S)))} => {X:S --> _+_(#1:S,#2:S,#3:S,#4:S,g(#1:S)), Y:S --> #2:S, Z:S --> c(f(#5:S,_+_(#3:S,#5:S)),f(g(#5:S),_+_(#1:S,#4:S)))}
u f(X:S,Y:S) =? Z:S # {X:S --> _+_(c(c(Q5:S,Q1:S),g(Q4:S)),f(c(Q5:S,Q3:S),g(Q2:S)),Q0:S), Y:S --> g(Q3:S), Z:S --> _+_(c(g(Q5:S),c(Q5:S,Q3:S)),_+_(g(Q4:S),Q5:S))} => {X:S --> _+_(#1:S,c(c(#2:S,#3:S),g(#4:S)),f(c(#2:S,#5:S),g(#6:S))), Y:S --> g(#5:S), Z:S --> _+_(#2:S,c(c(#2:S,#5:S),g(#2:S)),g(#4:S))}
u X:S =? a # {X:S --> _+_(Q0:S,c(_+_(Q0:S,Q0:S,Q0:S),_+_(Q0:S,Q0:S,Q0:S)),Q0:S)} => {X:S --> _+_(#1:S,#1:S,c(_+_(#1:S,#1:S,#1:S),_+_(#1:S,#1:S,#1:S)))}
u X:S =? Y:S # {X:S --> _+_(g(Q1:S),Q0:S), Y:S --> Q0:S} => {X:S --> _+_(#1:S,g(#2:S)), Y:S --> #1:S}
u f(X:S,Y:S) =? Z:S # {X:S --> Q0:S, Y:S --> g(_+_(Q1:S,_+_(a,Q2:S,Q2:S),b)), Z:S --> c(Q1:S,f(c(Q0:S,Q0:S),a))} => {X:S --> #1:S, Y:S --> g(_+_(#2:S,#2:S,#3:S,a,b)), Z:S --> c(#3:S,f(c(#1:S,#1:S),a))}
u f(X:S,Y:S) =? Z:S # {X:S --> c(Q0:S,Q2:S), Y:S --> f(Q2:S,c(_+_(a,Q3:S),Q1:S)), Z:S --> Q2:S} => {X:S --> c(#1:S,#2:S), Y:S --> f(#1:S,c(#3:S,_+_(#4:S,a))), Z:S --> #1:S}
u X:S =? Y:S # {X:S --> _+_(_+_(Q3:S,g(Q0:S),Q1:S),Q0:S), Y:S --> _+_(Q2:S,_+_(_+_(Q0:S,Q0:S),g(Q3:S),c(Q4:S,Q3:S)))} => {X:S --> _+_(#1:S,#2:S,#3:S,g(#1:S)), Y:S --> _+_(#1:S,#1:S,#4:S,c(#2:S,#5:S),g(#2:S))}
u f(X:S,Y:S) =? Z:S # {X:S --> c(f(_+_(a,Q0:S),c(Q3:S,Q4:S)),b), Y:S --> _+_(f(c(Q5:S,Q3:S),c(Q0:S,Q2:S)),g(Q4:S),Q1:S), Z:S --> g(f(f(a,b),c(Q5:S,Q3:S)))} => {X:S --> c(b,f(_+_(#1:S,a),c(#2:S,#3:S))), Y:S --> _+_(#4:S,f(c(#2:S,#5:S),c(#1:S,#6:S)),g(#3:S)), Z:S --> g(f(f(a,b),c(#2:S,#5:S)))}
u f(X:S,Y:S) =? Z:S # {X:S --> f(_+_(_+_(Q0:S,b,Q0:S),_+_(Q0:S,a,Q0:S),Q0:S),Q0:S), Y:S --> Q0:S, Z:S --> _+_(_+_(b,f(Q0:S,Q0:S)),c(Q0:S,f(Q0:S,Q0:S)),b)} => {X:S --> f(_+_(#1:S,#1:S,#1:S,#1:S,#1:S,a,b),#1:S), Y:S --> #1:S, Z:S --> _+_(b,b,c(#1:S,f(#1:S,#1:S)),f(#1:S,#1:S))}
u X:S =? a # {X:S --> c(_+_(Q1:S,f(Q0:S,Q0:S),g(a)),_+_(_+_(Q0:S,b,Q1:S),Q1:S,g(Q0:S)))} => {X:S --> c(_+_(#1:S,#1:S,#2:S,b,g(#2:S)),_+_(#1:S,f(#2:S,#2:S),g(a)))}
u X:S =? a # {X:S --> _+_(g(Q2:S),Q1:S,g(_+_(b,Q0:S,Q1:S)))} => {X:S --> _+_(#1:S,g(#2:S),g(_+_(#1:S,#3:S,b)))}
u f(X:S,Y:S) =? Z:S # {X:S --> a, Y:S --> g(_+_(_+_(Q3:S,Q3:S,Q2:S),Q1:S,_+_(Q2:S,Q1:S))), Z:S --> c(_+_(Q2:S,_+_(Q2:S,Q1:S,Q1:S)),f(Q0:S,Q3:S))} => {X:S --> a, Y:S --> g(_+_(#1:S,#1:S,#2:S,#2:S,#3:S,#3:S)), Z:S --> c(_+_(#1:S,#1:S,#2:S,#2:S),f(#4:S,#3:S))}
u X:S =? Y:S # {X:S --> c(c(Q0:S,Q3:S),c(_+_(Q3:S,Q2:S,Q1:S),f(Q2:S,b))), Y:S --> Q4:S} => {X:S --> c(c(#1:S,#2:S),c(_+_(#1:S,#3:S,#4:S),f(#3:S,b))), Y:S --> #5:S}
u f(X:S,Y:S) =? Z:S # {X:S --> Q5:S, Y:S --> f(Q0:S,c(c(Q1:S,Q4:S),Q2:S)), Z:S --> _+_(c(c(Q0:S,Q5:S),_+_(Q0:S,Q3:S)),a,Q2:S)} => {X:S --> #1:S, Y:S --> f(#2:S,c(#3:S,c(#4:S,#5:S))), Z:S --> _+_(#3:S,a,c(_+_(#2:S,#6:S),c(#1:S,#2:S)))}
u f(X:S,Y:S) =? Z:S # {X:S --> c(c(c(Q0:S,Q0:S),Q0:S),Q0:S), Y:S --> c(a,_+_(c(Q0:S,a),g(Q0:S))), Z:S --> a} => {X:S --> c(#1:S,c(#1:S,c(#1:S,#1:S))), Y:S --> c(_+_(c(#1:S,a),g(#1:S)),a), Z:S --> a}
u f(X:S,Y:S) =? Z:S # {X:S --> Q1:S, Y:S --> _+_(c(c(Q1:S,Q0:S),g(Q1:S)),f(g(Q1:S),c(Q1:S,a)),c(_+_(Q1:S,a),Q0:S)), Z:S --> _+_(g(Q1:S),g(a))} => {X:S --> #1:S, Y:S --> _+_(c(#2:S,_+_(#1:S,a)),c(c(#1:S,#2:S),g(#1:S)),f(g(#1:S),c(#1:S,a))), Z:S --> _+_(g(#1:S),g(a))}
u f(X:S,Y:S) =? Z:S # {X:S --> f(g(_+_(Q1:S,Q0:S)),c(f(Q2:S,Q1:S),Q1:S)), Y:S --> f(c(Q2:S,c(Q1:S,Q0:S)),Q1:S), Z:S --> Q0:S} => {X:S --> f(g(_+_(#1:S,#2:S)),c(#1:S,f(#3:S,#1:S))), Y:S --> f(c(#3:S,c(#1:S,#2:S)),#1:S), Z:S --> #2:S}
u X:S =? a # {X:S --> f(Q2:S,c(c(Q3:S,Q1:S),_+_(b,Q0:S,Q3:S)))} => {X:S --> f(#1:S,c(_+_(#2:S,#3:S,b),c(#2:S,#4:S)))}
u f(X:S,Y:S) =? Z:S # {X:S --> f(Q1:S,f(_+_(Q2:S,Q3:S),Q0:S)), Y:S --> f(_+_(Q2:S,Q0:S),_+_(Q1:S,_+_(Q2:S,Q3:S,a))), Z:S --> _+_(Q1:S,f(f(Q4:S,Q3:S),g(Q0:S)),f(g(Q0:S),_+_(Q4:S,Q0:S)))} => {X:S --> f(#1:S,f(_+_(#2:S,#3:S),#4:S)), Y:S --> f(_+_(#2:S,#4:S),_+_(#1:S,#2:S,#3:S,a)), Z:S --> _+_(#1:S,f(f(#5:S,#3:S),g(#4:S)),f(g(#4:S),_+_(#4:S,#5:S)))}
u f(X:S,Y:S) =? Z:S # {X:S --> g(_+_(g(Q1:S),f(Q1:S,Q1:S),c(Q0:S,Q1:S))), Y:S --> _+_(Q5:S,_+_(c(Q5:S,Q2:S),g(Q4:S)),g(f(Q1:S,Q3:S))), Z:S --> Q4:S} => {X:S --> g(_+_(c(#1:S,#2:S),f(#1:S,#1:S),g(#1:S))), Y:S --> _+_(#3:S,c(#3:S,#4:S),g(#5:S),g(f(#1:S,#6:S))), Z:S --> #5:S}
u X:S =? a # {X:S --> _+_(g(f(Q0:S,Q0:S)),_+_(g(Q0:S),Q0:S),c(f(Q0:S,Q0:S),_+_(b,b,Q0:S)))} => {X:S --> _+_(#1:S,c(_+_(#1:S,b,b),f(#1:S,#1:S)),g(#1:S),g(f(#1:S,#1:S)))}
u f(X:S,Y:S) =? Z:S # {X:S --> g(_+_(Q1:S,a)), Y:S --> _+_(f(f(b,Q1:S),Q1:S),f(Q0:S,g(Q0:S))), Z:S --> c(g(_+_(Q0:S,Q1:S)),_+_(g(Q0:S),f(Q0:S,Q0:S)))} => {X:S --> g(_+_(#1:S,a)), Y:S --> _+_(f(#2:S,g(#2:S)),f(f(b,#1:S),#1:S)), Z:S --> c(_+_(f(#2:S,#2:S),g(#2:S)),g(_+_(#1:S,#2:S)))}
u X:S =? a # {X:S --> _+_(Q1:S,_+_(_+_(Q0:S,Q0:S),c(Q2:S,Q2:S)))} => {X:S --> _+_(#1:S,#1:S,#2:S,c(#3:S,#3:S))}
u f(X:S,Y:S) =? Z:S # {X:S --> _+_(_+_(c(Q3:S,Q0:S),_+_(Q0:S,Q0:S)),Q2:S,Q1:S), Y:S --> c(g(_+_(Q2:S,a,Q0:S)),Q0:S), Z:S --> c(_+_(_+_(Q0:S,Q1:S,Q3:S),c(Q1:S,Q2:S),f(Q3:S,Q2:S)),c(f(Q2:S,Q0:S),Q2:S))} => {X:S --> _+_(#1:S,#1:S,#2:S,#3:S,c(#1:S,#4:S)), Y:S --> c(#1:S,g(_+_(#1:S,#2:S,a))), Z:S --> c(_+_(#1:S,#3:S,#4:S,c(#2:S,#3:S),f(#4:S,#2:S)),c(#2:S,f(#2:S,#1:S)))}
u f(X:S,Y:S) =? Z:S # {X:S --> _+_(a,Q2:S,_+_(Q4:S,Q4:S,_+_(Q0:S,Q0:S,Q4:S))), Y:S --> Q1:S, Z:S --> c(g(Q3:S),g(c(Q0:S,Q4:S)))} => {X:S --> _+_(#1:S,#1:S,#1:S,#2:S,#2:S,#3:S,a), Y:S --> #4:S, Z:S --> c(g(#5:S),g(c(#1:S,#2:S)))}
u X:S =? Y:S # {X:S --> c(Q5:S,Q0:S), Y:S --> f(_+_(_+_(Q0:S,Q4:S),_+_(Q4:S,Q1:S),g(Q3:S)),g(_+_(Q3:S,Q2:S)))} => {X:S --> c(#1:S,#2:S), Y:S --> f(_+_(#1:S,#3:S,#3:S,#4:S,g(#5:S)),g(_+_(#5:S,#6:S)))}
u X:S =? Y:S # {X:S --> c(Q0:S,_+_(_+_(b,Q0:S),g(b),_+_(Q0:S,Q0:S))), Y:S --> Q0:S} => {X:S --> c(#1:S,_+_(#1:S,#1:S,#1:S,b,g(b))), Y:S --> #1:S}
u X:S =? Y:S # {X:S --> _+_(a,Q0:S,f(Q1:S,Q1:S)), Y:S --> g(Q1:S)} => {X:S --> _+_(#1:S,a,f(#2:S,#2:S)), Y:S --> g(#2:S)}
u f(X:S,Y:S) =? Z:S # {X:S --> _+_(f(_+_(Q0:S,Q2:S),Q1:S),_+_(f(Q0:S,Q1:S),_+_(Q0:S,a),_+_(Q1:S,Q1:S)),c(_+_(b,a,Q2:S),_+_(Q1:S,Q2:S))), Y:S --> g(g(Q2:S)), Z:S --> _+_(c(Q2:S,a),Q0:S)} => {X:S --> _+_(#1:S,#1:S,#2:S,a,c(_+_(#1:S,#3:S),_+_(#3:S,a,b)),f(#2:S,#1:S),f(_+_(#2:S,#3:S),#1:S)), Y:S --> g(g(#3:S)), Z:S --> _+_(#2:S,c(#3:S,a))}
u f(X:S,Y:S) =? Z:S # {X:S --> Q0:S, Y:S --> _+_(_+_(_+_(Q3:S,Q1:S),Q3:S,f(Q2:S,Q3:S)),_+_(Q1:S,f(Q3:S,Q1:S))), Z:S --> _+_(Q2:S,_+_(f(Q1:S,a),_+_(a,Q2:S,Q3:S),f(Q1:S,Q3:S)))} => {X:S --> #1:S, Y:S --> _+_(#2:S,#2:S,#3:S,#3:S,f(#2:S,#3:S),f(#4:S,#2:S)), Z:S --> _+_(#2:S,#4:S,#4:S,a,f(#3:S,#2:S),f(#3:S,a))}
u f(X:S,Y:S) =? Z:S # {X:S --> _+_(g(Q2:S),_+_(_+_(Q0:S,Q4:S),Q2:S),Q1:S), Y:S --> f(Q2:S,Q2:S), Z:S --> _+_(Q1:S,_+_(c(Q4:S,Q4:S),Q2:S),_+_(_+_(Q1:S,Q3:S,Q4:S),_+_(Q4:S,Q3:S,Q1:S)))} => {X:S --> _+_(#1:S,#2:S,#3:S,#4:S,g(#1:S)), Y:S --> f(#1:S,#1:S), Z:S --> _+_(#1:S,#2:S,#2:S,#2:S,#3:S,#3:S,#5:S,#5:S,c(#3:S,#3:S))}
u f(X:S,Y:S) =? Z:S # {X:S --> c(Q5:S,_+_(g(Q0:S),g(a),g(Q3:S))), Y:S --> _+_(_+_(g(Q5:S),_+_(Q4:S,Q0:S),Q1:S),c(f(Q4:S,Q2:S),Q1:S),g(c(Q5:S,Q2:S))), Z:S --> c(g(g(Q5:S)),Q1:S)} => {X:S --> c(#1:S,_+_(g(#2:S),g(#3:S),g(a))), Y:S --> _+_(#2:S,#4:S,#5:S,c(#4:S,f(#5:S,#6:S)),g(#1:S),g(c(#1:S,#6:S))), Z:S --> c(#4:S,g(g(#1:S)))}
u X:S =? Y:S # {X:S --> g(Q0:S), Y:S --> g(Q0:S)} => {X:S --> g(#1:S), Y:S --> g(#1:S)}
u X:S =? Y:S # {X:S --> g(_+_(f(b,a),a)), Y:S --> _+_(Q0:S,Q1:S)} => {X:S --> g(_+_(a,f(b,a))), Y:S --> _+_(#1:S,#2:S)}
u X:S =? Y:S # {X:S --> _+_(_+_(Q2:S,Q0:S,g(Q1:S)),Q1:S), Y:S --> Q1:S} => {X:S --> _+_(#1:S,#2:S,#3:S,g(#1:S)), Y:S --> #1:S}
u f(X:S,Y:S) =? Z:S # {X:S --> c(_+_(g(Q2:S),_+_(Q0:S,Q3:S),Q3:S),_+_(Q1:S,_+_(Q1:S,Q0:S))), Y:S --> c(c(f(Q0:S,b),f(Q2:S,b)),Q0:S), Z:S --> g(Q0:S)} => {X:S --> c(_+_(#1:S,#1:S,#2:S),_+_(#2:S,#3:S,#3:S,g(#4:S))), Y:S --> c(#2:S,c(f(#2:S,b),f(#4:S,b))), Z:S --> g(#2:S)}

sort S . ops a b : -> S . op c : S S -> S [comm] . op f : S S -> S . op _+_ : S S -> S [assoc comm] .
m X:S =? Y:S # {X:S --> f(f(Q1:S,Q2:S),f(Q3:S,Q4:S)), Y:S --> f(f(Q5:S,Q6:S),f(Q7:S,Q1:S))} => read back
m X:S =? Y:S # {X:S --> _+_(Q7:S,Q6:S,Q5:S,Q4:S,Q3:S,Q2:S,Q1:S), Y:S --> f(Q3:S,_+_(Q1:S,Q8:S))} => read back
m X:S =? Y:S # {X:S --> _+_(Q1:S,Q2:S,Q3:S,Q4:S,Q5:S,Q6:S,Q7:S,Q8:S,Q9:S,Q10:S,Q11:S)} => read back
m f(X:S,Y:S) =? Z:S # {X:S --> c(f(Q1:S,Q2:S),f(Q3:S,a)), Y:S --> _+_(Q4:S,Q5:S,Q6:S), Z:S --> f(Q7:S,b)} => read back
m f(f(A:S,B:S),f(C:S,D:S)) =? f(f(E:S,F:S),G:S) # {} => read back
u f(V1:S,f(V2:S,f(V3:S,f(V4:S,f(V5:S,f(V6:S,f(V7:S,f(V8:S,f(V9:S,f(V10:S,f(V11:S,f(V12:S,f(V13:S,f(V14:S,f(V15:S,f(V16:S,f(V17:S,f(V18:S,f(V19:S,V20:S))))))))))))))))))) =? a # {V1:S --> Q4:S, V2:S --> c(Q2:S,Q4:S), V3:S --> a, V4:S --> _+_(Q2:S,b,Q2:S), V5:S --> f(Q1:S,a), V6:S --> Q2:S, V7:S --> c(Q1:S,Q6:S), V8:S --> a, V9:S --> _+_(Q5:S,b,Q6:S), V10:S --> f(Q3:S,a), V11:S --> Q1:S, V12:S --> c(Q5:S,Q1:S), V13:S --> a, V14:S --> _+_(Q4:S,b,Q5:S), V15:S --> f(Q4:S,a), V16:S --> Q3:S, V17:S --> c(Q4:S,Q3:S), V18:S --> a, V19:S --> _+_(Q1:S,b,Q4:S), V20:S --> f(Q6:S,a)} => {V1:S --> #1:S, V2:S --> c(#1:S,#2:S), V3:S --> a, V4:S --> _+_(#2:S,#2:S,b), V5:S --> f(#3:S,a), V6:S --> #2:S, V7:S --> c(#3:S,#4:S), V8:S --> a, V9:S --> _+_(#4:S,#5:S,b), V10:S --> f(#6:S,a), V11:S --> #3:S, V12:S --> c(#3:S,#5:S), V13:S --> a, V14:S --> _+_(#1:S,#5:S,b), V15:S --> f(#1:S,a), V16:S --> #6:S, V17:S --> c(#1:S,#6:S), V18:S --> a, V19:S --> _+_(#1:S,#3:S,b), V20:S --> f(#4:S,a)}
m f(V1:S,f(V2:S,f(V3:S,f(V4:S,f(V5:S,f(V6:S,f(V7:S,f(V8:S,f(V9:S,f(V10:S,f(V11:S,f(V12:S,f(V13:S,f(V14:S,f(V15:S,f(V16:S,f(V17:S,f(V18:S,f(V19:S,V20:S))))))))))))))))))) =? a # {} => read back";

// Each row has what an end is, lines with strokes between, and the text of the answer, where a stroke stands for a line
// feed.
const ANSWERS: &str = "complete 0 | => complete 0|
complete 1 | {} => {}|complete 1|
complete 2 | {Y:S --> #2:S} | {Y:S --> #1:S} => {Y:S --> #1:S}|{Y:S --> #2:S}|complete 2|
complete 2 | b | a | b | a => a|b|complete 2|
complete 3 | aa | b | a => a|aa|b|complete 3|
levels 3 | {X:S --> b} => {X:S --> b}|bound levels 3|
variants 1 | a {} => a {}|bound variants 1|
size 1000 | => bound size 1000|
unifiers 4096 | => bound unifiers 4096|
sorts 1 | a {} => a {}|cause sorts 1|
steps 5 g(a) | => bound steps 5 g(a)|
steps 5 _+_(Y:S,g(X:S),a) | {} => {}|bound steps 5 _+_(#1:S,a,g(#2:S))|
basis _+_ | => bound basis _+_|";

// The module with these statements.
fn module_of(rt: &impl Abort, alloc: Global, statements: &str) -> Result<Module, NoMemory> {
    let mut text = String::new(alloc);
    text.push_str("fmod M is ")?;
    text.push_str(statements)?;
    text.push_str(" endfm")?;
    match read_module(alloc, text.as_bytes()) {
        Ok(module) => Ok(module),
        Err(_) => {
            assert!(rt; false, "at {statements}");
            Err(NoMemory)
        }
    }
}

// What a row gives: the line of bindings, or of a variant.
fn told(alloc: Global, module: &Module, row: &str) -> Result<Vec<u8>, NoMemory> {
    let (letter, texts) = row.split_once(' ').unwrap_or((row, ""));
    let (problem, bindings) = texts.split_once(" # ").unwrap_or((texts, ""));
    let (problem, bindings) = (problem.as_bytes(), bindings.as_bytes());
    if letter == "v" {
        return variant_of_texts(alloc, module, problem, bindings);
    }
    let (line, again) = line_of_texts(alloc, module, problem, bindings)?;
    if again.as_slice() != line.as_slice() {
        return Ok(again);
    }
    if letter == "m" && line.as_slice().starts_with(b"{") {
        let read = Vec::from_slice(alloc, b"read back")?;
        return Ok(read);
    }
    Ok(line)
}

// The line of a row is what the row says.
fn row_is_told(rt: &impl Abort, alloc: Global, module: &Module, row: &str) -> Result<(), NoMemory> {
    let (text, want) = row.split_once(" => ").unwrap_or((row, ""));
    let line = told(alloc, module, text)?;
    assert!(rt; line.as_slice() == want.as_bytes(), "at {text}");
    Ok(())
}

// The same of each row.
fn rows_are_told(
    rt: &impl Abort,
    alloc: Global,
    module: &Module,
    rows: &str,
) -> Result<(), NoMemory> {
    for row in rows.lines() {
        row_is_told(rt, alloc, module, row)?;
    }
    Ok(())
}

// The rows of a block, over the module of its first line.
fn block_is_told(rt: &impl Abort, alloc: Global, block: &str) -> Result<(), NoMemory> {
    let (statements, rows) = block.split_once('\n').unwrap_or((block, ""));
    let module = module_of(rt, alloc, statements)?;
    rows_are_told(rt, alloc, &module, rows)
}

// The same of each block.
fn blocks_are_told(rt: &impl Abort, alloc: Global, blocks: &str) -> Result<(), NoMemory> {
    for block in blocks.split("\n\n") {
        block_is_told(rt, alloc, block)?;
    }
    Ok(())
}

#[test]
fn bindings_have_lines(rt: HostRuntime) -> Result<(), NoMemory> {
    blocks_are_told(&rt, rt.alloc(), LINES)
}

// The answer of a row is what the row says.
fn answer_is_told(
    rt: &impl Abort,
    alloc: Global,
    module: &Module,
    row: &str,
) -> Result<(), NoMemory> {
    let (text, want) = row.split_once(" => ").unwrap_or((row, ""));
    let answer = answer_of(alloc, module, text)?;
    let wanted = want.replace(alloc, "|", "\n")?;
    assert!(rt; answer.as_slice() == wanted.as_bytes(), "at {text}");
    Ok(())
}

// The same of each row, over a module.
fn answers_are_told(
    rt: &impl Abort,
    alloc: Global,
    statements: &str,
    rows: &str,
) -> Result<(), NoMemory> {
    let module = module_of(rt, alloc, statements)?;
    for row in rows.lines() {
        answer_is_told(rt, alloc, &module, row)?;
    }
    Ok(())
}

#[test]
fn answers_have_texts(rt: HostRuntime) -> Result<(), NoMemory> {
    let statements = "sort S . ops a b : -> S . op g : S -> S . op _+_ : S S -> S [assoc comm] .";
    answers_are_told(&rt, rt.alloc(), statements, ANSWERS)
}
