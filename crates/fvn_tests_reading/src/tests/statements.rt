//! Terms, statements and modules, each form at its edges, and the first fault of each text.
use super::rows::{Asked, assert_rows};
use fvn_terms::NoMemory;

// Each line has a text, and the number of tokens of the term with which it begins.
const FORMS: &str = "a => 1
a b => 1
f(a) => 4
f(a) ) => 4
(a) => 3
((a)) (b) => 5
f((a),b) => 8
f(a,b,c) x => 8
X:[A] => 4
X:[A,B] [C] => 6
f(X:[A,B],Y:[C]) => 14
X:[ => no
X:[A => no
X:[A, => no
X:[] => no
X:[A,] => no
X:[A B] => no
X:[(A)] => no
X [A] => 1
: [A] => 1
f:(a) => 4
f:(a)[ => 4
a ( => no
f() => no
f(,a) => no
f(a,) => no
f(a b) => no
f(a => no
f(a)( => 4
( => no
() => no
(a,b) => no
) => no
, => no
[A] => no
. => no
a . => 1
a =? b => 1
f`(a) => 1";

// Each line has the text between `is` and `endfm`, and what is read of it: the statements with the numbers of
// their parts, or the fault.
const BODIES: &str = " => read
sort A . => read, sorts 1
sorts A B -> = sort . => read, sorts 5
sort A . sort A . => read, sorts 1, sorts 1
subsort A < B . => read, subsorts 2
subsorts A B < C D < E . => read, subsorts 3
op a : -> A . => read, op 1 0 -> A 0
op f : A A -> B [assoc comm id: a ctor prec 3] . => read, op 1 2 -> B 5
op f : [A] [A,B] -> [B] . => read, op 1 2 -> [B] 0
op f : A ~> [A,B,C] [ctor] . => read, op 1 1 ~> [A] 1
op f : -> -> . => read, op 1 0 -> -> 0
op f : [->] -> ~> . => read, op 1 1 -> ~> 0
op _,_ : A A -> A [gather (e E) format (d d d)] . => read, op 3 2 -> A 2
op _+ _ _ : -> A . => read, op 3 0 -> A 0
op f [ _ ] : A -> A . => read, op 4 1 -> A 0
op ( _ ) : A -> A [ditto comm] . => read, op 3 1 -> A 2
op f : A A -> A [comm assoc id: id: ] . => read, op 1 2 -> A 3
op f : A A -> A [assoc assoc comm comm ditto] . => read, op 1 2 -> A 5
ops a b : -> A . => read, ops 2 0 -> A 0
ops (_+_) c (f ( g) : -> A . => Statement(1)
ops (_+_) c (f (g)) : A A -> A [assoc comm] . => read, ops 3 2 -> A 2
var X : A . => read, vars 1 A
vars X Y : [A,B] . => read, vars 2 [A]
var : : A . => read, vars 1 A
var X : : . => read, vars 1 :
vars : X : A : A . => read, vars 4 A
op a` : -> A . => read, op 1 0 -> A 0
op f`[a`] : A` -> A` . => read, op 1 1 -> A` 0
op f : [A` ] -> [B` ,A] . => read, op 1 1 -> [B`] 0
op f : A A -> A [assoc comm id: e` ] . => read, op 1 2 -> A 3
ops a` `( _`,_ : A A -> A [assoc comm] . => read, ops 3 2 -> A 2
ops (a` ) b : -> A . => read, ops 2 0 -> A 0
vars X` `Y : [A` ] . => read, vars 2 [A`]
subsort A` < B` . => read, subsorts 2
sort A .\r\tsubsort A < B .\r => read, sorts 1, subsorts 2
sort A`. => Statement(1)
op f : [A`] -> A . => Statement(1)
op f : A A -> A [assoc comm id: e`] . => LeftOut(1, Identity)
ops (a`) b : -> A . => Statement(1)
op . : -> A . => Statement(1)
. => Statement(1)
sort A => Statement(1)
sort A . . => Statement(2)
sort A . op => Statement(2)
sort . => Statement(1)
sort A:B . => Statement(1)
sort A , B . => Statement(1)
subsort A . => Statement(1)
subsort A < . => Statement(1)
subsort < A . => Statement(1)
subsort A < < B . => Statement(1)
op : -> A . => Statement(1)
op f : A A . => Statement(1)
op f A . => LeftOut(1, Name)
op f : A -> . => Statement(1)
op f : A -> A A . => Statement(1)
op f : A -> A [] . => Statement(1)
op f : A -> A [ctor . => Statement(1)
op f : A -> A [prec] . => Statement(1)
op f : A -> A [gather ()] . => Statement(1)
op f : A -> A [gather e] . => Statement(1)
op f : A -> A [ctor] ctor . => Statement(1)
op f : [] -> A . => Statement(1)
op f : [A,] -> A . => Statement(1)
op f : [A B] -> A . => Statement(1)
ops : -> A . => Statement(1)
ops () : -> A . => Statement(1)
ops a -> A . => Statement(1)
ops (a : b) : -> A . => Statement(1)
var : A . => Statement(1)
var X A . => Statement(1)
var X : A B . => Statement(1)
vars X , Y : A . => Statement(1)
foo . => Statement(1)
( . => Statement(1)
protecting NAT . => LeftOut(1, Import)
sort A . pr NAT . => LeftOut(2, Import)
inc . => LeftOut(1, Import)
including X . => LeftOut(1, Import)
ex X . => LeftOut(1, Import)
extending X . => LeftOut(1, Import)
mb a : A . => LeftOut(1, Membership)
cmb . => LeftOut(1, Membership)
ceq a = b if c . => LeftOut(1, Condition)
cq . => LeftOut(1, Condition)
rl a => b . => LeftOut(1, Rule)
crl . => LeftOut(1, Rule)
op f g : -> A . => LeftOut(1, Name)
op f g : -> A [memo] . => LeftOut(1, Name)
ops a (f g) : -> A . => LeftOut(1, Name)
op f : A A -> A [assoc] . => LeftOut(1, Assoc)
op f : A A -> A [assoc ditto] . => read, op 1 2 -> A 2
op f : A A -> A [assoc memo] . => LeftOut(1, Assoc)
op f : A A -> A [assoc memo comm] . => LeftOut(1, Attribute)
op f : A A -> A [assoc ( comm] . => Statement(1)
op f : A A -> A [assoc] A . => LeftOut(1, Assoc)
op f : A A -> A [id: e] . => LeftOut(1, Identity)
op f : A A -> A [comm id: e] . => LeftOut(1, Identity)
op f : A A -> A [ditto id: e] . => LeftOut(1, Identity)
op f : A A -> A [assoc comm left id: e] . => LeftOut(1, Identity)
op f : A A -> A [assoc comm right id: e] . => LeftOut(1, Identity)
op f : A A -> A [assoc comm id: ] . => LeftOut(1, Identity)
op f : A A -> A [assoc comm id: e (] . => LeftOut(1, Identity)
op f : A A -> A [assoc comm id: (e)] . => LeftOut(1, Identity)
op f : A A -> A [assoc comm id: s 0] . => LeftOut(1, Identity)
op f : A A -> A [assoc comm id: s e ctor] . => LeftOut(1, Identity)
op f : A A -> A [assoc comm id: s memo] . => LeftOut(1, Attribute)
op f : A A -> A [assoc comm id: s left] . => LeftOut(1, Attribute)
op f : A A -> A [assoc comm id: s prec 3] . => read, op 1 2 -> A 4
op f : A A -> A [assoc comm id: prec prec 3] . => read, op 1 2 -> A 4
op f : A A -> A [assoc comm prec 3 id: s 0] . => LeftOut(1, Identity)
ops f g : A A -> A [comm assoc id: s 0 memo] . => LeftOut(1, Identity)
op f : A A -> A [left] . => LeftOut(1, Attribute)
op f : A A -> A [memo] . => LeftOut(1, Attribute)
op f : A A -> A [iter ctor] . => LeftOut(1, Attribute)
op f : A A -> A [ctor memo assoc] . => LeftOut(1, Attribute)
op f : A A -> A [prec 3 strat (1 0)] . => LeftOut(1, Attribute)
op f : A [memo] . => Statement(1)
op f : A -> A [prec ( memo] . => Statement(1)
sort A . foo . pr NAT . => Statement(2)";

// Each line has a statement that begins with `eq`, in a module alone, and what is read of it: the label, the numbers
// of tokens of the sides, and the attributes; or the fault.
const EQUATIONS: &str = "eq a = b [variant] . => read, eq 1 = 1 [variant]
eq [l] : a = b [variant] . => read, eq [l] : 1 = 1 [variant]
eq[l]: a = b[variant]. => read, eq [l] : 1 = 1 [variant]
eq [eq] : a = b [label eq variant] . => read, eq [eq] : 1 = 1 [label eq variant]
eq [:] : a = b [variant] . => read, eq [:] : 1 = 1 [variant]
eq a = b [label x variant] . => read, eq 1 = 1 [label x variant]
eq a = b [variant label x] . => read, eq 1 = 1 [variant label x]
eq a = b [variant variant] . => read, eq 1 = 1 [variant variant]
eq a = b [label x label y variant] . => read, eq 1 = 1 [label x label y variant]
eq a = b [label label variant] . => read, eq 1 = 1 [label label variant]
eq a = b [label variant variant] . => read, eq 1 = 1 [label variant variant]
eq [l] : f(X,a) = (X:[A,B]) [label m variant variant] . => read, eq [l] : 6 = 8 [label m variant variant]
eq _*_(X,X,Z) = Z [variant] . => read, eq 8 = 1 [variant]
eq ((f(a))) = (b) [variant] . => read, eq 8 = 3 [variant]
eq = = = [variant] . => read, eq 1 = 1 [variant]
eq =(a) = b [variant] . => read, eq 4 = 1 [variant]
eq (=) = f(=,=) [variant] . => read, eq 3 = 6 [variant]
eq variant = label [variant] . => read, eq 1 = 1 [variant]
eq a=b = c [variant] . => read, eq 1 = 1 [variant]
eq X:[A,B] = X:[A] [variant] . => read, eq 6 = 4 [variant]
eq a = X:[variant] [variant] . => read, eq 1 = 4 [variant]
eq f(X:[A]) = X:[A] [variant] . => read, eq 7 = 4 [variant]
eq X:S = X: : [variant] . => Statement(1)
eq X: = b [variant] . => read, eq 1 = 1 [variant]
eq : = a [variant] . => read, eq 1 = 1 [variant]
eq a = : [variant] . => read, eq 1 = 1 [variant]
eq a = X:S [variant] . => read, eq 1 = 1 [variant]
eq f`(a`,b`) = a` [variant] . => read, eq 1 = 1 [variant]
eq f` (a` ,b` ) = X:[A` ] [label l` variant] . => read, eq 6 = 4 [label l` variant]
eq\r[l` ]\r: a\r=\rb`\r[variant]\r.\r => read, eq [l`] : 1 = 1 [variant]
eq f(a`) = b [variant] . => Statement(1)
eq [l`] : a = b [variant] . => Statement(1)
eq a = b . => LeftOut(1, Equation)
eq [l] : a = b . => LeftOut(1, Equation)
eq a = X: . => LeftOut(1, Equation)
eq a = X: [variant] . => LeftOut(1, Equation)
eq a = X:[A,B] . => LeftOut(1, Equation)
eq a = b [label x] . => LeftOut(1, Equation)
eq a = b [label variant] . => LeftOut(1, Equation)
eq a = b [owise] . => LeftOut(1, Attribute)
eq a = b [nonexec variant] . => LeftOut(1, Attribute)
eq a = b [variant owise] . => LeftOut(1, Attribute)
eq a = b [variant metadata m] . => LeftOut(1, Attribute)
eq a = b [label x comm] . => LeftOut(1, Attribute)
eq a = b [variant print x . => LeftOut(1, Attribute)
eq a = b [owise (] . => LeftOut(1, Attribute)
eq a = b [assoc] c . => LeftOut(1, Attribute)
eq a = b [variant ( owise] . => Statement(1)
eq a = b [variant label] . => Statement(1)
eq a = b [label] . => LeftOut(1, Equation)
eq a = b [label (x) variant] . => Statement(1)
eq a = b [] . => LeftOut(1, Equation)
eq a = b [ . => LeftOut(1, Equation)
eq a = b [variant . => Statement(1)
eq a = b variant . => Statement(1)
eq a = b [variant] c . => Statement(1)
eq a = b c . => LeftOut(1, Equation)
eq a = b [variant] [label x] . => Statement(1)
eq a = b = c [variant] . => Statement(1)
eq a = b if c = d [variant] . => Statement(1)
eq a b . => LeftOut(1, Equation)
eq a b [owise] . => LeftOut(1, Equation)
eq a = [owise] . => LeftOut(1, Equation)
eq (a = b . => LeftOut(1, Equation)
eq [l m] : a = b . => LeftOut(1, Equation)
eq a = f(b c) [label x] . => LeftOut(1, Equation)
eq variant b . => Statement(1)
eq [variant] a = b . => Statement(1)
eq a b [variant] . => Statement(1)
eq a => b [variant] . => Statement(1)
eq a=b [variant] . => Statement(1)
eq . => LeftOut(1, Equation)
eq a . => LeftOut(1, Equation)
eq a = . => LeftOut(1, Equation)
eq a = [variant] . => Statement(1)
eq = b [variant] . => Statement(1)
eq [l] a = b [variant] . => Statement(1)
eq [l m] : a = b [variant] . => Statement(1)
eq [] : a = b [variant] . => Statement(1)
eq [l] : [m] : a = b [variant] . => Statement(1)
eq [l] :a = b [variant] . => Statement(1)
eq l : a = b [variant] . => Statement(1)
eq f(a = b [variant] . => Statement(1)
eq f(a)) = b [variant] . => Statement(1)
eq f() = b [variant] . => Statement(1)
eq f(a,) = b [variant] . => Statement(1)
eq (a,b) = c [variant] . => Statement(1)
eq a = f(b c) [variant] . => Statement(1)
eq X:[] = b [variant] . => Statement(1)
eq X:[A B] = b [variant] . => Statement(1)
eq a = b [variant] => Statement(1)
Eq a = b [variant] . => Statement(1)
eq a = b [variant] . eq c = d . eq e => LeftOut(2, Equation)";

// Each line has a whole text, and what is read of it.
const TEXTS: &str = "fmod M is endfm => read
fmod fmod is endfm => read
fmod is is endfm => read
 => Header
fmod M is => Header
fmod M endfm => Header
fmod is endfm => Header
fmod endfm is endfm => Header
fmod ( is endfm => Header
fmod . is endfm => Header
mod M is endfm => Header
fmod M is endfm endfm => Header
fmod M is sort A . endfm . => Header
fmod M is sort endfm . endfm => Header
fmod M is sort A endfm => Statement(1)
fmod M is sort A . --- sort . => Header
fmod M is ---( endfm => BlockComment(10)
fmod M` is endfm => read
fmod M`{X`} is\rsort A .\rendfm\r => read, sorts 1
fmod M is --- a comment .\r||sort A .\r||endfm => read, sorts 1
fmod M is --- a comment .\rsort A .\rendfm => Header
fmod M is\r||  sorts A` B .\r||  subsort A` < B .\r||  op f`( : A` -> B [ctor] .\r||  vars X` Y : B .\r||  eq [l` ] : f`( (X` ) = X` [variant] .\r||endfm\r|| => read, sorts 2, subsorts 2, op 1 1 -> B 1, vars 2 B, eq [l`] : 4 = 1 [variant]
fmod M is sorts|100000  A| . op f : [A|100000 ,A|] -> A . eq |100000 f(|a|100000 )| = f(a|100000 ,a|) [variant|100000  label x|] . ops |100000 (|: -> A . endfm => Statement(4)";

#[test]
fn forms_are_read(rt: HostRuntime) -> Result<(), NoMemory> {
    let alloc = rt.alloc();
    assert_rows(&rt, alloc, Asked::Term, FORMS)?;
    assert_rows(&rt, alloc, Asked::Body, BODIES)?;
    assert_rows(&rt, alloc, Asked::Body, EQUATIONS)?;
    assert_rows(&rt, alloc, Asked::Form, TEXTS)
}
