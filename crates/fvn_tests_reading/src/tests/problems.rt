//! Problems, term texts and binding texts, each rule with its edges, each fault, and pairs of faults in one text.
ghost use Rattle.fvn_problems.specs.Scopes.{AreNamesOf};

use super::reading::module_text;
use super::rows::{assert_shown, expanded};
use super::writing::{push_between, push_pair, push_term, push_variable};
use fvn_module::{Module, read_module};
use fvn_problems::{Bindings, Problem, Query, read_bindings, read_problem, read_term};
use fvn_syntax::{Names, Texts};
use fvn_terms::{NoMemory, Var};
use std::alloc::Global;
use std::process::Abort;

// Each block has the statements of a module, and lines of texts with what they give: `p` a problem, its pairs and then
// its variables; `t` a term text, its term and then its variables; `b` a problem and a binding text for it. Variables
// are shown with their sorts, a kind as a star and its number, and variables that are not the problem's by their
// numbers.
const TEXTS: &str =
    "sort A . sort B . sort C . subsort A < B . op a : -> A . op b : -> B . op c : -> C . op e : -> A . op f : A -> A . op g : B C -> C . op + : B B -> B [assoc comm] . op + : A A -> A [assoc comm] . op * : B B -> B [assoc comm id: e] . var X : A . var Y : B . var Z : C .
p X =? a => X:A = a | X:A
p X =? a . => X:A = a | X:A
p X =? Y /\\ f(X) =? X:A => X:A = Y:B & f(X:A) = X:A | X:A Y:B
p X =? Y /\\ f(X) =? X:A . => X:A = Y:B & f(X:A) = X:A | X:A Y:B
p +(X,Y,X) =? b => +(X:A,+(Y:B,X:A)) = b | X:A Y:B
p b =? +(Y,X) /\\ X =? Y => b = +(Y:B,X:A) & X:A = Y:B | Y:B X:A
p (X) =? ((a)) => X:A = a | X:A
p X =? X:B => X:A = X:B | X:A X:B
p P:[A] =? P:[B,A] => P:*3 = P:*3 | P:*3
p P:[A] =? P:A => P:*3 = P:A | P:*3 P:A
p Q:C =? g(Y,Q:C) => Q:C = g(Y:B,Q:C) | Q:C Y:B
p *(e,X) =? X => *(e,X:A) = X:A | X:A
p  => Text
p . => Text
p X => Text
p X . => Text
p X =? => Text
p =? a => Text
p X =? a a => Text
p X =? a =? a => Text
p X =? a /\\ => Text
p /\\ X =? a => Text
p X =? a /\\ a => Text
p X =? a . . => Text
p X =? a , => Text
p X = a => Text
p X =? f(a => Text
p X =? f(a)) => Text
p X =? () => Text
p { X =? a } => Text
p X =? a ; => Text
p =? =? =? => UnknownName
p X =? q => UnknownName
p q =? X => UnknownName
p X =? f => UnknownName
p X =? P:[A,C] => UnknownName
p #1:Q =? a => UnknownName
p X =? f(a,a) => Arity
p X =? a(a) => Arity
p X =? +(a) => Arity
p X =? f(c) => WrongKind
p a =? c => WrongKind
p X =? a /\\ b =? c => WrongKind
p #1:A =? a => ReservedName
p X =? #x:C => ReservedName
p #1:[A] =? a => ReservedName
p #1:[A,C] =? a => ReservedName
p #1:[q] =? a => ReservedName
p X =? ---( => Lex(BlockComment(5))
p q =? f(a,a) => UnknownName
p f(a,a) =? q => Arity
p f(c) =? q => WrongKind
p q =? #1:A => UnknownName
p #1:A =? q => ReservedName
p f(q,a) =? X => UnknownName
p f(c,c) =? X => Arity
p g(c,q) =? X => UnknownName
p f(#1:A,q) =? X => ReservedName
p f(q,#1:A) =? X => UnknownName
p a =? c /\\ q =? X => WrongKind
p a =? b /\\ c =? a /\\ q =? a => WrongKind
p a =? c /\\ #1:A =? X => WrongKind
p q =? c /\\ X => Text
p #1:A =? c /\\ X =? => Text
p #1:A =? ***( => Lex(BlockComment(8))
p X =? ***( =? => Lex(BlockComment(5))
p q é => Lex(BadByte(2))
p X =? a --- b|| . => X:A = a | X:A
p \r||X =?\r||  a\r|| => X:A = a | X:A
p X =? Y /\\\r||  f(X) =? X:A .\r|| => X:A = Y:B & f(X:A) = X:A | X:A Y:B
p X =? a --- b\r|| . => X:A = a | X:A
p X =? --- b\r a => Text
p X\r=?\r\ra\r.\r => X:A = a | X:A
p X =? a`\r|| => UnknownName
t \0 => Lex(BadByte(0))
t a *** é => a |
t a => a |
t a . => a |
t (a) => a |
t f(X) => f(X:A) | X:A
t +(Y,X,Y) . => +(Y:B,+(X:A,Y:B)) | Y:B X:A
t \r||f(X)\r|| .\r|| => f(X:A) | X:A
t a =? b => Text
t a . . => Text
t . => Text
t a a => Text
t f( => Text
t q => UnknownName
t f(b,b) => Arity
t g(a,a) => WrongKind
t #1:A => ReservedName
t f(c) . . => Text
t g(q,f(c)) => UnknownName
t a ---( => Lex(BlockComment(2))
b X =? Y # {} =>
b X =? Y # { } =>
b X =? Y # {X --> a} => X:A := a
b X =? Y # {X:A --> a} => X:A := a
b X =? Y # { X --> a , Y --> b } => X:A := a; Y:B := b
b X =? Y # {Y --> b, X --> f(a)} => Y:B := b; X:A := f(a)
b X =? Y # {Y --> a} => Y:B := a
b X =? Y # {X --> *(a,e)} => X:A := *(a,e)
b X =? Y # {X --> *(e,a,e)} => X:A := *(e,*(a,e))
b X =? Y # {X --> *(e,e)} => X:A := *(e,e)
b X =? Y # {X --> +(a,a)} => X:A := +(a,a)
b P:[A] =? X # {P:[A] --> f(b)} => P:*3 := f(b)
b P:[A] =? X # {P:[B] --> a} => P:*3 := a
b X =? Y # {Y --> +(X,f(X))} => Y:B := +(X:A,f(X:A))
b X =? Y # {Y --> +(#1:A,Q:B)} => Y:B := +(2:A,3:B)
b X =? Y # {Y --> +(#1:A,#1:B), X --> #1:A} => Y:B := +(2:A,2:B); X:A := 2:A
b X =? X:B # {X --> a, X:B --> b} => X:A := a; X:B := b
b a =? b # {} =>
b X =?\rY # {\r||  X --> a,\r||  Y --> --- c\r|| b\r||}\r|| => X:A := a; Y:B := b
b X =? Y #  => Text
b X =? Y # {} . => Text
b X =? Y # {X --> a} . => Text
b X =? Y # {X --> a => Text
b X =? Y # X --> a => Text
b X =? Y # {,} => Text
b X =? Y # {X --> a,} => Text
b X =? Y # {X --> a Y --> b} => Text
b X =? Y # {X -> a} => Text
b X =? Y # {f(X) --> a} => Text
b X =? Y # {(X) --> a} => Text
b X =? Y # {X --> } => Text
b X =? Y # {--> a} => Text
b X =? Y # {} {} => Text
b X =? Y # {}} => Text
b X =? Y # {X --> a, X --> a} => Text
b X =? Y # {X --> a, X:A --> b} => Text
b X =? Y # {X --> q, Y --> b, X:A --> b} => Text
b X =? Y # {Q:B --> a, Q:B --> a} => Text
b P:[A] =? X # {P:[B,A] --> a, P:[A] --> b} => Text
b X =? Y # {q --> a, q --> b} => UnknownName
b X =? Y # {a --> a, a --> b} => UnknownName
b X =? Y # {Z --> c} => UnknownName
b X =? Y # {X:B --> a} => UnknownName
b X =? Y # {X:[A] --> a} => UnknownName
b X =? Y # {P:[A,C] --> a} => UnknownName
b X =? Y # {f --> a} => UnknownName
b X =? Y # {#1:A --> a} => UnknownName
b X =? Y # {X --> q} => UnknownName
b X =? Y # {X --> f(a,a)} => Arity
b X =? Y # {X --> c} => WrongKind
b X =? Y # {X --> f(c)} => WrongKind
b X =? Y # {X --> b} => WrongSort
b X =? Y # {X --> *(a,a)} => WrongSort
b X =? Y # {X --> +(a,b)} => WrongSort
b X =? Y # {Y --> f(b)} => WrongSort
b X =? Y # {X --> Y} => WrongSort
b X =? Y # {X --> f(c), q --> a} => WrongKind
b X =? Y # {X --> b, Y --> q} => WrongSort
b X =? Y # {X --> c, Y --> b} => WrongKind
b X =? Y # {X --> c, Y --> q} => WrongKind
b X =? Y # {q --> f(a,a)} => UnknownName
b X =? Y # {Y --> f(a,a), X --> b} => Arity
b X =? Y # {X --> a, Y --> c, q --> a} => WrongKind
b X =? Y # {X --> b, X --> a} => Text
b X =? Y # {X --> ***( => Lex(BlockComment(7))
b X =? Y # {X --> é => Lex(BadByte(7))
p X =? |398 f(|a|398 )|  => long
p X =? |398 f(|a|398 )| .  => long
p X =? |399 f(|a|399 )|  => TooLarge
p X =? |197 f(|a|197 )| /\\ X =? f(a)  => long
p X =? a /\\ X =? |396 f(|a|396 )|  => long
p X =? a /\\ X =? |397 f(|a|397 )|  => TooLarge
p X =? |395 f(|+(a,a)|395 )|  => long
p X =? |396 f(|+(a,a)|396 )|  => long
p X =? |397 f(|+(a,a)|397 )|  => TooLarge
p X =? |20000 f(|a|20000 )|  => TooLarge
p X =? |20000 f(|q|20000 )|  => UnknownName
p X =? |20000 f(|c|20000 )|  => WrongKind
p X =? |20000 f(|a|20000 )| /\\ q =? X => UnknownName
p X =? |20000 f(|a|20000 )| /\\ a =? c => WrongKind
p X =? |20000 f(|a|20000 )| /\\  => Text
t |399 f(|a|399 )|  => long
t |400 f(|a|400 )|  => TooLarge
t |20000 f(|a|20000 )| .  => TooLarge
t |20000 f(|q|20000 )|  => UnknownName
b X =? Y # {X --> |999 f(|a|999 )|}  => long
b X =? Y # {X --> |1000 f(|a|1000 )|}  => TooLarge
b X =? Y # {X --> |999 f(|a|999 )|, Y --> f(a)}  => long
b X =? Y # {X --> |1000 f(|a|1000 )|, Y --> q}  => UnknownName
b X =? Y # {X --> |1000 f(|a|1000 )|, Y --> c}  => WrongKind
b X =? Y # {X --> |1000 f(|a|1000 )|, Y --> f(b)}  => WrongSort
b X =? Y # {X --> |20000 f(|a|20000 )|}  => TooLarge
b X =? Y # {X --> |20000 f(|*(e,a)|20000 )|}  => TooLarge
b X =? Y # {X --> |20000 f(|b|20000 )|}  => WrongSort
b X =? Y # {X --> |20000 f(|*(a,a)|20000 )|}  => WrongSort
b X =? Y # {X --> |20000 f(|a|20000 )|, X:A --> a}  => Text

sort S . op a : -> S . op b : -> S . op g : S -> S . op c : S S -> S [comm] . op _+_ : S S -> S [assoc comm] . var X : S . var Y : S . var Z : S . var U : S . var V : S .
p X =? => Text
p X =? q => UnknownName
p X =? g(X,X) => Arity
p #1:S =? a => ReservedName
p _+_(a,_+_(b,X)) =? _+_(X,a,b) => _+_(a,_+_(b,X:S)) = _+_(X:S,_+_(a,b)) | X:S
b X =? a # {X:S --> a, X:S --> b} => Text
b X =? a # {Y:S --> a} => UnknownName
b X =? a # {} =>
b _+_(X,a) =? b # {X:S --> b} => X:S := b

sort Msg . sort Key . op a : -> Msg . op k : -> Key . op enc : Msg Key -> Msg . op dec : Msg Key -> Msg . var X : Msg . var M : Msg . var Y : Key . var K : Key .
p a =? k => WrongKind
b dec(X,k) =? a # {X:Msg --> enc(a,k)} => X:Msg := enc(a,k)

sort Elt . sort Set . subsort Elt < Set . op a : -> Elt . op b : -> Elt . op mt : -> Set . op _;_ : Set Set -> Set [assoc comm id: mt] . var X : Set . var Y : Set .
b E:Elt =? a # {E:Elt --> _;_(a,b)} => WrongSort
b E:Elt =? a # {E:Elt --> _;_(a,mt)} => E:Elt := _;_(a,mt)
b _;_(X,mt) =? X # {} =>

sort S` . sort T`{S`} . subsort S` < T`{S`} . op a` : -> S` . op `( : -> T`{S`} . op f`,g : S` T`{S`} -> S` . var X` : S` . var `Y : T`{S`} .
p X` =? a` => X`:S` = a` | X`:S`
p f`,g(X` ,`() =? a` => f`,g(X`:S`,`() = a` | X`:S`
p f`,g(a` ,f`,g(X` ,`Y)) =? X`:S` . => f`,g(a`,f`,g(X`:S`,`Y:T`{S`})) = X`:S` | X`:S` `Y:T`{S`}
p (X` ) =? ((a` )) => X`:S` = a` | X`:S`
p Z`:T`{S`} =? `( => Z`:T`{S`} = `( | Z`:T`{S`}
p Z`:[S` ] =? Z`:[T`{S`}] => Z`:*2 = Z`:*2 | Z`:*2
p f`,g(X`,`() =? a` => UnknownName
p f`,g`(X` ,`() =? a` => Text
p (X`) =? a` => Text
p Z`:[S`] =? a` => Text
p X` =? a`\r => X`:S` = a` | X`:S`
p a` =? f`,g => UnknownName
p `# =? a` => UnknownName
p #`:S` =? a` => ReservedName
t f`,g(X` ,`Y)\r|| => f`,g(X`:S`,`Y:T`{S`}) | X`:S` `Y:T`{S`}
b X` =? `Y # {X` --> a` , `Y --> `(} => X`:S` := a`; `Y:T`{S`} := `(
b X` =? `Y # {\r||X` -->\r||f`,g(a` ,`()\r||} => X`:S` := f`,g(a`,`()
b X` =? `Y # {X` --> a`, `Y --> `(} => Text
b X` =? `Y # {X` --> a`} => Text
b X` =? `Y # {X` --> `(} => WrongSort

sorts A B C . subsort A < B . op a : -> A . op c : -> C . op f : A -> B . op g : A C -> C . op + : B B -> B [assoc comm] . op X : A -> A . op Y : -> A . op * : C C -> C [assoc comm id: c] . op h : B A -> B [comm] . var X : A . var Z : C . var #v : A . var W: : B .
t a => a |
t c => c |
t f(a) => f(a) |
t f((a)) => f(a) |
t ((f(a))) => f(a) |
t X => X:A | X:A
t X:A => X:A | X:A
t X:B => X:B | X:B
t X:C => X:C | X:C
t Z => Z:C | Z:C
t f(X) => f(X:A) | X:A
t g(X,Z) => g(X:A,Z:C) | X:A Z:C
t g(X,X:C) => g(X:A,X:C) | X:A X:C
t +(X,Q:B) => +(X:A,Q:B) | X:A Q:B
t +(X,Q:B,X) => +(X:A,+(Q:B,X:A)) | X:A Q:B
t +(a,X,a,Q:A) => +(a,+(X:A,+(a,Q:A))) | X:A Q:A
t *(c,c) => *(c,c) |
t +(a) => Arity
t *(Z) => Arity
t h(X,a) => h(X:A,a) | X:A
t h(X,a,a) => Arity
t h(X) => Arity
t a(a) => Arity
t a(q) => UnknownName
t f(a,a) => Arity
t f(a,q) => UnknownName
t f(q,a) => UnknownName
t q(a) => UnknownName
t q => UnknownName
t f => UnknownName
t f(c) => WrongKind
t g(a,a) => WrongKind
t g(c,c) => WrongKind
t +(a,c) => WrongKind
t +(c,a) => WrongKind
t +(a,a,c) => WrongKind
t *(a,c) => WrongKind
t f(c,c) => Arity
t f(f(c)) => WrongKind
t g(f(c),q) => WrongKind
t g(q,f(c)) => UnknownName
t Y => Y |
t Y:C => Y:C | Y:C
t X(a) => X(a) |
t X(X) => X(X:A) | X:A
t a:A => a:A | a:A
t P:Q:A => P:Q:A | P:Q:A
t P:A:Q => UnknownName
t :A => UnknownName
t A => UnknownName
t P: => UnknownName
t W: => W::B | W::B
t W::A => W::A | W::A
t P:[A] => P:*3 | P:*3
t P:[A,B] => P:*3 | P:*3
t P:[B,A,B] => P:*3 | P:*3
t P:[C] => P:*4 | P:*4
t P:[A,C] => UnknownName
t P:[C,A] => UnknownName
t P:[q] => UnknownName
t P:[A,q] => UnknownName
t W:[B] => W:*3 | W:*3
t X:[A] => X:*3 | X:*3
t ::[A] => ::*3 | ::*3
t f(P:[A]) => f(P:*3) | P:*3
t +(P:[A],P:A,P:[B]) => +(P:*3,+(P:A,P:*3)) | P:*3 P:A
t g(X,P:[C]) => g(X:A,P:*4) | X:A P:*4
t #v => ReservedName
t #1:A => ReservedName
t #1:Q => UnknownName
t #1 => UnknownName
t #1:[A] => ReservedName
t #1:[q] => ReservedName
t #1:[A,C] => ReservedName
t #(a) => UnknownName
t f(#1:A,q) => ReservedName
t f(q,#1:A) => UnknownName
t P#:A => P#:A | P#:A
b X =? X # {X --> #v} => X:A := 1:A
b X =? X # {X --> #1:A} => X:A := 1:A
b P:[A] =? P:[A] # {P:[A] --> #1:[A]} => P:*3 := 1:*3
b X =? X # {X --> #1:[q]} => UnknownName
t |1000 (|a|1000 )| => a |
t |399 X(|a|399 )| => long
t |400 X(|a|400 )| => TooLarge
t |100000 (||100000 X(|a|100000 )||100000 )| => TooLarge
t |395 X(|+(a,a,a)|395 )| => long
t |396 X(|+(a,a,a)|396 )| => TooLarge
t |395 X(|+(a,+(a,a))|395 )| => long
t |396 X(|+(a,+(a,a))|396 )| => TooLarge
t |396 X(|h(a,f(X))|396 )| => long
t |397 X(|h(a,f(X))|397 )| => TooLarge
t |399 X(|P:[A,B]|399 )| => long
t |400 X(|P:[A,B]|400 )| => TooLarge
t |100000 X(|q|100000 )| => UnknownName";

// The variables, one after another.
fn push_variables(
    out: &mut String,
    alloc: Global,
    names: &Names,
    texts: &Texts,
    vars: &[Var],
) -> Result<(), NoMemory> {
    out.push_str(" |")?;
    for x in vars {
        out.push(' ')?;
        push_variable(out, alloc, names, texts, *x)?;
    }
    Ok(())
}

// The pairs of a problem, and its variables.
fn shown_problem(alloc: Global, names: &Names, problem: &Problem) -> Result<String, NoMemory> {
    let mut out = String::new(alloc);
    let texts = &problem.names.texts;
    for (left, right) in problem.pairs.as_slice() {
        push_between(&mut out, " & ")?;
        push_pair(&mut out, alloc, names, texts, left, right)?;
    }
    push_variables(&mut out, alloc, names, texts, problem.vars.as_slice())?;
    Ok(out)
}

// The term, and its variables.
fn shown_query(alloc: Global, names: &Names, query: &Query) -> Result<String, NoMemory> {
    let mut out = String::new(alloc);
    let texts = &query.names.texts;
    push_term(&mut out, alloc, names, texts, &query.term)?;
    push_variables(&mut out, alloc, names, texts, query.vars.as_slice())?;
    Ok(out)
}

// Each variable that is bound, with its term.
fn shown_bindings(
    alloc: Global,
    names: &Names,
    texts: &Texts,
    bindings: &Bindings,
) -> Result<String, NoMemory> {
    let mut out = String::new(alloc);
    for (x, t) in bindings.subst.pairs.as_slice() {
        push_between(&mut out, "; ")?;
        push_variable(&mut out, alloc, names, texts, *x)?;
        out.push_str(" := ")?;
        push_term(&mut out, alloc, names, texts, t)?;
    }
    Ok(out)
}

// What the text asks as a problem, or its fault.
fn told_problem(alloc: Global, module: &Module, text: &[u8]) -> Result<String, NoMemory>
    requires { AreNamesOf module.now.signature module.now.names }
{
    match read_problem(alloc, module.signature(), module.names(), text) {
        Ok(problem) => shown_problem(alloc, module.names(), &problem),
        Err(fault) => Ok(format!(in alloc; "{fault:?}")?),
    }
}

// What the text asks as a term, or its fault.
fn told_query(alloc: Global, module: &Module, text: &[u8]) -> Result<String, NoMemory>
    requires { AreNamesOf module.now.signature module.now.names }
{
    match read_term(alloc, module.signature(), module.names(), text) {
        Ok(query) => shown_query(alloc, module.names(), &query),
        Err(fault) => Ok(format!(in alloc; "{fault:?}")?),
    }
}

// What a text binds in a problem.
fn told_in(
    alloc: Global,
    module: &Module,
    problem: &Problem,
    text: &[u8],
) -> Result<String, NoMemory>
    requires { AreNamesOf module.now.signature module.now.names }
{
    match read_bindings(alloc, module.signature(), module.names(), problem, text) {
        Ok(bindings) => shown_bindings(alloc, module.names(), &problem.names.texts, &bindings),
        Err(fault) => Ok(format!(in alloc; "{fault:?}")?),
    }
}

// What the text binds in the problem of another text, or the first fault of the two.
fn told_bindings(
    alloc: Global,
    module: &Module,
    problem: &[u8],
    text: &[u8],
) -> Result<String, NoMemory>
    requires { AreNamesOf module.now.signature module.now.names }
{
    match read_problem(alloc, module.signature(), module.names(), problem) {
        Ok(problem) => told_in(alloc, module, &problem, text),
        Err(fault) => Ok(format!(in alloc; "{fault:?}")?),
    }
}

// What a text gives, by the letter before it.
fn told(alloc: Global, module: &Module, text: &str) -> Result<String, NoMemory>
    requires { AreNamesOf module.now.signature module.now.names }
{
    let (letter, text) = text.split_once(' ').unwrap_or((text, ""));
    if letter == "p" {
        return told_problem(alloc, module, text.as_bytes());
    }
    if letter == "t" {
        return told_query(alloc, module, text.as_bytes());
    }
    let (problem, text) = text.split_once(" # ").unwrap_or((text, ""));
    told_bindings(alloc, module, problem.as_bytes(), text.as_bytes())
}

// What is told of the text of a line is what the line says.
fn assert_line(
    rt: &impl Abort,
    alloc: Global,
    module: &Module,
    line: &str,
) -> Result<(), NoMemory> {
    module.recall_readable();
    let (text, want) = line.split_once(" =>").unwrap_or((line, ""));
    let text = expanded(alloc, text)?;
    let shown = told(alloc, module, text.as_str())?;
    assert_shown(rt, shown.as_str(), want.trim_start(), line);
    Ok(())
}

// The same of each line.
fn assert_lines(
    rt: &impl Abort,
    alloc: Global,
    module: &Module,
    lines: &str,
) -> Result<(), NoMemory> {
    for line in lines.lines() {
        assert_line(rt, alloc, module, line)?;
    }
    Ok(())
}

// The lines of a block, over the module of its first line.
fn assert_block(rt: &impl Abort, alloc: Global, block: &str) -> Result<(), NoMemory> {
    let (statements, lines) = block.split_once('\n').unwrap_or((block, ""));
    let text = module_text(alloc, statements)?;
    match read_module(alloc, text.as_bytes()) {
        Ok(module) => assert_lines(rt, alloc, &module, lines),
        Err(_) => Err(NoMemory),
    }
}

#[test]
fn texts_ask_and_bind(rt: HostRuntime) -> Result<(), NoMemory> {
    for block in TEXTS.split("\n\n") {
        assert_block(&rt, rt.alloc(), block)?;
    }
    Ok(())
}
