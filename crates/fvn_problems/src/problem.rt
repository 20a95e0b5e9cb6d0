//! Reading a problem.
ghost use Rattle.std.specs.Prelude.{◌≡◌, [], All, IfOk, IfErr};
ghost use Rattle.fvn_problems.specs.Scopes.{AreNamesOf};
ghost use Rattle.fvn_problems.specs.Variables.{with_sides};
ghost use Rattle.fvn_problems.specs.Problems.{AreOfOneKind, IsProblem, IsOnlyProblem, RefusesProblem, HasNoProblem, HasVariables};
ghost use Rattle.fvn_problems.specs.inner.Split.{AreTerms};
ghost use Rattle.fvn_problems.specs.inner.Steps.{MemoryOr, ReadsPair, RefusesPair, ReadsPairs, RefusesPairs, Asks, AsksNothing};

use crate::fault::{ProblemFault, term_fault};
use crate::split::{Halves, split_problem};
use crate::text::cut_text;
use crate::vars::add_variables;
use fvn_base::Seq;
use fvn_base::limits::TEXT_SYMBOLS;
use fvn_signature::Signature;
use fvn_syntax::{
    Names, Scope, Seen, TermFault, Texts, VarNames, resolve_term, terms_are_well_kinded,
};
use fvn_terms::{NoMemory, Plain, Var};
use std::alloc::Global;

/// Pairs of terms, their variables in order of first occurrence, each once, and their names.
pub struct Problem {
    pub pairs: Seq<(Plain, Plain)>,
    pub vars: Seq<Var>,
    pub names: VarNames,
}

impl Drop for Problem {
    fn drop(self) {
        let Problem {
            pairs: _,
            vars: _,
            names: _,
        } = self;
    }
}

// Reads both sides of a pair.
fn read_pair(
    alloc: Global,
    scope: &Scope<'_>,
    seen: Seen,
    halves: &Halves<'_>,
) -> Result<((Plain, Plain), Seen), TermFault>
    requires { AreTerms halves.now }
    ensures ok { IfOk result (ReadsPair scope.now seen halves.now) }
    ensures err { IfErr result (MemoryOr (RefusesPair scope.now seen.texts halves.now)) }
{
    let (left, seen) = resolve_term(alloc, TEXT_SYMBOLS, scope, seen, halves.left.pieces())?;
    let (right, seen) = resolve_term(alloc, TEXT_SYMBOLS, scope, seen, halves.right.pieces())?;
    if left.kind.0 != right.kind.0 {
        return Err(TermFault::WrongKind);
    }
    Ok(((left.term, right.term), seen))
}

// Reads the sides of all pairs, from left to right.
fn read_pairs(
    alloc: Global,
    scope: &Scope<'_>,
    list: &[Halves<'_>],
) -> Result<(Seq<(Plain, Plain)>, Seen), TermFault>
    requires { All AreTerms list.now }
    ensures ok { IfOk result (ReadsPairs scope.now list.now) }
    ensures err { IfErr result (MemoryOr (RefusesPairs scope.now list.now)) }
{
    let mut pairs = Vec::new(alloc);
    let mut seen = Seen {
        texts: Texts::new(alloc),
        count: 0,
    };
    for halves in list {
        let (pair, next) = read_pair(alloc, scope, seen, halves)?;
        pairs.push(pair)?;
        seen = next;
    }
    Ok((Seq::from_vec(pairs), seen))
}

// The variables of all sides.
fn variables_of(alloc: Global, pairs: &[(Plain, Plain)]) -> Result<Seq<Var>, NoMemory>
    ensures { IfOk result (λ vars. vars ≡ with_sides [] pairs.now) }
{
    let mut vars = Vec::new(alloc);
    for (left, right) in pairs {
        add_variables(&mut vars, left)?;
        add_variables(&mut vars, right)?;
    }
    Ok(Seq::from_vec(vars))
}

// The problem of pairs that are read.
fn ask(alloc: Global, scope: &Scope<'_>, list: &[Halves<'_>]) -> Result<Problem, ProblemFault>
    requires { All AreTerms list.now }
    ensures ok { IfOk result (Asks scope.now list.now) }
    ensures err { IfErr result (AsksNothing scope.now list.now) }
{
    match read_pairs(alloc, scope, list) {
        Err(fault) => Err(term_fault(fault)),
        Ok((pairs, seen)) => {
            if TEXT_SYMBOLS < seen.count {
                return Err(ProblemFault::TooLarge);
            }
            let vars = variables_of(alloc, pairs.as_slice())?;
            let names = VarNames { texts: seen.texts };
            Ok(Problem { pairs, vars, names })
        }
    }
}

// What a problem asks, or its first fault.
fn problem_of(
    alloc: Global,
    signature: &Signature,
    names: &Names,
    bytes: &[u8],
) -> Result<Problem, ProblemFault>
    requires { AreNamesOf signature.now names.now }
    ensures ok { IfOk result (IsProblem signature.now names.now bytes.now) }
    ensures err { IfErr result (RefusesProblem signature.now names.now bytes.now) }
{
    let row = cut_text(alloc, bytes)?;
    match split_problem(alloc, row.as_slice())? {
        None => Err(ProblemFault::Text),
        Some(list) => {
            let scope = Scope::new(signature.declarations(), names, true);
            ask(alloc, &scope, list.as_slice())
        }
    }
}

/// What a problem asks in a signature and its names, or its first fault.
///
/// Tokens, form, the names from left to right, and the number of symbols of all sides are tested in this order.
pub fn read_problem(
    alloc: Global,
    signature: &Signature,
    names: &Names,
    bytes: &[u8],
) -> Result<Problem, ProblemFault>
    requires { AreNamesOf signature.now names.now }
    ensures ok { IfOk result (IsProblem signature.now names.now bytes.now) }
    ensures only { IfOk result (IsOnlyProblem signature.now names.now bytes.now) }
    ensures kinded { IfOk result (λ p. All (AreOfOneKind signature.now) p.pairs) }
    ensures vars { IfOk result (HasVariables signature.now) }
    ensures err { IfErr result (RefusesProblem signature.now names.now bytes.now) }
    ensures none { IfErr result (HasNoProblem signature.now names.now bytes.now) }
{
    terms_are_well_kinded();
    problem_of(alloc, signature, names, bytes)
}
