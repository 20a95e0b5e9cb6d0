//! Reading a binding text.
ghost use Rattle.std.specs.Prelude.{◌≡◌, All, IfOk, IfErr};
ghost use Rattle.fvn_terms.specs.Sorts.{IsWellSorted};
ghost use Rattle.fvn_terms.specs.Substitution.{value};
ghost use Rattle.fvn_problems.specs.Scopes.{unguarded, AreNamesOf};
ghost use Rattle.fvn_problems.specs.Bindings.{
  IsBindings,
  IsOnlyBindings,
  RefusesBindings,
  HasNoBindings,
  AreOfProblem,
  AreDistinct,
  AreNotFresh,
};
ghost use Rattle.fvn_problems.specs.inner.Split.{AreTerms};
ghost use Rattle.fvn_problems.specs.inner.Bound.{ReadsBinding, RefusesBinding, Binds, BindsNothing};

use crate::fault::{ProblemFault, term_fault};
use crate::problem::Problem;
use crate::sorting::sort_row;
use crate::split::{Halves, split_bindings};
use crate::text::cut_text;
use crate::written::{are_once, find_written};
use fvn_base::Seq;
use fvn_base::limits::TERM_SYMBOLS;
use fvn_signature::Signature;
use fvn_syntax::{Names, Scope, Seen, Texts, resolve_term, terms_are_well_kinded};
use fvn_terms::{NoMemory, Plain, PlainSubst, Var};
use std::alloc::Global;

/// The most symbols of a term.
const SYMBOLS: usize = TERM_SYMBOLS as usize;

/// Terms for some variables of a problem.
///
/// In the terms, the names of the problem have the numbers that they have there; greater numbers stand for other
/// names.
pub struct Bindings {
    pub subst: PlainSubst,
}

impl Drop for Bindings {
    fn drop(self) {
        let Bindings { subst: _ } = self;
    }
}

// The same texts, in memory of their own.
fn copy_texts(alloc: Global, texts: &Texts) -> Result<Texts, NoMemory>
    ensures { IfOk result (λ copy. copy ≡ texts.now) }
{
    texts.are_distinct();
    let mut copy = Texts::new(alloc);
    for i in 0..texts.len() {
        copy.insert(alloc, texts.text(i))?;
    }
    Ok(copy)
}

// Reads a binding: its variable, and then its term.
fn read_binding(
    alloc: Global,
    signature: &Signature,
    names: &Names,
    problem: &Problem,
    texts: Texts,
    halves: &Halves<'_>,
) -> Result<((Var, Plain), Seen), ProblemFault>
    requires names { AreNamesOf signature.now names.now }
    requires terms { AreTerms halves.now }
    ensures ok { IfOk result
        (ReadsBinding (unguarded signature.now names.now) problem.now texts halves.now) }
    ensures err { IfErr result
        (RefusesBinding (unguarded signature.now names.now) problem.now texts halves.now) }
{
    let Some(x) = find_written(alloc, signature, names, problem, halves.left.pieces())? else {
        return Err(ProblemFault::UnknownName);
    };
    let scope = Scope::new(signature.declarations(), names, false);
    let seen = Seen { texts, count: 0 };
    match resolve_term(alloc, SYMBOLS, &scope, seen, halves.right.pieces()) {
        Err(fault) => Err(term_fault(fault)),
        Ok((read, seen)) => {
            if read.kind.0 != signature.kind(x.sort).0 {
                return Err(ProblemFault::WrongKind);
            }
            let sort = sort_row(alloc, signature, names, halves.right.pieces())?;
            if !signature.leq(sort, x.sort) {
                return Err(ProblemFault::WrongSort);
            }
            Ok(((x, read.term), seen))
        }
    }
}

// Reads all bindings, from left to right.
fn bind(
    alloc: Global,
    signature: &Signature,
    names: &Names,
    problem: &Problem,
    list: &[Halves<'_>],
) -> Result<Bindings, ProblemFault>
    requires names { AreNamesOf signature.now names.now }
    requires terms { All AreTerms list.now }
    ensures ok { IfOk result (Binds (unguarded signature.now names.now) problem.now list.now) }
    ensures err { IfErr result
        (BindsNothing (unguarded signature.now names.now) problem.now list.now) }
{
    let mut pairs = Vec::new(alloc);
    let mut texts = copy_texts(alloc, &problem.names.texts)?;
    let mut most: usize = 0;
    for halves in list {
        let (pair, seen) = read_binding(alloc, signature, names, problem, texts, halves)?;
        pairs.push(pair)?;
        most = most.max(seen.count);
        texts = seen.texts;
    }
    if SYMBOLS < most {
        return Err(ProblemFault::TooLarge);
    }
    let subst = PlainSubst {
        pairs: Seq::from_vec(pairs),
    };
    Ok(Bindings { subst })
}

// What a binding text binds, or its first fault.
fn bindings_of(
    alloc: Global,
    signature: &Signature,
    names: &Names,
    problem: &Problem,
    bytes: &[u8],
) -> Result<Bindings, ProblemFault>
    requires { AreNamesOf signature.now names.now }
    ensures ok { IfOk result (IsBindings signature.now names.now problem.now bytes.now) }
    ensures err { IfErr result (RefusesBindings signature.now names.now problem.now bytes.now) }
{
    let row = cut_text(alloc, bytes)?;
    match split_bindings(alloc, row.as_slice())? {
        None => Err(ProblemFault::Text),
        Some(list) => {
            let once = are_once(alloc, signature, names, list.as_slice())?;
            if !once {
                return Err(ProblemFault::Text);
            }
            bind(alloc, signature, names, problem, list.as_slice())
        }
    }
}

/// What a binding text binds in a problem, or its first fault.
///
/// Tokens, form and that no variable is bound twice, the names, kinds and sorts from left to right, and the number of
/// symbols of each term are tested in this order. A variable of the problem that is not bound stays itself.
pub fn read_bindings(
    alloc: Global,
    signature: &Signature,
    names: &Names,
    problem: &Problem,
    bytes: &[u8],
) -> Result<Bindings, ProblemFault>
    requires { AreNamesOf signature.now names.now }
    ensures ok { IfOk result (IsBindings signature.now names.now problem.now bytes.now) }
    ensures only { IfOk result (IsOnlyBindings signature.now names.now problem.now bytes.now) }
    ensures known { IfOk result (AreOfProblem problem.now) }
    ensures once { IfOk result AreDistinct }
    ensures well_sorted { IfOk result (λ b. IsWellSorted signature.now (value b.subst.pairs)) }
    ensures not_fresh { IfOk result AreNotFresh }
    ensures err { IfErr result (RefusesBindings signature.now names.now problem.now bytes.now) }
    ensures none { IfErr result (HasNoBindings signature.now names.now problem.now bytes.now) }
{
    terms_are_well_kinded();
    problem.names.texts.are_distinct();
    bindings_of(alloc, signature, names, problem, bytes)
}
