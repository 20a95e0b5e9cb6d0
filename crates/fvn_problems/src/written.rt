//! The variables that are written before the arrows of a binding text.
ghost use Rattle.std.specs.Prelude.{◌≡◌, [], true, false, All, Contains, IfOk, IfSome, IfNone};
ghost use Rattle.std.specs.List.{list_any};
ghost use Rattle.fvn_syntax.specs.Raw.{IsTermBefore};
ghost use Rattle.fvn_problems.specs.Scopes.{unguarded, AreNamesOf};
ghost use Rattle.fvn_problems.specs.inner.Split.{AreTerms};
ghost use Rattle.fvn_problems.specs.inner.Bound.{text_and_sort, Writes, is_named, IsTheVariable, Finds, key_of, Adds, TellsOnce};

use crate::problem::Problem;
use crate::split::Halves;
use fvn_base::Seq;
use fvn_signature::Signature;
use fvn_syntax::{Names, Piece, Scope, Seen, TermFault, Texts, resolve_term};
use fvn_terms::{NoMemory, Plain, SortId, Var};
use std::alloc::Global;

// The text and the sort of a term that is a variable.
fn text_and_sort(
    alloc: Global,
    texts: &Texts,
    t: &Plain,
) -> Result<Option<(Seq<u8>, SortId)>, NoMemory>
    ensures { IfOk result (λ r. r ≡ text_and_sort texts.now t.now) }
{
    match t {
        Plain::App(_, _) => Ok(None),
        Plain::Var(x) => {
            let i = x.name as usize;
            if i < texts.len() {
                let text = Vec::from_slice(alloc, texts.text(i))?;
                Ok(Some((Seq::from_vec(text), x.sort)))
            } else {
                Ok(None)
            }
        }
    }
}

// The name and the sort of the variable that is written, where it is one.
fn read_variable(
    alloc: Global,
    signature: &Signature,
    names: &Names,
    row: &[Piece<'_>],
) -> Result<Option<(Seq<u8>, SortId)>, NoMemory>
    requires names { AreNamesOf signature.now names.now }
    requires term { IsTermBefore [] row.now }
    ensures { IfOk result (Writes (unguarded signature.now names.now) row.now) }
{
    let scope = Scope::new(signature.declarations(), names, false);
    let seen = Seen {
        texts: Texts::new(alloc),
        count: 0,
    };
    match resolve_term(alloc, 1, &scope, seen, row) {
        Err(TermFault::NoMemory) => Err(NoMemory),
        Err(_) => Ok(None),
        Ok((read, seen)) => text_and_sort(alloc, &seen.texts, &read.term),
    }
}

// Whether it is a variable with the text of this number and this sort.
fn is_named(x: Var, name: usize, sort: SortId) -> bool
    ensures { result ≡ is_named name sort x }
{
    x.name as usize == name && x.sort.0 == sort.0 && !x.fresh
}

// A variable with the text of this number and this sort.
fn find_named(vars: &[Var], name: usize, sort: SortId) -> Option<Var>
    ensures some { IfSome result (λ x. Contains vars.now x × (is_named name sort x ≡ true)) }
    ensures none { IfNone result (list_any (is_named name sort) vars.now ≡ false) }
{
    for x in vars {
        if is_named(*x, name, sort) {
            return Some(*x);
        }
    }
    None
}

// The variable of the problem with this text and sort.
fn find_variable(problem: &Problem, text: &[u8], sort: SortId) -> Option<Var>
    ensures some { IfSome result (IsTheVariable problem.now text.now sort) }
    ensures none { IfNone result ((x : Var) → IsTheVariable problem.now text.now sort x → ⊥) }
{
    problem.names.texts.are_distinct();
    match problem.names.texts.place(text) {
        None => None,
        Some(i) => find_named(problem.vars.as_slice(), i, sort),
    }
}

/// The variable of the problem that is written.
pub fn find_written(
    alloc: Global,
    signature: &Signature,
    names: &Names,
    problem: &Problem,
    row: &[Piece<'_>],
) -> Result<Option<Var>, NoMemory>
    requires names { AreNamesOf signature.now names.now }
    requires term { IsTermBefore [] row.now }
    ensures { IfOk result (Finds (unguarded signature.now names.now) problem.now row.now) }
{
    match read_variable(alloc, signature, names, row)? {
        None => Ok(None),
        Some((text, sort)) => Ok(find_variable(problem, text.as_slice(), sort)),
    }
}

// A text and a sort as one text.
fn key_of(text: Seq<u8>, sort: SortId) -> Result<Vec<u8>, NoMemory>
    ensures { IfOk result (λ key. key.items ≡ key_of (text, sort)) }
{
    let mut key = text.into_vec();
    key.push((sort.0 / 256) as u8)?;
    key.push((sort.0 % 256) as u8)?;
    Ok(key)
}

// Puts what is written to the keys, and tells whether it was not among them.
fn add_written(
    alloc: Global,
    signature: &Signature,
    names: &Names,
    keys: &mut Texts,
    row: &[Piece<'_>],
) -> Result<bool, NoMemory>
    requires names { AreNamesOf signature.now names.now }
    requires term { IsTermBefore [] row.now }
    ensures { IfOk result (λ fresh.
        Adds (unguarded signature.now names.now) keys.old row.now fresh keys.new) }
{
    match read_variable(alloc, signature, names, row)? {
        None => Ok(true),
        Some((text, sort)) => {
            let key = key_of(text, sort)?;
            if keys.place(key.as_slice()).is_some() {
                return Ok(false);
            }
            keys.insert(alloc, key.as_slice())?;
            Ok(true)
        }
    }
}

/// Whether no variable is written before two arrows.
pub fn are_once(
    alloc: Global,
    signature: &Signature,
    names: &Names,
    list: &[Halves<'_>],
) -> Result<bool, NoMemory>
    requires names { AreNamesOf signature.now names.now }
    requires terms { All AreTerms list.now }
    ensures { IfOk result (TellsOnce (unguarded signature.now names.now) list.now) }
{
    let mut keys = Texts::new(alloc);
    for halves in list {
        let fresh = add_written(alloc, signature, names, &mut keys, halves.left.pieces())?;
        if !fresh {
            return Ok(false);
        }
    }
    Ok(true)
}
