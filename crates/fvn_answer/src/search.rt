//! The least text over all numberings.
ghost use Rattle.std.specs.Prelude.{◌≡◌, ◌<◌, ◌≤◌, true, false, length, IfOk, OnOk};
ghost use Rattle.std.specs.List.{SwappedAt, swap};
ghost use Rattle.fvn_syntax.specs.Pieces.{Text};
ghost use Rattle.fvn_answer.specs.Numberings.{IsNumbering};
ghost use Rattle.fvn_answer.specs.Lines.{forms_in};
ghost use Rattle.fvn_answer.specs.inner.Readable.{AreReadable};
ghost use Rattle.fvn_answer.specs.inner.Fronts.{AtLeast, IsAtMost, IsKept};
ghost use Rattle.fvn_answer.specs.inner.Shown.{shown, CanPrint, IsNumberedText, IsBestText, IsLeastText, IsSearched, AreSearched};

use crate::front::Fixed;
use crate::line_front::front;
use crate::numbering::{FEW_VARIABLES, variables};
use crate::printed::{Printed, text};
use crate::twins::{goes_first, is_tried, leads};
use fvn_signature::Signature;
use fvn_syntax::{Names, VarNames};
use fvn_terms::{NoMemory, Var};
use std::alloc::Global;

// Whether the text stands before the best one, or there is none yet.
fn may_be_less(best: &Option<Vec<u8>>, text: &[u8]) -> bool
    ensures more { result ≡ false → IsAtMost best.now text.now }
    ensures less { result ≡ true → (w : Text) → IsAtMost best.now w → AtLeast text.now w }
{
    match best {
        None => true,
        Some(line) => text.cmp(line.as_slice()).is_lt(),
    }
}

// Keeps the line where it stands before the best one.
fn keep_lesser(best: &mut Option<Vec<u8>>, line: Vec<u8>)
    ensures { IsKept best.old line.items best.new }
{
    if may_be_less(best, line.as_slice()) {
        *best = Some(line);
    }
}

// The order with two variables exchanged.
fn exchanged(alloc: Global, order: &[Var], i: usize, j: usize) -> Result<Vec<Var>, NoMemory>
    requires first { i < length order.now }
    requires second { j < length order.now }
    ensures items { IfOk result (λ other. other.items ≡ swap order.now i j) }
    ensures by_index { IfOk result (λ other. SwappedAt order.now other.items i j) }
{
    let mut other = Vec::from_slice(alloc, order)?;
    other.swap(i, j);
    Ok(other)
}

// Searches the numberings that begin as the order does, up to k, and go on with one of the tips.
#[cycle(search)]
fn search_tips(
    alloc: Global,
    signature: &Signature,
    names: &Names,
    var_names: &VarNames,
    printed: &Printed<'_>,
    order: &[Var],
    k: usize,
    tips: &[Var],
    best: &mut Option<Vec<u8>>,
) -> Result<(), NoMemory>
    requires names { AreReadable signature.now names.now }
    requires printed { CanPrint signature.now var_names.now.texts printed.now }
    requires numbering { IsNumbering (forms_in (shown printed.now)) order.now }
    requires within { k < length order.now }
    requires few { length order.now ≤ FEW_VARIABLES }
    requires best { IsBestText signature.now var_names.now.texts names.now (shown printed.now)
        best.old }
    ensures { OnOk result (AreSearched signature.now var_names.now.texts names.now
        (shown printed.now) order.now k tips.now best.old best.new) }
{
    for j in k..order.len() {
        if is_tried(signature, printed, order, k, j, tips) {
            let next = exchanged(alloc, order, k, j)?;
            search(
                alloc,
                signature,
                names,
                var_names,
                printed,
                next.as_slice(),
                k + 1,
                &mut *best,
            )?;
        }
    }
    Ok(())
}

// Searches the numberings that begin as the order does, up to k, for a text before the best one.
#[cycle(search)]
fn search(
    alloc: Global,
    signature: &Signature,
    names: &Names,
    var_names: &VarNames,
    printed: &Printed<'_>,
    order: &[Var],
    k: usize,
    best: &mut Option<Vec<u8>>,
) -> Result<(), NoMemory>
    requires names { AreReadable signature.now names.now }
    requires printed { CanPrint signature.now var_names.now.texts printed.now }
    requires numbering { IsNumbering (forms_in (shown printed.now)) order.now }
    requires within { k ≤ length order.now }
    requires few { length order.now ≤ FEW_VARIABLES }
    requires best { IsBestText signature.now var_names.now.texts names.now (shown printed.now)
        best.old }
    ensures { OnOk result (IsSearched signature.now var_names.now.texts names.now
        (shown printed.now) order.now k best.old best.new) }
{
    if order.len() <= k + 1 {
        let line = text(alloc, signature, names, var_names, order, printed)?;
        keep_lesser(best, line);
        return Ok(());
    }
    if leads(signature, printed, order, k) {
        search(
            alloc,
            signature,
            names,
            var_names,
            printed,
            order,
            k + 1,
            &mut *best,
        )?;
        return Ok(());
    }
    let fixed = Fixed { order, known: k };
    let front = front(alloc, signature, names, var_names, &fixed, printed)?;
    if !may_be_less(best, front.text.as_slice()) {
        return Ok(());
    }
    search_tips(
        alloc,
        signature,
        names,
        var_names,
        printed,
        order,
        k,
        front.tips.as_slice(),
        &mut *best,
    )?;
    if !may_be_less(best, front.later.as_slice()) {
        return Ok(());
    }
    search_tips(
        alloc, signature, names, var_names, printed, order, k, order, &mut *best,
    )?;
    Ok(())
}

// Whether the variable at j stands where the one at i is to stand.
fn stands_too_late(
    signature: &Signature,
    printed: &Printed<'_>,
    order: &[Var],
    i: usize,
    j: usize,
) -> bool
    requires first { i < length order.now }
    requires second { j < length order.now }
{
    if goes_first(signature, printed, order[i], order[j]) {
        return false;
    }
    goes_first(signature, printed, order[j], order[i])
}

// The order with a variable at i that goes before those behind it, if there is one.
fn with_first(
    alloc: Global,
    signature: &Signature,
    printed: &Printed<'_>,
    order: &[Var],
    i: usize,
) -> Result<Vec<Var>, NoMemory>
    requires numbering { IsNumbering (forms_in (shown printed.now)) order.now }
    requires within { i < length order.now }
    ensures { IfOk result (λ other. IsNumbering (forms_in (shown printed.now)) other.items) }
{
    let mut other = Vec::from_slice(alloc, order)?;
    for j in i + 1..order.len() {
        if stands_too_late(signature, printed, other.as_slice(), i, j) {
            other = exchanged(alloc, other.as_slice(), i, j)?;
        }
    }
    Ok(other)
}

// The order with the variables put first that go before others.
fn in_order(
    alloc: Global,
    signature: &Signature,
    printed: &Printed<'_>,
    order: &[Var],
) -> Result<Vec<Var>, NoMemory>
    requires numbering { IsNumbering (forms_in (shown printed.now)) order.now }
    ensures { IfOk result (λ other. IsNumbering (forms_in (shown printed.now)) other.items) }
{
    let mut other = Vec::from_slice(alloc, order)?;
    for i in 0..order.len() {
        other = with_first(alloc, signature, printed, other.as_slice(), i)?;
    }
    Ok(other)
}

// The least text under a numbering.
fn least_text(
    alloc: Global,
    signature: &Signature,
    names: &Names,
    var_names: &VarNames,
    printed: &Printed<'_>,
    order: &[Var],
) -> Result<Vec<u8>, NoMemory>
    requires names { AreReadable signature.now names.now }
    requires printed { CanPrint signature.now var_names.now.texts printed.now }
    requires numbering { IsNumbering (forms_in (shown printed.now)) order.now }
    requires few { length order.now ≤ FEW_VARIABLES }
    ensures { IfOk result (λ line. IsLeastText signature.now var_names.now.texts names.now
        (shown printed.now) line.items) }
{
    let first = in_order(alloc, signature, printed, order)?;
    let mut best = None;
    search(
        alloc,
        signature,
        names,
        var_names,
        printed,
        first.as_slice(),
        0,
        &mut best,
    )?;
    match best {
        Some(line) => Ok(line),
        None => text(alloc, signature, names, var_names, order, printed),
    }
}

/// The text of what is printed, where it has few variables the least one.
pub(crate) fn numbered_text(
    alloc: Global,
    signature: &Signature,
    names: &Names,
    var_names: &VarNames,
    printed: &Printed<'_>,
) -> Result<Vec<u8>, NoMemory>
    requires names { AreReadable signature.now names.now }
    requires printed { CanPrint signature.now var_names.now.texts printed.now }
    ensures { IfOk result (λ line. IsNumberedText signature.now var_names.now.texts names.now
        (shown printed.now) line.items) }
{
    let order = variables(alloc, printed)?;
    let few = order.len() <= FEW_VARIABLES;
    if few {
        let line = least_text(
            alloc,
            signature,
            names,
            var_names,
            printed,
            order.as_slice(),
        )?;
        return Ok(line);
    }
    let line = text(
        alloc,
        signature,
        names,
        var_names,
        order.as_slice(),
        printed,
    )?;
    Ok(line)
}
