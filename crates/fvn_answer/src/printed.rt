//! What is printed, and its text under a numbering.
ghost use Rattle.std.specs.Prelude.{◌≡◌, ◌++◌, IfOk, OnOk};
ghost use Rattle.fvn_flat.specs.Bindings.{value};
ghost use Rattle.fvn_problems.specs.Variables.{IsNamed};
ghost use Rattle.fvn_answer.specs.inner.Readable.{AreReadable};
ghost use Rattle.fvn_answer.specs.Writing.{text_of, written};
ghost use Rattle.fvn_answer.specs.Lines.{values, values_of, text};
ghost use Rattle.fvn_answer.specs.inner.Bytes.{between, pair_text, IsPrintable};
ghost use Rattle.fvn_answer.specs.inner.Shown.{shown, value_texts, HavePrintable, CanPrint};

use crate::texts::{push_new, push_sorted, push_special, term_text};
use fvn_flat::{Flat, Subst};
use fvn_signature::Signature;
use fvn_syntax::{Names, VarNames};
use fvn_terms::{NoMemory, Var};
use std::alloc::Global;

/// A term alone, the values of variables, or a term and the values of variables.
#[derive(Drop)]
pub(crate) enum Printed<'a> {
    Alone(&'a Flat),
    Values(&'a Subst, &'a [Var]),
    Variant(&'a Flat, &'a Subst, &'a [Var]),
}

// The bytes for which there is room at first for each binding of a line.
const BINDING: usize = 16;

/// The text goes on with what stands before a binding.
pub(crate) fn push_between(text: &mut Vec<u8>, first: bool) -> Result<(), NoMemory>
    ensures { OnOk result (text.new.items ≡ between first text.old.items) }
{
    if first {
        return Ok(());
    }
    push_special(text, b',')?;
    text.push(b' ')?;
    Ok(())
}

// The text goes on with the value of a variable.
fn push_value(
    alloc: Global,
    signature: &Signature,
    names: &Names,
    order: &[Var],
    text: &mut Vec<u8>,
    subst: &Subst,
    x: Var,
) -> Result<(), NoMemory>
    requires names { AreReadable signature.now names.now }
    requires value { IsPrintable signature.now (value subst.now x) }
    ensures { OnOk result (text.new.items ≡
        text.old.items ++ text_of (written signature.now names.now order.now (value subst.now x))) }
{
    match subst.get(x) {
        None => push_new(signature, names, order, text, x),
        Some(t) => {
            let whole = term_text(alloc, signature, names, order, t)?;
            text.extend_from_slice(whole.as_slice())?;
            Ok(())
        }
    }
}

// The text goes on with a variable and its value.
fn push_pair(
    alloc: Global,
    signature: &Signature,
    names: &Names,
    var_names: &VarNames,
    order: &[Var],
    text: &mut Vec<u8>,
    subst: &Subst,
    x: Var,
) -> Result<(), NoMemory>
    requires names { AreReadable signature.now names.now }
    requires named { IsNamed signature.now var_names.now.texts x }
    requires value { IsPrintable signature.now (value subst.now x) }
    ensures { OnOk result (text.new.items ≡ text.old.items
        ++ pair_text
        (value_texts signature.now var_names.now.texts names.now order.now subst.now x)) }
{
    push_sorted(signature, names, text, var_names.text(x.name), x.sort)?;
    text.extend_from_slice(b" --> ")?;
    push_value(alloc, signature, names, order, text, subst, x)?;
    Ok(())
}

// The text of the values of variables.
fn values_text(
    alloc: Global,
    signature: &Signature,
    names: &Names,
    var_names: &VarNames,
    order: &[Var],
    subst: &Subst,
    vars: &[Var],
) -> Result<Vec<u8>, NoMemory>
    requires names { AreReadable signature.now names.now }
    requires values { HavePrintable signature.now var_names.now.texts subst.now vars.now }
    ensures { IfOk result (λ line. line.items ≡
        text signature.now names.now var_names.now.texts order.now
        (values (values_of subst.now vars.now))) }
{
    let mut line = Vec::with_capacity(alloc, vars.len().saturating_mul(BINDING))?;
    line.push(b'{')?;
    let mut first = true;
    for x in vars {
        push_between(&mut line, first)?;
        push_pair(
            alloc, signature, names, var_names, order, &mut line, subst, *x,
        )?;
        first = false;
    }
    push_special(&mut line, b'}')?;
    Ok(line)
}

/// The text of what is printed, under a numbering of its variables.
pub(crate) fn text(
    alloc: Global,
    signature: &Signature,
    names: &Names,
    var_names: &VarNames,
    order: &[Var],
    printed: &Printed<'_>,
) -> Result<Vec<u8>, NoMemory>
    requires names { AreReadable signature.now names.now }
    requires printed { CanPrint signature.now var_names.now.texts printed.now }
    ensures { IfOk result (λ line. line.items ≡
        text signature.now names.now var_names.now.texts order.now (shown printed.now)) }
{
    match printed {
        Printed::Alone(t) => term_text(alloc, signature, names, order, t),
        Printed::Values(subst, vars) => {
            values_text(alloc, signature, names, var_names, order, subst, vars)
        }
        Printed::Variant(t, subst, vars) => {
            let mut line = term_text(alloc, signature, names, order, t)?;
            line.push(b' ')?;
            let rest = values_text(alloc, signature, names, var_names, order, subst, vars)?;
            line.extend_from_slice(rest.as_slice())?;
            Ok(line)
        }
    }
}
