//! Fronts of what is printed.
ghost use Rattle.std.specs.Prelude.{◌++◌, ◌∷◌, ℕ, List, IfOk};
ghost use Rattle.fvn_terms.specs.declared.plain.Var.{Var};
ghost use Rattle.fvn_flat.specs.Bindings.{value};
ghost use Rattle.fvn_syntax.specs.Pieces.{Text};
ghost use Rattle.fvn_problems.specs.Variables.{IsNamed};
ghost use Rattle.fvn_answer.specs.inner.Readable.{AreReadable};
ghost use Rattle.fvn_answer.specs.Writing.{text_of, written};
ghost use Rattle.fvn_answer.specs.Lines.{values, values_of, text};
ghost use Rattle.fvn_answer.specs.inner.Bytes.{pair_text, IsPrintable};
ghost use Rattle.fvn_answer.specs.inner.Fronts.{Agrees, IsFrontOf};
ghost use Rattle.fvn_answer.specs.inner.Shown.{shown, value_texts, HavePrintable, CanPrint};

use crate::front::{Fixed, Front, closed, new_front, term_front};
use crate::printed::{Printed, push_between};
use crate::texts::{push_sorted, push_special};
use fvn_flat::Subst;
use fvn_signature::Signature;
use fvn_syntax::{Names, VarNames};
use fvn_terms::{NoMemory, Var};
use std::alloc::Global;

// The front of the text of a variable's value.
fn value_front(
    alloc: Global,
    signature: &Signature,
    names: &Names,
    fixed: &Fixed<'_>,
    subst: &Subst,
    x: Var,
) -> Result<Front, NoMemory>
    requires names { AreReadable signature.now names.now }
    requires value { IsPrintable signature.now (value subst.now x) }
    ensures { IfOk result (λ f. (other : List Var) → Agrees fixed.now other →
        IsFrontOf fixed.now.known other f
        (text_of (written signature.now names.now other (value subst.now x)))) }
{
    match subst.get(x) {
        None => new_front(alloc, signature, names, fixed, x),
        Some(t) => term_front(alloc, signature, names, fixed, t),
    }
}

// The front of a text with a second one behind it.
fn behind(alloc: Global, text: Vec<u8>, front: Front) -> Result<Front, NoMemory>
    ensures { IfOk result (λ f. (known : ℕ) (other : List Var) (w : Text) →
        IsFrontOf known other front w → IsFrontOf known other f (text.items ++ w)) }
{
    let mut first = text;
    if front.tips.is_empty() {
        first.extend_from_slice(front.text.as_slice())?;
        return Ok(closed(alloc, first));
    }
    let mut later = Vec::new(alloc);
    later.extend_from_slice(first.as_slice())?;
    later.extend_from_slice(front.later.as_slice())?;
    first.extend_from_slice(front.text.as_slice())?;
    Ok(Front {
        text: first,
        later,
        tips: front.tips,
    })
}

// The front of a text that goes on with a variable and its value.
fn binding_front(
    alloc: Global,
    signature: &Signature,
    names: &Names,
    var_names: &VarNames,
    fixed: &Fixed<'_>,
    line: Vec<u8>,
    subst: &Subst,
    x: Var,
) -> Result<Front, NoMemory>
    requires names { AreReadable signature.now names.now }
    requires named { IsNamed signature.now var_names.now.texts x }
    requires value { IsPrintable signature.now (value subst.now x) }
    ensures { IfOk result (λ f. (other : List Var) → Agrees fixed.now other →
        IsFrontOf fixed.now.known other f (line.items ++ pair_text
        (value_texts signature.now var_names.now.texts names.now other subst.now x))) }
{
    let mut text = line;
    push_sorted(signature, names, &mut text, var_names.text(x.name), x.sort)?;
    text.extend_from_slice(b" --> ")?;
    let value = value_front(alloc, signature, names, fixed, subst, x)?;
    let front = behind(alloc, text, value)?;
    Ok(front)
}

// The front of the text of the values of variables.
fn values_front(
    alloc: Global,
    signature: &Signature,
    names: &Names,
    var_names: &VarNames,
    fixed: &Fixed<'_>,
    subst: &Subst,
    vars: &[Var],
) -> Result<Front, NoMemory>
    requires names { AreReadable signature.now names.now }
    requires values { HavePrintable signature.now var_names.now.texts subst.now vars.now }
    ensures { IfOk result (λ f. (other : List Var) → Agrees fixed.now other →
        IsFrontOf fixed.now.known other f
        (text signature.now names.now var_names.now.texts other
        (values (values_of subst.now vars.now)))) }
{
    let mut line = Vec::new(alloc);
    line.push(b'{')?;
    let mut first = true;
    for x in vars {
        push_between(&mut line, first)?;
        let front = binding_front(alloc, signature, names, var_names, fixed, line, subst, *x)?;
        if !front.tips.is_empty() {
            return Ok(front);
        }
        line = front.text;
        first = false;
    }
    push_special(&mut line, b'}')?;
    Ok(closed(alloc, line))
}

// The front of a term's text and that of the values of variables.
fn variant_front(
    alloc: Global,
    signature: &Signature,
    names: &Names,
    var_names: &VarNames,
    fixed: &Fixed<'_>,
    term: Front,
    subst: &Subst,
    vars: &[Var],
) -> Result<Front, NoMemory>
    requires names { AreReadable signature.now names.now }
    requires values { HavePrintable signature.now var_names.now.texts subst.now vars.now }
    ensures { IfOk result (λ f. (other : List Var) (w : Text) → Agrees fixed.now other →
        IsFrontOf fixed.now.known other term w → IsFrontOf fixed.now.known other f
        (w ++ 32 ∷ text signature.now names.now var_names.now.texts other
        (values (values_of subst.now vars.now)))) }
{
    if !term.tips.is_empty() {
        return Ok(term);
    }
    let rest = values_front(alloc, signature, names, var_names, fixed, subst, vars)?;
    let mut line = term.text;
    line.push(b' ')?;
    let front = behind(alloc, line, rest)?;
    Ok(front)
}

/// The front of the text of what is printed.
pub(crate) fn front(
    alloc: Global,
    signature: &Signature,
    names: &Names,
    var_names: &VarNames,
    fixed: &Fixed<'_>,
    printed: &Printed<'_>,
) -> Result<Front, NoMemory>
    requires names { AreReadable signature.now names.now }
    requires printed { CanPrint signature.now var_names.now.texts printed.now }
    ensures { IfOk result (λ f. (other : List Var) → Agrees fixed.now other →
        IsFrontOf fixed.now.known other f
        (text signature.now names.now var_names.now.texts other (shown printed.now))) }
{
    match printed {
        Printed::Alone(t) => term_front(alloc, signature, names, fixed, t),
        Printed::Values(subst, vars) => {
            values_front(alloc, signature, names, var_names, fixed, subst, vars)
        }
        Printed::Variant(t, subst, vars) => {
            let term = term_front(alloc, signature, names, fixed, t)?;
            let front = variant_front(
                alloc, signature, names, var_names, fixed, term, subst, vars,
            )?;
            Ok(front)
        }
    }
}
