//! Lines: the values of a problem's variables, for a variant with a term before them.
ghost use Rattle.std.specs.Prelude.{IfOk};
ghost use Rattle.fvn_terms.specs.declared.plain.SortId.{SortId};
ghost use Rattle.fvn_forms.specs.Flat.{plain};
ghost use Rattle.fvn_forms.specs.Good.{IsGood};
ghost use Rattle.fvn_signature.specs.Queries.{IsKind, IsMaximalOf};
ghost use Rattle.fvn_flat.specs.Solving.{substitution};
ghost use Rattle.fvn_answer.specs.Denoting.{Reads, ReadsVariant};
ghost use Rattle.fvn_answer.specs.Writing.{top};
ghost use Rattle.fvn_flat.specs.Fits.{Fits};
ghost use Rattle.fvn_flat.specs.Bindings.{BindingsFit};
ghost use Rattle.fvn_answer.specs.Asked.{AreAsked, HaveSorts};
ghost use Rattle.fvn_answer.specs.Lines.{values, variant, values_of, HasNoLineFeed, IsTextOf};

use crate::printed::Printed;
use crate::search::numbered_text;
use fvn_flat::{Flat, Subst};
use fvn_module::Module;
use fvn_signature::{Signature, direct_subsorts_cover, direct_subsorts_of_kinds};
use fvn_syntax::VarNames;
use fvn_terms::{NoMemory, Var};
use std::alloc::Global;

// What holds of every signature: it is good, and each kind is named after a sort of it.
fn recall(signature: &Signature)
    ensures good { IsGood signature.now }
    ensures tops { (k : SortId) → IsKind signature.now k →
        IsMaximalOf signature.now k (top signature.now k) }
{
    signature.recall_good();
    signature.recall_completed();
    direct_subsorts_cover();
    direct_subsorts_of_kinds();
}

/// The line of a substitution: what it gives each of the variables, in their order.
///
/// A variable that is not bound stands for itself. All variables of the values are new ones,
/// numbered from 1.
pub fn line_of(
    alloc: Global,
    declared: &Module,
    var_names: &VarNames,
    subst: &Subst,
    vars: &[Var],
) -> Result<Vec<u8>, NoMemory>
    requires vars { AreAsked declared.now.signature var_names.now.texts vars.now }
    requires fit { BindingsFit declared.now.signature subst.now }
    requires sorts { HaveSorts declared.now.signature vars.now subst.now }
    ensures least { IfOk result (λ line.
        IsTextOf declared.now.signature declared.now.names var_names.now.texts
        (values (values_of subst.now vars.now)) line.items) }
    ensures reads { IfOk result (λ line.
        Reads declared.now.signature declared.now.names var_names.now.texts
        vars.now line.items (substitution subst.now)) }
    ensures plain { IfOk result (λ line. HasNoLineFeed line.items) }
{
    declared.recall_readable();
    let signature = declared.signature();
    recall(signature);
    let printed = Printed::Values(subst, vars);
    let line = numbered_text(alloc, signature, declared.names(), var_names, &printed)?;
    Ok(line)
}

/// The line of a variant: its term, a space, and the line of its substitution under the same
/// numbering.
pub fn variant_line(
    alloc: Global,
    declared: &Module,
    var_names: &VarNames,
    term: &Flat,
    subst: &Subst,
    vars: &[Var],
) -> Result<Vec<u8>, NoMemory>
    requires vars { AreAsked declared.now.signature var_names.now.texts vars.now }
    requires fit { BindingsFit declared.now.signature subst.now }
    requires sorts { HaveSorts declared.now.signature vars.now subst.now }
    requires term { Fits declared.now.signature term.now }
    ensures least { IfOk result (λ line.
        IsTextOf declared.now.signature declared.now.names var_names.now.texts
        (variant term.now (values_of subst.now vars.now)) line.items) }
    ensures reads { IfOk result (λ line.
        ReadsVariant declared.now.signature declared.now.names var_names.now.texts
        vars.now line.items (plain term.now) (substitution subst.now)) }
    ensures plain { IfOk result (λ line. HasNoLineFeed line.items) }
{
    declared.recall_readable();
    let signature = declared.signature();
    recall(signature);
    let printed = Printed::Variant(term, subst, vars);
    let line = numbered_text(alloc, signature, declared.names(), var_names, &printed)?;
    Ok(line)
}
