//! Reading equations.
ghost use Rattle.std.specs.Prelude.{◌≡◌, ◌⊎◌, [], All, IfOk, IfErr};
ghost use Rattle.std.specs.List.{AllByRecursion};
ghost use Rattle.fvn_syntax.specs.Raw.{IsTermBefore};
ghost use Rattle.fvn_syntax.specs.Scope.{IsNumbered};
ghost use Rattle.fvn_module_statements.specs.Forms.{IsStatement};
ghost use Rattle.fvn_module.specs.declared.fault.ModuleFault.TheVariants.{NoMemory as OutOfMemory};
ghost use Rattle.fvn_module.specs.Equations.{IsEquationOf, AreEquationsOf, IsFirstFaultOf};
ghost use Rattle.fvn_module.specs.inner.Sides.{IsRead, IsReadRefused, IsJudged, IsJudgedFault, AreTerms, HasFault};
ghost use Rattle.fvn_module.specs.inner.Steps.{AreRead, AreRefused};

use crate::fault::{ModuleFault, Place};
use crate::sides::{Sides, collect_sides};
use crate::signing::Signed;
use crate::variables::brings_none;
use fvn_base::Seq;
use fvn_base::limits::{EQUATIONS, TEXT_SYMBOLS};
use fvn_module_syntax::Statement;
use fvn_syntax::{Kinded, Piece, Scope, Seen, TermFault, Texts, resolve_term};
use fvn_theory::Equation;
use std::alloc::Global;

/// A side that was read: its term and kind, the names of the variables up to its end, and its number of symbols.
///
/// A side with too many symbols has no term.
#[derive(Drop)]
pub struct Side {
    pub read: Kinded,
    pub texts: Texts,
    pub count: usize,
}

// The fault of an equation in this statement in which this is the first fault of a term.
fn side_fault(number: usize, fault: TermFault) -> ModuleFault
    ensures { result ≡ Rattle.fvn_module.specs.Equations.fault_of number fault }
{
    match fault {
        TermFault::ReservedName => ModuleFault::UnknownName(number),
        TermFault::UnknownName => ModuleFault::UnknownName(number),
        TermFault::Arity => ModuleFault::Arity(number),
        TermFault::WrongKind => ModuleFault::WrongKind(number),
        TermFault::NoMemory => ModuleFault::NoMemory,
    }
}

// A side of an equation in this statement.
fn read_side(
    alloc: Global,
    scope: &Scope<'_>,
    number: usize,
    texts: Texts,
    row: &[Piece<'_>],
) -> Result<Side, ModuleFault>
    requires { IsTermBefore [] row.now }
    ensures ok { IfOk result (IsRead scope.now texts row.now) }
    ensures err { IfErr result (IsReadRefused scope.now number texts row.now) }
{
    let seen = Seen { texts, count: 0 };
    match resolve_term(alloc, TEXT_SYMBOLS, scope, seen, row) {
        Ok((read, seen)) => Ok(Side {
            read,
            texts: seen.texts,
            count: seen.count,
        }),
        Err(fault) => Err(side_fault(number, fault)),
    }
}

// The equation with this number, of two sides that were read.
fn judge(
    k: usize,
    number: usize,
    left: Kinded,
    count: usize,
    right: Side,
) -> Result<Equation, ModuleFault>
    ensures ok { IfOk result (IsJudged number left count right) }
    ensures err { IfErr result (IsJudgedFault k number left count right) }
{
    if left.kind.0 != right.read.kind.0 {
        return Err(ModuleFault::WrongKind(number));
    }
    if TEXT_SYMBOLS < count || TEXT_SYMBOLS < right.count {
        return Err(ModuleFault::TooMany(Place::Equation(k)));
    }
    if !brings_none(&right.read.term, &left.term) {
        return Err(ModuleFault::ExtraVariable(k));
    }
    Ok(Equation {
        left: left.term,
        right: right.read.term,
    })
}

// The equation with this number, of which the left side was read.
fn read_right(
    alloc: Global,
    scope: &Scope<'_>,
    k: usize,
    sides: &Sides<'_>,
    left: Side,
) -> Result<Equation, ModuleFault>
    requires terms { AreTerms sides.now }
    requires left { IsRead scope.now [] sides.now.left left }
    ensures ok { IfOk result (IsEquationOf scope.now sides.now) }
    ensures err { IfErr result (λ fault.
        (fault ≡ OutOfMemory) ⊎ HasFault scope.now k sides.now fault) }
{
    let Side { read, texts, count } = left;
    match read_side(alloc, scope, sides.number, texts, sides.right.pieces()) {
        Ok(right) => judge(k, sides.number, read, count, right),
        Err(fault) => Err(fault),
    }
}

// The equation with this number.
fn read_equation(
    alloc: Global,
    scope: &Scope<'_>,
    k: usize,
    sides: &Sides<'_>,
) -> Result<Equation, ModuleFault>
    requires { AreTerms sides.now }
    ensures ok { IfOk result (IsEquationOf scope.now sides.now) }
    ensures err { IfErr result (λ fault.
        (fault ≡ OutOfMemory) ⊎ HasFault scope.now k sides.now fault) }
{
    let number = sides.number;
    match read_side(alloc, scope, number, Texts::new(alloc), sides.left.pieces()) {
        Ok(left) => read_right(alloc, scope, k, sides, left),
        Err(fault) => Err(fault),
    }
}

// The equations, one after another.
fn read_all(
    alloc: Global,
    scope: &Scope<'_>,
    list: &[Sides<'_>],
) -> Result<Seq<Equation>, ModuleFault>
    requires { All AreTerms list.now }
    ensures ok { IfOk result (AreEquationsOf scope.now list.now) }
    ensures err { IfErr result (λ fault.
        (fault ≡ OutOfMemory) ⊎ IsFirstFaultOf scope.now list.now fault) }
{
    let mut equations = Vec::new(alloc);
    for (i, sides) in list.iter().enumerate() {
        match read_equation(alloc, scope, i + 1, sides) {
            Ok(equation) => equations.push(equation)?,
            Err(fault) => return Err(fault),
        }
    }
    Ok(Seq::from_vec(equations))
}

/// The equations among statements, read with a signature and its names, or the first fault: that there are too
/// many, or that of the first one that is refused.
pub fn read_equations(
    alloc: Global,
    signed: &Signed,
    statements: &[Statement<'_>],
) -> Result<Seq<Equation>, ModuleFault>
    requires numbered { IsNumbered signed.now.names }
    requires statements { AllByRecursion IsStatement statements.now }
    ensures ok { IfOk result (AreRead signed.now statements.now) }
    ensures err { IfErr result (AreRefused signed.now statements.now) }
{
    let list = collect_sides(alloc, statements)?;
    if EQUATIONS < list.len() {
        let number = list[EQUATIONS].number;
        return Err(ModuleFault::TooMany(Place::Statement(number)));
    }
    let scope = Scope::new(signed.signature.declarations(), &signed.names, false);
    read_all(alloc, &scope, list.as_slice())
}
