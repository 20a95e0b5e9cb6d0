//! Normal forms of instances, from the inside out, by terms with shared parts.
ghost use Rattle.std.specs.Prelude.{◌≡◌, IfOk, IfSome};
ghost use Rattle.fvn_terms.specs.Term.{app};
ghost use Rattle.fvn_terms.specs.Signature.{axioms, IsTerm};
ghost use Rattle.fvn_terms.specs.Substitution.{apply, apply_all};
ghost use Rattle.fvn_forms.specs.Flat.{fpack, plain, plain_all};
ghost use Rattle.fvn_flat.specs.Fits.{Fits, AllFit};
ghost use Rattle.fvn_theory.specs.Equations.{equations_of};
ghost use Rattle.fvn_rewrite.specs.inner.SortedTerms.{spack, terms_of, AreSorted};
ghost use Rattle.fvn_rewrite.specs.inner.Fitting.{sorted_bound, sorted_or, standing_for, AreBindings};
ghost use Rattle.fvn_rewrite.specs.inner.Making.{AreStepRules, IsMade, AreMade, TurnsTo};

use crate::fitting::{first_found, free_head, look};
use crate::shared::Shared;
use fvn_flat::Flat;
use fvn_rewrite_rules::Rules;
use fvn_signature::Signature;
use fvn_terms::{Axioms, NoMemory, OpId, Var};
use std::alloc::Global;

// What instances are made with: a signature and its rules, and how many symbols a term may have.
#[derive(Clone, Copy)]
pub(crate) struct Pass<'r> {
    pub(crate) alloc: Global,
    pub(crate) sig: &'r Signature,
    pub(crate) rules: &'r Rules,
    pub(crate) size: u64,
}

// A term, and how many steps are left.
#[derive(Drop)]
pub(crate) struct Made {
    pub(crate) value: Shared,
    pub(crate) left: u64,
}

// Terms, and how many steps are left.
#[derive(Drop)]
pub(crate) struct MadeAll {
    pub(crate) values: Vec<Shared>,
    pub(crate) left: u64,
}

// A term that is made, or an operator over such terms.
#[derive(Drop)]
pub(crate) enum Turned {
    Whole(Made),
    Over(OpId, MadeAll),
}

// What the variable stands for.
fn value_of(alloc: Global, bound: &[(Var, Shared)], x: Var) -> Result<Shared, NoMemory>
    ensures { IfOk result (λ v. v ≡ sorted_or x (sorted_bound bound.now x)) }
{
    match look(bound, x) {
        Some(v) => {
            let value = v.share()?;
            Ok(value)
        }
        None => {
            let value = Shared::var(alloc, x)?;
            Ok(value)
        }
    }
}

// The instance of the form, its arguments brought to normal forms.
#[cycle(make)]
fn turn(
    pass: &Pass<'_>,
    depth: u64,
    p: &Flat,
    bound: &[(Var, Shared)],
    left: u64,
) -> Result<Option<Turned>, NoMemory>
    requires laws { AreStepRules pass.now.sig.now pass.now.rules.now }
    requires form { Fits pass.now.sig.now p.now }
    requires bindings { AreBindings pass.now.sig.now bound.now }
    ensures { IfOk result (λ o.
        IfSome o (TurnsTo pass.now.sig.now (equations_of pass.now.rules.now.equations)
        (apply (standing_for bound.now) (plain p.now)) left)) }
{
    match p.as_var() {
        Some(x) => {
            let value = value_of(pass.alloc, bound, x)?;
            Ok(Some(Turned::Whole(Made { value, left })))
        }
        None => {
            let Some(f) = free_head(pass.sig, p) else {
                return Ok(None);
            };
            let all = make_all(pass, depth, p.args(), bound, left)?;
            match all {
                Some(made) => Ok(Some(Turned::Over(f, made))),
                None => Ok(None),
            }
        }
    }
}

// The normal forms of the instances of the forms.
#[cycle(make)]
fn make_all(
    pass: &Pass<'_>,
    depth: u64,
    ps: &[Flat],
    bound: &[(Var, Shared)],
    left: u64,
) -> Result<Option<MadeAll>, NoMemory>
    requires laws { AreStepRules pass.now.sig.now pass.now.rules.now }
    requires forms { AllFit pass.now.sig.now ps.now }
    requires bindings { AreBindings pass.now.sig.now bound.now }
    ensures { IfOk result (λ o.
        IfSome o (AreMade pass.now.sig.now (equations_of pass.now.rules.now.equations)
        (apply_all (standing_for bound.now) (plain_all (fpack ps.now))) left)) }
{
    if depth == 0 {
        return Ok(None);
    }
    let mut values = Vec::new(pass.alloc);
    let mut spare = left;
    for p in ps {
        let next = make(pass, depth - 1, p, bound, spare)?;
        match next {
            Some(made) => {
                spare = made.left;
                values.push(made.value)?;
            }
            None => return Ok(None),
        }
    }
    Ok(Some(MadeAll {
        values,
        left: spare,
    }))
}

// The normal form of the instance of the form.
#[cycle(make)]
pub(crate) fn make(
    pass: &Pass<'_>,
    depth: u64,
    p: &Flat,
    bound: &[(Var, Shared)],
    left: u64,
) -> Result<Option<Made>, NoMemory>
    requires laws { AreStepRules pass.now.sig.now pass.now.rules.now }
    requires form { Fits pass.now.sig.now p.now }
    requires bindings { AreBindings pass.now.sig.now bound.now }
    ensures { IfOk result (λ o.
        IfSome o (IsMade pass.now.sig.now (equations_of pass.now.rules.now.equations)
        (apply (standing_for bound.now) (plain p.now)) left)) }
{
    let turned = turn(pass, depth, p, bound, left)?;
    match turned {
        Some(Turned::Whole(made)) => Ok(Some(made)),
        Some(Turned::Over(f, all)) => {
            let made = settle(pass, depth, f, all.values, all.left)?;
            Ok(made)
        }
        None => Ok(None),
    }
}

// The normal form of the operator over normal forms, by one step at its root after another.
#[cycle(make)]
fn settle(
    pass: &Pass<'_>,
    depth: u64,
    f: OpId,
    args: Vec<Shared>,
    left: u64,
) -> Result<Option<Made>, NoMemory>
    requires laws { AreStepRules pass.now.sig.now pass.now.rules.now }
    requires free { axioms pass.now.sig.now f ≡ Axioms.Free }
    requires sorted { AreSorted pass.now.sig.now (spack args.items) }
    requires kinded { IsTerm pass.now.sig.now (app f (terms_of args.items)) }
    ensures { IfOk result (λ o.
        IfSome o (IsMade pass.now.sig.now (equations_of pass.now.rules.now.equations)
        (app f (terms_of args.items)) left)) }
{
    let mut head = f;
    let mut now = args;
    let mut spare = left;
    loop {
        let value = Shared::app(pass.alloc, pass.sig, head, now)?;
        let large = value.symbols() > pass.size;
        if large {
            return Ok(None);
        }
        let found = first_found(pass.alloc, pass.sig, pass.rules.headed(head), &value)?;
        let Some(rule) = found else {
            return Ok(Some(Made { value, left: spare }));
        };
        let spent = spare == 0;
        if spent {
            return Ok(None);
        }
        let bound = rule.bound.as_slice();
        let turned = turn(pass, depth, rule.right, bound, spare - 1)?;
        match turned {
            Some(Turned::Whole(made)) => return Ok(Some(made)),
            Some(Turned::Over(g, all)) => {
                head = g;
                now = all.values;
                spare = all.left;
            }
            None => return Ok(None),
        }
    }
}
