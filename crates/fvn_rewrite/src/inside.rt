//! Normal forms from the inside out, modulo axioms.
ghost use Rattle.std.specs.Prelude.{IfOk, IfSome};
ghost use Rattle.fvn_flat.specs.Fits.{Fits, AllFit};
ghost use Rattle.fvn_theory.specs.Equations.{equations_of};
ghost use Rattle.fvn_rewrite.specs.Usable.{AreUsable};
ghost use Rattle.fvn_rewrite.specs.inner.Making.{AreStepRules, IsReachedFrom};
ghost use Rattle.fvn_rewrite.specs.inner.Inside.{AreReachedFrom};
ghost use Rattle.fvn_rewrite.specs.inner.Walking.{IsNext};

use crate::making::Pass;
use crate::root::root_step;
use fvn_flat::Flat;
use fvn_terms::NoMemory;

// A form to which steps lead, how many steps are left, and how many symbols were counted for the limit.
#[derive(Drop)]
pub(crate) struct Reached {
    pub(crate) form: Flat,
    pub(crate) left: u64,
    pub(crate) symbols: u64,
}

// Forms to which steps lead, how many steps are left, and how many symbols were counted for an operator over them.
#[derive(Drop)]
pub(crate) struct ReachedAll {
    pub(crate) forms: Vec<Flat>,
    pub(crate) left: u64,
    pub(crate) symbols: u64,
}

// What one step at the root leads to.
fn at_root(pass: &Pass<'_>, t: &Flat) -> Result<Option<Flat>, NoMemory>
    requires rules { AreUsable pass.now.sig.now pass.now.rules.now }
    requires form { Fits pass.now.sig.now t.now }
    ensures { IfOk result (λ o.
        IfSome o (IsNext pass.now.sig.now (equations_of pass.now.rules.now.equations) t.now)) }
{
    match t.head() {
        None => Ok(None),
        Some(f) => {
            let next = root_step(pass.alloc, pass.sig, pass.rules, f, t)?;
            Ok(next)
        }
    }
}

// The forms, each brought to a normal form, from the left.
#[cycle(inside)]
fn inside_all(
    pass: &Pass<'_>,
    depth: u64,
    ts: &[Flat],
    left: u64,
) -> Result<Option<ReachedAll>, NoMemory>
    requires laws { AreStepRules pass.now.sig.now pass.now.rules.now }
    requires rules { AreUsable pass.now.sig.now pass.now.rules.now }
    requires forms { AllFit pass.now.sig.now ts.now }
    ensures { IfOk result (λ o.
        IfSome o (AreReachedFrom pass.now.sig.now (equations_of pass.now.rules.now.equations)
        ts.now left)) }
{
    if depth == 0 {
        return Ok(None);
    }
    let mut forms = Vec::new(pass.alloc);
    let mut spare = left;
    let mut symbols: u64 = 1;
    for t in ts {
        let next = inside(pass, depth - 1, t, spare)?;
        match next {
            Some(reached) => {
                spare = reached.left;
                symbols = symbols.saturating_add(reached.symbols);
                if symbols > pass.size {
                    return Ok(None);
                }
                forms.push(reached.form)?;
            }
            None => return Ok(None),
        }
    }
    Ok(Some(ReachedAll {
        forms,
        left: spare,
        symbols,
    }))
}

// The form, its arguments brought to normal forms.
#[cycle(inside)]
fn arguments_first(
    pass: &Pass<'_>,
    depth: u64,
    t: &Flat,
    left: u64,
) -> Result<Option<Reached>, NoMemory>
    requires laws { AreStepRules pass.now.sig.now pass.now.rules.now }
    requires rules { AreUsable pass.now.sig.now pass.now.rules.now }
    requires form { Fits pass.now.sig.now t.now }
    ensures { IfOk result (λ o.
        IfSome o (λ (r : Reached).
        IsReachedFrom pass.now.sig.now (equations_of pass.now.rules.now.equations)
        t.now left r.form r.left)) }
{
    match t.head() {
        None => {
            let form = t.copy(pass.alloc)?;
            Ok(Some(Reached {
                form,
                left,
                symbols: 1,
            }))
        }
        Some(f) => {
            let all = inside_all(pass, depth, t.args(), left)?;
            match all {
                Some(reached) => {
                    let form = Flat::app(pass.alloc, pass.sig, f, reached.forms)?;
                    Ok(Some(Reached {
                        form,
                        left: reached.left,
                        symbols: reached.symbols,
                    }))
                }
                None => Ok(None),
            }
        }
    }
}

// The normal form of a form whose arguments are normal forms, by one step at its root after another.
#[cycle(inside)]
fn settle(pass: &Pass<'_>, depth: u64, start: Reached) -> Result<Option<Reached>, NoMemory>
    requires laws { AreStepRules pass.now.sig.now pass.now.rules.now }
    requires rules { AreUsable pass.now.sig.now pass.now.rules.now }
    requires form { Fits pass.now.sig.now start.form }
    ensures { IfOk result (λ o.
        IfSome o (λ (r : Reached).
        IsReachedFrom pass.now.sig.now (equations_of pass.now.rules.now.equations)
        start.form start.left r.form r.left)) }
{
    let mut now = start;
    loop {
        let found = at_root(pass, &now.form)?;
        let Some(next) = found else {
            return Ok(Some(now));
        };
        let spent = now.left == 0;
        if spent {
            return Ok(None);
        }
        let over = arguments_first(pass, depth, &next, now.left - 1)?;
        let Some(reached) = over else {
            return Ok(None);
        };
        now = reached;
    }
}

// The normal form of the form; nothing where a limit is met.
#[cycle(inside)]
pub(crate) fn inside(
    pass: &Pass<'_>,
    depth: u64,
    t: &Flat,
    left: u64,
) -> Result<Option<Reached>, NoMemory>
    requires laws { AreStepRules pass.now.sig.now pass.now.rules.now }
    requires rules { AreUsable pass.now.sig.now pass.now.rules.now }
    requires form { Fits pass.now.sig.now t.now }
    ensures { IfOk result (λ o.
        IfSome o (λ (r : Reached).
        IsReachedFrom pass.now.sig.now (equations_of pass.now.rules.now.equations)
        t.now left r.form r.left)) }
{
    let over = arguments_first(pass, depth, t, left)?;
    match over {
        Some(one) => {
            let reached = settle(pass, depth, one)?;
            Ok(reached)
        }
        None => Ok(None),
    }
}
