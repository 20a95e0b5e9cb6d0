//! What is answered for the equations of a module, as texts.
ghost use Rattle.std.specs.Prelude.{◌≤◌, All};
ghost use Rattle.fvn_base.specs.declared.limits.TheConstants.{TERM_SYMBOLS};
ghost use Rattle.fvn_theory.specs.Equations.{IsReadableEquation};
ghost use Rattle.fvn_rewrite.specs.Usable.{AreUsable};

use fvn_axunify::{AxiomUnify, SolveLimits};
use fvn_base::limits::TERM_SYMBOLS;
use fvn_cohere::{first_left_fault, harmless_equations_are_admissible};
use fvn_critical::{CriticalFault, critical_fault};
use fvn_flat::Flat;
use fvn_module::Module;
use fvn_rewrite_rules::{Rules, extend};
use fvn_signature::Signature;
use fvn_terms::{Args, NoMemory, Plain};
use fvn_theory::{Bounds, Equation};
use std::alloc::Global;
use std::string::String;

/// At how many unifiers, steps and symbols it is stopped.
#[derive(Clone, Copy, Drop)]
pub struct Stops {
    pub unifiers: u32,
    pub steps: u64,
    pub size: u64,
}

#[cycle(show)]
fn show(out: &mut String, alloc: Global, t: &Plain) -> Result<(), NoMemory> {
    match t {
        Plain::Var(_) => {
            out.push('#')?;
        }
        Plain::App(f, us) => {
            out.push_str(&format!(in alloc; "{}", f.0)?)?;
            show_all(out, alloc, us)?;
        }
    }
    Ok(())
}

#[cycle(show)]
fn show_all(out: &mut String, alloc: Global, us: &Args) -> Result<(), NoMemory> {
    let mut before = '(';
    for u in &us.items {
        out.push(before)?;
        before = ',';
        show(out, alloc, u)?;
    }
    if before == ',' {
        out.push(')')?;
    }
    Ok(())
}

fn say(out: &mut String, text: &str) -> Result<(), NoMemory> {
    out.push_str(text)?;
    Ok(())
}

// The numbers of two equations.
fn say_numbers(out: &mut String, alloc: Global, m: usize, n: usize) -> Result<(), NoMemory> {
    let text = format!(in alloc; "apart {m} {n}")?;
    say(out, text.as_str())
}

// The number of an equation.
fn say_number(out: &mut String, alloc: Global, n: usize) -> Result<(), NoMemory> {
    let text = format!(in alloc; "sorts {n}")?;
    say(out, text.as_str())
}

fn push_form(out: &mut String, alloc: Global, form: &Flat) -> Result<(), NoMemory> {
    let t = form.to_plain(alloc)?;
    out.push(' ')?;
    show(out, alloc, &t)
}

fn push_forms(out: &mut String, alloc: Global, left: &Flat, right: &Flat) -> Result<(), NoMemory> {
    push_form(out, alloc, left)?;
    push_form(out, alloc, right)
}

fn push_apart(
    out: &mut String,
    alloc: Global,
    m: usize,
    n: usize,
    left: &Flat,
    right: &Flat,
) -> Result<(), NoMemory> {
    say_numbers(out, alloc, m, n)?;
    push_forms(out, alloc, left, right)
}

fn push_steps(out: &mut String, alloc: Global, start: &Flat, end: &Flat) -> Result<(), NoMemory> {
    say(out, "steps")?;
    push_forms(out, alloc, start, end)
}

fn push_fault(out: &mut String, alloc: Global, fault: &CriticalFault) -> Result<(), NoMemory> {
    match fault {
        CriticalFault::Sorts(n) => say_number(out, alloc, *n),
        CriticalFault::Apart(m, n, left, right) => push_apart(out, alloc, *m, *n, left, right),
        CriticalFault::Steps(start, end) => push_steps(out, alloc, start, end),
        CriticalFault::Size(_) => say(out, "size"),
        CriticalFault::Basis(_, _) => say(out, "basis"),
        CriticalFault::Unifiers(_, _) => say(out, "unifiers"),
    }
}

// What is answered for these rules.
fn push_tested(
    out: &mut String,
    alloc: Global,
    sig: &Signature,
    rules: &Rules,
    stops: Stops,
) -> Result<(), NoMemory>
    requires rules { AreUsable sig.now rules.now }
    requires readable { All (IsReadableEquation sig.now) rules.now.equations }
    requires unifiers { 1 ≤ stops.unifiers }
    requires size { stops.size ≤ TERM_SYMBOLS }
{
    let limits = SolveLimits {
        unifiers: stops.unifiers,
        size: stops.size,
    };
    let solver = AxiomUnify::new(sig, limits);
    let bounds = Bounds {
        steps: stops.steps,
        size: stops.size,
    };
    match critical_fault(alloc, sig, rules, &solver, bounds)? {
        Some(fault) => push_fault(out, alloc, &fault),
        None => say(out, "confluent"),
    }
}

// The same, where the limits are such as a solver takes.
fn push_within(
    out: &mut String,
    alloc: Global,
    sig: &Signature,
    rules: &Rules,
    stops: Stops,
) -> Result<(), NoMemory>
    requires rules { AreUsable sig.now rules.now }
    requires readable { All (IsReadableEquation sig.now) rules.now.equations }
{
    if stops.unifiers < 1 {
        return say(out, "no unifiers");
    }
    if stops.size > TERM_SYMBOLS {
        return say(out, "too many symbols");
    }
    push_tested(out, alloc, sig, rules, stops)
}

// The same for the rules of equations none of whose left sides is at fault.
fn push_answer_for(
    out: &mut String,
    alloc: Global,
    sig: &Signature,
    equations: &[Equation],
    stops: Stops,
) -> Result<(), NoMemory>
    requires { All (IsReadableEquation sig.now) equations.now }
{
    harmless_equations_are_admissible();
    match first_left_fault(alloc, sig, equations)? {
        Some(_) => say(out, "left side at fault"),
        None => {
            let rules = extend(alloc, sig, equations)?;
            push_within(out, alloc, sig, &rules, stops)
        }
    }
}

/// What is answered for the equations of a module.
pub fn push_answer(
    out: &mut String,
    alloc: Global,
    module: &Module,
    stops: Stops,
) -> Result<(), NoMemory> {
    module.recall_readable();
    push_answer_for(out, alloc, module.signature(), module.equations(), stops)
}

/// A module with these statements.
pub fn module_of(alloc: Global, statements: &str) -> Result<String, NoMemory> {
    let mut text = String::new(alloc);
    text.push_str("fmod M is ")?;
    text.push_str(statements)?;
    text.push_str(" endfm")?;
    Ok(text)
}
