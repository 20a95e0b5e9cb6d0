//! Shows all that a module answers: sorts, results of operators, axioms and equations.
use super::writing::{push_between, push_operator, push_pair, push_sort};
use fvn_module::{Module, read_module};
use fvn_signature::Signature;
use fvn_syntax::Texts;
use fvn_terms::{Axioms, NoMemory, OpId, SortId};
use std::alloc::Global;

// More than any of these modules declares.
const MOST: u16 = 64;

// The declared sorts above a sort.
fn push_above(out: &mut String, alloc: Global, module: &Module, s: SortId) -> Result<(), NoMemory> {
    let signature = module.signature();
    for q in 0..MOST {
        if usize::from(q) < signature.sort_count() && q != s.0 && signature.leq(s, SortId(q)) {
            out.push('<')?;
            push_sort(out, alloc, module.names(), SortId(q))?;
        }
    }
    Ok(())
}

// Each declared sort with those above it and its kind.
fn push_sorts(out: &mut String, alloc: Global, module: &Module) -> Result<(), NoMemory> {
    for s in 0..MOST {
        if usize::from(s) < module.signature().sort_count() {
            push_between(out, "; ")?;
            push_sort(out, alloc, module.names(), SortId(s))?;
            push_above(out, alloc, module, SortId(s))?;
            out.push_str(" in ")?;
            push_sort(
                out,
                alloc,
                module.names(),
                module.signature().kind(SortId(s)),
            )?;
        }
    }
    Ok(())
}

// The word for the axioms of an operator, and its identity.
fn push_axioms(out: &mut String, module: &Module, op: OpId) -> Result<(), NoMemory> {
    match module.signature().axioms(op) {
        Axioms::Free => out.push_str(" free")?,
        Axioms::Comm => out.push_str(" comm")?,
        Axioms::AssocComm => out.push_str(" ac")?,
        Axioms::AssocCommId(e) => {
            out.push_str(" acu ")?;
            push_operator(out, module.names(), e)?;
        }
    }
    Ok(())
}

// The kind of an argument, by the first rank that serves the operator.
fn argument_kind(signature: &Signature, op: OpId, place: usize) -> Option<SortId> {
    if signature.rank_count(op) == 0 {
        return None;
    }
    let sort = signature.rank(op, 0).args.as_slice().get(place)?;
    Some(signature.kind(*sort))
}

// The least sort for arguments of these sorts.
fn push_result(
    out: &mut String,
    alloc: Global,
    module: &Module,
    op: OpId,
    args: &[SortId],
) -> Result<(), NoMemory> {
    let mut before = " ";
    for s in args {
        out.push_str(before)?;
        push_sort(out, alloc, module.names(), *s)?;
        before = ",";
    }
    out.push_str(if args.is_empty() { " >" } else { ">" })?;
    push_sort(
        out,
        alloc,
        module.names(),
        module.signature().result(op, args),
    )
}

// Whether the number is that of a sort or a kind, and the kind is this one.
fn is_of_kind(signature: &Signature, s: u16, kind: SortId) -> bool {
    usize::from(s) < signature.declarations().kinds.as_slice().len()
        && signature.kind(SortId(s)) == kind
}

// The results for a second argument of each sort of its kind.
fn push_seconds(
    out: &mut String,
    alloc: Global,
    module: &Module,
    op: OpId,
    first: SortId,
) -> Result<(), NoMemory> {
    let signature = module.signature();
    let Some(kind) = argument_kind(signature, op, 1) else {
        return push_result(out, alloc, module, op, &[first]);
    };
    for s in 0..MOST {
        if is_of_kind(signature, s, kind) {
            push_result(out, alloc, module, op, &[first, SortId(s)])?;
        }
    }
    Ok(())
}

// The results of an operator with two arguments at most, for each list of sorts of their kinds.
fn push_results(
    out: &mut String,
    alloc: Global,
    module: &Module,
    op: OpId,
) -> Result<(), NoMemory> {
    let signature = module.signature();
    let Some(kind) = argument_kind(signature, op, 0) else {
        return push_result(out, alloc, module, op, &[]);
    };
    for s in 0..MOST {
        if is_of_kind(signature, s, kind) {
            push_seconds(out, alloc, module, op, SortId(s))?;
        }
    }
    Ok(())
}

// Each operator with its axioms and its results.
fn push_operators(out: &mut String, alloc: Global, module: &Module) -> Result<(), NoMemory> {
    for op in 0..MOST {
        if usize::from(op) < module.signature().op_count() {
            push_between(out, "; ")?;
            push_operator(out, module.names(), OpId(op))?;
            push_axioms(out, module, OpId(op))?;
            push_results(out, alloc, module, OpId(op))?;
        }
    }
    Ok(())
}

// The two sides of each equation.
fn push_equations(out: &mut String, alloc: Global, module: &Module) -> Result<(), NoMemory> {
    let nameless = Texts::new(alloc);
    for equation in module.equations() {
        push_between(out, "; ")?;
        push_pair(
            out,
            alloc,
            module.names(),
            &nameless,
            &equation.left,
            &equation.right,
        )?;
    }
    Ok(())
}

// All that the module answers.
fn shown(alloc: Global, module: &Module) -> Result<String, NoMemory> {
    let mut out = String::new(alloc);
    push_sorts(&mut out, alloc, module)?;
    push_operators(&mut out, alloc, module)?;
    push_equations(&mut out, alloc, module)?;
    Ok(out)
}

/// All that the module of a text answers.
pub fn shown_answers(alloc: Global, text: &str) -> Result<String, NoMemory> {
    match read_module(alloc, text.as_bytes()) {
        Ok(module) => shown(alloc, &module),
        Err(fault) => Ok(format!(in alloc; "{fault:?}")?),
    }
}
