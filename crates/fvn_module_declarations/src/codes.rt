//! Declarations as texts, by which one is found among others.
ghost use Rattle.std.specs.Prelude.{◌≡◌, ◌++◌, ◌∷◌, IfOk, OnOk};
ghost use Rattle.fvn_module_declarations.specs.inner.Codes.{number_code, sorts_code, axioms_code, code};

use fvn_terms::{Axioms, NoMemory, OpId, Rank, SortId};
use std::alloc::Global;

// Puts a number at the end as two bytes.
fn push_number(code: &mut Vec<u8>, n: u16) -> Result<(), NoMemory>
    ensures { OnOk result (code.new.items ≡ code.old.items ++ number_code n) }
{
    code.push((n / 256) as u8)?;
    code.push((n % 256) as u8)?;
    Ok(())
}

// Puts a byte and then a number at the end.
fn push_marked(code: &mut Vec<u8>, mark: u8, n: u16) -> Result<(), NoMemory>
    ensures { OnOk result (code.new.items ≡ code.old.items ++ (mark ∷ number_code n)) }
{
    code.push(mark)?;
    push_number(code, n)
}

// Puts axioms at the end.
fn push_axioms(code: &mut Vec<u8>, axioms: Axioms) -> Result<(), NoMemory>
    ensures { OnOk result (code.new.items ≡ code.old.items ++ axioms_code axioms) }
{
    match axioms {
        Axioms::Free => push_marked(code, 0, 0),
        Axioms::Comm => push_marked(code, 1, 0),
        Axioms::AssocComm => push_marked(code, 2, 0),
        Axioms::AssocCommId(e) => push_marked(code, 3, e.0),
    }
}

// Puts sorts at the end.
fn push_sorts(code: &mut Vec<u8>, sorts: &[SortId]) -> Result<(), NoMemory>
    ensures { OnOk result (code.new.items ≡ code.old.items ++ sorts_code sorts.now) }
{
    for sort in sorts {
        push_number(code, sort.0)?;
    }
    Ok(())
}

/// The declaration of an operator as a text.
pub fn declaration_code(
    alloc: Global,
    op: OpId,
    rank: &Rank,
    partial: bool,
    axioms: Axioms,
) -> Result<Vec<u8>, NoMemory>
    ensures { IfOk result (λ v. v.items ≡ code (record {
      op = op;
      rank = rank.now;
      partial = partial;
      axioms = axioms;
    })) }
{
    let mut code = Vec::new(alloc);
    let mark = if partial { 1 } else { 0 };
    push_marked(&mut code, mark, op.0)?;
    push_axioms(&mut code, axioms)?;
    push_number(&mut code, rank.result.0)?;
    push_sorts(&mut code, rank.args.as_slice())?;
    Ok(code)
}
