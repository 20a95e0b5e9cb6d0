//! Equations among statements.
ghost use Rattle.std.specs.Prelude.{◌≡◌, IfOk};
ghost use Rattle.fvn_module.specs.Equations.{equations_in};

use fvn_module_syntax::Statement;
use fvn_syntax::Row;
use fvn_terms::NoMemory;
use std::alloc::Global;

/// The tokens of an equation's sides, with the number of its statement.
#[derive(Drop)]
pub struct Sides<'a> {
    pub number: usize,
    pub left: Row<'a>,
    pub right: Row<'a>,
}

/// The equations among the statements of a module.
pub fn collect_sides<'a>(
    alloc: Global,
    statements: &[Statement<'a>],
) -> Result<Vec<Sides<'a>>, NoMemory>
    ensures { IfOk result (λ list. list.items ≡ equations_in statements.now) }
{
    let mut list = Vec::new(alloc);
    for (i, statement) in statements.iter().enumerate() {
        if let Statement::Equation { left, right, .. } = statement {
            list.push(Sides {
                number: i + 1,
                left: Row::new(left.pieces()),
                right: Row::new(right.pieces()),
            })?;
        }
    }
    Ok(list)
}
