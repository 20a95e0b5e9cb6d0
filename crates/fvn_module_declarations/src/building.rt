//! The builder of what statements declare, within the limits of a signature.
ghost use Rattle.std.specs.Prelude.{◌≡◌, ◌≤◌, [], length, IfOk};
ghost use Rattle.fvn_base.specs.declared.limits.TheConstants.{SORTS as MOST_SORTS, OPERATORS as MOST};
ghost use Rattle.fvn_module_declarations.specs.Module.{collected_in};
ghost use Rattle.fvn_module_names.specs.Faults.{HasNames};
ghost use Rattle.fvn_module_names.specs.Vocabulary.{vocabulary_of};

use crate::drafts::Draft;
use crate::pairs::add_pairs;
use fvn_module_names::Vocabulary;
use fvn_module_syntax::Statement;
use fvn_sorts::SignatureBuilder;
use fvn_terms::NoMemory;
use std::alloc::Global;

// A builder with so many sorts.
fn with_sorts(alloc: Global, count: usize) -> Result<SignatureBuilder, NoMemory>
    requires { count ≤ MOST_SORTS }
    ensures { IfOk result (λ b. b ≡ record {
      sorts = count;
      below = [];
      operators = 0;
      declarations = [];
    }) }
{
    let mut builder = SignatureBuilder::new(alloc);
    for _ in 0..count {
        builder = builder.sort()?;
    }
    Ok(builder)
}

/// The builder of what statements declare.
pub fn build(
    alloc: Global,
    v: &Vocabulary,
    statements: &[Statement<'_>],
) -> Result<SignatureBuilder, NoMemory>
    requires vocabulary { v.now ≡ vocabulary_of statements.now }
    requires named { HasNames statements.now }
    requires sorts { length v.now.sorts ≤ MOST_SORTS }
    requires ops { length v.now.ops ≤ MOST }
    ensures { IfOk result (λ b. b ≡ collected_in statements.now) }
{
    let sorted = with_sorts(alloc, v.sorts().len())?;
    let ordered = add_pairs(alloc, sorted, v.sorts(), statements)?;
    let empty = Draft::new(alloc, ordered)?;
    let draft = empty.add_all(alloc, v, statements)?;
    Ok(draft.into_builder())
}
