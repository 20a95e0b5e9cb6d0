//! The lines of variants.
ghost use Rattle.std.specs.Prelude.{IfOk, All};
ghost use Rattle.fvn_answer.specs.Asked.{AreAsked};
ghost use Rattle.fvn_answer.specs.Writing.{bytes_of as lines_in};
ghost use Rattle.fvn_cmd_variants.specs.inner.Steps.{IsPrintable, AreLinesOfVariants};

use fvn_answer::{Line, variant_line};
use fvn_cover::Variant;
use fvn_module::Module;
use fvn_problems::Query;
use fvn_terms::NoMemory;
use std::alloc::Global;

// A line for each of the variants.
pub(crate) fn lines_of(
    alloc: Global,
    declared: &Module,
    query: &Query,
    variants: &[Variant],
) -> Result<Vec<Line>, NoMemory>
    requires vars { AreAsked declared.now.signature query.now.names.texts query.now.vars }
    requires variants { All (IsPrintable declared.now.signature query.now.vars) variants.now }
    ensures { IfOk result (λ lines. AreLinesOfVariants declared.now query.now variants.now
        (lines_in lines.items)) }
{
    let mut lines = Vec::new(alloc);
    for v in variants {
        let terms = v.terms.as_slice();
        let vars = query.vars.as_slice();
        let line = variant_line(alloc, declared, &query.names, &terms[0], &v.subst, vars)?;
        lines.push(line)?;
    }
    Ok(lines)
}
