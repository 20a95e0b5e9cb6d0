//! The classes of sorts that the order of sorts joins.
ghost use Rattle.std.specs.Prelude.{◌≡◌, ◌<◌, [], ◌∷◌, map, length, slice_get, IfOk};
ghost use Rattle.fvn_forms.specs.SortOrder.{sort_number};
ghost use Rattle.fvn_syntax.specs.Names.{sort_at};
ghost use Rattle.fvn_module_names.specs.Order.{declared_among, crossed, pairs_of_groups, pairs_in, ordered};
ghost use Rattle.fvn_module_names.specs.inner.Joining.{IsJoinedBy};
ghost use Rattle.fvn_module_names.specs.inner.Numbering.{HasLabels};

use crate::classes::Classes;
use fvn_base::Seq;
use fvn_module_syntax::Statement;
use fvn_syntax::{Text, Texts};
use fvn_terms::NoMemory;
use std::alloc::Global;

// The first declared sort among these names.
fn first_declared(sorts: &Texts, names: &[Text<'_>]) -> Option<usize>
    ensures { sort_at result ≡ slice_get (declared_among sorts.now names.now) 0 }
{
    for name in names {
        if let Some(i) = sorts.place(name.bytes()) {
            return Some(i);
        }
    }
    None
}

// The classes, where that of a name is put together with another one.
fn join_name(
    alloc: Global,
    classes: Classes,
    sorts: &Texts,
    name: &[u8],
    with: usize,
) -> Result<Classes, NoMemory>
    requires as_many { length classes ≡ length sorts.now }
    requires with { with < length sorts.now }
    ensures { IfOk result (λ c. IsJoinedBy classes c (map (λ s. (s, sort_number with))
        (declared_among sorts.now (name.now ∷ [])))) }
{
    match sorts.place(name) {
        Some(i) => {
            let classes = classes.join(alloc, i, with)?;
            Ok(classes)
        }
        None => Ok(classes),
    }
}

// The classes, where those of these names are put together with another one.
fn join_names(
    alloc: Global,
    classes: Classes,
    sorts: &Texts,
    names: &[Text<'_>],
    with: usize,
) -> Result<Classes, NoMemory>
    requires as_many { length classes ≡ length sorts.now }
    requires with { with < length sorts.now }
    ensures { IfOk result (λ c. IsJoinedBy classes c (map (λ s. (s, sort_number with))
        (declared_among sorts.now names.now))) }
{
    let mut joined = classes;
    for name in names {
        joined = join_name(alloc, joined, sorts, name.bytes(), with)?;
    }
    Ok(joined)
}

// The classes, where those of all sorts of two groups are put together.
fn join_groups(
    alloc: Global,
    classes: Classes,
    sorts: &Texts,
    lower: &[Text<'_>],
    upper: &[Text<'_>],
) -> Result<Classes, NoMemory>
    requires { length classes ≡ length sorts.now }
    ensures { IfOk result (λ c. IsJoinedBy classes c (crossed (declared_among sorts.now lower.now)
        (declared_among sorts.now upper.now))) }
{
    let Some(low) = first_declared(sorts, lower) else {
        return Ok(classes);
    };
    let Some(high) = first_declared(sorts, upper) else {
        return Ok(classes);
    };
    let half = join_names(alloc, classes, sorts, lower, high)?;
    let whole = join_names(alloc, half, sorts, upper, low)?;
    Ok(whole)
}

// The classes, where those of neighbouring groups are put together.
fn join_neighbours(
    alloc: Global,
    classes: Classes,
    sorts: &Texts,
    groups: &[Seq<Text<'_>>],
) -> Result<Classes, NoMemory>
    requires { length classes ≡ length sorts.now }
    ensures { IfOk result (λ c. IsJoinedBy classes c (pairs_of_groups sorts.now groups.now)) }
{
    let mut joined = classes;
    for i in 1..groups.len() {
        let lower = groups[i - 1].as_slice();
        joined = join_groups(alloc, joined, sorts, lower, groups[i].as_slice())?;
    }
    Ok(joined)
}

// The classes, where those of the pairs that a statement declares are put together.
fn join_statement(
    alloc: Global,
    classes: Classes,
    sorts: &Texts,
    statement: &Statement<'_>,
) -> Result<Classes, NoMemory>
    requires { length classes ≡ length sorts.now }
    ensures { IfOk result (λ c. IsJoinedBy classes c (pairs_in sorts.now statement.now)) }
{
    match statement {
        Statement::Subsorts { groups, .. } => {
            let classes = join_neighbours(alloc, classes, sorts, groups.as_slice())?;
            Ok(classes)
        }
        _ => Ok(classes),
    }
}

/// The classes of sorts that the order of these statements joins.
pub fn join_statements(
    alloc: Global,
    sorts: &Texts,
    statements: &[Statement<'_>],
) -> Result<Classes, NoMemory>
    ensures { IfOk result (λ c. HasLabels (ordered sorts.now statements.now) c) }
{
    let mut classes = Classes::new(alloc, sorts.len())?;
    for statement in statements {
        classes = join_statement(alloc, classes, sorts, statement)?;
    }
    Ok(classes)
}
