//! What a statement declares of each of its operators.
ghost use Rattle.std.specs.Prelude.{◌≡◌, ◌≤◌, map, length, option_map, IfOk};
ghost use Rattle.fvn_base.specs.declared.limits.TheConstants.{SORTS as MOST_SORTS, OPERATORS as MOST_OPERATORS};
ghost use Rattle.fvn_module_declarations.specs.Operators.{rank_number, identity_in, sum_axioms, axioms_of};
ghost use Rattle.fvn_module_syntax.specs.LeftOut.{is_assoc, is_comm};
ghost use Rattle.std.specs.List.{list_any};
ghost use Rattle.fvn_module_declarations.specs.inner.Shapes.{own_axioms, shape_of};
ghost use Rattle.fvn_syntax.specs.Texts.{place_or_end};

use fvn_base::Seq;
use fvn_base::limits::FIRST_KIND;
use fvn_module_names::{Vocabulary, has_ditto};
use fvn_module_syntax::{Attribute, RawRank};
use fvn_syntax::{RawSort, Texts};
use fvn_terms::{Axioms, NoMemory, OpId, Rank, SortId};
use std::alloc::Global;

/// A rank, whether it is partial, and axioms unless they are those of an earlier declaration.
#[derive(Drop)]
pub struct Shape {
    pub rank: Rank,
    pub partial: bool,
    pub axioms: Option<Axioms>,
}

// The place of a name, or the number of all.
fn place_or_end(texts: &Texts, name: &[u8]) -> u16
    requires { length texts.now ≤ MOST_OPERATORS }
    ensures exact { result ≡ place_or_end texts.now name.now }
    ensures small { result ≤ MOST_OPERATORS }
{
    match texts.place(name) {
        Some(i) => i as u16,
        None => texts.len() as u16,
    }
}

// The number by which a rank names a sort, or the kind of the sorts in a bracket.
fn rank_number(v: &Vocabulary, written: &RawSort<'_>) -> SortId
    requires { length v.now.sorts ≤ MOST_SORTS }
    ensures { result ≡ rank_number v.now.sorts v.now.ops written.now }
{
    match written {
        RawSort::Name(name) => SortId(place_or_end(v.sorts(), name.bytes())),
        RawSort::Kind(name, _) => SortId(FIRST_KIND + place_or_end(v.sorts(), name.bytes())),
    }
}

// The numbers by which a rank names sorts.
fn rank_numbers(
    alloc: Global,
    v: &Vocabulary,
    written: &[RawSort<'_>],
) -> Result<Vec<SortId>, NoMemory>
    requires { length v.now.sorts ≤ MOST_SORTS }
    ensures { IfOk result (λ n. n.items ≡ map (rank_number v.now.sorts v.now.ops) written.now) }
{
    let mut numbers = Vec::new(alloc);
    for sort in written {
        numbers.push(rank_number(v, sort))?;
    }
    Ok(numbers)
}

// The identity that attributes name; a further one has no effect.
fn find_identity<'b>(attributes: &'b [Attribute<'_>]) -> Option<&'b [u8]>
    ensures { option_map (λ x. x.now) result ≡ identity_in attributes.now }
{
    for attribute in attributes {
        if let Attribute::Identity(name) = attribute {
            return Some(name.bytes());
        }
    }
    None
}

// Whether one of the attributes is `comm`.
fn has_comm(attributes: &[Attribute<'_>]) -> bool
    ensures { result ≡ list_any is_comm attributes.now }
{
    attributes
        .iter()
        .any(|attribute| matches!(attribute, Attribute::Comm))
}

// Whether one of the attributes is `assoc`.
fn has_assoc(attributes: &[Attribute<'_>]) -> bool
    ensures { result ≡ list_any is_assoc attributes.now }
{
    attributes
        .iter()
        .any(|attribute| matches!(attribute, Attribute::Assoc))
}

// The axioms of a sum, with an identity where one is named.
fn sum_axioms(v: &Vocabulary, attributes: &[Attribute<'_>]) -> Axioms
    requires { length v.now.ops ≤ MOST_OPERATORS }
    ensures { result ≡ sum_axioms v.now.sorts v.now.ops (identity_in attributes.now) }
{
    match find_identity(attributes) {
        Some(name) => Axioms::AssocCommId(OpId(place_or_end(v.ops(), name))),
        None => Axioms::AssocComm,
    }
}

// The axioms that attributes give.
fn axioms_of(v: &Vocabulary, attributes: &[Attribute<'_>]) -> Axioms
    requires { length v.now.ops ≤ MOST_OPERATORS }
    ensures { result ≡ axioms_of v.now.sorts v.now.ops attributes.now }
{
    if !has_comm(attributes) {
        return Axioms::Free;
    }
    if has_assoc(attributes) {
        sum_axioms(v, attributes)
    } else {
        Axioms::Comm
    }
}

// The axioms that attributes give, unless `ditto` is among them.
fn own_axioms(v: &Vocabulary, attributes: &[Attribute<'_>]) -> Option<Axioms>
    requires { length v.now.ops ≤ MOST_OPERATORS }
    ensures { result ≡ own_axioms v.now attributes.now }
{
    if has_ditto(attributes) {
        None
    } else {
        Some(axioms_of(v, attributes))
    }
}

/// The shape of a written rank with attributes.
pub fn shape_of(
    alloc: Global,
    v: &Vocabulary,
    written: &RawRank<'_>,
    attributes: &[Attribute<'_>],
) -> Result<Shape, NoMemory>
    requires sorts { length v.now.sorts ≤ MOST_SORTS }
    requires ops { length v.now.ops ≤ MOST_OPERATORS }
    ensures { IfOk result (λ s. s ≡ shape_of v.now written.now attributes.now) }
{
    let args = rank_numbers(alloc, v, written.args.as_slice())?;
    let rank = Rank {
        args: Seq::from_vec(args),
        result: rank_number(v, &written.result),
    };
    let axioms = own_axioms(v, attributes);
    Ok(Shape {
        rank,
        partial: written.partial,
        axioms,
    })
}
