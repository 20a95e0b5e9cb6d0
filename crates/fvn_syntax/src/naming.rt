//! What single names stand for.
ghost use Rattle.std.specs.Prelude.{◌≡◌, ◌<◌, ◌≤◌, length, IfSome};
ghost use Rattle.fvn_base.specs.declared.limits.TheConstants.{NAMES};
ghost use Rattle.fvn_terms.specs.Signature.{axioms};
ghost use Rattle.fvn_terms.specs.Equality.{is_sum};
ghost use Rattle.fvn_syntax.specs.Texts.{place};
ghost use Rattle.fvn_syntax.specs.Names.{last_colon, sort_named, sorted_name, kind_in, kind_of, if_of_kind, args_of, result_of, op_named, constant_named, declared_sort, variable_named, resolve_name};

use crate::names::{Names, Variables};
use crate::piece::Text;
use crate::texts::Texts;
use fvn_terms::{Declarations, OpId, SortId};

/// What a name alone stands for: a constant, or the variable of a name and a sort.
#[derive(Drop)]
pub enum Meaning<'a> {
    Constant(OpId),
    Variable(Text<'a>, SortId),
}

/// The place of the last colon of a text.
#[tactic(auto, using(crate::proofs::Colons::last_from))]
pub fn find_last_colon(text: &[u8]) -> Option<usize>
    ensures exact { result ≡ last_colon text.now }
    ensures within { IfSome result (λ i. i < length text.now) }
{
    let mut found = None;
    for (i, byte) in text.iter().enumerate() {
        if *byte == b':' {
            found = Some(i);
        }
    }
    found
}

/// The sort of a name.
pub fn find_sort(sorts: &Texts, name: &[u8]) -> Option<SortId>
    requires { length sorts.now ≤ NAMES }
    ensures { result ≡ sort_named sorts.now name.now }
{
    match sorts.place(name) {
        Some(i) => Some(SortId(i as u16)),
        None => None,
    }
}

/// The name and the sort in NAME:SORT, split at its last colon.
pub fn split_sorted<'a>(sorts: &Texts, text: &'a [u8]) -> Option<(Text<'a>, SortId)>
    requires { length sorts.now ≤ NAMES }
    ensures { result ≡ sorted_name sorts.now text.now }
{
    let i = find_last_colon(text)?;
    if i == 0 {
        return None;
    }
    let sort = find_sort(sorts, &text[i + 1..])?;
    Some((Text::new(&text[..i]), sort))
}

// The kind of a sort, in the list of all kinds.
fn kind_among(kinds: &[SortId], s: SortId) -> SortId
    ensures { result ≡ kind_in kinds.now s }
{
    match kinds.get(usize::from(s.0)) {
        Some(k) => *k,
        None => s,
    }
}

/// The kind of the sort of a name.
pub fn find_kind(sorts: &Texts, kinds: &[SortId], name: &[u8]) -> Option<SortId>
    requires { length sorts.now ≤ NAMES }
    ensures { result ≡ kind_of kinds.now (sort_named sorts.now name.now) }
{
    let s = find_sort(sorts, name)?;
    Some(kind_among(kinds, s))
}

/// The kind, where the name is that of a sort of it.
pub fn keep_kind(sorts: &Texts, kinds: &[SortId], kind: SortId, name: &[u8]) -> Option<SortId>
    requires { length sorts.now ≤ NAMES }
    ensures { result ≡ if_of_kind kinds.now kind (sort_named sorts.now name.now) }
{
    let s = find_sort(sorts, name)?;
    if kind_among(kinds, s).0 == kind.0 {
        Some(kind)
    } else {
        None
    }
}

/// The sorts of an operator's arguments, in its first declaration.
pub fn first_arguments(d: &Declarations, op: OpId) -> &[SortId]
    ensures { result.now ≡ args_of d.now op }
{
    match d.declared(op) {
        Some(declared) => match declared.ranks.as_slice().first() {
            Some(rank) => rank.args.as_slice(),
            None => &[],
        },
        None => &[],
    }
}

/// The kind of an operator's results.
pub fn result_kind(d: &Declarations, op: OpId) -> SortId
    ensures { result ≡ result_of d.now op }
{
    match d.declared(op) {
        Some(declared) => match declared.ranks.as_slice().first() {
            Some(rank) => d.kind(rank.result),
            None => d.kind(SortId(0)),
        },
        None => d.kind(SortId(0)),
    }
}

/// Whether an operator is associative and commutative.
pub fn is_sum_operator(d: &Declarations, op: OpId) -> bool
    ensures { result ≡ is_sum (axioms d.now op) }
{
    match d.declared(op) {
        Some(declared) => declared.axioms.is_sum(),
        None => false,
    }
}

/// The operator of a name.
pub fn find_operator(names: &Names, name: &[u8]) -> Option<OpId>
    requires { length names.now.ops ≤ NAMES }
    ensures { result ≡ op_named names.now name.now }
{
    match names.ops.place(name) {
        Some(i) => Some(OpId(i as u16)),
        None => None,
    }
}

/// The constant of a name.
pub fn find_constant(d: &Declarations, names: &Names, name: &[u8]) -> Option<OpId>
    requires { length names.now.ops ≤ NAMES }
    ensures { result ≡ constant_named d.now names.now name.now }
{
    let op = find_operator(names, name)?;
    if first_arguments(d, op).is_empty() {
        Some(op)
    } else {
        None
    }
}

// The sort of the declared variable of a name.
fn find_declared(variables: &Variables, name: &[u8]) -> Option<SortId>
    ensures { result ≡ declared_sort variables.now.sorts (place variables.now.texts name.now) }
{
    let i = variables.texts.place(name)?;
    variables.sorts.as_slice().get(i).copied()
}

/// The variable of a name: a declared one, or else NAME:SORT.
pub fn find_variable<'a>(names: &Names, name: &'a [u8]) -> Option<(Text<'a>, SortId)>
    requires { length names.now.sorts ≤ NAMES }
    ensures { result ≡ variable_named names.now name.now }
{
    match find_declared(&names.variables, name) {
        Some(sort) => Some((Text::new(name), sort)),
        None => split_sorted(&names.sorts, name),
    }
}

/// What a name alone stands for: a declared constant, or else a declared variable, or else NAME:SORT.
pub fn find_meaning<'a>(d: &Declarations, names: &Names, name: &'a [u8]) -> Option<Meaning<'a>>
    requires sorts { length names.now.sorts ≤ NAMES }
    requires ops { length names.now.ops ≤ NAMES }
    ensures { result ≡ resolve_name d.now names.now name.now }
{
    if let Some(op) = find_constant(d, names, name) {
        return Some(Meaning::Constant(op));
    }
    let (x, sort) = find_variable(names, name)?;
    Some(Meaning::Variable(x, sort))
}
