//! Reading names of sorts, operators and variables.
ghost use Rattle.std.specs.Prelude.{◌≡◌, ◌<◌, ◌^◌, IfOk, Some, None, MatchOption};
ghost use Rattle.std.specs.List.{list_all};
ghost use Rattle.fvn_module_statements.specs.inner.Names.{group_of, sort_names_of, groups_of, whole_sort, declared_sort, variables_of, split_colon, before_close, round_name};
ghost use Rattle.fvn_module_syntax.specs.Words.{has_colon, begins_with_underscore, ends_with_underscore, are_apart, touch, depth_behind, names_touch};

use crate::reader::{Reader, read_all};
use crate::sorts::read_sort;
use fvn_base::Seq;
use fvn_module_syntax::OperatorName;
use fvn_syntax::{Piece, RawSort, Row, Text};
use fvn_terms::NoMemory;
use std::alloc::Global;

// Whether the word has a colon.
fn has_colon(text: &[u8]) -> bool
    ensures { result ≡ has_colon text.now }
{
    text.contains(&b':')
}

// A word without a colon.
struct SortName;

impl<'a> Reader<'a, Text<'a>> for SortName {
    ghost use Rattle.fvn_module_statements.specs.inner.Names.{sort_name_of};

    ghost reads = { sort_name_of };

    fn read(
        &self,
        _alloc: Global,
        row: &'a [Piece<'a>],
    ) -> Result<Option<(Text<'a>, Row<'a>)>, NoMemory> {
        match row.split_first() {
            Some((piece, rest)) if piece.is_word() && !has_colon(piece.text()) => {
                Ok(Some((Text::new(piece.text()), Row::new(rest))))
            }
            _ => Ok(None),
        }
    }
}

// A word other than `<`.
struct Member;

impl<'a> Reader<'a, Text<'a>> for Member {
    ghost use Rattle.fvn_module_statements.specs.inner.Names.{member_of};

    ghost reads = { member_of };

    fn read(
        &self,
        _alloc: Global,
        row: &'a [Piece<'a>],
    ) -> Result<Option<(Text<'a>, Row<'a>)>, NoMemory> {
        match row.split_first() {
            Some((piece, rest)) if piece.is_word() && !piece.is_name(b"<") => {
                Ok(Some((Text::new(piece.text()), Row::new(rest))))
            }
            _ => Ok(None),
        }
    }
}

// One word or more.
fn read_group<'a>(
    alloc: Global,
    row: &'a [Piece<'a>],
) -> Result<Option<(Seq<Text<'a>>, Row<'a>)>, NoMemory>
    ensures { IfOk result (λ r. r ≡ group_of row.now) }
{
    let (names, rest) = read_all(alloc, &Member, row)?;
    if names.is_empty() {
        return Ok(None);
    }
    Ok(Some((names, rest)))
}

// A `<` and one word or more.
struct GroupAbove;

impl<'a> Reader<'a, Seq<Text<'a>>> for GroupAbove {
    ghost use Rattle.fvn_module_statements.specs.inner.Names.{group_above};

    ghost reads = { group_above };

    fn read(
        &self,
        alloc: Global,
        row: &'a [Piece<'a>],
    ) -> Result<Option<(Seq<Text<'a>>, Row<'a>)>, NoMemory> {
        match row.split_first() {
            Some((piece, rest)) if piece.is_name(b"<") => read_group(alloc, rest),
            _ => Ok(None),
        }
    }
}

/// The names of sorts that are the tokens.
pub fn read_sort_names<'a>(
    alloc: Global,
    row: &'a [Piece<'a>],
) -> Result<Option<Seq<Text<'a>>>, NoMemory>
    ensures { IfOk result (λ r. r ≡ sort_names_of row.now) }
{
    let (names, rest) = read_all(alloc, &SortName, row)?;
    if names.is_empty() || !rest.pieces().is_empty() {
        return Ok(None);
    }
    Ok(Some(names))
}

/// The groups of sorts that are the tokens, with `<` between them.
pub fn read_groups<'a>(
    alloc: Global,
    row: &'a [Piece<'a>],
) -> Result<Option<Seq<Seq<Text<'a>>>>, NoMemory>
    ensures { IfOk result (λ r. r ≡ groups_of row.now) }
{
    let Some((first, rest)) = read_group(alloc, row)? else {
        return Ok(None);
    };
    let (above, rest) = read_all(alloc, &GroupAbove, rest.pieces())?;
    if above.is_empty() || !rest.pieces().is_empty() {
        return Ok(None);
    }
    let mut groups = above.into_vec();
    groups.insert(0, first)?;
    Ok(Some(Seq::from_vec(groups)))
}

// The sort that is the tokens.
fn read_whole_sort<'a>(alloc: Global, row: &'a [Piece<'a>]) -> Result<Option<RawSort<'a>>, NoMemory>
    ensures { IfOk result (λ r. r ≡ whole_sort row.now) }
{
    match read_sort(alloc, row)? {
        Some((sort, rest)) if rest.pieces().is_empty() => Ok(Some(sort)),
        _ => Ok(None),
    }
}

// The sort behind a colon, both of which are the tokens.
fn read_declared_sort<'a>(
    alloc: Global,
    row: &'a [Piece<'a>],
) -> Result<Option<RawSort<'a>>, NoMemory>
    ensures { IfOk result (λ r. r ≡ declared_sort row.now) }
{
    match row.split_first() {
        Some((piece, rest)) if piece.is_name(b":") => read_whole_sort(alloc, rest),
        _ => Ok(None),
    }
}

// A word before a colon and a sort at the end.
struct VariableName;

impl<'a> Reader<'a, Text<'a>> for VariableName {
    ghost use Rattle.fvn_module_statements.specs.inner.Names.{variable_of};

    ghost reads = { variable_of };

    fn read(
        &self,
        alloc: Global,
        row: &'a [Piece<'a>],
    ) -> Result<Option<(Text<'a>, Row<'a>)>, NoMemory> {
        let Some((piece, rest)) = row.split_first() else {
            return Ok(None);
        };
        if !piece.is_word() || read_declared_sort(alloc, row)?.is_some() {
            return Ok(None);
        }
        Ok(Some((Text::new(piece.text()), Row::new(rest))))
    }
}

/// The names of variables and their sort that are the tokens.
pub fn read_variables<'a>(
    alloc: Global,
    row: &'a [Piece<'a>],
) -> Result<Option<(Seq<Text<'a>>, RawSort<'a>)>, NoMemory>
    ensures { IfOk result (λ r. r ≡ variables_of row.now) }
{
    let (names, rest) = read_all(alloc, &VariableName, row)?;
    match read_declared_sort(alloc, rest.pieces())? {
        Some(sort) if !names.is_empty() => Ok(Some((names, sort))),
        _ => Ok(None),
    }
}

/// What stands before and behind the first colon.
pub fn split_colon<'a>(row: &'a [Piece<'a>]) -> Option<(Row<'a>, Row<'a>)>
    ensures { result ≡ split_colon row.now }
{
    for (i, piece) in row.iter().enumerate() {
        if piece.is_name(b":") {
            return Some((Row::new(&row[..i]), Row::new(&row[i + 1..])));
        }
    }
    None
}

// Whether the word begins with an underscore.
fn begins_with_underscore(text: &[u8]) -> bool
    ensures { result ≡ begins_with_underscore text.now }
{
    !text.is_empty() && text[0] == b'_'
}

// Whether the word ends with an underscore.
fn ends_with_underscore(text: &[u8]) -> bool
    ensures { result ≡ ends_with_underscore text.now }
{
    !text.is_empty() && text[text.len() - 1] == b'_'
}

// Whether two tokens are words that do not touch at an underscore.
fn are_apart(left: &Piece<'_>, right: &Piece<'_>) -> bool
    ensures { result ≡ are_apart left.now right.now }
{
    left.is_word()
        && right.is_word()
        && !ends_with_underscore(left.text())
        && !begins_with_underscore(right.text())
}

/// Whether any two words that stand side by side touch at an underscore.
pub fn touch(row: &[Piece<'_>]) -> bool
    ensures { result ≡ touch row.now }
{
    let Some((first, rest)) = row.split_first() else {
        return true;
    };
    let mut last = first;
    for piece in rest {
        if are_apart(last, piece) {
            return false;
        }
        last = piece;
    }
    true
}

// How many parentheses are open behind a token.
fn depth_behind(depth: usize, piece: &Piece<'_>) -> usize
    requires { depth < 2 ^ 63 }
    ensures { result ≡ depth_behind depth piece.now }
{
    if piece.is_special(b")") {
        depth.saturating_sub(1)
    } else if piece.is_special(b"(") {
        depth + 1
    } else {
        depth
    }
}

// What stands before the parenthesis that closes, and behind it.
fn before_close<'a>(row: &'a [Piece<'a>]) -> Option<(Row<'a>, Row<'a>)>
    ensures { result ≡ before_close 0 row.now }
{
    let mut depth: usize = 0;
    for (i, piece) in row.iter().enumerate() {
        if piece.is_name(b":") {
            return None;
        }
        if piece.is_special(b")") && depth == 0 {
            return Some((Row::new(&row[..i]), Row::new(&row[i + 1..])));
        }
        depth = depth_behind(depth, piece);
    }
    None
}

// A word other than `:`, or tokens in parentheses.
pub struct AnyName;

impl<'a> Reader<'a, OperatorName<'a>> for AnyName {
    ghost use Rattle.fvn_module_statements.specs.inner.Names.{name_of};

    ghost reads = { name_of };

    fn read(
        &self,
        _alloc: Global,
        row: &'a [Piece<'a>],
    ) -> Result<Option<(OperatorName<'a>, Row<'a>)>, NoMemory> {
        let Some((piece, rest)) = row.split_first() else {
            return Ok(None);
        };
        if piece.is_special(b"(") {
            return Ok(read_round(rest));
        }
        if !piece.is_word() || piece.is_name(b":") {
            return Ok(None);
        }
        Ok(Some((
            OperatorName::Single(Text::new(piece.text())),
            Row::new(rest),
        )))
    }
}

// A name in parentheses, of which the first is read.
fn read_round<'a>(row: &'a [Piece<'a>]) -> Option<(OperatorName<'a>, Row<'a>)>
    ensures { MatchOption (before_close 0 row.now) (result ≡ None) (λ r.
        result ≡ round_name r.0 r.1) }
{
    let Some((inside, rest)) = before_close(row) else {
        return None;
    };
    if inside.pieces().is_empty() {
        None
    } else {
        Some((OperatorName::Round(inside), rest))
    }
}

// Whether the words of a name touch at underscores.
fn names_touch(name: &OperatorName<'_>) -> bool
    ensures { result ≡ names_touch name.now }
{
    match name {
        OperatorName::Single(_) => true,
        OperatorName::Round(row) => touch(row.pieces()),
    }
}

/// Whether the words of each of these names touch at underscores.
pub fn all_touch(names: &[OperatorName<'_>]) -> bool
    ensures { result ≡ list_all names_touch names.now }
{
    names.iter().all(|name| names_touch(name))
}
