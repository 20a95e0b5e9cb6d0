//! Reading what a term stands for, piece by piece, with what is not closed on a stack.
ghost use Rattle.std.specs.Prelude.{◌≡◌, ◌⊎◌, ◌&&◌, [], ◌∷◌, reverse, Ok, Err, None, IfOk, IfErr};
ghost use Rattle.fvn_syntax.specs.declared.fault.TermFault.TheVariants.{NoMemory as OutOfMemory};
ghost use Rattle.fvn_syntax.specs.Pieces.{without_last, is_reserved};
ghost use Rattle.fvn_syntax.specs.Raw.{IsTermBefore};
ghost use Rattle.fvn_syntax.specs.Names.{op_named};
ghost use Rattle.fvn_syntax.specs.Resolve.{the_constant, applied, checked};
ghost use Rattle.fvn_syntax.specs.Readings.{Reads, Refuses};
ghost use Rattle.fvn_syntax.specs.inner.Reading.{
  state,
  start,
  view,
  result_view,
  unbuilt,
  own_symbols,
  kept,
  Reaches,
  Gives,
  grown,
  leaf,
  sorted_leaf,
  closed,
  behind,
  behind_argument,
  open_call,
  next_kind,
  step,
  step_at,
  finish_at,
  run,
};

use crate::applying::{build, find_fault};
use crate::fault::TermFault;
use crate::form::ends_with_colon;
use crate::naming::{
    Meaning, find_kind, find_meaning, find_operator, is_sum_operator, keep_kind, result_kind,
};
use crate::piece::{Piece, Text};
use crate::scope::Scope;
use crate::seen::{Kinded, Seen};
use fvn_base::Seq;
use fvn_terms::{Args, OpId, Plain, SortId, Var};
use std::alloc::Global;

/// What is not closed: a term in parentheses, or an operator with the kinds and terms of its arguments so far.
#[derive(Drop)]
pub enum Frame {
    Round,
    Call(OpId, Seq<SortId>, Seq<Plain>),
}

/// What was read last: what asks for a term, a name, a variable with a bracket and the kind of its sorts so far,
/// or a whole term.
#[derive(Drop)]
pub enum Spot<'a> {
    Wanted,
    Named(Text<'a>),
    Sorts(Text<'a>, Option<SortId>),
    Whole(Kinded),
}

/// The reading so far.
#[derive(Drop)]
pub struct Reading<'a> {
    pub frames: Vec<Frame>,
    pub spot: Spot<'a>,
    pub seen: Seen,
}

// The reading that goes on here.
fn reading_at<'a>(frames: Vec<Frame>, spot: Spot<'a>, seen: Seen) -> Reading<'a>
    ensures { view result ≡ state (reverse frames.items) spot.entry seen }
{
    Reading { frames, spot, seen }
}

// The reading behind one more open frame.
fn open<'a>(mut frames: Vec<Frame>, seen: Seen, frame: Frame) -> Result<Reading<'a>, TermFault>
    ensures ok { IfOk result
        (λ next. view next ≡ state (frame ∷ reverse frames.items) Spot.Wanted seen) }
    ensures err { IfErr result (λ fault. fault ≡ OutOfMemory) }
{
    frames.push(frame)?;
    Ok(reading_at(frames, Spot::Wanted, seen))
}

// The variable of a name and a sort, with one more symbol.
fn give_variable(
    alloc: Global,
    limit: usize,
    scope: &Scope<'_>,
    seen: Seen,
    name: &[u8],
    sort: SortId,
) -> Result<(Kinded, Seen), TermFault>
    ensures ok { IfOk result (λ x. x ≡ sorted_leaf limit scope.now seen name.now sort) }
    ensures err { IfErr result (λ fault. fault ≡ OutOfMemory) }
{
    let Seen { mut texts, count } = seen;
    let place = texts.insert(alloc, name)?;
    let count = count.saturating_add(1);
    let name = match u32::try_from(place) {
        Ok(name) => name,
        Err(_) => return Err(TermFault::NoMemory),
    };
    let fresh = false;
    let term = if count <= limit {
        Plain::Var(Var { name, sort, fresh })
    } else {
        filler()
    };
    let kind = scope.declarations().kind(sort);
    Ok((Kinded { term, kind }, Seen { texts, count }))
}

// A term in place of those that are not built.
fn filler() -> Plain
    ensures { result ≡ unbuilt }
{
    Plain::Var(Var {
        name: 0,
        sort: SortId(0),
        fresh: false,
    })
}

// A constant, with one more symbol.
fn give_constant(
    alloc: Global,
    limit: usize,
    scope: &Scope<'_>,
    seen: Seen,
    op: OpId,
) -> (Kinded, Seen)
    ensures { result ≡ grown limit 1 seen (the_constant scope.now seen.texts op) }
{
    let Seen { texts, count } = seen;
    let count = count.saturating_add(1);
    let term = if count <= limit {
        Plain::App(op, Args::from_vec(Vec::new(alloc)))
    } else {
        filler()
    };
    let kind = result_kind(scope.declarations(), op);
    (Kinded { term, kind }, Seen { texts, count })
}

// Whether no variable may have this name.
fn is_refused(scope: &Scope<'_>, name: &[u8]) -> bool
    ensures { result ≡ (scope.now.guarded && is_reserved name.now) }
{
    scope.guarded() && (0 < name.len() && name[0] == b'#')
}

// What a name alone stands for.
fn give_name(
    alloc: Global,
    limit: usize,
    scope: &Scope<'_>,
    seen: Seen,
    name: &[u8],
) -> Result<(Kinded, Seen), TermFault>
    ensures { Gives (leaf limit scope.now seen name.now) result }
{
    match find_meaning(scope.declarations(), scope.names(), name) {
        None => Err(TermFault::UnknownName),
        Some(Meaning::Constant(op)) => Ok(give_constant(alloc, limit, scope, seen, op)),
        Some(Meaning::Variable(x, sort)) => {
            if is_refused(scope, x.bytes()) {
                return Err(TermFault::ReservedName);
            }
            give_variable(alloc, limit, scope, seen, x.bytes(), sort)
        }
    }
}

// The symbols that an application adds.
fn count_own(sum: bool, number: usize) -> usize
    ensures { result ≡ own_symbols sum number }
{
    if sum { number.saturating_sub(1) } else { 1 }
}

// An operator over its arguments.
fn close(
    alloc: Global,
    limit: usize,
    scope: &Scope<'_>,
    seen: Seen,
    op: OpId,
    kinds: Vec<SortId>,
    terms: Vec<Plain>,
) -> Result<(Kinded, Seen), TermFault>
    ensures { Gives (closed limit scope.now seen op kinds.items terms.items) result }
{
    let d = scope.declarations();
    let sum = is_sum_operator(d, op);
    if let Some(fault) = find_fault(d, sum, op, kinds.as_slice()) {
        return Err(fault);
    }
    let Seen { texts, count } = seen;
    let count = count.saturating_add(count_own(sum, kinds.len()));
    let kind = result_kind(d, op);
    let term = build_within(alloc, limit, count, sum, op, terms)?;
    Ok((Kinded { term, kind }, Seen { texts, count }))
}

// The operator over its arguments, where there are no more symbols than the limit.
fn build_within(
    alloc: Global,
    limit: usize,
    count: usize,
    sum: bool,
    op: OpId,
    terms: Vec<Plain>,
) -> Result<Plain, TermFault>
    ensures ok { IfOk result (λ t. t ≡ kept limit count (applied sum op terms.items)) }
    ensures err { IfErr result (λ fault. fault ≡ OutOfMemory) }
{
    if count <= limit {
        return Ok(build(alloc, sum, op, terms)?);
    }
    Ok(filler())
}

// Reads a piece behind the last of these arguments.
fn read_behind_argument<'a>(
    alloc: Global,
    limit: usize,
    scope: &Scope<'_>,
    frames: Vec<Frame>,
    seen: Seen,
    piece: &Piece<'a>,
    op: OpId,
    kinds: Vec<SortId>,
    terms: Vec<Plain>,
) -> Result<Reading<'a>, TermFault>
    ensures { Reaches
        (behind_argument limit scope.now (reverse frames.items) seen piece.now op
        kinds.items terms.items) result }
{
    if piece.is_special(b",") {
        return open(
            frames,
            seen,
            Frame::Call(op, Seq::from_vec(kinds), Seq::from_vec(terms)),
        );
    }
    let (term, seen) = close(alloc, limit, scope, seen, op, kinds, terms)?;
    Ok(reading_at(frames, Spot::Whole(term), seen))
}

// Puts a whole term behind these arguments, and reads the piece behind it.
fn add_argument<'a>(
    alloc: Global,
    limit: usize,
    scope: &Scope<'_>,
    frames: Vec<Frame>,
    seen: Seen,
    piece: &Piece<'a>,
    op: OpId,
    kinds: Seq<SortId>,
    terms: Seq<Plain>,
    whole: Kinded,
) -> Result<Reading<'a>, TermFault>
    ensures { Reaches
        (behind limit scope.now (whole, seen) piece.now
        (Frame.Call op kinds terms ∷ reverse frames.items)) result }
{
    let Kinded { term, kind } = whole;
    let mut kinds = kinds.into_vec();
    kinds.push(kind)?;
    let mut terms = terms.into_vec();
    terms.push(term)?;
    read_behind_argument(alloc, limit, scope, frames, seen, piece, op, kinds, terms)
}

// Reads a piece behind a whole term in an open frame.
fn read_in_frame<'a>(
    alloc: Global,
    limit: usize,
    scope: &Scope<'_>,
    frames: Vec<Frame>,
    frame: Frame,
    given: (Kinded, Seen),
    piece: &Piece<'a>,
) -> Result<Reading<'a>, TermFault>
    ensures { Reaches
        (behind limit scope.now given piece.now (frame ∷ reverse frames.items)) result }
{
    let (whole, seen) = given;
    match frame {
        Frame::Round => Ok(reading_at(frames, Spot::Whole(whole), seen)),
        Frame::Call(op, kinds, terms) => {
            add_argument(
                alloc, limit, scope, frames, seen, piece, op, kinds, terms, whole,
            )
        }
    }
}

// Reads a piece behind a whole term.
fn read_behind<'a>(
    alloc: Global,
    limit: usize,
    scope: &Scope<'_>,
    mut frames: Vec<Frame>,
    given: (Kinded, Seen),
    piece: &Piece<'a>,
) -> Result<Reading<'a>, TermFault>
    ensures { Reaches (behind limit scope.now given piece.now (reverse frames.items)) result }
{
    match frames.pop() {
        None => {
            let (whole, seen) = given;
            Ok(reading_at(frames, Spot::Whole(whole), seen))
        }
        Some(frame) => read_in_frame(alloc, limit, scope, frames, frame, given, piece),
    }
}

// Opens the arguments of an operator.
fn open_arguments<'a>(
    alloc: Global,
    scope: &Scope<'_>,
    frames: Vec<Frame>,
    seen: Seen,
    name: &[u8],
) -> Result<Reading<'a>, TermFault>
    ensures { Reaches
        (open_call (reverse frames.items) seen (op_named scope.now.names name.now)) result }
{
    match find_operator(scope.names(), name) {
        None => Err(TermFault::UnknownName),
        Some(op) => open(
            frames,
            seen,
            Frame::Call(op, Seq::new(alloc), Seq::new(alloc)),
        ),
    }
}

// The text without its last byte.
fn cut_last<'a>(text: &'a [u8]) -> &'a [u8]
    ensures { result.now ≡ without_last text.now }
{
    &text[..text.len().saturating_sub(1)]
}

// Opens the bracket of a variable of a kind.
fn open_bracket<'a>(
    scope: &Scope<'_>,
    frames: Vec<Frame>,
    seen: Seen,
    name: &'a [u8],
) -> Result<Reading<'a>, TermFault>
    ensures { result_view result ≡ checked scope.now.guarded name.now
        (Ok (state (reverse frames.items) (Spot.Sorts name.now None) seen)) }
{
    if is_refused(scope, name) {
        return Err(TermFault::ReservedName);
    }
    Ok(reading_at(frames, Spot::Sorts(Text::new(name), None), seen))
}

// Reads a piece behind a name.
fn read_named<'a>(
    alloc: Global,
    limit: usize,
    scope: &Scope<'_>,
    frames: Vec<Frame>,
    seen: Seen,
    name: &'a [u8],
    piece: &Piece<'a>,
) -> Result<Reading<'a>, TermFault>
    ensures { Reaches
        (step_at limit scope.now (reverse frames.items) seen piece.now (Spot.Named name.now))
        result }
{
    if piece.is_special(b"(") {
        return open_arguments(alloc, scope, frames, seen, name);
    }
    if ends_with_colon(name) && piece.is_special(b"[") {
        return open_bracket(scope, frames, seen, cut_last(name));
    }
    let given = give_name(alloc, limit, scope, seen, name)?;
    read_behind(alloc, limit, scope, frames, given, piece)
}

// The kind of a bracket, with one more of its sorts.
fn add_sort(scope: &Scope<'_>, kind: Option<SortId>, name: &[u8]) -> Option<SortId>
    ensures { result ≡ next_kind scope.now kind name.now }
{
    let names = scope.names();
    let kinds = scope.declarations().kinds.as_slice();
    match kind {
        None => find_kind(&names.sorts, kinds, name),
        Some(kind) => keep_kind(&names.sorts, kinds, kind, name),
    }
}

// Reads a piece in the bracket of a variable of a kind.
fn read_sorts<'a>(
    alloc: Global,
    limit: usize,
    scope: &Scope<'_>,
    frames: Vec<Frame>,
    seen: Seen,
    name: Text<'a>,
    kind: Option<SortId>,
    piece: &Piece<'a>,
) -> Result<Reading<'a>, TermFault>
    ensures { Reaches
        (step_at limit scope.now (reverse frames.items) seen piece.now
        (Spot.Sorts name.entry kind)) result }
{
    if piece.is_special(b"]") {
        return match kind {
            None => Err(TermFault::UnknownName),
            Some(kind) => {
                let (term, seen) = give_variable(alloc, limit, scope, seen, name.bytes(), kind)?;
                Ok(reading_at(frames, Spot::Whole(term), seen))
            }
        };
    }
    if piece.is_special(b",") {
        return Ok(reading_at(frames, Spot::Sorts(name, kind), seen));
    }
    match add_sort(scope, kind, piece.text()) {
        None => Err(TermFault::UnknownName),
        Some(kind) => Ok(reading_at(frames, Spot::Sorts(name, Some(kind)), seen)),
    }
}

impl<'a> Reading<'a> {
    /// Reads one more piece.
    pub fn read(
        self,
        alloc: Global,
        limit: usize,
        scope: &Scope<'_>,
        piece: &Piece<'a>,
    ) -> Result<Reading<'a>, TermFault>
        ensures { Reaches (step limit scope.now (view self.entry) piece.now) result }
    {
        let Reading { frames, spot, seen } = self;
        match spot {
            Spot::Wanted => {
                if piece.is_special(b"(") {
                    return open(frames, seen, Frame::Round);
                }
                let name = Text::new(piece.text());
                Ok(reading_at(frames, Spot::Named(name), seen))
            }
            Spot::Named(name) => {
                read_named(alloc, limit, scope, frames, seen, name.bytes(), piece)
            }
            Spot::Sorts(name, kind) => {
                read_sorts(alloc, limit, scope, frames, seen, name, kind, piece)
            }
            Spot::Whole(term) => { read_behind(alloc, limit, scope, frames, (term, seen), piece) }
        }
    }

    /// The term at the end of the pieces.
    pub fn finish(
        self,
        alloc: Global,
        limit: usize,
        scope: &Scope<'_>,
    ) -> Result<(Kinded, Seen), TermFault>
        ensures { Gives (finish_at limit scope.now self.entry.seen self.entry.spot) result }
    {
        let Reading { spot, seen, .. } = self;
        match spot {
            Spot::Wanted => Err(TermFault::UnknownName),
            Spot::Named(name) => give_name(alloc, limit, scope, seen, name.bytes()),
            Spot::Sorts(_, _) => Err(TermFault::UnknownName),
            Spot::Whole(term) => Ok((term, seen)),
        }
    }
}

// The term of these pieces, by the reader as a function.
#[tactic(auto, unfolding(crate::specs::inner::Reading::run))]
fn read_row(
    alloc: Global,
    limit: usize,
    scope: &Scope<'_>,
    seen: Seen,
    row: &[Piece<'_>],
) -> Result<(Kinded, Seen), TermFault>
    ensures { Gives (run limit scope.now (start seen) row.now) result }
{
    let mut reading = Reading {
        frames: Vec::new(alloc),
        spot: Spot::Wanted,
        seen,
    };
    for piece in row {
        reading = reading.read(alloc, limit, scope, piece)?;
    }
    reading.finish(alloc, limit, scope)
}

/// What a written term stands for, after what was seen before, or its first fault from left to right.
///
/// A term with which there are more symbols than the limit is tested and counted to its end, and not built. The
/// depth of the term costs no call depth.
pub fn resolve_term(
    alloc: Global,
    limit: usize,
    scope: &Scope<'_>,
    seen: Seen,
    row: &[Piece<'_>],
) -> Result<(Kinded, Seen), TermFault>
    requires { IsTermBefore [] row.now }
    ensures ok { IfOk result (Reads scope.now limit seen row.now) }
    ensures err { IfErr result
        (λ fault. (fault ≡ OutOfMemory) ⊎ Refuses scope.now seen.texts row.now fault) }
{
    read_row(alloc, limit, scope, seen, row)
}
