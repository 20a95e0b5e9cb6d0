//! The least sort of a written term, piece by piece, with what is not closed on a stack: the term need not be built.
ghost use Rattle.std.specs.Prelude.{◌≡◌, [], ◌∷◌, map, reverse, IfOk};
ghost use Rattle.fvn_terms.specs.Signature.{axioms};
ghost use Rattle.fvn_terms.specs.Equality.{identity, is_sum};
ghost use Rattle.fvn_syntax.specs.Pieces.{is_colon_name};
ghost use Rattle.fvn_syntax.specs.Names.{declared_sort, variable_named, op_named};
ghost use Rattle.fvn_syntax.specs.Texts.{place};
ghost use Rattle.fvn_problems.specs.declared.sorting.Spot.TheVariants.{Wanted};
ghost use Rattle.fvn_problems.specs.Scopes.{unguarded, AreNamesOf};
ghost use Rattle.fvn_problems.specs.inner.Sorting.{
  of_sort,
  of_constant,
  or_first_sort,
  or_first_op,
  sort_of_variable,
  same_constant,
  sum_of_two,
  sum_of_all,
  over,
  leaf,
  first_kind,
  state,
  view,
  behind,
  step,
  step_at,
  finish,
  run,
  HasLeastSort,
};

use fvn_base::Seq;
use fvn_signature::Signature;
use fvn_syntax::{
    Names, Piece, Scope, Text, find_constant, find_operator, find_sort, split_sorted,
    terms_are_well_kinded,
};
use fvn_terms::{Axioms, NoMemory, OpId, SortId};
use std::alloc::Global;

/// The least sort of a term, and its flat form's operator where this is a constant.
#[derive(Clone, Copy)]
pub struct Sorted {
    pub sort: SortId,
    pub constant: Option<OpId>,
}

/// What is not closed: a term in parentheses, or an operator over the arguments so far.
#[derive(Drop)]
pub enum Frame {
    Round,
    Call(OpId, Seq<Sorted>),
}

/// What was read last: what asks for a term, a name, a variable with a bracket and the kind of its first sort, or a
/// whole term.
#[derive(Drop)]
pub enum Spot<'a> {
    Wanted,
    Named(Text<'a>),
    Bracket(Option<SortId>),
    Whole(Sorted),
}

/// The walk so far.
#[derive(Drop)]
pub struct Walk<'a> {
    pub frames: Vec<Frame>,
    pub spot: Spot<'a>,
}

// A term of this sort that is no constant.
fn of_sort(sort: SortId) -> Sorted
    ensures { result ≡ of_sort sort }
{
    Sorted {
        sort,
        constant: None,
    }
}

// A constant.
fn of_constant(signature: &Signature, f: OpId) -> Sorted
    ensures { result ≡ of_constant signature.now f }
{
    Sorted {
        sort: signature.result(f, &[]),
        constant: Some(f),
    }
}

// The sort, or the first where there is none.
fn or_first(sort: Option<SortId>) -> SortId
    ensures { result ≡ or_first_sort sort }
{
    match sort {
        None => SortId(0),
        Some(sort) => sort,
    }
}

// The sort of the declared variable of a name.
fn declared_sort(names: &Names, name: &[u8]) -> Option<SortId>
    ensures { result ≡
        declared_sort names.now.variables.sorts (place names.now.variables.texts name.now) }
{
    let i = names.variables.texts.place(name)?;
    names.variables.sorts.as_slice().get(i).copied()
}

// The sort of the variable of a name.
fn variable_sort(scope: &Scope<'_>, name: &[u8]) -> Option<SortId>
    ensures { result ≡ sort_of_variable (variable_named scope.now.names name.now) }
{
    let names = scope.names();
    match declared_sort(names, name) {
        Some(sort) => Some(sort),
        None => {
            let (_, sort) = split_sorted(&names.sorts, name)?;
            Some(sort)
        }
    }
}

// A name alone.
fn sort_leaf(signature: &Signature, scope: &Scope<'_>, name: &[u8]) -> Sorted
    ensures { result ≡ leaf signature.now scope.now.names name.now }
{
    match find_constant(signature.declarations(), scope.names(), name) {
        Some(f) => of_constant(signature, f),
        None => of_sort(or_first(variable_sort(scope, name))),
    }
}

// Whether there are two operators, and they are one.
fn is_same(e: Option<OpId>, g: Option<OpId>) -> bool
    ensures { result ≡ same_constant e g }
{
    match (e, g) {
        (Some(e), Some(g)) => e.0 == g.0,
        _ => false,
    }
}

// A sum of two terms, of which one may be the identity.
fn sort_two(signature: &Signature, f: OpId, a: Sorted, b: Sorted) -> Sorted
    ensures { result ≡ sum_of_two signature.now f a b }
{
    let identity = signature.axioms(f).identity();
    if is_same(identity, a.constant) {
        return b;
    }
    if is_same(identity, b.constant) {
        return a;
    }
    of_sort(signature.result(f, &[a.sort, b.sort]))
}

// A right-nested sum.
fn sort_sum(signature: &Signature, f: OpId, list: Vec<Sorted>) -> Sorted
    ensures { result ≡ sum_of_all signature.now f list.items }
{
    let mut left = list;
    let Some(mut whole) = left.pop() else {
        return of_constant(signature, f);
    };
    while let Some(a) = left.pop() {
        whole = sort_two(signature, f, a, whole);
    }
    whole
}

// The sorts of terms.
fn sorts_of(alloc: Global, list: &[Sorted]) -> Result<Vec<SortId>, NoMemory>
    ensures { IfOk result (λ sorts. sorts.items ≡ map (λ a. a.sort) list.now) }
{
    let mut sorts = Vec::new(alloc);
    for a in list {
        sorts.push(a.sort)?;
    }
    Ok(sorts)
}

// An operator over its arguments.
fn sort_over(
    alloc: Global,
    signature: &Signature,
    f: OpId,
    list: Vec<Sorted>,
) -> Result<Sorted, NoMemory>
    ensures { IfOk result (λ v. v ≡ over signature.now f list.items) }
{
    if signature.axioms(f).is_sum() {
        return Ok(sort_sum(signature, f, list));
    }
    let sorts = sorts_of(alloc, list.as_slice())?;
    Ok(of_sort(signature.result(f, sorts.as_slice())))
}

// The walk that goes on here.
fn walk_at<'a>(frames: Vec<Frame>, spot: Spot<'a>) -> Walk<'a>
    ensures { view result ≡ state (reverse frames.items) spot.entry }
{
    Walk { frames, spot }
}

// The walk behind one more open frame.
fn open<'a>(mut frames: Vec<Frame>, frame: Frame) -> Result<Walk<'a>, NoMemory>
    ensures { IfOk result (λ next. view next ≡ state (frame ∷ reverse frames.items) Wanted) }
{
    frames.push(frame)?;
    Ok(walk_at(frames, Spot::Wanted))
}

// A piece behind a whole term, which is the last argument so far.
fn walk_argument<'a>(
    alloc: Global,
    signature: &Signature,
    frames: Vec<Frame>,
    f: OpId,
    args: Seq<Sorted>,
    whole: Sorted,
    piece: &Piece<'a>,
) -> Result<Walk<'a>, NoMemory>
    ensures { IfOk result (λ next. view next ≡
        behind signature.now whole piece.now (Frame.Call f args ∷ reverse frames.items)) }
{
    let mut args = args.into_vec();
    args.push(whole)?;
    if piece.is_special(b",") {
        return open(frames, Frame::Call(f, Seq::from_vec(args)));
    }
    let whole = sort_over(alloc, signature, f, args)?;
    Ok(walk_at(frames, Spot::Whole(whole)))
}

// A piece behind a whole term.
fn walk_behind<'a>(
    alloc: Global,
    signature: &Signature,
    mut frames: Vec<Frame>,
    whole: Sorted,
    piece: &Piece<'a>,
) -> Result<Walk<'a>, NoMemory>
    ensures { IfOk result (λ next.
        view next ≡ behind signature.now whole piece.now (reverse frames.items)) }
{
    match frames.pop() {
        None => Ok(walk_at(frames, Spot::Whole(whole))),
        Some(Frame::Round) => Ok(walk_at(frames, Spot::Whole(whole))),
        Some(Frame::Call(f, args)) => walk_argument(
            alloc, signature, frames, f, args, whole, piece,
        ),
    }
}

// The kind of the first sort of a bracket.
fn first_kind(
    signature: &Signature,
    scope: &Scope<'_>,
    first: Option<SortId>,
    name: &[u8],
) -> SortId
    ensures { result ≡ first_kind signature.now scope.now.names first name.now }
{
    match first {
        None => signature.kind(or_first(find_sort(&scope.names().sorts, name))),
        Some(kind) => kind,
    }
}

// The operator of a name, or the first where there is none.
fn operator(scope: &Scope<'_>, name: &[u8]) -> OpId
    ensures { result ≡ or_first_op (op_named scope.now.names name.now) }
{
    match find_operator(scope.names(), name) {
        None => OpId(0),
        Some(f) => f,
    }
}

// Whether a text ends with a colon and has a byte before it.
fn ends_with_colon(text: &[u8]) -> bool
    ensures { result ≡ is_colon_name text.now }
{
    1 < text.len() && text[text.len() - 1] == b':'
}

// A piece behind a name.
fn walk_named<'a>(
    alloc: Global,
    signature: &Signature,
    scope: &Scope<'_>,
    frames: Vec<Frame>,
    name: &'a [u8],
    piece: &Piece<'a>,
) -> Result<Walk<'a>, NoMemory>
    ensures { IfOk result (λ next. view next ≡
        step_at signature.now scope.now.names (reverse frames.items) piece.now
        (Spot.Named name.now)) }
{
    if piece.is_special(b"(") {
        return open(frames, Frame::Call(operator(scope, name), Seq::new(alloc)));
    }
    if ends_with_colon(name) && piece.is_special(b"[") {
        return Ok(walk_at(frames, Spot::Bracket(None)));
    }
    let whole = sort_leaf(signature, scope, name);
    walk_behind(alloc, signature, frames, whole, piece)
}

// A piece in the bracket of a variable of a kind.
fn walk_bracket<'a>(
    signature: &Signature,
    scope: &Scope<'_>,
    frames: Vec<Frame>,
    first: Option<SortId>,
    piece: &Piece<'a>,
) -> Walk<'a>
    ensures { view result ≡
        step_at signature.now scope.now.names (reverse frames.items) piece.now
        (Spot.Bracket first) }
{
    if piece.is_special(b"]") {
        return walk_at(frames, Spot::Whole(of_sort(or_first(first))));
    }
    if piece.is_special(b",") {
        return walk_at(frames, Spot::Bracket(first));
    }
    let kind = first_kind(signature, scope, first, piece.text());
    walk_at(frames, Spot::Bracket(Some(kind)))
}

impl<'a> Walk<'a> {
    /// One more piece.
    pub fn read(
        self,
        alloc: Global,
        signature: &Signature,
        scope: &Scope<'_>,
        piece: &Piece<'a>,
    ) -> Result<Walk<'a>, NoMemory>
        ensures { IfOk result (λ next.
            view next ≡ step signature.now scope.now.names (view self.entry) piece.now) }
    {
        let Walk { frames, spot } = self;
        match spot {
            Spot::Wanted => {
                if piece.is_special(b"(") {
                    return open(frames, Frame::Round);
                }
                let name = Text::new(piece.text());
                Ok(walk_at(frames, Spot::Named(name)))
            }
            Spot::Named(name) => walk_named(alloc, signature, scope, frames, name.bytes(), piece),
            Spot::Bracket(first) => Ok(walk_bracket(signature, scope, frames, first, piece)),
            Spot::Whole(whole) => walk_behind(alloc, signature, frames, whole, piece),
        }
    }

    /// The term at the end of the pieces.
    pub fn finish(self, signature: &Signature, scope: &Scope<'_>) -> Sorted
        ensures { result ≡ finish signature.now scope.now.names self.entry.spot }
    {
        let Walk { spot, .. } = self;
        match spot {
            Spot::Wanted => of_sort(SortId(0)),
            Spot::Named(name) => sort_leaf(signature, scope, name.bytes()),
            Spot::Bracket(_) => of_sort(SortId(0)),
            Spot::Whole(whole) => whole,
        }
    }
}

// The term of these pieces, by the walk as a function.
#[tactic(auto, unfolding(crate::specs::inner::Sorting::run))]
fn walk_row(
    alloc: Global,
    signature: &Signature,
    scope: &Scope<'_>,
    row: &[Piece<'_>],
) -> Result<Sorted, NoMemory>
    ensures { IfOk result (λ v. v ≡ run signature.now scope.now.names (state [] Wanted) row.now) }
{
    let mut walk = Walk {
        frames: Vec::new(alloc),
        spot: Spot::Wanted,
    };
    for piece in row {
        walk = walk.read(alloc, signature, scope, piece)?;
    }
    Ok(walk.finish(signature, scope))
}

/// The least sort of a written term that stands for one; its depth costs no call depth.
pub fn sort_row(
    alloc: Global,
    signature: &Signature,
    names: &Names,
    row: &[Piece<'_>],
) -> Result<SortId, NoMemory>
    requires { AreNamesOf signature.now names.now }
    ensures { IfOk result (HasLeastSort (unguarded signature.now names.now) row.now) }
{
    signature.recall_good();
    terms_are_well_kinded();
    let scope = Scope::new(signature.declarations(), names, false);
    let Sorted { sort, .. } = walk_row(alloc, signature, &scope, row)?;
    Ok(sort)
}
