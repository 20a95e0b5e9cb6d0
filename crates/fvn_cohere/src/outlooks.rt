//! What can be said of the shape of a term before all its variables are chosen.
ghost use Rattle.std.specs.Prelude.{◌≡◌, ◌≤◌, ◌<◌, ◌⊎◌, ◌||◌, ◌&&◌, List, [], length, Contains, Some, None, MatchOption, false, IsTrue, slice_index_or};
ghost use Rattle.std.specs.List.{list_any, list_all, AllZip};
ghost use Rattle.fvn_base.specs.declared.limits.TheConstants.{ARGUMENTS as MOST_ARGUMENTS};
ghost use Rattle.fvn_terms.specs.declared.plain.Var.{Var};
ghost use Rattle.fvn_terms.specs.declared.plain.SortId.{SortId};
ghost use Rattle.fvn_terms.specs.Plain.{term};
ghost use Rattle.fvn_terms.specs.Term.{app};
ghost use Rattle.fvn_terms.specs.Signature.{AtOrBelow, IsTerm};
ghost use Rattle.fvn_forms.specs.Good.{TakesKinds};
ghost use Rattle.fvn_forms.specs.Ranks.{result as least_result, ranks_of};
ghost use Rattle.fvn_forms.specs.SortOrder.{at_or_below};
ghost use Rattle.fvn_rewrite_laws.specs.declared.shapes.Shape.{Shape};
ghost use Rattle.fvn_rewrite_laws.specs.Shapes.{shape_in, shape_over};
ghost use Rattle.fvn_rewrite_laws.specs.Identities.{identities};
ghost use Rattle.fvn_cohere.specs.inner.Searching.{is_met};
ghost use Rattle.fvn_cohere.specs.inner.Outlooks.{is_constant_root, offered, is_at_least, may_serve, is_below_rank, lows_of, highs_of, IsLow, IsOutOfReach, Suits, AreArguments, IsJoined};
ghost use Rattle.fvn_cohere.specs.inner.Posed.{ForEachFilled};

use crate::identities::{is_at_or_below, is_listed};
use crate::searching::{Sought, is_variable_root};
use crate::shapes::Chosen;
use fvn_base::Seq;
use fvn_base::limits::ARGUMENTS;
use fvn_rewrite_laws::{Root, Shape};
use fvn_signature::Signature;
use fvn_terms::{Args, OpId, Plain, Rank, SortId, Var};

// An operator with more ranks is not asked which of them may serve.
const FEW_RANKS: usize = 32;

// What the shape of a term may be: whether a variable, whether an identity, and bounds of its
// sort, of which the lower one may be unknown.
#[derive(Clone, Copy)]
pub(crate) struct Outlook {
    pub(crate) variable: bool,
    pub(crate) identity: bool,
    pub(crate) low: Option<SortId>,
    pub(crate) high: SortId,
}

// The variables that are not chosen yet with their choices, and the shapes of those that are.
#[derive(Clone, Copy)]
pub(crate) struct PartialChoice<'c> {
    pub(crate) sig: &'c Signature,
    pub(crate) identities: &'c [OpId],
    pub(crate) unchosen: &'c [(Var, Seq<Shape>)],
    pub(crate) chosen: &'c Chosen<'c>,
}

// The choices of a variable that is not chosen yet.
fn offered(unchosen: &[(Var, Seq<Shape>)], x: Var) -> Option<&[Shape]>
    ensures { MatchOption result
        (offered unchosen.now x ≡ None)
        (λ shapes. offered unchosen.now x ≡ Some shapes.now) }
{
    for v in unchosen {
        if v.0 == x {
            return Some(v.1.as_slice());
        }
    }
    None
}

// Whether this is the root of a constant.
fn is_constant_root(root: Root) -> bool
    ensures { result ≡ is_constant_root root }
{
    match root {
        Root::Variable => false,
        Root::Constant(_) => true,
        Root::Compound => false,
    }
}

// Whether some shape is that of a constant.
fn has_constant(shapes: &[Shape]) -> bool
    ensures { result ≡ list_any (λ (o : Shape). is_constant_root o.root) shapes.now }
{
    for o in shapes {
        if is_constant_root(o.root) {
            return true;
        }
    }
    false
}

// A sort that is the lowest of those of the shapes, if there is a lowest.
fn low_candidate(sig: &Signature, shapes: &[Shape]) -> Option<SortId> {
    let mut low: Option<SortId> = None;
    for o in shapes {
        low = lower_candidate(sig, low, o.sort);
    }
    low
}

// The lower one of the two.
fn lower_candidate(sig: &Signature, low: Option<SortId>, s: SortId) -> Option<SortId> {
    match low {
        None => Some(s),
        Some(q) => { if sig.leq(s, q) { Some(s) } else { Some(q) } }
    }
}

// Whether the sort is at or below those of all shapes.
fn is_below_all(sig: &Signature, q: SortId, shapes: &[Shape]) -> bool
    ensures { result ≡ list_all (λ (o : Shape). at_or_below sig.now q o.sort) shapes.now }
{
    for o in shapes {
        if !is_at_or_below(sig, q, o.sort) {
            return false;
        }
    }
    true
}

// The lowest sort of the shapes, if there is one.
fn low_among(sig: &Signature, shapes: &[Shape]) -> Option<SortId>
    ensures { (o : Shape) → Contains shapes.now o → IsLow sig.now result o.sort }
{
    match low_candidate(sig, shapes) {
        None => None,
        Some(q) => {
            if is_below_all(sig, q, shapes) {
                return Some(q);
            }
            None
        }
    }
}

// A sort that is the highest of those of the shapes, if there is a highest.
fn high_candidate(sig: &Signature, shapes: &[Shape]) -> Option<SortId> {
    let mut high: Option<SortId> = None;
    for o in shapes {
        high = higher_candidate(sig, high, o.sort);
    }
    high
}

// The higher one of the two.
fn higher_candidate(sig: &Signature, high: Option<SortId>, s: SortId) -> Option<SortId> {
    match high {
        None => Some(s),
        Some(q) => { if sig.leq(q, s) { Some(s) } else { Some(q) } }
    }
}

// Whether the sort is at or above those of all shapes.
fn is_above_all(sig: &Signature, q: SortId, shapes: &[Shape]) -> bool
    ensures { result ≡ list_all (λ (o : Shape). at_or_below sig.now o.sort q) shapes.now }
{
    for o in shapes {
        if !is_at_or_below(sig, o.sort, q) {
            return false;
        }
    }
    true
}

// The highest sort of the shapes, or else one that is above them.
fn high_among(sig: &Signature, shapes: &[Shape], above: SortId) -> SortId
    ensures { (o : Shape) → Contains shapes.now o →
        AtOrBelow sig.now o.sort above → AtOrBelow sig.now o.sort result }
{
    match high_candidate(sig, shapes) {
        None => above,
        Some(q) => {
            if is_above_all(sig, q, shapes) {
                return q;
            }
            above
        }
    }
}

// The lower one of two sorts, if one is.
fn lower(sig: &Signature, p: SortId, q: SortId) -> Option<SortId>
    ensures { (s : SortId) →
        AtOrBelow sig.now p s ⊎ AtOrBelow sig.now q s → IsLow sig.now result s }
{
    if sig.leq(p, q) {
        return Some(p);
    }
    if sig.leq(q, p) {
        return Some(q);
    }
    None
}

// A lower bound of what either of two is one of, if both are known.
fn low_of_either(sig: &Signature, p: Option<SortId>, q: Option<SortId>) -> Option<SortId>
    ensures { (s : SortId) → IsLow sig.now p s ⊎ IsLow sig.now q s → IsLow sig.now result s }
{
    match p {
        None => None,
        Some(low) => match q {
            None => None,
            Some(other) => lower(sig, low, other),
        },
    }
}

// The first bound, lowered to the second where this counts.
fn low_with(
    sig: &Signature,
    low: Option<SortId>,
    counts: bool,
    other: Option<SortId>,
) -> Option<SortId>
    ensures stays { (s : SortId) → IsLow sig.now low s → IsLow sig.now result s }
    ensures lowered { (s : SortId) →
        IsTrue counts → IsLow sig.now other s → IsLow sig.now result s }
{
    if !counts {
        return low;
    }
    low_of_either(sig, low, other)
}

// Whether one of two is a variable and the other one an identity.
fn is_variable_beside(a: Outlook, b: Outlook) -> bool
    ensures { result ≡ ((a.identity && b.variable) || (b.identity && a.variable)) }
{
    if a.identity {
        if b.variable {
            return true;
        }
    }
    if b.identity {
        return a.variable;
    }
    false
}

// Whether both are seen to be identities.
fn are_identities(a: Outlook, b: Outlook) -> bool
    ensures { result ≡ (a.identity && b.identity) }
{
    if a.identity {
        return b.identity;
    }
    false
}

// The outlook of an operator with an identity over two arguments, where the sort has these bounds if
// none of them is the identity.
fn joined(sig: &Signature, a: Outlook, b: Outlook, low: Option<SortId>, high: SortId) -> Outlook
    ensures { IsJoined sig.now a b low high result }
{
    let first = low_with(sig, low, a.identity, b.low);
    let both = low_with(sig, first, b.identity, a.low);
    let variable = is_variable_beside(a, b);
    let identity = are_identities(a, b);
    Outlook {
        variable,
        identity,
        low: both,
        high,
    }
}

// The upper bound of an operator over arguments.
fn high_over(sig: &Signature, f: OpId, parts: &[Outlook]) -> SortId
    requires { length parts.now ≤ MOST_ARGUMENTS }
    ensures { result ≡ least_result sig.now f (highs_of parts.now) }
{
    let mut sorts = [SortId(0); ARGUMENTS];
    let mut i: usize = 0;
    for part in parts {
        sorts[i] = part.high;
        i += 1;
    }
    sig.result(f, &sorts[..i])
}

// Whether a rank with these arguments may serve arguments of these outlooks, by their lower bounds.
fn may_serve(sig: &Signature, parts: &[Outlook], args: &[SortId]) -> bool
    ensures { result ≡ may_serve sig.now (lows_of parts.now) args.now }
{
    if parts.len() != args.len() {
        return false;
    }
    for (part, q) in parts.iter().zip(args.iter()) {
        if !is_at_least(sig, part.low, *q) {
            return false;
        }
    }
    true
}

// Whether the sort is at or above the bound, where this is known.
fn is_at_least(sig: &Signature, low: Option<SortId>, q: SortId) -> bool
    ensures { result ≡ is_at_least sig.now low q }
{
    match low {
        None => true,
        Some(l) => is_at_or_below(sig, l, q),
    }
}

// A result of a rank that may serve which is the lowest of these, if there is a lowest.
fn result_candidate(sig: &Signature, f: OpId, parts: &[Outlook]) -> Option<SortId> {
    let mut low: Option<SortId> = None;
    for i in 0..sig.rank_count(f) {
        let rank = sig.rank(f, i);
        if may_serve(sig, parts, rank.args.as_slice()) {
            low = lower_candidate(sig, low, rank.result);
        }
    }
    low
}

// Whether the sort is at or below the result of the rank, where this may serve.
fn is_below_rank(sig: &Signature, parts: &[Outlook], low: SortId, rank: &Rank) -> bool
    ensures { result ≡ is_below_rank sig.now (lows_of parts.now) low rank.now }
{
    if may_serve(sig, parts, rank.args.as_slice()) {
        return is_at_or_below(sig, low, rank.result);
    }
    true
}

// Whether the sort is at or below the results of all ranks that may serve.
fn is_below_ranks(sig: &Signature, f: OpId, parts: &[Outlook], low: SortId) -> bool
    ensures { result ≡ list_all (is_below_rank sig.now (lows_of parts.now) low)
        (ranks_of sig.now f) }
{
    for i in 0..sig.rank_count(f) {
        if !is_below_rank(sig, parts, low, sig.rank(f, i)) {
            return false;
        }
    }
    true
}

// The lower bound of an operator over arguments, by the ranks that may serve.
fn low_by_ranks(sig: &Signature, f: OpId, parts: &[Outlook]) -> Option<SortId>
    ensures { (ss : List SortId) →
        AllZip (IsLow sig.now) (lows_of parts.now) ss → TakesKinds sig.now f ss →
        IsLow sig.now result (least_result sig.now f ss) }
{
    sig.recall_good();
    if sig.rank_count(f) > FEW_RANKS {
        return None;
    }
    match result_candidate(sig, f, parts) {
        None => None,
        Some(low) => {
            if is_below_ranks(sig, f, parts, low) {
                return Some(low);
            }
            None
        }
    }
}

// The lower bound of an operator over arguments.
fn low_over(sig: &Signature, f: OpId, parts: &[Outlook]) -> Option<SortId>
    requires { length parts.now ≤ MOST_ARGUMENTS }
    ensures { (ss : List SortId) →
        AllZip (IsLow sig.now) (lows_of parts.now) ss → TakesKinds sig.now f ss →
        IsLow sig.now result (least_result sig.now f ss) }
{
    sig.recall_good();
    let mut sorts = [SortId(0); ARGUMENTS];
    let mut i: usize = 0;
    for part in parts {
        match part.low {
            None => return low_by_ranks(sig, f, parts),
            Some(q) => {
                sorts[i] = q;
                i += 1;
            }
        }
    }
    Some(sig.result(f, &sorts[..i]))
}

// One of the outlooks.
fn part_at(parts: &[Outlook], i: usize) -> Outlook
    requires { i < length parts.now }
    ensures { slice_index_or parts.now i result ≡ result }
{
    parts[i]
}

// The outlook of a constant.
fn constant_outlook(sig: &Signature, es: &[OpId], f: OpId) -> Outlook
    requires { es.now ≡ identities sig.now }
    ensures { Suits sig.now result (shape_over sig.now f []) }
{
    let sort = sig.result(f, &[]);
    Outlook {
        variable: false,
        identity: is_listed(es, f),
        low: Some(sort),
        high: sort,
    }
}

// The outlook of an operator over arguments.
fn outlook_over(sig: &Signature, es: &[OpId], f: OpId, parts: &[Outlook]) -> Outlook
    requires few { length parts.now ≤ MOST_ARGUMENTS }
    requires identities { es.now ≡ identities sig.now }
    ensures { (shapes : List Shape) →
        AllZip (Suits sig.now) parts.now shapes → AreArguments sig.now f shapes →
        Suits sig.now result (shape_over sig.now f shapes) }
{
    sig.recall_good();
    if parts.len() == 0 {
        return constant_outlook(sig, es, f);
    }
    let low = low_over(sig, f, parts);
    let high = high_over(sig, f, parts);
    let plain = Outlook {
        variable: false,
        identity: false,
        low,
        high,
    };
    if parts.len() != 2 {
        return plain;
    }
    match sig.identity(f) {
        None => plain,
        Some(_) => {
            let a = part_at(parts, 0);
            let b = part_at(parts, 1);
            joined(sig, a, b, low, high)
        }
    }
}

// The outlook of a shape.
fn shape_outlook(sig: &Signature, shape: Shape) -> Outlook
    ensures { Suits sig.now result shape }
{
    let variable = is_variable_root(shape.root);
    let identity = is_constant_root(shape.root);
    Outlook {
        variable,
        identity,
        low: Some(shape.sort),
        high: shape.sort,
    }
}

// Whether the sort is at or below a lower bound.
fn is_below_low(sig: &Signature, s: SortId, low: Option<SortId>) -> bool
    ensures { IsTrue result → (q : SortId) → IsLow sig.now low q → AtOrBelow sig.now s q }
{
    match low {
        None => false,
        Some(q) => sig.leq(s, q),
    }
}

// Whether no sort with the lower bound is at or below this one.
fn is_out_of_reach(sig: &Signature, s: SortId, low: Option<SortId>) -> bool
    ensures { IsTrue result → IsOutOfReach sig.now s low }
{
    match low {
        None => false,
        Some(q) => !is_at_or_below(sig, q, s),
    }
}

impl PartialChoice<'_> {
    // The outlook of a variable.
    fn variable_outlook(&self, x: Var) -> Outlook
        ensures { ForEachFilled self.now (λ filled. Suits self.now.sig.now result (filled x)) }
    {
        match offered(self.unchosen, x) {
            None => {
                let shape = self.chosen.get(x);
                shape_outlook(self.sig, shape)
            }
            Some(shapes) => {
                let identity = has_constant(shapes);
                let low = low_among(self.sig, shapes);
                let high = high_among(self.sig, shapes, x.sort);
                Outlook {
                    variable: true,
                    identity,
                    low,
                    high,
                }
            }
        }
    }

    // The outlook of a term.
    #[cycle(outlook)]
    pub(crate) fn outlook(&self, t: &Plain) -> Outlook
        requires identities { self.now.identities.now ≡ identities self.now.sig.now }
        requires term { IsTerm self.now.sig.now (term t.now) }
        ensures { ForEachFilled self.now (λ filled.
            Suits self.now.sig.now result (shape_in self.now.sig.now filled (term t.now))) }
    {
        match t {
            Plain::Var(x) => self.variable_outlook(*x),
            Plain::App(f, us) => self.outlook_app(*f, us),
        }
    }

    // What is seen of an operator over its arguments.
    #[cycle(outlook)]
    fn outlook_app(&self, f: OpId, us: &Args) -> Outlook
        requires identities { self.now.identities.now ≡ identities self.now.sig.now }
        requires term { IsTerm self.now.sig.now (app f us.now) }
        ensures { ForEachFilled self.now (λ filled.
            Suits self.now.sig.now result (shape_in self.now.sig.now filled (app f us.now))) }
    {
        self.sig.recall_good();
        let blank = Outlook {
            variable: false,
            identity: false,
            low: None,
            high: SortId(0),
        };
        let mut parts = [blank; ARGUMENTS];
        let mut i: usize = 0;
        for u in &us.items {
            parts[i] = self.outlook(u);
            i += 1;
        }
        outlook_over(self.sig, self.identities, f, &parts[..i])
    }

    // Whether the left side, which has this outlook, never has the sort, or the right side always.
    fn excludes_at(&self, s: SortId, left: Outlook, right: &Plain) -> bool
        requires identities { self.now.identities.now ≡ identities self.now.sig.now }
        requires right { IsTerm self.now.sig.now (term right.now) }
        ensures { IsTrue result → IsOutOfReach self.now.sig.now s left.low ⊎
            ForEachFilled self.now (λ filled.
            AtOrBelow self.now.sig.now (shape_in self.now.sig.now filled (term right.now)).sort s) }
    {
        if is_out_of_reach(self.sig, s, left.low) {
            return true;
        }
        let high_side = self.outlook(right);
        self.sig.leq(high_side.high, s)
    }

    // Whether no choice for the variables that are not chosen is one that is sought.
    pub(crate) fn excludes(&self, sought: Sought, left: &Plain, right: &Plain) -> bool
        requires identities { self.now.identities.now ≡ identities self.now.sig.now }
        requires left { IsTerm self.now.sig.now (term left.now) }
        requires right { IsTerm self.now.sig.now (term right.now) }
        ensures { IsTrue result → ForEachFilled self.now (λ filled.
            is_met self.now.sig.now sought self.now.identities.now
            (term left.now) (term right.now) filled
            ≡ false) }
    {
        let low_side = self.outlook(left);
        match sought {
            Sought::Loss => {
                let high_side = self.outlook(right);
                is_below_low(self.sig, high_side.high, low_side.low)
            }
            Sought::LossAt(s) => self.excludes_at(s, low_side, right),
            Sought::ToVariable => !low_side.variable,
            Sought::ToIdentity => !low_side.identity,
        }
    }
}
