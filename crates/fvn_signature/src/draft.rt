//! A signature with its kinds, before its conditions are tested.
ghost use Rattle.std.specs.Prelude.{◌≡◌, ◌⊎◌, [], ◌∷◌, IsTrue, true, find, IfSome, None};
ghost use Rattle.fvn_terms.specs.Signature.{declared, axioms};
ghost use Rattle.fvn_forms.specs.SortOrder.{reaches, at_or_below};
ghost use Rattle.fvn_forms.specs.Ranks.{
  ranks_of,
  results,
  is_lowest,
  pass_together,
  first_result,
  result as least_result,
};
ghost use Rattle.fvn_signature.specs.Drafts.{IsDraft};
ghost use Rattle.fvn_signature.specs.FoundAlike.{FindAlike};
ghost use Rattle.fvn_signature.specs.inner.Lowering.{lower, lowered};

use crate::words::has;
use fvn_base::Seq;
use fvn_terms::{Axioms, Declarations, OpId, Rank, SortId};

/// The signature, the number of its sorts and kinds, for each sort the word of those at or above it,
/// and for each operator the ranks that serve it and, where it takes two arguments, its results.
#[derive(Drop)]
pub struct Draft {
    pub declarations: Declarations,
    pub total: u16,
    pub words: Vec<u64>,
    pub ranks: Vec<Seq<Rank>>,
    pub tables: Vec<Seq<Seq<SortId>>>,
    pub ghost sound: { IsDraft declarations total words.items ranks.items tables.items },
}

impl Draft {
    /// Whether pairs of the order lead from one sort to the other.
    fn leads(&self, low: SortId, high: SortId) -> bool
        ensures sound { IsTrue result → reaches self.now.declarations.below low high ≡ true }
        ensures complete { reaches self.now.declarations.below low high ≡ true →
            (low ≡ high) ⊎ IsTrue result }
    {
        match self.words.get(usize::from(low.0)) {
            Some(word) => high.0 < 64 && has(*word, high.0),
            None => false,
        }
    }

    /// Whether a sort is another or below it.
    pub fn is_at_or_below(&self, low: SortId, high: SortId) -> bool
        ensures { result ≡ at_or_below self.now.declarations low high }
    {
        if low == high || self.declarations.kind(low) == high {
            return true;
        }
        self.leads(low, high)
    }

    /// The ranks that serve an operator.
    pub fn ranks_of(&self, op: OpId) -> &[Rank]
        ensures { result.now ≡ ranks_of self.now.declarations op }
    {
        match self.ranks.get(usize::from(op.0)) {
            Some(ranks) => ranks.as_slice(),
            None => &[],
        }
    }

    /// Whether the rank takes arguments of these sorts.
    pub fn serves(&self, args: &[SortId], rank: &[SortId]) -> bool
        ensures { result ≡ pass_together (at_or_below self.now.declarations) args.now rank.now }
    {
        if args.len() != rank.len() {
            return false;
        }
        for (arg, sort) in args.iter().zip(rank.iter()) {
            if !self.is_at_or_below(*arg, *sort) {
                return false;
            }
        }
        true
    }

    /// Whether a sort is at or below each to which one of the ranks takes the arguments.
    fn is_lowest(&self, sort: SortId, ranks: &[Rank], args: &[SortId]) -> bool
        ensures { result ≡ is_lowest self.now.declarations
            (results self.now.declarations ranks.now args.now) sort }
    {
        for rank in ranks {
            if self.serves(args, rank.args.as_slice()) && !self.is_at_or_below(sort, rank.result) {
                return false;
            }
        }
        true
    }

    /// The sort where it is at or below what was found, else what was found.
    fn lower(&self, found: Option<SortId>, sort: SortId) -> Option<SortId>
        ensures { result ≡ lower self.now.declarations found sort }
    {
        match found {
            Some(other) => {
                if self.is_at_or_below(sort, other) {
                    Some(sort)
                } else {
                    Some(other)
                }
            }
            None => Some(sort),
        }
    }

    /// Where going down the sorts to which the ranks take the arguments ends.
    fn lowered(&self, ranks: &[Rank], args: &[SortId]) -> Option<SortId>
        ensures { let d = self.now.declarations in
            result ≡ lowered d None (results d ranks.now args.now) }
    {
        let mut found = None;
        for rank in ranks {
            if self.serves(args, rank.args.as_slice()) {
                found = self.lower(found, rank.result);
            }
        }
        found
    }

    /// The first sort at or below this one to which the ranks take the arguments.
    fn first_below(&self, sort: SortId, ranks: &[Rank], args: &[SortId]) -> Option<SortId>
        ensures { let d = self.now.declarations in
            result ≡ find (λ r. at_or_below d r sort) (results d ranks.now args.now) }
    {
        for rank in ranks {
            if self.serves(args, rank.args.as_slice()) && self.is_at_or_below(rank.result, sort) {
                return Some(rank.result);
            }
        }
        None
    }

    /// The first least sort to which the ranks take the arguments.
    ///
    /// Where there is a least one, going down the sorts ends at one; then the first at or below it is the
    /// first least one.
    pub fn lowest(&self, ranks: &[Rank], args: &[SortId]) -> Option<SortId>
        ensures { let rs = results self.now.declarations ranks.now args.now in
            result ≡ find (is_lowest self.now.declarations rs) rs }
    {
        let sort = match self.lowered(ranks, args) {
            Some(sort) => sort,
            None => return None,
        };
        if !self.is_lowest(sort, ranks, args) {
            return None;
        }
        self.first_below(sort, ranks, args)
    }

    /// The ranks that an operator declares.
    pub fn declared_ranks(&self, op: OpId) -> &[Rank]
        ensures { result.now ≡ (declared self.now.declarations op).ranks }
    {
        match self.declarations.declared(op) {
            Some(declared) => declared.ranks.as_slice(),
            None => &[],
        }
    }

    /// The axioms of an operator.
    pub fn axioms(&self, op: OpId) -> Axioms
        ensures { result ≡ axioms self.now.declarations op }
    {
        match self.declarations.declared(op) {
            Some(declared) => declared.axioms,
            None => Axioms::Free,
        }
    }

    /// The kind of what an operator's first declaration gives; of one without declarations sort 0.
    pub(crate) fn first_kind(&self, op: OpId) -> SortId
        ensures { result ≡ first_result self.now.declarations
            (declared self.now.declarations op).ranks }
    {
        match self.declarations.declared(op) {
            Some(declared) => match declared.ranks.as_slice().first() {
                Some(rank) => self.declarations.kind(rank.result),
                None => SortId(0),
            },
            None => SortId(0),
        }
    }

    /// The least sort to which the operator takes arguments of these sorts, by ranks that give what its own do.
    pub fn result_by(&self, op: OpId, ranks: &[Rank], args: &[SortId]) -> SortId
        requires { FindAlike ranks.now (ranks_of self.now.declarations op) }
        ensures { result ≡ least_result self.now.declarations op args.now }
    {
        match self.lowest(ranks, args) {
            Some(sort) => sort,
            None => self.first_kind(op),
        }
    }

    /// The least sort to which the operator takes arguments of these sorts, by its ranks.
    fn searched(&self, op: OpId, args: &[SortId]) -> SortId
        ensures { result ≡ least_result self.now.declarations op args.now }
    {
        match self.lowest(self.ranks_of(op), args) {
            Some(sort) => sort,
            None => self.first_kind(op),
        }
    }

    /// The least sort to which the operator takes two arguments of these sorts, where a table has it.
    fn tabled(&self, op: OpId, first: SortId, second: SortId) -> Option<SortId>
        ensures { IfSome result (λ s.
            s ≡ least_result self.now.declarations op (first ∷ second ∷ [])) }
    {
        match self.tables.get(usize::from(op.0)) {
            Some(rows) => match rows.as_slice().get(usize::from(first.0)) {
                Some(row) => match row.as_slice().get(usize::from(second.0)) {
                    Some(sort) => Some(*sort),
                    None => None,
                },
                None => None,
            },
            None => None,
        }
    }

    /// The least sort to which the operator takes arguments of these sorts.
    pub fn result(&self, op: OpId, args: &[SortId]) -> SortId
        ensures { result ≡ least_result self.now.declarations op args.now }
    {
        if args.len() != 2 {
            return self.searched(op, args);
        }
        match self.tabled(op, args[0], args[1]) {
            Some(sort) => sort,
            None => self.searched(op, args),
        }
    }
}
