//! The pairs of sorts that statements declare, each once.
ghost use Rattle.std.specs.Prelude.{◌≡◌, ◌<◌, ◌≤◌, [], ◌∷◌, map, length, All, IfOk, OnOk};
ghost use Rattle.fvn_base.specs.declared.limits.TheConstants.{SORTS as MOST};
ghost use Rattle.fvn_forms.specs.SortOrder.{sort_number, same_sort};
ghost use Rattle.fvn_syntax.specs.Names.{sort_at};
ghost use Rattle.fvn_module_names.specs.Order.{
  with_all,
  with_sort,
  crossed,
  declared_among,
  pairs_of_groups,
  pairs_in,
  with_pairs,
};
ghost use Rattle.fvn_module_declarations.specs.inner.Pairs.{with_more, row};

use fvn_base::Seq;
use fvn_base::limits::SORTS;
use fvn_module_syntax::Statement;
use fvn_sorts::SignatureBuilder;
use fvn_syntax::{Text, Texts};
use fvn_terms::{NoMemory, SortId};
use std::alloc::Global;
use std::marker::Model;

/// A builder, and of each pair of sorts whether the builder has it; contracts see what the builder collected.
#[derive(Drop)]
pub struct PairBuilder {
    builder: SignatureBuilder,
    known: Vec<bool>,
}

impl Model for PairBuilder {
    ghost use Rattle.fvn_signature_draft.specs.declared.collected.Collected.{Collected};
    ghost use Rattle.fvn_module_declarations.specs.inner.Pairs.{IsTableOf};

    ghost Value = { Collected };

    ghost view = { λ b. b.builder };

    ghost invariant = { λ b. IsTableOf b.known.items b.builder };
}

impl PairBuilder {
    /// With a builder that has no pair yet.
    pub fn new(alloc: Global, builder: SignatureBuilder) -> Result<PairBuilder, NoMemory>
        requires few { builder.sorts ≤ MOST }
        requires none { builder.below ≡ [] }
        ensures { IfOk result (λ b. b ≡ builder) }
    {
        let side = usize::from(SORTS);
        let known = vec![in alloc; false; side * side]?;
        Ok(PairBuilder { builder, known })
    }

    /// The builder.
    pub fn into_builder(self) -> SignatureBuilder
        ensures { result ≡ self }
    {
        self.builder
    }

    // With this pair, unless there is one.
    fn add(self, low: usize, high: usize) -> Result<PairBuilder, NoMemory>
        requires low { low < self.sorts }
        requires high { high < self.sorts }
        ensures { IfOk result (λ b. b ≡ with_more self ((sort_number low, sort_number high) ∷ [])) }
    {
        let PairBuilder { builder, mut known } = self;
        let place = usize::from(SORTS) * low + high;
        if known[place] {
            return Ok(PairBuilder { builder, known });
        }
        known[place] = true;
        let builder = builder.subsort(SortId(low as u16), SortId(high as u16))?;
        Ok(PairBuilder { builder, known })
    }

    // With a sort below each of these.
    fn add_row(self, low: usize, highs: &[usize]) -> Result<PairBuilder, NoMemory>
        requires low { low < self.sorts }
        requires highs { All (λ high. high < self.sorts) highs.now }
        ensures { IfOk result (λ b. b ≡ with_more self (row (sort_number low)
            (map sort_number highs.now))) }
    {
        let mut pairs = self;
        for high in highs {
            pairs = pairs.add(low, *high)?;
        }
        Ok(pairs)
    }

    // With each of these sorts below each of those.
    fn add_crossed(self, lows: &[usize], highs: &[usize]) -> Result<PairBuilder, NoMemory>
        requires lows { All (λ low. low < self.sorts) lows.now }
        requires highs { All (λ high. high < self.sorts) highs.now }
        ensures { IfOk result (λ b. b ≡ with_more self (crossed (map sort_number lows.now)
            (map sort_number highs.now))) }
    {
        let mut pairs = self;
        for low in lows {
            pairs = pairs.add_row(*low, highs)?;
        }
        Ok(pairs)
    }

    // With each declared sort of a group below each of the next one.
    fn add_groups(
        self,
        alloc: Global,
        sorts: &Texts,
        lower: &[Text<'_>],
        upper: &[Text<'_>],
    ) -> Result<PairBuilder, NoMemory>
        requires { self.sorts ≡ length sorts.now }
        ensures { IfOk result (λ b. b ≡ with_more self (crossed
            (declared_among sorts.now lower.now) (declared_among sorts.now upper.now))) }
    {
        let lows = distinct_sorts(alloc, sorts, lower)?;
        let highs = distinct_sorts(alloc, sorts, upper)?;
        let pairs = self.add_crossed(lows.as_slice(), highs.as_slice())?;
        Ok(pairs)
    }

    // With the pairs of neighbouring groups.
    fn add_neighbours(
        self,
        alloc: Global,
        sorts: &Texts,
        groups: &[Seq<Text<'_>>],
    ) -> Result<PairBuilder, NoMemory>
        requires { self.sorts ≡ length sorts.now }
        ensures { IfOk result (λ b. b ≡ with_more self (pairs_of_groups sorts.now groups.now)) }
    {
        let mut pairs = self;
        for i in 1..groups.len() {
            let lower = groups[i - 1].as_slice();
            pairs = pairs.add_groups(alloc, sorts, lower, groups[i].as_slice())?;
        }
        Ok(pairs)
    }

    // With the pairs that a statement declares.
    fn add_statement(
        self,
        alloc: Global,
        sorts: &Texts,
        statement: &Statement<'_>,
    ) -> Result<PairBuilder, NoMemory>
        requires { self.sorts ≡ length sorts.now }
        ensures { IfOk result (λ b. b ≡ with_more self (pairs_in sorts.now statement.now)) }
    {
        match statement {
            Statement::Subsorts { groups, .. } => {
                let pairs = self.add_neighbours(alloc, sorts, groups.as_slice())?;
                Ok(pairs)
            }
            _ => Ok(self),
        }
    }
}

// The declared sorts among these names, each once.
fn distinct_sorts(alloc: Global, sorts: &Texts, names: &[Text<'_>]) -> Result<Vec<usize>, NoMemory>
    ensures exact { IfOk result (λ v. map sort_number v.items ≡
        with_all same_sort [] (declared_among sorts.now names.now)) }
    ensures in_range { IfOk result (λ v. All (λ s. s < length sorts.now) v.items) }
{
    let mut distinct = Vec::new(alloc);
    for name in names {
        insert_sort(&mut distinct, sorts.place(name.bytes()))?;
    }
    Ok(distinct)
}

// Adds a number, where there is one and it is new.
fn insert_sort(distinct: &mut Vec<usize>, place: Option<usize>) -> Result<(), NoMemory>
    ensures { OnOk result (map sort_number distinct.new.items ≡
        with_all same_sort (map sort_number distinct.old.items) (with_sort (sort_at place) [])) }
{
    if let Some(i) = place {
        if !distinct.as_slice().contains(&i) {
            distinct.push(i)?;
        }
    }
    Ok(())
}

/// A builder with the pairs that statements declare, each once.
pub fn add_pairs(
    alloc: Global,
    builder: SignatureBuilder,
    sorts: &Texts,
    statements: &[Statement<'_>],
) -> Result<SignatureBuilder, NoMemory>
    requires as_many { builder.sorts ≡ length sorts.now }
    requires few { builder.sorts ≤ MOST }
    requires none { builder.below ≡ [] }
    ensures { IfOk result (λ b. b ≡ record builder {
      below = with_pairs sorts.now [] statements.now;
    }) }
{
    let mut pairs = PairBuilder::new(alloc, builder)?;
    for statement in statements {
        pairs = pairs.add_statement(alloc, sorts, statement)?;
    }
    Ok(pairs.into_builder())
}
