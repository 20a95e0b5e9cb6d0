//! Lists of marks in blocks: what the marks of a block have in common often refuses all of them at once.
ghost use Rattle.std.specs.Prelude.{◌≡◌, ◌++◌, [], ◌∷◌, IsTrue, IfOk, All};
ghost use Rattle.fvn_cover_counts.specs.Marks.{RefuseEachOther};
ghost use Rattle.fvn_cover_counts.specs.inner.Blocks.{IsBlock, held};

use crate::marks::{Marks, Unkept};
use fvn_terms::NoMemory;
use std::alloc::Global;
use std::marker::Model;

// How many marks a block has room for.
const BLOCK: usize = 8;

// Some marks, which all are between two others.
#[derive(Drop)]
pub(crate) struct Block {
    pub(crate) low: Marks,
    pub(crate) high: Marks,
    pub(crate) marks: Vec<Marks>,
}

impl Block {
    // The block of no marks.
    fn empty(alloc: Global) -> Block
        ensures block { IsBlock result }
        ensures marks { result.marks.items ≡ [] }
    {
        let m = Marks::none();
        Block {
            low: m,
            high: m,
            marks: Vec::new(alloc),
        }
    }

    // The block of these marks alone.
    fn of_one(alloc: Global, m: Marks) -> Result<Block, NoMemory>
        ensures block { IfOk result IsBlock }
        ensures marks { IfOk result (λ b. b.marks.items ≡ m ∷ []) }
    {
        let mut marks = Vec::new(alloc);
        marks.push(m)?;
        Ok(Block {
            low: m,
            high: m,
            marks,
        })
    }

    // Whether there is room for one more.
    fn has_room(&self) -> bool {
        self.marks.len() < BLOCK
    }

    // Whether these marks may be put to it: there is room, and they leave out the same operators.
    fn takes(&self, m: &Marks) -> bool
        ensures { IsTrue result → m.now.out ≡ self.now.low.out }
    {
        if !self.has_room() {
            return false;
        }
        m.is_like(&self.low)
    }

    // The block with these marks at the end.
    fn longer(self, m: Marks) -> Result<Block, NoMemory>
        requires out { m.out ≡ self.low.out }
        requires block { IsBlock self }
        ensures block { IfOk result IsBlock }
        ensures marks { IfOk result (λ b. b.marks.items ≡ self.marks.items ++ m ∷ []) }
    {
        let low = self.low.lower_of(&m);
        let high = self.high.upper_of(&m);
        let mut marks = self.marks;
        marks.push(m)?;
        Ok(Block { low, high, marks })
    }

    // Whether what all of the block have in common refuses each of them beside these marks.
    fn refuses_whole(&self, out: Unkept, m: &Marks) -> bool
        requires { IsBlock self.now }
        ensures { IsTrue result → All (RefuseEachOther out m.now) self.now.marks.items }
    {
        if !self.low.are_without(out, m) {
            return false;
        }
        let there = self.low.are_within(m);
        let back = m.are_within(&self.high);
        !(there | back)
    }

    // Whether each of the block is refused beside these marks.
    fn refuses(&self, out: Unkept, m: &Marks) -> bool
        requires { IsBlock self.now }
        ensures { IsTrue result → All (RefuseEachOther out m.now) self.now.marks.items }
    {
        if self.refuses_whole(out, m) {
            return true;
        }
        are_all_apart(self.marks.as_slice(), out, m)
    }
}

// Whether each of the list is refused beside these marks.
fn are_all_apart(list: &[Marks], out: Unkept, m: &Marks) -> bool
    ensures { IsTrue result → All (RefuseEachOther out m.now) list.now }
{
    for k in list {
        if !m.are_apart(out, k) {
            return false;
        }
    }
    true
}

// Whether each of all blocks is refused beside these marks.
fn are_refused(blocks: &[Block], out: Unkept, m: &Marks) -> bool
    requires { All IsBlock blocks.now }
    ensures { IsTrue result → All (RefuseEachOther out m.now) (held blocks.now) }
{
    for b in blocks {
        if !b.refuses(out, m) {
            return false;
        }
    }
    true
}

// The blocks and the last one, with these marks at the end.
fn with_last(
    alloc: Global,
    full: Vec<Block>,
    last: Block,
    m: Marks,
) -> Result<(Vec<Block>, Block), NoMemory>
    requires full { All IsBlock full.items }
    requires last { IsBlock last }
    ensures blocks { IfOk result (λ r. All IsBlock r.0.items × IsBlock r.1) }
    ensures marks { IfOk result (λ r. held r.0.items ++ r.1.marks.items
        ≡ (held full.items ++ last.marks.items) ++ m ∷ []) }
{
    if last.takes(&m) {
        let more = last.longer(m)?;
        return Ok((full, more));
    }
    let one = Block::of_one(alloc, m)?;
    let mut all = full;
    all.push(last)?;
    Ok((all, one))
}

/// A list of marks, seen as that list, to which others are compared at once.
#[derive(Drop)]
pub struct MarkBlocks {
    full: Vec<Block>,
    last: Block,
}

impl Model for MarkBlocks {
    ghost use Rattle.std.specs.Prelude.{List, ◌++◌, All};
    ghost use Rattle.fvn_cover_counts.specs.declared.marks.Marks.{Marks};
    ghost use Rattle.fvn_cover_counts.specs.inner.Blocks.{IsBlock, held};

    ghost Value = { List Marks };

    ghost view = { λ s. held s.full.items ++ s.last.marks.items };

    ghost invariant = { λ s. All IsBlock s.full.items × IsBlock s.last };
}

impl MarkBlocks {
    /// The list of no marks.
    pub fn new(alloc: Global) -> MarkBlocks
        ensures { result ≡ [] }
    {
        MarkBlocks {
            full: Vec::new(alloc),
            last: Block::empty(alloc),
        }
    }

    /// The list with these marks at the end.
    pub fn with_marks(self, alloc: Global, m: Marks) -> Result<MarkBlocks, NoMemory>
        ensures { IfOk result (λ more. more ≡ self ++ m ∷ []) }
    {
        let MarkBlocks { full, last } = self;
        let both = with_last(alloc, full, last, m)?;
        let (all, one) = both;
        Ok(MarkBlocks {
            full: all,
            last: one,
        })
    }

    /// Whether each of the list and these marks refuse that some substitution makes terms with the ones from
    /// terms with the others.
    pub fn refuses(&self, out: Unkept, m: &Marks) -> bool
        ensures { IsTrue result → All (RefuseEachOther out m.now) self.now }
    {
        if !self.last.refuses(out, m) {
            return false;
        }
        are_refused(self.full.as_slice(), out, m)
    }
}
