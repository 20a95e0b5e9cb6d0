//! Lists of different texts, in which a text is found by its hash.
ghost use Rattle.std.specs.Prelude.{◌≡◌, ◌≢◌, ◌<◌, ◌^◌, ◌++◌, [], ◌∷◌, length, slice_get, Some, None, IfOk, OnErr, AllPairs};
ghost use Rattle.fvn_syntax.specs.Texts.{place, place_or_end, with_text};

use fvn_terms::NoMemory;
use indexmap::IndexSet;
use std::alloc::Global;
use std::marker::Model;

/// Different texts in their order; contracts see the list of them.
#[derive(Debug, Drop)]
pub struct Texts {
    set: IndexSet<Vec<u8>>,
}

impl Model for Texts {
    ghost use Rattle.std.specs.Prelude.{List, ℕ};

    ghost Value = { List (List ℕ) };

    ghost use Rattle.std.specs.Prelude.{map};

    ghost view = { λ t. map (λ v. v.items) t.set.keys };

    ghost use Rattle.std.specs.Prelude.{nat_eq};
    ghost use Rattle.std.specs.Cmp.Lexicographic.{pointwise};
    ghost use Rattle.indexmap.specs.IndexSet.{IsUnique};

    ghost invariant = { λ t. IsUnique (λ v w. pointwise nat_eq v.items w.items) t.set };
}

impl Texts {
    /// No text.
    pub fn new(alloc: Global) -> Texts
        ensures { result ≡ [] }
    {
        Texts {
            set: IndexSet::new(alloc),
        }
    }

    /// The number of texts.
    pub fn len(&self) -> usize
        ensures exact { result ≡ length self.now }
        ensures small { result < 2 ^ 63 }
    {
        self.set.len()
    }

    /// Tells that the texts are different; it does nothing.
    pub fn are_distinct(&self)
        ensures { AllPairs (λ x y. x ≢ y) self.now }
    {
        let _set = &self.set;
    }

    /// The text at a place.
    pub fn text(&self, i: usize) -> &[u8]
        requires { i < length self.now }
        ensures { slice_get self.now i ≡ Some result.now }
    {
        self.set.as_slice()[i].as_slice()
    }

    /// The place of a text.
    pub fn place(&self, text: &[u8]) -> Option<usize>
        ensures { result ≡ place self.now text.now }
    {
        self.set.get_index_of(text)
    }

    /// The place of a text, which is put at the end where it is new.
    pub fn insert(&mut self, alloc: Global, text: &[u8]) -> Result<usize, NoMemory>
        ensures place { IfOk result (λ i. i ≡ place_or_end self.old text.now) }
        ensures texts { IfOk result (λ i. self.new ≡ with_text self.old text.now) }
        ensures err { OnErr result (self.new ≡ self.old) }
    {
        match self.place(text) {
            Some(i) => Ok(i),
            None => self.push(alloc, text),
        }
    }

    // Puts a new text at the end, and tells its place.
    fn push(&mut self, alloc: Global, text: &[u8]) -> Result<usize, NoMemory>
        requires { place self.old text.now ≡ None }
        ensures place { IfOk result (λ i. i ≡ length self.old) }
        ensures texts { IfOk result (λ i. self.new ≡ self.old ++ (text.now ∷ [])) }
        ensures err { OnErr result (self.new ≡ self.old) }
    {
        let i = self.len();
        let copy = Vec::from_slice(alloc, text)?;
        self.set.insert(copy)?;
        Ok(i)
    }
}
