//! What an expansion and an exploration end with.
ghost use Rattle.std.specs.Prelude.{◌≡◌};
ghost use Rattle.fvn_exploring.specs.Ends.{explore_end};

use fvn_base::Seq;
use fvn_cover::Variant;
use fvn_flat::{Flat, Pairs, SizeCause, Subst};
use fvn_lindio::System;
use fvn_terms::OpId;

/// Why an expansion stopped.
pub enum ExpandEnd {
    /// Every reducible instance lifts into a child.
    Whole,
    /// A term and what it came to in as many steps as were allowed; that can be rewritten further.
    Steps(Flat, Flat),
    /// Something has more symbols than are allowed.
    Size(SizeCause),
    /// The sum system of an operator, for a problem that was given to the solver, is refused.
    Basis(OpId, System),
    /// The problem has as many unifiers as the solver keeps.
    Unifiers(Pairs, Seq<Subst>),
}

impl Drop for ExpandEnd {
    fn drop(self) {
        match self {
            ExpandEnd::Whole => {}
            ExpandEnd::Steps(_, _) => {}
            ExpandEnd::Size(_) => {}
            ExpandEnd::Basis(_, _) => {}
            ExpandEnd::Unifiers(_, _) => {}
        }
    }
}

impl ExpandEnd {
    /// The end of an exploration that stops where this expansion did.
    pub fn into_explore_end(self) -> ExploreEnd
        ensures { result ≡ explore_end self }
    {
        match self {
            ExpandEnd::Whole => ExploreEnd::Complete,
            ExpandEnd::Steps(start, end) => ExploreEnd::Steps(start, end),
            ExpandEnd::Size(cause) => ExploreEnd::Size(cause),
            ExpandEnd::Basis(f, system) => ExploreEnd::Basis(f, system),
            ExpandEnd::Unifiers(given, list) => ExploreEnd::Unifiers(given, list),
        }
    }
}

/// What a variant is expanded to.
pub struct Expansion {
    pub children: Seq<Variant>,
    pub end: ExpandEnd,
}

impl Drop for Expansion {
    fn drop(self) {
        let Expansion {
            children: _,
            end: _,
        } = self;
    }
}

impl Expansion {
    /// The children and the end, each by itself.
    pub fn into_parts(self) -> (Seq<Variant>, ExpandEnd)
        ensures { result ≡ (self.children, self.end) }
    {
        let Expansion { children, end } = self;
        (children, end)
    }
}

/// Why an exploration stopped.
pub enum ExploreEnd {
    /// Every variant is covered.
    Complete,
    /// The deepest level that is allowed has a child that nothing covers; this is it.
    Levels(Variant),
    /// As many variants are kept as are allowed, and one more could follow them; this is it.
    Variants(Variant),
    /// A term and what it came to in as many steps as were allowed; that can be rewritten further.
    Steps(Flat, Flat),
    /// Something has more symbols than are allowed.
    Size(SizeCause),
    /// The sum system of an operator, for a problem that was given to the solver, is refused.
    Basis(OpId, System),
    /// The problem has as many unifiers as the solver keeps.
    Unifiers(Pairs, Seq<Subst>),
}

impl Drop for ExploreEnd {
    fn drop(self) {
        match self {
            ExploreEnd::Complete => {}
            ExploreEnd::Levels(_) => {}
            ExploreEnd::Variants(_) => {}
            ExploreEnd::Steps(_, _) => {}
            ExploreEnd::Size(_) => {}
            ExploreEnd::Basis(_, _) => {}
            ExploreEnd::Unifiers(_, _) => {}
        }
    }
}

/// A variant and how many levels below the start it was found.
pub struct Deep {
    pub variant: Variant,
    pub depth: u32,
}

impl Drop for Deep {
    fn drop(self) {
        let Deep {
            variant: _,
            depth: _,
        } = self;
    }
}

/// What an exploration found: all that were kept, level by level, and those that no other one covers.
pub struct Explored {
    pub kept: Seq<Deep>,
    pub variants: Seq<Variant>,
    pub end: ExploreEnd,
}

impl Drop for Explored {
    fn drop(self) {
        let Explored {
            kept: _,
            variants: _,
            end: _,
        } = self;
    }
}

impl Explored {
    /// The end alone.
    pub fn into_end(self) -> ExploreEnd
        ensures { result ≡ self.end }
    {
        let Explored {
            kept: _,
            variants: _,
            end,
        } = self;
        end
    }
}

// Takes only what may be sent to and shared between threads.
fn shared<T: Send + Sync>(_value: &T) {}

/// Expansions may be sent to and shared between threads.
pub fn all_shared(expansion: &Expansion) {
    shared(expansion);
}
