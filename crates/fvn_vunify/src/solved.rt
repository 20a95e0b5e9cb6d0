//! What a search for unifiers in a theory answers.
ghost use Rattle.std.specs.Prelude.{◌≡◌};

use fvn_base::Seq;
use fvn_exploring::ExploreEnd;
use fvn_flat::Subst;

/// Unifiers in a theory, and why there may be more.
pub struct SolvedModulo {
    pub unifiers: Seq<Subst>,
    pub end: ExploreEnd,
}

impl Drop for SolvedModulo {
    fn drop(self) {
        let SolvedModulo {
            unifiers: _,
            end: _,
        } = self;
    }
}

impl SolvedModulo {
    /// The unifiers and the end, each by itself.
    pub fn into_parts(self) -> (Seq<Subst>, ExploreEnd)
        ensures { result ≡ (self.unifiers, self.end) }
    {
        let SolvedModulo { unifiers, end } = self;
        (unifiers, end)
    }
}
