//! What names are read in.
ghost use Rattle.std.specs.Prelude.{◌≡◌};
ghost use Rattle.fvn_syntax.specs.Scope.{IsNumbered};

use crate::names::Names;
use fvn_terms::Declarations;
use std::marker::Model;

/// What names are read in: declarations, names, and whether names of variables are guarded, so that none may
/// begin with `#`.
#[derive(Drop)]
pub struct Scope<'s> {
    declarations: &'s Declarations,
    names: &'s Names,
    guarded: bool,
}

impl<'s> Model for Scope<'s> {
    ghost use Rattle.fvn_syntax.specs.Scope.{Scope as InScope, IsNumbered};

    ghost Value = { InScope };

    ghost view = { λ s. record { declarations = s.declarations.now; names = s.names.now; guarded = s.guarded } };

    ghost invariant = { λ s. IsNumbered s.names.now };
}

impl<'s> Scope<'s> {
    /// These declarations and names.
    pub fn new(declarations: &'s Declarations, names: &'s Names, guarded: bool) -> Scope<'s>
        requires { IsNumbered names.now }
        ensures { result
            ≡ record { declarations = declarations.now; names = names.now; guarded = guarded } }
    {
        Scope {
            declarations,
            names,
            guarded,
        }
    }

    /// The declarations.
    pub fn declarations(&self) -> &'s Declarations
        ensures { result.now ≡ self.now.declarations }
    {
        self.declarations
    }

    /// The names.
    pub fn names(&self) -> &'s Names
        ensures is { result.now ≡ self.now.names }
        ensures numbered { IsNumbered result.now }
    {
        self.names
    }

    /// Whether names of variables are guarded.
    pub fn guarded(&self) -> bool
        ensures { result ≡ self.now.guarded }
    {
        self.guarded
    }
}
