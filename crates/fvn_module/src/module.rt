//! Modules that were read.
ghost use Rattle.std.specs.Prelude.{◌≡◌};
ghost use Rattle.fvn_module.specs.Readable.{IsReadable};

use fvn_base::Seq;
use fvn_signature::Signature;
use fvn_syntax::Names;
use fvn_theory::Equation;
use std::marker::Model;

/// A module that was read: its signature, its names, and its equations in the order of its text.
pub struct Module {
    pub(crate) signature: Signature,
    pub(crate) names: Names,
    pub(crate) equations: Seq<Equation>,
}

impl Drop for Module {
    fn drop(self) {
        let Module {
            signature: _,
            names: _,
            equations: _,
        } = self;
    }
}

impl Model for Module {
    ghost use Rattle.fvn_module.specs.Contents.{Contents};

    ghost Value = { Contents };

    ghost use Rattle.fvn_terms.specs.contracts.plain.Args as args;
    ghost use Rattle.std.specs.Coded.{codes};

    ghost coded = { Prim.hlevel (codes, args.the_row.coded) };

    ghost view = { λ m. record { signature = m.signature; names = m.names; equations = m.equations } };

    ghost use Rattle.fvn_module.specs.Readable.{IsReadable};

    ghost invariant = { λ m. IsReadable
        (record { signature = m.signature; names = m.names; equations = m.equations }) };
}

impl Module {
    /// Tells what holds of every module that was read; it does nothing.
    pub fn recall_readable(&self)
        ensures { IsReadable self.now }
    {
        let _signature = &self.signature;
    }

    /// The signature.
    pub fn signature(&self) -> &Signature
        ensures { result.now ≡ self.now.signature }
    {
        &self.signature
    }

    /// The names.
    pub fn names(&self) -> &Names
        ensures { result.now ≡ self.now.names }
    {
        &self.names
    }

    /// The equations.
    pub fn equations(&self) -> &[Equation]
        ensures { result.now ≡ self.now.equations }
    {
        self.equations.as_slice()
    }
}
