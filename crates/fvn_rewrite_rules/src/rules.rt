//! The rules of equations, with a table by heads.
ghost use Rattle.std.specs.Prelude.{◌≡◌};
ghost use Rattle.fvn_rewrite_rules.specs.Given.{headed};

use crate::rule::Rule;
use fvn_base::Seq;
use fvn_terms::OpId;
use fvn_theory::Equation;
use std::marker::Model;

/// Equations, the rules that are made from them, and for each operator those that are needed where it
/// heads a term. No query takes memory.
#[derive(Drop)]
pub struct Rules {
    pub(crate) equations: Vec<Equation>,
    pub(crate) rules: Vec<Rule>,
    pub(crate) table: Vec<Seq<Rule>>,
}

impl Model for Rules {
    ghost use Rattle.fvn_rewrite_rules.specs.Given.{RuleLists};

    ghost Value = { RuleLists };

    ghost use Rattle.fvn_terms.specs.contracts.plain.Args as args;
    ghost use Rattle.fvn_flat.specs.contracts.flat.Flat as flat;
    ghost use Rattle.std.specs.Coded.{codes};

    ghost coded = { Prim.hlevel (codes, args.the_row.coded, flat.the_row.coded) };

    ghost view = { λ r. record { equations = r.equations.items; rules = r.rules.items; table = r.table.items } };
}

// Takes only what may be sent to and shared between threads.
fn shared<T: Send + Sync>(_value: &T) {}

/// Rules may be sent to and shared between threads.
pub fn all_shared(rules: &Rules) {
    shared(rules);
}

impl Rules {
    /// The equations that the rules are made from.
    pub fn equations(&self) -> &[Equation]
        ensures { result.now ≡ self.now.equations }
    {
        self.equations.as_slice()
    }

    /// All rules, in the order of their equations.
    pub fn rules(&self) -> &[Rule]
        ensures { result.now ≡ self.now.rules }
    {
        self.rules.as_slice()
    }

    /// The rules that are needed where the operator heads a term: the left side of each left out is an instance of that
    /// of one of them.
    pub fn headed(&self, f: OpId) -> &[Rule]
        ensures { result.now ≡ headed self.now f }
    {
        match self.table.get(usize::from(f.0)) {
            Some(list) => list.as_slice(),
            None => &[],
        }
    }
}
