//! Declarations of operators as they are collected, each once.
ghost use Rattle.std.specs.Prelude.{◌≡◌, ◌<◌, ◌≤◌, false, [], map, length, replicate, All, IfOk, slice_index_or, slice_set, None};
ghost use Rattle.fvn_base.specs.declared.limits.TheConstants.{SORTS as MOST_SORTS, OPERATORS as MOST};
ghost use Rattle.fvn_signature_draft.specs.Collected.{Names};
ghost use Rattle.fvn_syntax.specs.Texts.{with_text};
ghost use Rattle.fvn_module_names.specs.Names.{operators_in, with_texts, with_names as with_all_names};
ghost use Rattle.fvn_module_declarations.specs.Operators.{or_else, or_free};
ghost use Rattle.fvn_module_names.specs.Faults.{has_unknown_sort};
ghost use Rattle.fvn_module_declarations.specs.inner.Shapes.{shape_of, HasRank};
ghost use Rattle.fvn_module_declarations.specs.inner.Drafts.{declared, with_one, with_name, with_names, with_operators, with_all_operators};
ghost use Rattle.fvn_module_declarations.specs.inner.Codes.{code};

use crate::codes::declaration_code;
use crate::shapes::{Shape, shape_of};
use fvn_base::Seq;
use fvn_base::limits::OPERATORS;
use fvn_module_names::{Vocabulary, operator_names};
use fvn_module_syntax::{Attribute, RawRank, Statement};
use fvn_sorts::SignatureBuilder;
use fvn_syntax::Texts;
use fvn_terms::{Axioms, NoMemory, OpId, Rank};
use std::alloc::Global;
use std::marker::Model;

/// A builder, the operators so far with the axioms of the latest declaration of each, and codes of all declarations.
#[derive(Drop)]
pub struct Draft {
    names: Texts,
    latest: Vec<Option<Axioms>>,
    codes: Texts,
    builder: SignatureBuilder,
}

impl Model for Draft {
    ghost use Rattle.fvn_module_declarations.specs.inner.Drafts.{Draft as Drafted, IsDraft};

    ghost Value = { Drafted };

    ghost view = { λ d. record {
      names = d.names;
      latest = d.latest.items;
      collected = d.builder;
    } };

    ghost invariant = { λ d. IsDraft d.names d.latest.items d.codes d.builder };
}

// The axioms of a declaration: its own, or else the latest ones, or none.
fn choose(own: Option<Axioms>, latest: Option<Axioms>) -> Axioms
    ensures { result ≡ or_free (or_else own latest) }
{
    match own {
        Some(axioms) => axioms,
        None => match latest {
            Some(axioms) => axioms,
            None => Axioms::Free,
        },
    }
}

// A copy of a rank.
fn copy_rank(alloc: Global, rank: &Rank) -> Result<Rank, NoMemory>
    ensures { IfOk result (λ r. r ≡ rank.now) }
{
    let args = Vec::from_slice(alloc, rank.args.as_slice())?;
    Ok(Rank {
        args: Seq::from_vec(args),
        result: rank.result,
    })
}

// The axioms of one more declaration of an operator, which are its latest ones from now on.
fn take_axioms(latest: &mut [Option<Axioms>], place: usize, own: Option<Axioms>) -> Axioms
    requires { place < length latest.old }
    ensures axioms { result ≡ or_free (or_else own (slice_index_or latest.old place None)) }
    ensures latest { latest.new ≡ slice_set latest.old place (Some result) }
{
    let axioms = choose(own, latest[place]);
    latest[place] = Some(axioms);
    axioms
}

// A builder with one more declaration, unless there is one like it.
fn add_new(
    alloc: Global,
    codes: &mut Texts,
    builder: SignatureBuilder,
    op: OpId,
    shape: &Shape,
    axioms: Axioms,
) -> Result<SignatureBuilder, NoMemory>
    requires codes { codes.old ≡ map code builder.declarations }
    requires known_or_next { op.0 ≤ builder.operators }
    requires room { builder.operators < u16.MAX }
    requires args { All (Names builder.sorts) shape.now.rank.args }
    requires gives { Names builder.sorts shape.now.rank.result }
    ensures exact { IfOk result (λ b. b ≡ with_one builder (declared op shape.now axioms)) }
    ensures codes { IfOk result (λ b. codes.new ≡ map code b.declarations) }
{
    let text = declaration_code(alloc, op, &shape.rank, shape.partial, axioms)?;
    let count = codes.len();
    let place = codes.insert(alloc, text.as_slice())?;
    if place != count {
        return Ok(builder);
    }
    let rank = copy_rank(alloc, &shape.rank)?;
    let builder = builder.op(op, rank, shape.partial, axioms)?;
    Ok(builder)
}

impl Draft {
    // With one more declaration, of the operator with this name.
    fn add(self, alloc: Global, shape: &Shape, name: &[u8]) -> Result<Draft, NoMemory>
        requires few { length (with_text self.names name.now) ≤ MOST }
        requires args { All (Names self.collected.sorts) shape.now.rank.args }
        requires gives { Names self.collected.sorts shape.now.rank.result }
        ensures { IfOk result (λ d. d ≡ with_name self shape.now name.now) }
    {
        let Draft {
            mut names,
            mut latest,
            mut codes,
            builder,
        } = self;
        let place = names.insert(alloc, name)?;
        let axioms = take_axioms(latest.as_mut_slice(), place, shape.axioms);
        let builder = add_new(
            alloc,
            &mut codes,
            builder,
            OpId(place as u16),
            shape,
            axioms,
        )?;
        Ok(Draft {
            names,
            latest,
            codes,
            builder,
        })
    }

    // With a declaration of each of the operators with these names.
    fn add_names(self, alloc: Global, shape: &Shape, names: &[Seq<u8>]) -> Result<Draft, NoMemory>
        requires few { length (with_texts self.names names.now) ≤ MOST }
        requires args { All (Names self.collected.sorts) shape.now.rank.args }
        requires gives { Names self.collected.sorts shape.now.rank.result }
        ensures { IfOk result (λ d. d ≡ with_names self shape.now names.now) }
    {
        let mut draft = self;
        for name in names {
            draft = draft.add(alloc, shape, name.as_slice())?;
        }
        Ok(draft)
    }

    // With a declaration of this shape of each of the operators that a statement names.
    fn add_each(
        self,
        alloc: Global,
        shape: &Shape,
        statement: &Statement<'_>,
    ) -> Result<Draft, NoMemory>
        requires few { length (with_texts self.names (operators_in statement.now)) ≤ MOST }
        requires args { All (Names self.collected.sorts) shape.now.rank.args }
        requires gives { Names self.collected.sorts shape.now.rank.result }
        ensures { IfOk result (λ d. d ≡ with_names self shape.now (operators_in statement.now)) }
    {
        let names = operator_names(alloc, statement)?;
        self.add_names(alloc, shape, names.as_slice())
    }

    // With a declaration of each of the operators that a statement with this rank and these attributes declares.
    fn add_operators(
        self,
        alloc: Global,
        v: &Vocabulary,
        statement: &Statement<'_>,
        rank: &RawRank<'_>,
        attributes: &[Attribute<'_>],
    ) -> Result<Draft, NoMemory>
        requires sorts { length v.now.sorts ≤ MOST_SORTS }
        requires ops { length v.now.ops ≤ MOST }
        requires as_many { self.collected.sorts ≡ length v.now.sorts }
        requires few { length (with_texts self.names (operators_in statement.now)) ≤ MOST }
        requires known { has_unknown_sort v.now.sorts v.now.ops v.now.kinds rank.now ≡ false }
        ensures { IfOk result (λ d. d ≡ with_names self (shape_of v.now rank.now attributes.now)
            (operators_in statement.now)) }
    {
        let shape = shape_of(alloc, v, rank, attributes)?;
        self.add_each(alloc, &shape, statement)
    }

    // With what a statement declares.
    fn add_statement(
        self,
        alloc: Global,
        v: &Vocabulary,
        statement: &Statement<'_>,
    ) -> Result<Draft, NoMemory>
        requires sorts { length v.now.sorts ≤ MOST_SORTS }
        requires ops { length v.now.ops ≤ MOST }
        requires as_many { self.collected.sorts ≡ length v.now.sorts }
        requires few { length (with_texts self.names (operators_in statement.now)) ≤ MOST }
        requires known { HasRank v.now statement.now }
        ensures { IfOk result (λ d. d ≡ with_operators v.now self statement.now) }
    {
        match statement {
            Statement::Operator {
                rank,
                attributes,
                ..
            } => {
                let draft = self.add_operators(alloc, v, statement, rank, attributes.as_slice())?;
                Ok(draft)
            }
            Statement::Operators {
                rank,
                attributes,
                ..
            } => {
                let draft = self.add_operators(alloc, v, statement, rank, attributes.as_slice())?;
                Ok(draft)
            }
            _ => Ok(self),
        }
    }

    /// With a builder that has no operator yet.
    pub fn new(alloc: Global, builder: SignatureBuilder) -> Result<Draft, NoMemory>
        requires operators { builder.operators ≡ 0 }
        requires declarations { builder.declarations ≡ [] }
        ensures { IfOk result (λ d. d ≡ record {
          names = [];
          latest = replicate MOST None;
          collected = builder;
        }) }
    {
        let latest = vec![in alloc; None; usize::from(OPERATORS)]?;
        Ok(Draft {
            names: Texts::new(alloc),
            latest,
            codes: Texts::new(alloc),
            builder,
        })
    }

    /// With what all these statements declare.
    pub fn add_all(
        self,
        alloc: Global,
        v: &Vocabulary,
        statements: &[Statement<'_>],
    ) -> Result<Draft, NoMemory>
        requires sorts { length v.now.sorts ≤ MOST_SORTS }
        requires ops { length v.now.ops ≤ MOST }
        requires as_many { self.collected.sorts ≡ length v.now.sorts }
        requires few { length (with_all_names operators_in self.names statements.now) ≤ MOST }
        requires known { All (HasRank v.now) statements.now }
        ensures { IfOk result (λ d. d ≡ with_all_operators v.now self statements.now) }
    {
        let mut draft = self;
        for statement in statements {
            draft = draft.add_statement(alloc, v, statement)?;
        }
        Ok(draft)
    }

    /// The builder.
    pub fn into_builder(self) -> SignatureBuilder
        ensures exact { result ≡ self.collected }
        ensures count { result.operators ≡ length self.names }
    {
        self.builder
    }
}
