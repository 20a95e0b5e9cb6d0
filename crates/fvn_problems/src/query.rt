//! Reading a term text.
ghost use Rattle.std.specs.Prelude.{◌≡◌, [], IfOk, IfErr};
ghost use Rattle.fvn_terms.specs.Signature.{IsTerm};
ghost use Rattle.fvn_terms.specs.Plain.{term};
ghost use Rattle.fvn_syntax.specs.Raw.{IsTermBefore};
ghost use Rattle.fvn_problems.specs.Scopes.{AreNamesOf};
ghost use Rattle.fvn_problems.specs.Variables.{with_variables};
ghost use Rattle.fvn_problems.specs.Queries.{IsQuery, IsOnlyQuery, RefusesQuery, HasNoQuery, HasVariables};
ghost use Rattle.fvn_problems.specs.inner.Steps.{AsksTerm, AsksNoTerm};

use crate::fault::{ProblemFault, term_fault};
use crate::split::split_query;
use crate::text::cut_text;
use crate::vars::add_variables;
use fvn_base::Seq;
use fvn_base::limits::TEXT_SYMBOLS;
use fvn_signature::Signature;
use fvn_syntax::{Names, Piece, Scope, Seen, Texts, VarNames, resolve_term, terms_are_well_kinded};
use fvn_terms::{NoMemory, Plain, Var};
use std::alloc::Global;

/// A term, its variables in order of first occurrence, each once, and their names.
pub struct Query {
    pub term: Plain,
    pub vars: Seq<Var>,
    pub names: VarNames,
}

impl Drop for Query {
    fn drop(self) {
        let Query {
            term: _,
            vars: _,
            names: _,
        } = self;
    }
}

// The variables of a term.
fn variables_of(alloc: Global, t: &Plain) -> Result<Seq<Var>, NoMemory>
    ensures { IfOk result (λ vars. vars ≡ with_variables [] (term t.now)) }
{
    let mut vars = Vec::new(alloc);
    add_variables(&mut vars, t)?;
    Ok(Seq::from_vec(vars))
}

// The query of a term that is read.
fn ask(alloc: Global, scope: &Scope<'_>, row: &[Piece<'_>]) -> Result<Query, ProblemFault>
    requires { IsTermBefore [] row.now }
    ensures ok { IfOk result (AsksTerm scope.now row.now) }
    ensures err { IfErr result (AsksNoTerm scope.now row.now) }
{
    let seen = Seen {
        texts: Texts::new(alloc),
        count: 0,
    };
    match resolve_term(alloc, TEXT_SYMBOLS, scope, seen, row) {
        Err(fault) => Err(term_fault(fault)),
        Ok((read, seen)) => {
            if TEXT_SYMBOLS < seen.count {
                return Err(ProblemFault::TooLarge);
            }
            let vars = variables_of(alloc, &read.term)?;
            let names = VarNames { texts: seen.texts };
            Ok(Query {
                term: read.term,
                vars,
                names,
            })
        }
    }
}

// What a term text asks, or its first fault.
fn query_of(
    alloc: Global,
    signature: &Signature,
    names: &Names,
    bytes: &[u8],
) -> Result<Query, ProblemFault>
    requires { AreNamesOf signature.now names.now }
    ensures ok { IfOk result (IsQuery signature.now names.now bytes.now) }
    ensures err { IfErr result (RefusesQuery signature.now names.now bytes.now) }
{
    let row = cut_text(alloc, bytes)?;
    match split_query(alloc, row.as_slice())? {
        None => Err(ProblemFault::Text),
        Some(row) => {
            let scope = Scope::new(signature.declarations(), names, true);
            ask(alloc, &scope, row.pieces())
        }
    }
}

/// What a term text asks in a signature and its names, or its first fault.
///
/// Tokens, form, the names from left to right, and the number of symbols are tested in this order.
pub fn read_term(
    alloc: Global,
    signature: &Signature,
    names: &Names,
    bytes: &[u8],
) -> Result<Query, ProblemFault>
    requires { AreNamesOf signature.now names.now }
    ensures ok { IfOk result (IsQuery signature.now names.now bytes.now) }
    ensures only { IfOk result (IsOnlyQuery signature.now names.now bytes.now) }
    ensures kinded { IfOk result (λ q. IsTerm signature.now (term q.term)) }
    ensures vars { IfOk result (HasVariables signature.now) }
    ensures err { IfErr result (RefusesQuery signature.now names.now bytes.now) }
    ensures none { IfErr result (HasNoQuery signature.now names.now bytes.now) }
{
    terms_are_well_kinded();
    query_of(alloc, signature, names, bytes)
}
