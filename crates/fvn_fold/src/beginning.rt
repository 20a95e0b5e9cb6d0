//! The first level: the normal forms of the start with all its variables renamed.
ghost use Rattle.std.specs.Prelude.{◌≡◌, IfOk};
ghost use Rattle.fvn_flat.specs.Bindings.{BindingsFit};
ghost use Rattle.fvn_exploring.specs.Setting.{AreLawfulIn};
ghost use Rattle.fvn_fold.specs.Starts.{IsStartable, IsSettingIn, AreFixedFor};
ghost use Rattle.fvn_fold.specs.inner.Beginning.{variables_of_forms, AreRested, IsBegun};

use fvn_base::Seq;
use fvn_base::limits::FIRST_FRESH;
use fvn_cover::Variant;
use fvn_exploring::{Expander, ExploreEnd};
use fvn_flat::{Flat, Normal, SizeCause, Subst, fresh_variables};
use fvn_rewrite_laws::{
    kinded_theories_are_lawful, lists_are_lawful, rules_are_lawful, sequences_are_lawful,
};
use fvn_signature::Signature;
use fvn_terms::{NoMemory, Var, rewriting_is_lawful};
use std::alloc::Global;

/// How an exploration begins: with its first variant, or with an end.
#[derive(Drop)]
pub(crate) enum Begun {
    Start(Variant),
    End(ExploreEnd),
}

// The normal forms of all terms, renamed, or why one has none within the limits.
#[derive(Drop)]
enum Rested {
    Forms(Vec<Flat>),
    End(ExploreEnd),
}

// The variables of the terms, each once, in order of first occurrence.
fn variables(alloc: Global, start: &[Flat]) -> Result<Vec<Var>, NoMemory>
    ensures { IfOk result (λ vars. vars.items ≡ variables_of_forms start.now) }
{
    let mut vars = Vec::new(alloc);
    for t in start {
        vars = t.with_variables(vars)?;
    }
    Ok(vars)
}

// The normal forms of the terms as they are given, each then renamed.
fn rest_all<E: Expander>(
    alloc: Global,
    sig: &Signature,
    expander: &E,
    start: &[Flat],
    names: &Subst,
) -> Result<Rested, NoMemory>
    requires setting { IsSettingIn (E.setting expander.now) sig.now }
    requires start { IsStartable sig.now start.now }
    requires names { BindingsFit sig.now names.now }
    ensures rested { IfOk result
        (AreRested (E.setting expander.now) (E.drawn expander.now) start.now names.now) }
    ensures lawful { IfOk result (λ _. AreLawfulIn (E.setting expander.now)) }
{
    let mut terms = Vec::new(alloc);
    for t in start {
        match expander.rest(alloc, t)? {
            Normal::Form(u) => {
                let renamed = names.apply(alloc, sig, &u)?;
                terms.push(renamed)?;
            }
            Normal::Steps(from, to) => return Ok(Rested::End(ExploreEnd::Steps(from, to))),
            Normal::Size(u) => return Ok(Rested::End(ExploreEnd::Size(SizeCause::Term(u)))),
        }
    }
    Ok(Rested::Forms(terms))
}

/// The first variant of an exploration, or why there is none within the limits.
///
/// More variables than can be numbered are refused as memory is.
pub(crate) fn begin<E: Expander>(
    alloc: Global,
    sig: &Signature,
    expander: &E,
    start: &[Flat],
) -> Result<Begun, NoMemory>
    requires setting { IsSettingIn (E.setting expander.now) sig.now }
    requires start { IsStartable sig.now start.now }
    requires fixed { AreFixedFor (E.setting expander.now) start.now }
    ensures lawful { IfOk result (λ _. AreLawfulIn (E.setting expander.now)) }
    ensures begun { IfOk result
        (IsBegun (E.setting expander.now) (E.drawn expander.now) start.now) }
{
    sig.recall_good();
    sig.recall_completed();
    rewriting_is_lawful();
    sequences_are_lawful();
    lists_are_lawful();
    kinded_theories_are_lawful();
    rules_are_lawful();
    let vars = variables(alloc, start)?;
    if vars.len() > FIRST_FRESH as usize {
        return Err(NoMemory);
    }
    let (names, _) = fresh_variables(alloc, vars.as_slice(), 0)?;
    match rest_all(alloc, sig, expander, start, &names)? {
        Rested::Forms(terms) => Ok(Begun::Start(Variant {
            terms: Seq::from_vec(terms),
            subst: names,
            vars: Seq::from_vec(vars),
        })),
        Rested::End(end) => Ok(Begun::End(end)),
    }
}
