//! Pairs whose sides have one normal form: one renaming of their variables solves them.
ghost use Rattle.std.specs.Prelude.{◌≡◌, [], IsTrue, IfOk, IfSome};
ghost use Rattle.fvn_flat.specs.Fits.{Fits, AllFit};
ghost use Rattle.fvn_vunify.specs.AtOnce.{HaveOneForm, IsSolvedAtOnceFor};
ghost use Rattle.fvn_vunify.specs.inner.Attempts.{candidate_of};
ghost use Rattle.fvn_vunify.specs.inner.OneForms.{IsFormIn, HaveOneFormEach, IsAlone, variables_of_forms};

use crate::names::fresh_names;
use crate::solved::SolvedModulo;
use crate::testing::{Test, test_kept};
use fvn_base::Seq;
use fvn_cover::Variant;
use fvn_exploring::{Expander, ExploreEnd};
use fvn_flat::{Flat, Normal, Subst};
use fvn_signature::Signature;
use fvn_terms::{NoMemory, Var, rewriting_is_lawful, theory_equality_is_lawful};
use std::alloc::Global;

// The normal form of a term, if it has one within the limits.
fn form_of<E: Expander>(alloc: Global, expander: &E, t: &Flat) -> Result<Option<Flat>, NoMemory>
    requires { Fits (E.setting expander.now).declarations t.now }
    ensures { IfOk result (λ o. IfSome o (IsFormIn (E.setting expander.now) t.now)) }
{
    match expander.rest(alloc, t)? {
        Normal::Form(form) => Ok(Some(form)),
        Normal::Steps(_, _) => Ok(None),
        Normal::Size(_) => Ok(None),
    }
}

// Whether two terms have one normal form within the limits.
fn have_one_form<E: Expander>(
    alloc: Global,
    expander: &E,
    t: &Flat,
    u: &Flat,
) -> Result<bool, NoMemory>
    requires left { Fits (E.setting expander.now).declarations t.now }
    requires right { Fits (E.setting expander.now).declarations u.now }
    ensures { IfOk result (λ b. IsTrue b → HaveOneForm (E.setting expander.now) t.now u.now) }
{
    let Some(left) = form_of(alloc, expander, t)? else {
        return Ok(false);
    };
    let Some(right) = form_of(alloc, expander, u)? else {
        return Ok(false);
    };
    Ok(left.same(&right))
}

// Whether each two of the terms that are taken together have one normal form.
fn all_have_one_form<E: Expander>(
    alloc: Global,
    expander: &E,
    terms: &[Flat],
) -> Result<bool, NoMemory>
    requires terms { AllFit (E.setting expander.now).declarations terms.now }
    ensures { IfOk result (λ b. IsTrue b → HaveOneFormEach (E.setting expander.now) terms.now) }
{
    let mut i: usize = 0;
    while i + 1 < terms.len() {
        let alike = have_one_form(alloc, expander, &terms[i], &terms[i + 1])?;
        if !alike {
            return Ok(false);
        }
        i += 2;
    }
    Ok(true)
}

// The variables of the terms, each once.
fn variables(alloc: Global, terms: &[Flat]) -> Result<Vec<Var>, NoMemory>
    ensures { IfOk result (λ vars. vars.items ≡ variables_of_forms terms.now) }
{
    let mut vars = Vec::new(alloc);
    for t in terms {
        vars = t.with_variables(vars)?;
    }
    Ok(vars)
}

// What leaves the variables of the terms as they are, as a variant without terms.
fn unchanged(alloc: Global, terms: &[Flat]) -> Result<Variant, NoMemory>
    ensures { IfOk result (λ v. v ≡ candidate_of (variables_of_forms terms.now) []) }
{
    let vars = variables(alloc, terms)?;
    Ok(Variant {
        terms: Seq::new(alloc),
        subst: Subst::empty(alloc),
        vars: Seq::from_vec(vars),
    })
}

// The substitution alone, as all that is found.
fn alone(alloc: Global, s: Subst) -> Result<SolvedModulo, NoMemory>
    ensures { IfOk result (IsAlone s) }
{
    let mut all = Vec::new(alloc);
    all.push(s)?;
    Ok(SolvedModulo {
        unifiers: Seq::from_vec(all),
        end: ExploreEnd::Complete,
    })
}

/// The answer for pairs with these sides in turn, where those of each pair have one normal form within the limits.
///
/// It renames the variables, so that nothing need be explored. Nothing is given where a pair's sides have two normal
/// forms, or one is not found within the limits.
pub fn unify_at_once<E: Expander>(
    alloc: Global,
    sig: &Signature,
    expander: &E,
    terms: &[Flat],
) -> Result<Option<SolvedModulo>, NoMemory>
    requires sig { sig.now ≡ (E.setting expander.now).declarations }
    requires terms { AllFit sig.now terms.now }
    ensures solved { IfOk result (λ o. IfSome o (IsSolvedAtOnceFor (E.setting expander.now) terms.now)) }
{
    rewriting_is_lawful();
    theory_equality_is_lawful();
    let alike = all_have_one_form(alloc, expander, terms)?;
    if !alike {
        return Ok(None);
    }
    let v = unchanged(alloc, terms)?;
    let (names, _) = fresh_names(alloc, &v)?;
    match test_kept(alloc, sig, expander, &names, v.vars.as_slice())? {
        Test::Irreducible => {
            let solved = alone(alloc, names)?;
            Ok(Some(solved))
        }
        Test::Reducible => Ok(None),
        Test::Stopped(_) => Ok(None),
    }
}
