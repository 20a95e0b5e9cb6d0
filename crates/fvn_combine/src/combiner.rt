//! The unifiers of a problem on kinds, one after another.
ghost use Rattle.std.specs.Prelude.{◌≡◌, ◌≤◌, ◌<◌, ◌-◌, ◌^◌, true, false, Some, None, IfOk, IfSome};
ghost use Rattle.fvn_base.specs.declared.limits.TheConstants.{TERM_SYMBOLS};
ghost use Rattle.fvn_terms.specs.Substitution.{Substitution};
ghost use Rattle.fvn_flat.specs.Problems.{variables_of};
ghost use Rattle.fvn_flat.specs.Solving.{IsGiven, problem_of, symbols_of_pairs};
ghost use Rattle.fvn_flat.specs.SolvedLists.{IsKindUnifier};
ghost use Rattle.fvn_combine_drawing.specs.CombineBoundsNarrow.{KeepsSorts};
ghost use Rattle.fvn_combine.specs.Advancing.{IsOf, IsToCome, IsAdvanced, IsAgain};
ghost use Rattle.fvn_combine.specs.Search.{IsSearch};
ghost use Rattle.fvn_combine.specs.Work.{work_left};
ghost use Rattle.fvn_combine.specs.inner.Parts.{search_by, search_of};
ghost use Rattle.fvn_combine.specs.declared.ending.Ended.{Ended as Cause};

use crate::effort::Effort;
use crate::ending::{CombineEnd, Ended, told};
use crate::opened::Leaf;
use crate::stepping::{Found, next_unifier};
use crate::task::Task;
use fvn_combine_loose::more_general_is_a_preorder;
use fvn_combine_nodes::{node_partitions_are_partitions, unifiers_partition};
use fvn_combine_systems::node_systems_are_sum_systems;
use fvn_combine_tree::Tree;
use fvn_flat::{Pairs, Subst};
use fvn_signature::Signature;
use fvn_terms::NoMemory;
use std::alloc::Global;
use std::marker::Model;

/// A search: what is asked, the decision tree, the leaf that is open, why it has ended, and what was gone through.
#[derive(Drop)]
pub(crate) struct Parts<'a> {
    task: Task<'a>,
    tree: Tree,
    leaf: Option<Leaf>,
    ended: Option<Ended>,
    effort: Effort,
}

/// All unifiers of a problem on kinds, one after another; every variable is read with its kind.
///
/// The decision tree of the problem's nodes is asked until nothing is open that decides what a
/// class is bound to; then the choices of minimal solutions are gone through, one list of them
/// after another (M. E. Stickel, 1981; F. Baader and K. U. Schulz, 1996).
#[derive(Drop)]
pub struct Combiner<'a> {
    parts: Parts<'a>,
}

impl<'a> Model for Combiner<'a> {
    ghost use Rattle.fvn_flat.specs.contracts.flat.Flat as flat;
    ghost use Rattle.std.specs.Coded.{codes};
    ghost use Rattle.fvn_combine.specs.Search.{Search, IsSearch};
    ghost use Rattle.fvn_combine.specs.inner.Parts.{search_of};

    ghost Value = { Search };

    ghost coded = { Prim.hlevel (codes, flat.the_row.coded) };

    ghost view = { λ c. search_of c.parts };

    ghost invariant = { λ c. IsSearch (search_of c.parts) };
}

// The next unifier of a search that has not ended, part by part.
fn next_of_parts(
    task: &Task,
    tree: &mut Tree,
    leaf: &mut Option<Leaf>,
    ended: &mut Option<Ended>,
    effort: &mut Effort,
) -> Result<Option<Subst>, CombineEnd>
    requires search { IsSearch (search_by task.now tree.old leaf.old ended.old) }
    requires running { ended.old ≡ None }
    ensures search { IsSearch (search_by task.now tree.new leaf.new ended.new) }
    ensures advanced { IsAdvanced (search_by task.now tree.old leaf.old ended.old)
        (search_by task.now tree.new leaf.new ended.new) result }
    ensures falls { IfOk result (λ o. IfSome o (λ g.
        work_left (search_by task.now tree.new leaf.new ended.new)
        < work_left (search_by task.now tree.old leaf.old ended.old))) }
{
    node_partitions_are_partitions();
    node_systems_are_sum_systems();
    unifiers_partition();
    match next_unifier(task, tree, leaf, effort)? {
        Found::Nothing => Ok(None),
        Found::Ends(cause) => {
            let end = told(task.alloc, &cause)?;
            *ended = Some(cause);
            Err(end)
        }
        Found::Given(g) => Ok(Some(g)),
    }
}

// The next unifier of a search that has not ended.
fn next_of(parts: &mut Parts) -> Result<Option<Subst>, CombineEnd>
    requires search { IsSearch (search_of parts.old) }
    requires running { parts.old.ended ≡ None }
    ensures search { IsSearch (search_of parts.new) }
    ensures same { parts.new.task ≡ parts.old.task }
    ensures advanced { IsAdvanced (search_of parts.old) (search_of parts.new) result }
    ensures falls { IfOk result (λ o. IfSome o (λ g.
        work_left (search_of parts.new) < work_left (search_of parts.old))) }
{
    next_of_parts(
        &parts.task,
        &mut parts.tree,
        &mut parts.leaf,
        &mut parts.ended,
        &mut parts.effort,
    )
}

impl<'a> Combiner<'a> {
    /// All unifiers on kinds of the problem, none of them given yet, with new variables from
    /// `first_fresh` on, and at most `size` symbols for each variable of the problem.
    pub fn new(
        alloc: Global,
        sig: &'a Signature,
        problem: &'a Pairs,
        first_fresh: u32,
        size: u64,
    ) -> Result<Combiner<'a>, NoMemory>
        requires given { IsGiven sig.now problem.now first_fresh }
        requires small { symbols_of_pairs problem.now.pairs ≤ TERM_SYMBOLS }
        requires size { size < 2 ^ 64 - 1 }
        ensures of { IfOk result (IsOf sig.now problem.now first_fresh size) }
        ensures every { IfOk result (λ m. m.combining.general ≡ false) }
        // Every unifier on kinds is to come.
        ensures all { IfOk result (λ m. (u : Substitution) →
            IsKindUnifier sig.now (problem_of problem.now) u → IsToCome m u) }
    {
        let combiner = Combiner::begun(alloc, sig, problem, first_fresh, size, false, false)?;
        Ok(combiner)
    }

    /// The same, but of unifiers that give the problem's variables terms of their sorts.
    ///
    /// Choices of which the sorts say that they cover none of these are left out. What is given is a unifier on
    /// kinds all the same.
    pub fn for_sorts(
        alloc: Global,
        sig: &'a Signature,
        problem: &'a Pairs,
        first_fresh: u32,
        size: u64,
    ) -> Result<Combiner<'a>, NoMemory>
        requires given { IsGiven sig.now problem.now first_fresh }
        requires small { symbols_of_pairs problem.now.pairs ≤ TERM_SYMBOLS }
        requires size { size < 2 ^ 64 - 1 }
        ensures of { IfOk result (IsOf sig.now problem.now first_fresh size) }
        ensures every { IfOk result (λ m. m.combining.general ≡ false) }
        // Every unifier on kinds that keeps the sorts of the problem's variables is to come.
        ensures all { IfOk result (λ m. (u : Substitution) →
            IsKindUnifier sig.now (problem_of problem.now) u
            → KeepsSorts sig.now (variables_of (problem_of problem.now)) u → IsToCome m u) }
    {
        let combiner = Combiner::begun(alloc, sig, problem, first_fresh, size, true, false)?;
        Ok(combiner)
    }

    /// The unifiers on kinds that keep sorts, but it is enough that of each a more general one is given.
    ///
    /// Whether two parts of the problem are equal is not asked where a variable that may stand for anything is in one of
    /// them alone: a more general unifier has a new variable there, and the parts are not equal. Where a sum system is
    /// refused, nothing is said of what was given before.
    pub fn most_general(
        alloc: Global,
        sig: &'a Signature,
        problem: &'a Pairs,
        first_fresh: u32,
        size: u64,
    ) -> Result<Combiner<'a>, NoMemory>
        requires given { IsGiven sig.now problem.now first_fresh }
        requires small { symbols_of_pairs problem.now.pairs ≤ TERM_SYMBOLS }
        requires size { size < 2 ^ 64 - 1 }
        ensures of { IfOk result (IsOf sig.now problem.now first_fresh size) }
        // Of every unifier on kinds that keeps the sorts of the problem's variables it, or one more general, is to come.
        ensures all { IfOk result (λ m. (u : Substitution) →
            IsKindUnifier sig.now (problem_of problem.now) u
            → KeepsSorts sig.now (variables_of (problem_of problem.now)) u → IsToCome m u) }
    {
        let combiner = Combiner::begun(alloc, sig, problem, first_fresh, size, true, true)?;
        Ok(combiner)
    }

    // All unifiers on kinds, where sorts are heeded those that keep the sorts of the problem's variables.
    fn begun(
        alloc: Global,
        sig: &'a Signature,
        problem: &'a Pairs,
        first_fresh: u32,
        size: u64,
        sorted: bool,
        general: bool,
    ) -> Result<Combiner<'a>, NoMemory>
        requires given { IsGiven sig.now problem.now first_fresh }
        requires small { symbols_of_pairs problem.now.pairs ≤ TERM_SYMBOLS }
        requires size { size < 2 ^ 64 - 1 }
        ensures of { IfOk result (IsOf sig.now problem.now first_fresh size) }
        ensures general { IfOk result (λ m. m.combining.general ≡ general) }
        ensures all { IfOk result (λ m. (u : Substitution)
            → IsKindUnifier sig.now (problem_of problem.now) u
            → (sorted ≡ true → KeepsSorts sig.now (variables_of (problem_of problem.now)) u)
            → IsToCome m u) }
    {
        unifiers_partition();
        more_general_is_a_preorder();
        let task = Task::new(alloc, sig, problem, first_fresh, size, sorted, general)?;
        task.recall();
        let tree = Tree::new(alloc, task.sig, &task.table)?;
        Ok(Combiner {
            parts: Parts {
                task,
                tree,
                leaf: None,
                ended: None,
                effort: Effort::new(alloc),
            },
        })
    }

    /// The next unifier, or none where every unifier that is asked for is covered by one that was given; where more
    /// general ones are enough, such a one of each is.
    ///
    /// After an end every later call tells the same end, or want of memory. At want of memory the
    /// same unifiers are to come as before.
    pub fn advance(&mut self) -> Result<Option<Subst>, CombineEnd>
        ensures same { self.new.combining ≡ self.old.combining }
        ensures advanced { self.old.ended ≡ None → IsAdvanced self.old self.new result }
        // What is left to do falls with each unifier that is given.
        ensures falls { IfOk result
            (λ o. IfSome o (λ g. work_left self.new < work_left self.old)) }
        // After an end.
        ensures again { (e : Cause) → self.old.ended ≡ Some e
            → IsAgain self.old.combining e result }
        ensures stays { (e : Cause) → self.old.ended ≡ Some e → self.new ≡ self.old }
    {
        if let Some(ended) = &self.parts.ended {
            let end = told(self.parts.task.alloc, ended)?;
            return Err(end);
        }
        next_of(&mut self.parts)
    }

    /// How many states were asked so far, or the greatest number where there were more.
    ///
    /// A state says of some parts of the problem that they are equal and of others that they are not. With each fact
    /// that is found of it, it is looked at again, and counted once, when no further fact is found. No clause says how
    /// many states there are, and no answer depends on it: a search that finds no facts gives the same unifiers, but may
    /// ask many times as many. Tests hold the number.
    pub fn states_asked(&self) -> u64 {
        self.parts.effort.states
    }

    /// How many choices of minimal solutions were tried so far, or the greatest number where there were more.
    ///
    /// Each gives a unifier, nothing, or bindings that are too large. No clause says how many there are either.
    pub fn choices_tried(&self) -> u64 {
        self.parts.effort.choices
    }
}
