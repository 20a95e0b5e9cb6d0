//! Each public function once, with ample memory.
use fvn_base::Seq;
use fvn_terms::{
    Args, Axioms, Declarations, NoMemory, OpDecl, OpId, Plain, PlainSubst, Rank, SortId, Var,
};
use std::alloc::Global;
use std::process::Abort;

const X: Var = Var {
    name: 0,
    sort: SortId(0),
    fresh: false,
};

const Y: Var = Var {
    name: 1,
    sort: SortId(0),
    fresh: false,
};

// An operator over nothing.
fn constant(alloc: Global, f: u16) -> Plain {
    Plain::App(OpId(f), Args::from_vec(Vec::new(alloc)))
}

// The third operator over two terms.
fn pair(alloc: Global, left: Plain, right: Plain) -> Result<Plain, NoMemory> {
    let mut items = Vec::new(alloc);
    items.push(left)?;
    items.push(right)?;
    Ok(Plain::App(OpId(2), Args::from_vec(items)))
}

// The second operator over a term and the constant.
fn over(alloc: Global, left: Plain) -> Result<Plain, NoMemory> {
    pair(alloc, left, constant(alloc, 1))
}

// The pair of a term and of a variable over the constant.
fn both(alloc: Global, left: Plain, right: Var) -> Result<Plain, NoMemory> {
    let last = over(alloc, Plain::Var(right))?;
    pair(alloc, left, last)
}

#[test]
fn terms_are_copied_measured_and_compared(rt: HostRuntime) -> Result<(), NoMemory> {
    let alloc = rt.alloc();
    let term = both(alloc, Plain::Var(X), Y)?;
    assert_eq!(rt; term.size(), 5);
    assert!(rt; term.copy(alloc)?.same(&term));
    assert!(rt; !term.same(&constant(alloc, 1)));
    Ok(())
}

// A constant for X, and X for Y.
fn replacement(alloc: Global) -> Result<PlainSubst, NoMemory> {
    let mut pairs = Vec::new(alloc);
    pairs.push((X, constant(alloc, 0)))?;
    pairs.push((Y, Plain::Var(X)))?;
    Ok(PlainSubst {
        pairs: Seq::from_vec(pairs),
    })
}

#[test]
fn terms_are_instantiated(rt: HostRuntime) -> Result<(), NoMemory> {
    let alloc = rt.alloc();
    let term = both(alloc, Plain::Var(X), Y)?;
    let want = both(alloc, constant(alloc, 0), X)?;
    let found = replacement(alloc)?.apply(alloc, &term)?;
    assert!(rt; found.same(&want));
    Ok(())
}

// Whether a variable is bound to another.
fn is_bound(substitution: &PlainSubst, x: Var, y: Var) -> bool {
    match substitution.get(x) {
        Some(t) => t.same(&Plain::Var(y)),
        None => false,
    }
}

#[test]
fn bindings_are_found(rt: HostRuntime) -> Result<(), NoMemory> {
    let substitution = replacement(rt.alloc())?;
    assert!(rt; is_bound(&substitution, Y, X));
    Ok(())
}

// So many operators over this term, each over the one before.
fn tower(alloc: Global, height: u16, base: Plain) -> Result<Plain, NoMemory> {
    let mut term = base;
    for f in 0..height {
        let mut items = Vec::new(alloc);
        items.push(term)?;
        term = Plain::App(OpId(f), Args::from_vec(items));
    }
    Ok(term)
}

// An operator over so many variables.
fn row(alloc: Global, x: Var, width: u16) -> Result<Plain, NoMemory> {
    let mut items = Vec::new(alloc);
    for _ in 0..width {
        items.push(Plain::Var(x))?;
    }
    Ok(Plain::App(OpId(0), Args::from_vec(items)))
}

// Y for X, and no term for Y.
fn renaming(alloc: Global) -> Result<PlainSubst, NoMemory> {
    let mut pairs = Vec::new(alloc);
    pairs.push((X, Plain::Var(Y)))?;
    Ok(PlainSubst {
        pairs: Seq::from_vec(pairs),
    })
}

// So many operators over a row.
fn large(alloc: Global, x: Var, height: u16, width: u16) -> Result<Plain, NoMemory> {
    tower(alloc, height, row(alloc, x, width)?)
}

// A term of 1,000 symbols is its copy.
fn assert_copied(rt: &impl Abort, alloc: Global, term: &Plain) -> Result<(), NoMemory> {
    assert_eq!(rt; term.size(), 1000);
    assert!(rt; term.copy(alloc)?.same(term));
    Ok(())
}

// The renaming of the one term is the other.
fn assert_renamed(
    rt: &impl Abort,
    alloc: Global,
    one: &Plain,
    other: &Plain,
) -> Result<(), NoMemory> {
    let found = renaming(alloc)?.apply(alloc, one)?;
    assert!(rt; found.same(other));
    Ok(())
}

// Terms of this height and width are copied and renamed.
fn assert_large(rt: &impl Abort, alloc: Global, height: u16, width: u16) -> Result<(), NoMemory> {
    let term = large(alloc, X, height, width)?;
    let other = large(alloc, Y, height, width)?;
    assert_copied(rt, alloc, &term)?;
    assert_renamed(rt, alloc, &term, &other)?;
    assert_renamed(rt, alloc, &other, &other)
}

// A term of 1,000 symbols is the largest that the program asks for: as deep or as wide as it can be.
#[test]
fn large_terms_are_copied_and_instantiated(rt: HostRuntime) -> Result<(), NoMemory> {
    for (height, width) in [(998, 1), (0, 999), (500, 499)] {
        assert_large(&rt, rt.alloc(), height, width)?;
    }
    Ok(())
}

#[test]
fn what_is_not_bound_has_no_term(rt: HostRuntime) -> Result<(), NoMemory> {
    assert!(rt; renaming(rt.alloc())?.get(Y).is_none());
    Ok(())
}

// One operator of one rank, over one sort and its kind.
fn declarations(alloc: Global) -> Result<Declarations, NoMemory> {
    let mut kinds = Vec::new(alloc);
    kinds.push(SortId(1))?;
    kinds.push(SortId(1))?;
    Ok(Declarations {
        sorts: 1,
        kinds: Seq::from_vec(kinds),
        below: Seq::new(alloc),
        ops: operators(alloc)?,
    })
}

// An operator without axioms, of one rank.
fn operators(alloc: Global) -> Result<Seq<OpDecl>, NoMemory> {
    let mut ranks = Vec::new(alloc);
    ranks.push(Rank {
        args: Seq::new(alloc),
        result: SortId(0),
    })?;
    let mut ops = Vec::new(alloc);
    ops.push(OpDecl {
        axioms: Axioms::Free,
        ranks: Seq::from_vec(ranks),
    })?;
    Ok(Seq::from_vec(ops))
}

// How many ranks an operator has, where it is declared.
fn ranks_of(declarations: &Declarations, f: OpId) -> Option<usize> {
    match declarations.declared(f) {
        Some(o) => Some(o.ranks.len()),
        None => None,
    }
}

#[test]
fn declarations_answer_for_sorts_and_operators(rt: HostRuntime) -> Result<(), NoMemory> {
    let declarations = declarations(rt.alloc())?;
    assert_eq!(rt; declarations.kind(SortId(0)), SortId(1));
    assert_eq!(rt; declarations.kind(SortId(7)), SortId(7));
    assert_eq!(rt; ranks_of(&declarations, OpId(0)), Some(1));
    assert_eq!(rt; ranks_of(&declarations, OpId(1)), None);
    Ok(())
}
