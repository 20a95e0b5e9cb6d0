//! Shapes of terms in which each variable stands for a chosen shape.
ghost use Rattle.std.specs.Prelude.{◌≡◌, ◌≤◌, ◌<◌, length, slice_index_or};
ghost use Rattle.fvn_base.specs.declared.limits.TheConstants.{ARGUMENTS as MOST_ARGUMENTS};
ghost use Rattle.fvn_terms.specs.Plain.{term};
ghost use Rattle.fvn_terms.specs.Term.{app};
ghost use Rattle.fvn_terms.specs.Signature.{IsTerm};
ghost use Rattle.fvn_rewrite_laws.specs.Shapes.{is_root_of, sorts_of, compound, shape_over, shape_in};
ghost use Rattle.fvn_forms.specs.Ranks.{result as least_result};
ghost use Rattle.fvn_cohere.specs.inner.Searching.{shapes_by};

use fvn_base::limits::ARGUMENTS;
use fvn_rewrite_laws::{Root, Shape};
use fvn_signature::Signature;
use fvn_terms::{Args, OpId, Plain, SortId, Var};

// The shapes that variables stand for, the newest first.
#[derive(Drop)]
pub(crate) enum Chosen<'a> {
    // Each variable stays.
    Nothing,
    // A variable with its shape, and others.
    Choose(Var, Shape, &'a Chosen<'a>),
}

impl Chosen<'_> {
    // What the variable stands for.
    pub(crate) fn get(&self, y: Var) -> Shape
        ensures { result ≡ shapes_by self.now y }
    {
        match self {
            Chosen::Nothing => Shape {
                root: Root::Variable,
                sort: y.sort,
            },
            Chosen::Choose(x, shape, rest) => {
                if *x == y {
                    return *shape;
                }
                rest.get(y)
            }
        }
    }
}

// Whether this is the root of the constant.
fn is_root_of(e: Option<OpId>, root: Root) -> bool
    ensures { result ≡ is_root_of e root }
{
    match e {
        None => false,
        Some(e) => match root {
            Root::Variable => false,
            Root::Constant(g) => e == g,
            Root::Compound => false,
        },
    }
}

// The operator over arguments of these shapes, none of them taken for its identity.
fn compound(sig: &Signature, f: OpId, shapes: &[Shape]) -> Shape
    requires { length shapes.now ≤ MOST_ARGUMENTS }
    ensures { result ≡ compound (least_result sig.now f (sorts_of shapes.now)) }
{
    let mut sorts = [SortId(0); ARGUMENTS];
    let mut i: usize = 0;
    for shape in shapes {
        sorts[i] = shape.sort;
        i += 1;
    }
    Shape {
        root: Root::Compound,
        sort: sig.result(f, &sorts[..i]),
    }
}

// One of the shapes.
fn shape_at(shapes: &[Shape], i: usize) -> Shape
    requires { i < length shapes.now }
    ensures { slice_index_or shapes.now i result ≡ result }
{
    shapes[i]
}

// The shape of the operator over arguments of these shapes.
fn shape_over(sig: &Signature, f: OpId, shapes: &[Shape]) -> Shape
    requires { length shapes.now ≤ MOST_ARGUMENTS }
    ensures { result ≡ shape_over sig.now f shapes.now }
{
    if shapes.len() == 0 {
        return Shape {
            root: Root::Constant(f),
            sort: sig.result(f, &[]),
        };
    }
    if shapes.len() != 2 {
        return compound(sig, f, shapes);
    }
    let a = shape_at(shapes, 0);
    let b = shape_at(shapes, 1);
    let e = sig.identity(f);
    if is_root_of(e, a.root) {
        return b;
    }
    if is_root_of(e, b.root) {
        return a;
    }
    compound(sig, f, shapes)
}

// The shape of the term.
#[cycle(shape)]
pub(crate) fn shape(sig: &Signature, chosen: &Chosen<'_>, t: &Plain) -> Shape
    requires { IsTerm sig.now (term t.now) }
    ensures { result ≡ shape_in sig.now (shapes_by chosen.now) (term t.now) }
{
    match t {
        Plain::Var(x) => chosen.get(*x),
        Plain::App(f, us) => shape_app(sig, chosen, *f, us),
    }
}

// The shape of an operator over its arguments.
#[cycle(shape)]
fn shape_app(sig: &Signature, chosen: &Chosen<'_>, f: OpId, us: &Args) -> Shape
    requires { IsTerm sig.now (app f us.now) }
    ensures { result ≡ shape_in sig.now (shapes_by chosen.now) (app f us.now) }
{
    sig.recall_good();
    let blank = Shape {
        root: Root::Compound,
        sort: SortId(0),
    };
    let mut shapes = [blank; ARGUMENTS];
    let mut i: usize = 0;
    for u in &us.items {
        shapes[i] = shape(sig, chosen, u);
        i += 1;
    }
    shape_over(sig, f, &shapes[..i])
}
