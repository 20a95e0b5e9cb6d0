//! The order of flat terms.
ghost use Rattle.std.specs.Prelude.{◌≡◌, ◌↔◌, IsTrue, Some, refl};
ghost use Rattle.std.specs.Cmp.{partial_equiv_from_equiv, eq_by_cmp_equiv, po};
ghost use Rattle.std.specs.Ordering.{eq_by_cmp};
ghost use Rattle.fvn_forms.specs.Order.{flat_cmp};
ghost use Rattle.fvn_forms.proofs.Order.{flat_cmp_total};
ghost use Rattle.fvn_flat.specs.Fits.{IsEqualWhereBothFit};

use crate::flat::{Flat, Node};
use std::cmp::Ordering;

impl Flat {
    /// Whether the two are one form: where both are flat, whether they are equal modulo the axioms.
    pub fn same(&self, other: &Flat) -> bool
        ensures exact { IsTrue result ↔ (self.now ≡ other.now) }
        ensures equal { IsEqualWhereBothFit self.now other.now (IsTrue result) }
    {
        let order = self.compare(other);
        order.is_eq()
    }

    // Which of two terms comes first; it stops at the first difference.
    pub(crate) fn compare(&self, other: &Flat) -> Ordering
        ensures { result ≡ flat_cmp self.now other.now }
    {
        match (&self.node, &other.node) {
            (Node::Var(x), Node::Var(y)) => x.cmp(y),
            (Node::Var(_), Node::App(_, _, _)) => Ordering::Less,
            (Node::App(_, _, _), Node::Var(_)) => Ordering::Greater,
            (Node::App(f, joined, ts), Node::App(g, summed, us)) => {
                let heads = f.cmp(g).then(joined.cmp(summed));
                match heads {
                    Ordering::Equal => {}
                    _ => return heads,
                }
                for (t, u) in ts.iter().zip(us.iter()) {
                    let first = t.compare(u);
                    match first {
                        Ordering::Equal => {}
                        _ => return first,
                    }
                }
                ts.len().cmp(&us.len())
            }
        }
    }
}

impl PartialEq for Flat {
    ghost eq = { eq_by_cmp flat_cmp };

    ghost laws = { partial_equiv_from_equiv (eq_by_cmp_equiv flat_cmp_total) };

    fn eq(&self, other: &Flat) -> bool {
        self.compare(other).is_eq()
    }
}

impl Eq for Flat {
    ghost laws = { eq_by_cmp_equiv flat_cmp_total };
}

impl PartialOrd for Flat {
    ghost partial_cmp = { λ t u. Some (flat_cmp t u) };

    ghost laws = { po flat_cmp_total (λ t u. refl) };

    fn partial_cmp(&self, other: &Flat) -> Option<Ordering> {
        Some(self.compare(other))
    }
}

impl Ord for Flat {
    ghost cmp = { flat_cmp };

    ghost total = { flat_cmp_total };

    ghost matches_partial_cmp = { λ t u. refl };

    ghost matches_eq = { λ t u. refl };

    fn cmp(&self, other: &Flat) -> Ordering {
        self.compare(other)
    }
}
