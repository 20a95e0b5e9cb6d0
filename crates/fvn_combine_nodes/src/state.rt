//! What is decided of the nodes of a table.
ghost use Rattle.std.specs.Prelude.{◌≡◌, ◌<◌, ◌&&◌, [], ◌∷◌, nat_eq, length, slice_index, All};
ghost use Rattle.fvn_combine_nodes.specs.States.{class_of, is_same, is_apart, is_open, IsNaming};

use fvn_base::Seq;

/// Classes so far, each named by its first node, and pairs of nodes whose classes are kept apart.
#[derive(Drop)]
pub struct State {
    pub names: Seq<usize>,
    pub apart: Seq<(usize, usize)>,
}

// Whether the classes of nodes k and l are those of i and j.
fn are_those(names: &[usize], k: usize, l: usize, i: usize, j: usize) -> bool
    requires { All (λ n. n < length names.now) (k ∷ l ∷ i ∷ j ∷ []) }
    ensures { result ≡ (nat_eq (slice_index names.now k) (slice_index names.now i)
        && nat_eq (slice_index names.now l) (slice_index names.now j)) }
{
    if names[k] != names[i] {
        return false;
    }
    names[l] == names[j]
}

/// Whether the classes of two nodes are kept apart, in a state of these names and pairs.
pub fn is_kept_apart(names: &[usize], apart: &[(usize, usize)], i: usize, j: usize) -> bool
    requires left { i < length names.now }
    requires right { j < length names.now }
    requires kept { All (λ p. (p.0 < length names.now) × (p.1 < length names.now)) apart.now }
    ensures { result ≡ is_apart (record { names = names.now; apart = apart.now }) i j }
{
    for (k, l) in apart {
        if are_those(names, *k, *l, i, j) {
            return true;
        }
        if are_those(names, *k, *l, j, i) {
            return true;
        }
    }
    false
}

impl State {
    /// The node that names the class of node `i`.
    pub fn class_of(&self, i: usize) -> usize
        requires { i < length self.now.names }
        ensures { result ≡ class_of self.now i }
    {
        self.names.as_slice()[i]
    }

    /// Whether two nodes are in one class.
    pub fn is_same(&self, i: usize, j: usize) -> bool
        requires left { i < length self.now.names }
        requires right { j < length self.now.names }
        ensures { result ≡ is_same self.now i j }
    {
        self.class_of(i) == self.class_of(j)
    }

    /// Whether two nodes are neither in one class nor kept apart.
    pub fn is_open(&self, i: usize, j: usize) -> bool
        requires naming { IsNaming self.now }
        requires left { i < length self.now.names }
        requires right { j < length self.now.names }
        ensures { result ≡ is_open self.now i j }
    {
        if self.is_same(i, j) {
            return false;
        }
        !is_kept_apart(self.names.as_slice(), self.apart.as_slice(), i, j)
    }
}
