//! What is said of pairs under a substitution.
use fvn_flat::Flat;

/// Whether a substitution solves pairs of terms in the theory of equations.
#[derive(Drop)]
pub enum Verdict {
    /// The sides of each pair are equal.
    Yes,
    /// The pair with this number, from 1, is the first whose sides have different normal forms; these are they.
    No(usize, Flat, Flat),
    /// The flat form of a side, and what it came to in as many steps as were allowed; that can be rewritten further.
    Steps(Flat, Flat),
    /// What a side came to: it has more symbols than were allowed.
    Size(Flat),
}
