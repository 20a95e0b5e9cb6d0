//! Why equations are not shown to be confluent.
use fvn_base::Seq;
use fvn_flat::{Flat, Pairs, SizeCause, Subst};
use fvn_lindio::System;
use fvn_terms::OpId;

/// Why it is not shown that the equations are confluent where they terminate.
pub enum CriticalFault {
    /// The equation with this number, from 1, is the first that loses a sort.
    Sorts(usize),
    /// One term is brought to both of these by sequences that begin with these equations, and they have no form in
    /// common.
    Apart(usize, usize, Flat, Flat),
    /// A term and what it came to in as many steps as were allowed; that can be rewritten further.
    Steps(Flat, Flat),
    /// Something has more symbols than are allowed.
    Size(SizeCause),
    /// The sum system of an operator, for a problem that was given to the solver, is refused.
    Basis(OpId, System),
    /// The problem has as many unifiers as the solver keeps.
    Unifiers(Pairs, Seq<Subst>),
}

impl Drop for CriticalFault {
    fn drop(self) {
        match self {
            CriticalFault::Sorts(_) => {}
            CriticalFault::Apart(_, _, _, _) => {}
            CriticalFault::Steps(_, _) => {}
            CriticalFault::Size(_) => {}
            CriticalFault::Basis(_, _) => {}
            CriticalFault::Unifiers(_, _) => {}
        }
    }
}
