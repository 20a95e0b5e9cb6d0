//! How an answer ends.

use fvn_flat::Flat;
use fvn_terms::OpId;

/// How an answer ends: complete, or with the first bound or cause that was met.
pub enum End {
    Complete(usize),
    Levels(u32),
    Variants(u32),
    Steps(u64, Flat),
    Size(u64),
    Basis(OpId),
    Unifiers(u32),
    Sorts(usize),
}

impl Drop for End {
    fn drop(self) {
        match self {
            End::Complete(_) => {}
            End::Levels(_) => {}
            End::Variants(_) => {}
            End::Steps(_, _) => {}
            End::Size(_) => {}
            End::Basis(_) => {}
            End::Unifiers(_) => {}
            End::Sorts(_) => {}
        }
    }
}
