//! Sorts as they are written.

use crate::piece::Text;
use fvn_base::Seq;

/// A written sort: its name, or one or more names in brackets for the kind of the first.
#[derive(Drop)]
pub enum RawSort<'a> {
    Name(Text<'a>),
    Kind(Text<'a>, Seq<Text<'a>>),
}
