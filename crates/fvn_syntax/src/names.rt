//! The names that a module declares, and the names of variables.
ghost use Rattle.std.specs.Prelude.{◌≡◌, ◌<◌, length, slice_get, Some};

use crate::texts::Texts;
use fvn_base::Seq;
use fvn_terms::{OpId, SortId};

/// Declared variables: their texts, and the sort of each.
#[derive(Debug, Drop)]
pub struct Variables {
    pub texts: Texts,
    pub sorts: Seq<SortId>,
}

/// The texts of a module's name, of its sorts and of its operators, and the declared variables.
///
/// Sorts and operators are numbered by their places.
#[derive(Debug, Drop)]
pub struct Names {
    pub module_name: Seq<u8>,
    pub sorts: Texts,
    pub ops: Texts,
    pub variables: Variables,
}

/// The names of a text's variables, numbered by their places.
#[derive(Debug, Drop)]
pub struct VarNames {
    pub texts: Texts,
}

impl Names {
    /// The text of a sort.
    pub fn sort_text(&self, s: SortId) -> &[u8]
        requires { s.0 < length self.now.sorts }
        ensures { slice_get self.now.sorts s.0 ≡ Some result.now }
    {
        self.sorts.text(usize::from(s.0))
    }

    /// The text of an operator.
    pub fn op_text(&self, op: OpId) -> &[u8]
        requires { op.0 < length self.now.ops }
        ensures { slice_get self.now.ops op.0 ≡ Some result.now }
    {
        self.ops.text(usize::from(op.0))
    }

    /// The text of the module's name.
    pub fn module_text(&self) -> &[u8]
        ensures { result.now ≡ self.now.module_name }
    {
        self.module_name.as_slice()
    }
}

impl VarNames {
    /// The name of the variables of this number.
    pub fn text(&self, name: u32) -> &[u8]
        requires { name < length self.now.texts }
        ensures { slice_get self.now.texts name ≡ Some result.now }
    {
        self.texts.text(name as usize)
    }
}
