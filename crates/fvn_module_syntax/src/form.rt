//! Modules as they are written.
use crate::statement::Statement;
use fvn_base::Seq;
use fvn_syntax::Text;

/// A module as it is written.
pub struct Form<'a> {
    pub name: Text<'a>,
    pub statements: Seq<Statement<'a>>,
}

impl Drop for Form<'_> {
    fn drop(self) {
        let Form {
            name: _,
            statements: _,
        } = self;
    }
}
