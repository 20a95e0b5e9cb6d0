//! Statements as they are written.
use fvn_base::Seq;
use fvn_syntax::{RawSort, Row, Text};

/// Sorts of arguments and of a result; between them stands `->`, or for a partial operator `~>`.
pub struct RawRank<'a> {
    pub args: Seq<RawSort<'a>>,
    pub partial: bool,
    pub result: RawSort<'a>,
}

impl Drop for RawRank<'_> {
    fn drop(self) {
        let RawRank {
            args: _,
            partial: _,
            result: _,
        } = self;
    }
}

/// An attribute of an operator.
pub enum Attribute<'a> {
    Assoc,
    Comm,
    Identity(Text<'a>),
    Constructor,
    Ditto,
    Precedence(Text<'a>),
    Gather(Seq<Text<'a>>),
    Format(Seq<Text<'a>>),
}

impl Drop for Attribute<'_> {
    fn drop(self) {
        match self {
            Attribute::Assoc => {}
            Attribute::Comm => {}
            Attribute::Identity(_) => {}
            Attribute::Constructor => {}
            Attribute::Ditto => {}
            Attribute::Precedence(_) => {}
            Attribute::Gather(_) => {}
            Attribute::Format(_) => {}
        }
    }
}

/// An attribute of an equation.
#[derive(Drop)]
pub enum Mark<'a> {
    Variant,
    Label(Text<'a>),
}

/// A name behind `ops`: a word, or tokens in parentheses.
pub enum OperatorName<'a> {
    Single(Text<'a>),
    Round(Row<'a>),
}

impl Drop for OperatorName<'_> {
    fn drop(self) {
        match self {
            OperatorName::Single(_) => {}
            OperatorName::Round(_) => {}
        }
    }
}

/// A form of Maude's modules that is left out here.
#[derive(Clone, Copy, Debug, PartialEq, Eq)]
pub enum Feature {
    Import,
    Membership,
    Condition,
    Rule,
    Name,
    Assoc,
    Identity,
    Attribute,
    Equation,
}

/// What stands before a dot. Of two words that begin a statement the plural is marked.
pub enum Statement<'a> {
    Sorts {
        plural: bool,
        names: Seq<Text<'a>>,
    },
    Subsorts {
        plural: bool,
        groups: Seq<Seq<Text<'a>>>,
    },
    Operator {
        name: Row<'a>,
        rank: RawRank<'a>,
        attributes: Seq<Attribute<'a>>,
    },
    Operators {
        names: Seq<OperatorName<'a>>,
        rank: RawRank<'a>,
        attributes: Seq<Attribute<'a>>,
    },
    Variables {
        plural: bool,
        names: Seq<Text<'a>>,
        sort: RawSort<'a>,
    },
    Equation {
        label: Option<Text<'a>>,
        left: Row<'a>,
        right: Row<'a>,
        marks: Seq<Mark<'a>>,
    },
}

impl Drop for Statement<'_> {
    fn drop(self) {
        match self {
            Statement::Sorts {
                plural: _,
                names: _,
            } => {}
            Statement::Subsorts {
                plural: _,
                groups: _,
            } => {}
            Statement::Operator {
                name: _,
                rank: _,
                attributes: _,
            } => {}
            Statement::Operators {
                names: _,
                rank: _,
                attributes: _,
            } => {}
            Statement::Variables {
                plural: _,
                names: _,
                sort: _,
            } => {}
            Statement::Equation {
                label: _,
                left: _,
                right: _,
                marks: _,
            } => {}
        }
    }
}
