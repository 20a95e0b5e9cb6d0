//! Whether a statement names something that is not declared.
ghost use Rattle.std.specs.Prelude.{◌≡◌};
ghost use Rattle.std.specs.List.{list_any};
ghost use Rattle.fvn_module_syntax.specs.LeftOut.{is_ditto};
ghost use Rattle.fvn_module_names.specs.Names.{operators_in};
ghost use Rattle.fvn_module_names.specs.Faults.{
  is_missing,
  is_unknown_sort,
  has_unknown_sort,
  is_unknown_identity,
  lacks_earlier,
  has_unknown,
  names_unknown_after,
};

use crate::vocabulary::Vocabulary;
use fvn_base::Seq;
use fvn_module_syntax::{Attribute, RawRank, Statement};
use fvn_syntax::{RawSort, Text, Texts};

/// Whether a name is not among these.
pub fn is_missing(texts: &Texts, name: &[u8]) -> bool
    ensures { result ≡ is_missing texts.now name.now }
{
    texts.place(name).is_none()
}

// Whether one of these names is not among those.
fn any_missing(texts: &Texts, names: &[Text<'_>]) -> bool
    ensures { result ≡ list_any (is_missing texts.now) names.now }
{
    names.iter().any(|name| is_missing(texts, name.bytes()))
}

// Whether one of the names in these groups is not among those.
fn any_missing_in(texts: &Texts, groups: &[Seq<Text<'_>>]) -> bool
    ensures { result ≡ list_any (list_any (is_missing texts.now)) groups.now }
{
    groups
        .iter()
        .any(|group| any_missing(texts, group.as_slice()))
}

// Whether a sort is not declared, or is a bracket that is not of one kind.
fn is_unknown_sort(v: &Vocabulary, written: &RawSort<'_>) -> bool
    ensures { result ≡ is_unknown_sort v.now.sorts v.now.ops v.now.kinds written.now }
{
    v.find_sort(written).is_none()
}

// Whether one of these sorts is unknown.
fn any_unknown_sort(v: &Vocabulary, sorts: &[RawSort<'_>]) -> bool
    ensures { result ≡ list_any (is_unknown_sort v.now.sorts v.now.ops v.now.kinds) sorts.now }
{
    sorts.iter().any(|sort| is_unknown_sort(v, sort))
}

// Whether a rank has an unknown sort.
fn has_unknown_sort(v: &Vocabulary, rank: &RawRank<'_>) -> bool
    ensures { result ≡ has_unknown_sort v.now.sorts v.now.ops v.now.kinds rank.now }
{
    any_unknown_sort(v, rank.args.as_slice()) || is_unknown_sort(v, &rank.result)
}

// Whether an attribute is an identity that is no operator.
fn is_unknown_identity(v: &Vocabulary, attribute: &Attribute<'_>) -> bool
    ensures { result ≡ is_unknown_identity v.now.sorts v.now.ops v.now.kinds attribute.now }
{
    match attribute {
        Attribute::Identity(name) => is_missing(v.ops(), name.bytes()),
        _ => false,
    }
}

/// Whether one of the attributes is `ditto`.
pub fn has_ditto(attributes: &[Attribute<'_>]) -> bool
    ensures { result ≡ list_any is_ditto attributes.now }
{
    attributes
        .iter()
        .any(|attribute| matches!(attribute, Attribute::Ditto))
}

// Whether there is `ditto`, and a name without an earlier declaration.
fn lacks_earlier(
    v: &Vocabulary,
    earlier: &Texts,
    names: &[Text<'_>],
    attributes: &[Attribute<'_>],
) -> bool
    ensures { result ≡
        lacks_earlier v.now.sorts v.now.ops v.now.kinds earlier.now names.now attributes.now }
{
    has_ditto(attributes) && any_missing(earlier, names)
}

// Whether one of the attributes is an identity that is no operator.
fn any_unknown_identity(v: &Vocabulary, attributes: &[Attribute<'_>]) -> bool
    ensures { result ≡
        list_any (is_unknown_identity v.now.sorts v.now.ops v.now.kinds) attributes.now }
{
    attributes
        .iter()
        .any(|attribute| is_unknown_identity(v, attribute))
}

// Whether something is unknown in the declaration of operators.
fn has_unknown(
    v: &Vocabulary,
    earlier: &Texts,
    names: &[Text<'_>],
    rank: &RawRank<'_>,
    attributes: &[Attribute<'_>],
) -> bool
    ensures { result ≡
        has_unknown v.now.sorts v.now.ops v.now.kinds earlier.now names.now rank.now
        attributes.now }
{
    has_unknown_sort(v, rank)
        || any_unknown_identity(v, attributes)
        || lacks_earlier(v, earlier, names, attributes)
}

/// Whether a statement that declares the operators with these names, behind those of the earlier ones, names
/// something that is not declared.
pub fn names_unknown(
    v: &Vocabulary,
    earlier: &Texts,
    names: &[Text<'_>],
    statement: &Statement<'_>,
) -> bool
    requires { names.now ≡ operators_in statement.now }
    ensures { result ≡
        names_unknown_after v.now.sorts v.now.ops v.now.kinds earlier.now statement.now }
{
    match statement {
        Statement::Subsorts { groups, .. } => any_missing_in(v.sorts(), groups.as_slice()),
        Statement::Operator {
            rank,
            attributes,
            ..
        } => has_unknown(v, earlier, names, rank, attributes.as_slice()),
        Statement::Operators {
            rank,
            attributes,
            ..
        } => has_unknown(v, earlier, names, rank, attributes.as_slice()),
        Statement::Variables { sort, .. } => is_unknown_sort(v, sort),
        _ => false,
    }
}
