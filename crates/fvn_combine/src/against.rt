//! Tags that go against what is noted of classes.
ghost use Rattle.std.specs.Prelude.{◌≡◌, ◌<◌, length, All, Contains, IsTrue, IfSome};
ghost use Rattle.fvn_combine_leaves.specs.Users.{IsWhole};
ghost use Rattle.fvn_combine.specs.inner.Against.{IsAgainst, IsLooseAgainst, GoesAgainst, IsAgainstAt};

use crate::homes::{is_other, leave_homeless};
use crate::opened::Opened;
use fvn_combine_drawing::SharedClass;
use fvn_combine_nodes::has_no_identity;
use fvn_signature::Signature;
use fvn_terms::OpId;

// Whether the operator is one of the list.
fn is_user(users: &[OpId], g: OpId) -> bool
    ensures { IsTrue result → Contains users.now g }
{
    for f in users {
        if *f == g {
            return true;
        }
    }
    false
}

// Whether an operator with an identity that uses a shared class is noted of it, and its tag is another one.
fn is_against(
    sig: &Signature,
    entry: &SharedClass,
    labels: &[Option<OpId>],
    tags: &[Option<OpId>],
) -> bool
    requires labels { entry.now.class < length labels.now }
    requires tags { entry.now.class < length tags.now }
    ensures { IsTrue result → IsAgainst sig.now labels.now tags.now entry.now }
{
    match labels[entry.class] {
        None => false,
        Some(g) => {
            if has_no_identity(sig.axioms(g)) {
                return false;
            }
            if !is_user(entry.users.as_slice(), g) {
                return false;
            }
            is_other(tags[entry.class], g)
        }
    }
}

// Whether the class is one of the list.
fn is_loose(loose: &[usize], class: usize) -> bool
    ensures { IsTrue result → Contains loose.now class }
{
    loose.contains(&class)
}

// Whether the class is one of those that are known to be loose, and has a tag, though no operator is noted of it.
fn is_loose_against(
    entry: &SharedClass,
    loose: &[usize],
    labels: &[Option<OpId>],
    tags: &[Option<OpId>],
) -> bool
    requires labels { entry.now.class < length labels.now }
    requires tags { entry.now.class < length tags.now }
    ensures { IsTrue result → IsLooseAgainst loose.now labels.now tags.now entry.now }
{
    match labels[entry.class] {
        Some(_) => false,
        None => match tags[entry.class] {
            None => false,
            Some(_) => is_loose(loose, entry.class),
        },
    }
}

// Whether the tag of the class goes against what is noted of it, or it is loose and has one of no note.
fn goes_against(
    sig: &Signature,
    opened: &Opened,
    entry: &SharedClass,
    tags: &[Option<OpId>],
) -> bool
    requires labels { entry.now.class < length opened.now.labels }
    requires tags { entry.now.class < length tags.now }
    ensures { IsTrue result → GoesAgainst sig.now opened.now tags.now entry.now }
{
    let labels = opened.labels.as_slice();
    if is_loose_against(entry, opened.loose.as_slice(), labels, tags) {
        return true;
    }
    is_against(sig, entry, labels, tags)
}

/// The first place at which the tags of the shared classes up to it go against what is noted, or leave one without a home,
/// whatever the tags of the later ones.
pub(crate) fn first_against(
    sig: &Signature,
    opened: &Opened,
    tags: &[Option<OpId>],
) -> Option<usize>
    requires labels { All (λ c. c.class < length opened.now.labels) opened.now.shared }
    requires tags { All (λ c. c.class < length tags.now) opened.now.shared }
    requires whole { IsWhole (length opened.now.reading.heads) opened.now.reading }
    requires bases { length opened.now.bases ≡ length opened.now.reading.sums }
    ensures { IfSome result (IsAgainstAt sig.now opened.now tags.now) }
{
    let shared = opened.shared.as_slice();
    for place in 0..shared.len() {
        if goes_against(sig, opened, &shared[place], tags) {
            return Some(place);
        }
        let decided = &shared[..place + 1];
        if leave_homeless(decided, tags, &opened.reading, opened.bases.as_slice()) {
            return Some(place);
        }
    }
    None
}
