//! The references that each session has open.
ghost use Rattle.std.specs.Prelude.{◌≡◌, filter, nat_lt, nat_le};
ghost use Rattle.std.specs.List.Sorted.{IsNonDecreasingBy, IsStrictlySortedBy};
ghost use Rattle.std.specs.Map.{keys_of};
ghost use Rattle.fork_table.specs.lemma.Own.{IsOwnPart, IsSplitBy, is_own, own_cmp, own_ref, session_of};

use crate::OpenFork;
use afp_base::{ForkRef, SessionNumber};

/// A reference that a session has open. They stand by session, and those of a session by reference.
#[derive(Clone, Copy, PartialEq, Eq, PartialOrd, Ord)]
pub(crate) struct OwnRef {
    session: SessionNumber,
    pub(crate) reference: ForkRef,
}

/// The reference of an open, with its session.
pub(crate) fn own_ref(r: ForkRef, row: &OpenFork) -> OwnRef
    ensures { result ≡ own_ref r.0 row.now }
{
    OwnRef {
        session: row.session,
        reference: r,
    }
}

/// The place of the first reference of that session or of one above it.
fn before(own: &[(OwnRef, ())], s: SessionNumber) -> usize
    requires { IsNonDecreasingBy session_of own.now }
    ensures { IsSplitBy (λ e. nat_lt (session_of e) s.0) own.now result }
{
    own.partition_point(|e| e.0.session.0 < s.0)
}

/// The place behind the references of that session and of those below it.
fn behind(own: &[(OwnRef, ())], s: SessionNumber) -> usize
    requires { IsNonDecreasingBy session_of own.now }
    ensures { IsSplitBy (λ e. nat_le (session_of e) s.0) own.now result }
{
    own.partition_point(|e| e.0.session.0 <= s.0)
}

/// The place of the session's first reference, and the place behind its last one.
fn own_places(own: &[(OwnRef, ())], s: SessionNumber) -> (usize, usize)
    requires { IsNonDecreasingBy session_of own.now }
    ensures { IsOwnPart own.now s.0 result.0 result.1 }
{
    (before(own, s), behind(own, s))
}

/// The references of a session, found by two halvings.
pub(crate) fn own_of(own: &[(OwnRef, ())], s: SessionNumber) -> &[(OwnRef, ())]
    requires { IsStrictlySortedBy own_cmp (keys_of own.now) }
    ensures { result.now ≡ filter (is_own s.0) own.now }
{
    let (first, behind) = own_places(own, s);
    &own[first..behind]
}
