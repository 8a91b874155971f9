//! Where a session stands.

use afp_base::{LinkNumber, Moment};

/// Whether a session has a link, or lost it at some moment and waits for its client.
#[derive(Clone, Copy, Debug, PartialEq, Eq)]
pub enum Attachment {
    Attached(LinkNumber),
    Detached(Moment),
}
