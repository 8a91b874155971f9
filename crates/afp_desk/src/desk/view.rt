//! What a seat knows. No value of these types is made.
use afp_serial::Entry;
use std::collections::LinkedList;
use std::marker::Model;

/// What a seat does: nothing, it waits with a ticket, or its ticket is served.
pub enum Stage {
    Idle,
    Waiting(u64),
    Served(u64),
}

/// A core's world and counts, for views. Its own value says nothing.
pub struct Standing;

impl Model for Standing {
    ghost use Rattle.afp_desk.specs.desk.NoServer.{no_server};
    ghost use Rattle.afp_core.specs.turns.ServerState.{ServerState};

    ghost Value = { ServerState };

    ghost view = { λ _. no_server };
}

/// What a seat knows.
pub struct View {
    /// The core as it was when the desk was made.
    pub start: Standing,
    /// Its part of the right to close. Without one, the seat is spent.
    pub share: u64,
    /// The history as far as it was seen, and the core then.
    pub seen: LinkedList<Entry>,
    pub core: Standing,
    /// The same of a seat that was joined, until the next look.
    pub other: LinkedList<Entry>,
    pub other_core: Standing,
    /// The places of its own entries.
    pub mine: LinkedList<u64>,
    pub stage: Stage,
    /// What a spent seat remembers. The rule says nothing of it.
    pub note: LinkedList<u64>,
}
