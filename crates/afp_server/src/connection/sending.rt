//! Writing to a link that never waits.
ghost use Rattle.std.specs.Prelude.{◌≡◌, ◌≤◌, ◌-◌, length, drop, IfOk};
ghost use Rattle.afp_server.specs.connection.lemma.Begun.{Puts, SendsSome};

use afp_base::{Bytes, Moment, OutOfMemory};
use afp_outside::{ReadyLink, ReadyWrote};
use std::alloc::Global;
use std::marker::Model;

/// Seconds after which a write that took no byte has failed.
const WRITE_LIMIT: u32 = 60;

/// What became of a piece that was to be written at once.
#[derive(Clone, Copy)]
pub enum Sent {
    All,
    /// So many bytes are left.
    Left(usize),
    Failed,
}

/// Writes of the piece what goes out at once.
pub fn send_some<L: ReadyLink>(link: &mut L, piece: &[u8]) -> Sent
    ensures { SendsSome (L.link_state link.old) piece.now result (L.link_state link.new) }
{
    let mut left = piece;
    while !left.is_empty() {
        match link.write_ready(left) {
            ReadyWrote::Took(n) => left = &left[n..],
            ReadyWrote::NotYet => return Sent::Left(left.len()),
            ReadyWrote::Failed => return Sent::Failed,
        }
    }
    Sent::All
}

/// What is left of a reply or a request that is under way, in memory of its own.
///
/// Contracts see the bytes that are left.
#[derive(Drop)]
pub struct Unsent {
    bytes: Bytes,
    /// Since when no byte was taken, once that was noted.
    since: Option<Moment>,
}

impl Model for Unsent {
    ghost use Rattle.std.specs.Prelude.{List, ℕ};

    ghost Value = { List ℕ };

    ghost view = { λ u. u.bytes };
}

impl Unsent {
    /// The last `left` bytes of a piece. The one error is want of memory.
    pub fn of(alloc: Global, piece: &[u8], left: usize) -> Result<Unsent, OutOfMemory>
        requires { left ≤ length piece.now }
        ensures { IfOk result (λ unsent. unsent ≡ drop (length piece.now - left) piece.now) }
    {
        Ok(Unsent {
            bytes: Bytes::of(alloc, &piece[piece.len() - left..])?,
            since: None,
        })
    }

    /// The bytes that are left.
    pub fn rest(&self) -> &[u8]
        ensures { result.now ≡ self.now }
    {
        self.bytes.as_slice()
    }

    /// It is what is left of this one: where no byte was taken, it waits as long.
    pub fn note_taken(&mut self, old: &Unsent)
        ensures { self.new ≡ self.old }
    {
        if self.rest().len() == old.rest().len() {
            self.since = old.since;
        }
    }

    /// A turn ended at this moment, at which bytes are left.
    pub fn note(&mut self, now: Moment)
        ensures { self.new ≡ self.old }
    {
        if self.since.is_none() {
            self.since = Some(now);
        }
    }

    /// Whether no byte was taken for too long.
    pub fn is_stuck(&self, now: Moment) -> bool {
        match self.since {
            None => false,
            Some(since) => now.seconds().saturating_sub(since.seconds()) >= WRITE_LIMIT,
        }
    }
}

/// What became of a piece that was put on its way.
#[derive(Drop)]
pub enum Put {
    All,
    /// These bytes are left.
    Left(Unsent),
    Failed,
}

/// Writes of the piece what goes out at once, and keeps the rest; where there is no memory for it, the write has failed.
pub fn send_or_keep<L: ReadyLink>(alloc: Global, link: &mut L, piece: &[u8]) -> Put
    ensures { Puts (L.link_state link.old) piece.now result (L.link_state link.new) }
{
    match send_some(link, piece) {
        Sent::All => Put::All,
        Sent::Failed => Put::Failed,
        Sent::Left(left) => match Unsent::of(alloc, piece, left) {
            Ok(unsent) => Put::Left(unsent),
            Err(_) => {
                link.give_up();
                Put::Failed
            }
        },
    }
}
