//! A link to a peer.

use afp_base::Moment;

/// What a read gave.
#[derive(Clone, Copy, Debug, PartialEq, Eq)]
pub enum ReadResult {
    /// So many bytes, 1 or more, at the beginning of the room.
    Got(usize),
    /// No byte in the time that a read waits.
    Quiet,
    /// No byte is left: the peer writes no more.
    End,
    /// The read failed and took nothing.
    Failed,
}

/// What a write did.
#[derive(Clone, Copy, Debug, PartialEq, Eq)]
pub enum Wrote {
    /// It took so many of the bytes, 1 or more, from the first on.
    Took(usize),
    /// The write failed and took nothing.
    Failed,
}

/// A link to a peer: bytes come in by reads, and go out by writes.
pub trait Link {
    ghost use Rattle.std.specs.Prelude.{◌≡◌, ◌<◌, length};
    ghost use Rattle.afp_outside.specs.ends.Link.{LinkState, Reads, Writes};

    /// What the link is seen as.
    ghost link_state: { Self → LinkState };

    /// Reads the next bytes into `room`, as many as come, up to its length.
    fn read(&mut self, room: &mut [u8]) -> ReadResult
        requires { 0 < length room.old }
        ensures { Reads (link_state self.old) room.new result (link_state self.new) };

    /// Writes the first bytes of `piece`, as many as go out at once.
    fn write(&mut self, piece: &[u8]) -> Wrote
        requires { 0 < length piece.now }
        ensures { Writes (link_state self.old) piece.now result (link_state self.new) };

    /// The moment of the last read, or else that at which the link was made.
    fn now(&self) -> Moment
        ensures { result ≡ (link_state self.now).now };

    /// The moment of the last read that gave bytes, or else that at which the link was made.
    fn last_read(&self) -> Moment
        ensures { result ≡ (link_state self.now).last_read };
}
