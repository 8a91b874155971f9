//! A link to a peer that never waits.

use afp_base::Moment;

/// What a read gave that does not wait.
#[derive(Clone, Copy, Debug, PartialEq, Eq)]
pub enum ReadyRead {
    /// So many bytes, 1 or more, at the beginning of the room.
    Got(usize),
    /// No byte is there yet.
    NotYet,
    /// No byte is left: the peer writes no more.
    End,
    /// The read failed and took nothing.
    Failed,
}

/// What a write did that does not wait.
#[derive(Clone, Copy, Debug, PartialEq, Eq)]
pub enum ReadyWrote {
    /// It took so many of the bytes, 1 or more, from the first on.
    Took(usize),
    /// There is no room for a byte yet.
    NotYet,
    /// The write failed and took nothing.
    Failed,
}

/// A link to a peer whose reads and writes never wait: where nothing can be done yet, nothing happens. Its moments are those
/// that its caller tells.
pub trait ReadyLink {
    ghost use Rattle.std.specs.Prelude.{◌≡◌, ◌<◌, length};
    ghost use Rattle.afp_outside.specs.ends.Link.{LinkState, ReadsQuiet, FailsToWrite};
    ghost use Rattle.afp_outside.specs.ends.Ready.{ReadsReady, WritesReady};

    /// What the link is seen as.
    ghost link_state: { Self → LinkState };

    /// Reads the next bytes into `room`, as many as are there, up to its length.
    fn read_ready(&mut self, room: &mut [u8], now: Moment) -> ReadyRead
        requires { 0 < length room.old }
        ensures { ReadsReady (link_state self.old) room.new result (link_state self.new) };

    /// Writes the first bytes of `piece`, as many as go out at once.
    fn write_ready(&mut self, piece: &[u8]) -> ReadyWrote
        requires { 0 < length piece.now }
        ensures { WritesReady (link_state self.old) piece.now result (link_state self.new) };

    /// No byte came in the time that a read waits.
    fn be_quiet(&mut self, now: Moment)
        ensures { ReadsQuiet (link_state self.old) (link_state self.new) };

    /// A write that took no byte for too long has failed.
    fn give_up(&mut self)
        ensures { FailsToWrite (link_state self.old) (link_state self.new) };

    /// The moment of the last read or quiet, or else that at which the link was made.
    fn now(&self) -> Moment
        ensures { result ≡ (link_state self.now).now };

    /// The moment of the last read that gave bytes, or else that at which the link was made.
    fn last_read(&self) -> Moment
        ensures { result ≡ (link_state self.now).last_read };
}
