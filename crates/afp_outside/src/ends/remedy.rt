//! What heals an accept that failed.
ghost use Rattle.std.specs.Prelude.{◌↔◌, IsTrue};
ghost use Rattle.afp_outside.specs.ends.Tcp.{IsOneSocket, IsWant};

// Numbers of the system's errors (Linux, errno.h).
const EINTR: i32 = 4;

const ENOMEM: i32 = 12;

const ENFILE: i32 = 23;

const EMFILE: i32 = 24;

const EPROTO: i32 = 71;

const ECONNABORTED: i32 = 103;

const ENOBUFS: i32 = 105;

/// Whether an accept's error is one of a single socket, so that the next accept is tried at once.
pub fn is_one_socket(number: i32) -> bool
    ensures { IsTrue result ↔ IsOneSocket number }
{
    number == EINTR || number == EPROTO || number == ECONNABORTED
}

/// Whether an accept's error is want of descriptors or of memory in the system, which a pause may end.
pub fn is_want(number: i32) -> bool
    ensures { IsTrue result ↔ IsWant number }
{
    number == ENOMEM || number == ENFILE || number == EMFILE || number == ENOBUFS
}
