//! What server and client meet outside of them: links to their peers, doors through which they come, dialers,
//! sources of bytes, sinks for reports, and clocks, each as a trait, with one in memory and one over the real
//! thing; and gates.

mod calls;
mod clock;
mod dialer;
mod gate;
mod incoming;
mod link;
mod listener;
mod outgoing;
mod readiness;
mod reading;
mod ready_link;
mod remedy;
mod sink;
mod source;
mod std_sink;
mod std_source;
mod steady_clock;
mod system_clock;
mod tape_clock;
mod tape_dialer;
mod tape_link;
mod tape_listener;
mod tape_sink;
mod tape_source;
mod tcp_dialer;
mod tcp_door;
mod tcp_wire;
mod whole;

pub use crate::ends::clock::Clock;
pub use crate::ends::dialer::{DialFault, Dialer};
pub use crate::ends::gate::{Gate, GateLog, OpenGate};
pub use crate::ends::link::{Link, ReadResult, Wrote};
pub use crate::ends::listener::{Accepted, Listener};
pub use crate::ends::readiness::{Came, Readiness};
pub use crate::ends::ready_link::{ReadyLink, ReadyRead, ReadyWrote};
pub use crate::ends::sink::Sink;
pub use crate::ends::source::Source;
pub use crate::ends::std_sink::StdSink;
pub use crate::ends::std_source::StdSource;
pub use crate::ends::steady_clock::SteadyClock;
pub use crate::ends::system_clock::SystemClock;
pub use crate::ends::tape_clock::TapeClock;
pub use crate::ends::tape_dialer::TapeDialer;
pub use crate::ends::tape_link::TapeLink;
pub use crate::ends::tape_listener::TapeListener;
pub use crate::ends::tape_sink::TapeSink;
pub use crate::ends::tape_source::TapeSource;
pub use crate::ends::tcp_dialer::{DialReason, TcpDialer};
pub use crate::ends::tcp_door::TcpDoor;
pub use crate::ends::tcp_wire::TcpWire;
pub use crate::ends::whole::{print_all, send_all};
