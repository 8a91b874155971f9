//! What server and client meet outside of them: links to their peers, doors through which they come, dialers, sources of bytes,
//! sinks for reports, clocks and gates, each as a trait, with one in memory and one over the real thing; whole writes; the lines
//! of a source.
#![tactic(auto)]

mod ends;
mod lines;

pub use ends::{
    Accepted, Came, Clock, DialFault, DialReason, Dialer, Gate, GateLog, Link, Listener, OpenGate,
    ReadResult, Readiness, ReadyLink, ReadyRead, ReadyWrote, Sink, Source, StdSink, StdSource,
    SteadyClock, SystemClock, TapeClock, TapeDialer, TapeLink, TapeListener, TapeSink, TapeSource,
    TcpDialer, TcpDoor, TcpWire, Wrote, print_all, send_all,
};
pub use lines::{Lines, NextLine};
