//! Gates that calls go through.
ghost use Rattle.std.specs.Prelude.{◌≡◌, Some};
ghost use Rattle.afp_outside.specs.ends.Gate.{none_passed, with_entered, with_exited};

use afp_base::LinkNumber;
use ghost_log::Log;
use std::marker::Model;

/// Goes before and after each call of a link, so that a test can hold one back. It cannot fail.
///
/// Nothing can be said of what it keeps itself. So whoever calls keeps a log, which only the gate makes and makes longer: it tells
/// contracts which calls entered and left.
pub trait Gate {
    ghost use Rattle.std.specs.Prelude.{◌≡◌, Some};
    ghost use Rattle.afp_outside.specs.ends.Gate.{Passed, none_passed, with_entered, with_exited};

    /// What went through.
    type Log: Drop;

    ghost passed: { Self.Log → Passed };

    /// A log at its beginning.
    fn log(&self) -> Self::Log
        ensures { passed result ≡ none_passed };

    /// Before the call of a link.
    fn before(&self, link: LinkNumber, log: &mut Self::Log)
        ensures { passed log.new ≡ with_entered (passed log.old) (Some link) };

    /// After the call of a link, once its reply was written.
    fn after(&self, link: LinkNumber, log: &mut Self::Log)
        ensures { passed log.new ≡ with_exited (passed log.old) (Some link) };
}

/// A log that any gate may use. Only proofs read it, and it takes no memory.
///
/// Contracts see the links whose calls entered, and those whose calls left.
#[derive(Drop)]
pub struct GateLog {
    entered: Log<LinkNumber>,
    exited: Log<LinkNumber>,
}

impl Model for GateLog {
    ghost use Rattle.afp_outside.specs.ends.Gate.{Passed};

    ghost Value = { Passed };

    ghost view = { λ l. record { entered = l.entered.items; exited = l.exited.items } };
}

impl GateLog {
    /// A log at its beginning.
    pub fn new() -> GateLog
        ensures { result ≡ none_passed }
    {
        GateLog {
            entered: Log::new(),
            exited: Log::new(),
        }
    }

    /// Notes that a call of a link entered.
    pub fn enter(&mut self, link: LinkNumber)
        ensures { self.new ≡ with_entered self.old (Some link) }
    {
        self.entered = self.entered.and(&link);
    }

    /// Notes that a call of a link left.
    pub fn exit(&mut self, link: LinkNumber)
        ensures { self.new ≡ with_exited self.old (Some link) }
    {
        self.exited = self.exited.and(&link);
    }
}

/// A gate that does nothing.
#[derive(Clone, Copy, Debug, PartialEq, Eq)]
pub struct OpenGate;

impl Gate for OpenGate {
    type Log = GateLog;

    ghost passed = { λ l. l };

    fn log(&self) -> GateLog {
        GateLog::new()
    }

    fn before(&self, link: LinkNumber, log: &mut GateLog) {
        log.enter(link);
    }

    fn after(&self, link: LinkNumber, log: &mut GateLog) {
        log.exit(link);
    }
}
