//! A gate that counts.
use afp_base::LinkNumber;
use afp_outside::{Gate, GateLog};
use std::cell::Cell;

/// A gate that counts the calls that entered it, those that left it, and those that came out of turn: on another link than that of the
/// session, one behind another that was not replied to, or a reply to none.
#[derive(Drop)]
pub struct CountingGate {
    pub before: Cell<u32>,
    pub after: Cell<u32>,
    pub out_of_turn: Cell<u32>,
}

fn add_one(count: &Cell<u32>) {
    count.set(count.get().saturating_add(1));
}

impl CountingGate {
    pub fn new() -> CountingGate {
        CountingGate {
            before: Cell::new(0),
            after: Cell::new(0),
            out_of_turn: Cell::new(0),
        }
    }
}

impl Gate for CountingGate {
    type Log = GateLog;

    ghost passed = { λ l. l };

    fn log(&self) -> GateLog {
        GateLog::new()
    }

    fn before(&self, link: LinkNumber, log: &mut GateLog) {
        if link.0 != 1 || self.before.get() != self.after.get() {
            add_one(&self.out_of_turn);
        }
        add_one(&self.before);
        log.enter(link);
    }

    fn after(&self, link: LinkNumber, log: &mut GateLog) {
        add_one(&self.after);
        if link.0 != 1 || self.before.get() != self.after.get() {
            add_one(&self.out_of_turn);
        }
        log.exit(link);
    }
}
