//! A gate that holds one link back until another is answered.
use afp_base::LinkNumber;
use afp_outside::{Gate, GateLog};
use std::sync::atomic::{AtomicBool, Ordering};

/// How often it looks whether link 2 is answered, before it gives up.
const MOST_LOOKS: u32 = 1_000_000_000;

/// A gate that holds each call of link 1 until a call of link 2 was answered, or it has looked for that 1,000,000,000 times: then it is given up.
#[derive(Drop)]
pub struct HoldingGate {
    is_answered: AtomicBool,
    is_given_up: AtomicBool,
}

impl HoldingGate {
    pub fn new() -> HoldingGate {
        HoldingGate {
            is_answered: AtomicBool::new(false),
            is_given_up: AtomicBool::new(false),
        }
    }

    /// Whether a call was held in vain.
    pub fn is_given_up(&self) -> bool {
        self.is_given_up.load(Ordering::SeqCst)
    }

    /// Waits until link 2 is answered, and tells whether it was in time.
    fn comes(&self) -> bool {
        for _ in 0..MOST_LOOKS {
            if self.is_answered.load(Ordering::SeqCst) {
                return true;
            }
        }
        false
    }
}

impl Gate for HoldingGate {
    type Log = GateLog;

    ghost passed = { λ l. l };

    fn log(&self) -> GateLog {
        GateLog::new()
    }

    fn before(&self, link: LinkNumber, log: &mut GateLog) {
        if link.0 == 1 && !self.comes() {
            self.is_given_up.store(true, Ordering::SeqCst);
        }
        log.enter(link);
    }

    fn after(&self, link: LinkNumber, log: &mut GateLog) {
        if link.0 == 2 {
            self.is_answered.store(true, Ordering::SeqCst);
        }
        log.exit(link);
    }
}
