//! A dialer in memory.
ghost use Rattle.std.specs.Prelude.{◌≡◌, ◌≤◌, [], length, All, IfOk};
ghost use Rattle.afp_outside.specs.ends.Dialer.{Dials, TakesBack};
ghost use Rattle.afp_outside.specs.ends.Tape.{link_of, dialer_of, IsFreshTape, TapeDials};

use crate::ends::calls::PlannedCalls;
use crate::ends::dialer::{DialFault, Dialer};
use crate::ends::tape_link::TapeLink;
use afp_base::OutOfMemory;
use ghost_log::Log;
use std::alloc::Global;
use std::collections::VecDeque;
use std::marker::Model;

/// A dialer in memory, which hands out its links in order. Its dials are numbered from 0.
#[derive(Drop)]
pub struct TapeDialer {
    links: VecDeque<TapeLink>,
    handed: usize,
    most: usize,
    returned: Vec<TapeLink>,
    back: Log<TapeLink>,
    faults: u64,
    calls: PlannedCalls,
}

impl Model for TapeDialer {
    ghost use Rattle.std.specs.Prelude.{◌≡◌, ◌+◌, ◌≤◌, All, take, vec_capacity};
    ghost use Rattle.std.specs.VecDeque.{deque_len};
    ghost use Rattle.afp_outside.specs.ends.Tape.{DialTape, IsFreshTape};

    ghost Value = { DialTape };

    ghost view = { λ a. record {
      coming = a.links.items;
      handed = a.handed;
      back = a.back.items;
      faults = a.faults;
      calls = a.calls;
    } };

    ghost invariant = { λ a. (a.handed + deque_len a.links ≡ a.most) × All IsFreshTape a.links.items × (a.returned.items ≡ take a.most a.back.items) × (a.most ≤ vec_capacity a.returned) };
}

impl TapeDialer {
    /// A dialer that hands out these links, none of which was read or written, and fails where none is left.
    /// `failing` has the numbers of the dials that fail; such a dial hands out no link.
    pub fn new(
        alloc: Global,
        links: Vec<TapeLink>,
        failing: Vec<u64>,
    ) -> Result<TapeDialer, OutOfMemory>
        requires { All IsFreshTape links.items }
        ensures { IfOk result (λ dialer. dialer ≡ record { coming = links.items; handed = 0; back = []; faults = 0; calls = record { failing = failing.items; made = 0 } }) }
    {
        let most = links.len();
        Ok(TapeDialer {
            links: VecDeque::from(links),
            handed: 0,
            most,
            returned: Vec::with_capacity(alloc, most)?,
            back: Log::new(),
            faults: 0,
            calls: PlannedCalls::new(failing),
        })
    }

    /// The links that were handed back, as they were then, where no more were handed back than were
    /// handed out.
    pub fn returned(&self) -> &[TapeLink]
        ensures { length self.now.back ≤ self.now.handed → result.now ≡ self.now.back }
    {
        self.returned.as_slice()
    }
}

impl Dialer for TapeDialer {
    type Link = TapeLink;

    ghost dialer_state = { dialer_of };

    fn dial(&mut self) -> Result<TapeLink, DialFault>
        ensures dials { Dials link_of (dialer_of self.old) result (dialer_of self.new) }
        ensures tape { TapeDials self.old result self.new }
    {
        if self.calls.fails() {
            self.faults = self.faults.saturating_add(1);
            return Err(DialFault::Failed);
        }
        match self.links.pop_front() {
            Some(link) => {
                self.handed += 1;
                Ok(link)
            }
            None => {
                self.faults = self.faults.saturating_add(1);
                Err(DialFault::Failed)
            }
        }
    }

    fn back(&mut self, link: TapeLink)
        ensures back { TakesBack (dialer_of self.old) link (dialer_of self.new) }
        ensures coming { self.new.coming ≡ self.old.coming }
        ensures calls { self.new.calls ≡ self.old.calls }
    {
        self.back = self.back.and(&link);
        if self.returned.len() < self.most {
            self.returned.push_reserved(link);
        }
    }
}
