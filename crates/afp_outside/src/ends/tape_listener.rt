//! A door in memory.
ghost use Rattle.std.specs.Prelude.{◌≡◌, ◌≤◌, [], false, length, All, IfOk};
ghost use Rattle.afp_outside.specs.ends.Listener.{Accepts, TakesBack};
ghost use Rattle.afp_outside.specs.ends.Tape.{link_of, door_of, IsFreshTape, TapeAccepts};

use crate::ends::calls::PlannedCalls;
use crate::ends::listener::{Accepted, Listener};
use crate::ends::tape_link::TapeLink;
use afp_base::OutOfMemory;
use ghost_log::Log;
use std::alloc::Global;
use std::collections::VecDeque;
use std::marker::Model;

/// A door in memory, which hands out its links in order. Its accepts are numbered from 0.
#[derive(Drop)]
pub struct TapeListener {
    links: VecDeque<TapeLink>,
    handed: usize,
    most: usize,
    returned: Vec<TapeLink>,
    back: Log<TapeLink>,
    closed: bool,
    faults: u64,
    calls: PlannedCalls,
}

impl Model for TapeListener {
    ghost use Rattle.std.specs.Prelude.{◌≡◌, ◌+◌, ◌≤◌, All, take, vec_capacity};
    ghost use Rattle.std.specs.VecDeque.{deque_len};
    ghost use Rattle.afp_outside.specs.ends.Tape.{TapeDoor, IsFreshTape};

    ghost Value = { TapeDoor };

    ghost view = { λ a. record {
      coming = a.links.items;
      handed = a.handed;
      back = a.back.items;
      closed = a.closed;
      faults = a.faults;
      calls = a.calls;
    } };

    ghost invariant = { λ a. (a.handed + deque_len a.links ≡ a.most) × All IsFreshTape a.links.items × (a.returned.items ≡ take a.most a.back.items) × (a.most ≤ vec_capacity a.returned) };
}

impl TapeListener {
    /// A door through which these links come, none of which was read or written. `failing` has the
    /// numbers of the accepts that fail; such an accept hands out no link.
    pub fn new(
        alloc: Global,
        links: Vec<TapeLink>,
        failing: Vec<u64>,
    ) -> Result<TapeListener, OutOfMemory>
        requires { All IsFreshTape links.items }
        ensures { IfOk result (λ door. door ≡ record { coming = links.items; handed = 0; back = []; closed = false; faults = 0; calls = record { failing = failing.items; made = 0 } }) }
    {
        let most = links.len();
        Ok(TapeListener {
            links: VecDeque::from(links),
            handed: 0,
            most,
            returned: Vec::with_capacity(alloc, most)?,
            back: Log::new(),
            closed: false,
            faults: 0,
            calls: PlannedCalls::new(failing),
        })
    }

    /// The links that were handed back, as they were then, where no more were handed back than were
    /// handed out.
    pub fn returned(&self) -> &[TapeLink]
        ensures { length self.now.back ≤ self.now.handed → result.now ≡ self.now.back }
    {
        self.returned.as_slice()
    }
}

impl Listener for TapeListener {
    type Link = TapeLink;

    ghost door_state = { door_of };

    fn accept(&mut self) -> Accepted<TapeLink>
        ensures accepts { Accepts link_of (door_of self.old) result (door_of self.new) }
        ensures tape { TapeAccepts self.old result self.new }
    {
        if self.calls.fails() {
            self.faults = self.faults.saturating_add(1);
            return Accepted::Failed;
        }
        match self.links.pop_front() {
            Some(link) => {
                self.handed += 1;
                Accepted::Link(link)
            }
            None => {
                self.closed = true;
                Accepted::Closed
            }
        }
    }

    fn back(&mut self, link: TapeLink)
        ensures back { TakesBack (door_of self.old) link (door_of self.new) }
        ensures coming { self.new.coming ≡ self.old.coming }
        ensures calls { self.new.calls ≡ self.old.calls }
    {
        self.back = self.back.and(&link);
        if self.returned.len() < self.most {
            self.returned.push_reserved(link);
        }
    }
}
