//! The requests of steps.
ghost use Rattle.std.specs.Prelude.{◌≡◌, ◌+◌, ◌%◌, ◌^◌, ◌<◌, IfOk, OnOk};
ghost use Rattle.capture_made.specs.requests.Requests.{after, first_state, most_steps, request_of};

use crate::requests::draw::draw_step;
use crate::requests::frames::step_bytes;
use crate::requests::opening::moment_at;
use crate::requests::request::Request;
use afp_base::OutOfMemory;
use std::alloc::Global;
use std::marker::Model;

/// The most steps of a made capture.
pub const MOST_STEPS: u32 = 100_000;

/// Where the steps have come.
///
/// Contracts see the state of the generator, the next id of each of the three connections, and how many steps there were.
#[derive(Drop)]
pub struct Steps {
    state: u64,
    ids: [u16; 3],
    steps: u32,
}

impl Model for Steps {
    ghost use Rattle.std.specs.Prelude.{◌≡◌, length};
    ghost use Rattle.capture_made.specs.requests.Requests.{StepState};

    ghost Value = { StepState };

    ghost view = { λ s. record { state = s.state; ids = s.ids; steps = s.steps } };

    ghost invariant = { λ s. length s.ids ≡ 3 };
}

/// The next id of a connection.
fn next_id(id: u16) -> u16
    ensures { result ≡ (id + 1) % 2 ^ 16 }
{
    id.wrapping_add(1)
}

impl Steps {
    /// Before the first step of the capture of a number.
    pub fn new(number: u64) -> Steps
        ensures { result ≡ first_state number }
    {
        Steps {
            state: number,
            ids: [3, 3, 3],
            steps: 0,
        }
    }

    /// The next step's request. The one error is want of memory.
    pub fn next(&mut self, alloc: Global) -> Result<Request, OutOfMemory>
        requires { self.old.steps < most_steps }
        ensures request { IfOk result (λ r. r ≡ request_of self.old) }
        ensures after { OnOk result (self.new ≡ after self.old) }
    {
        let (draws, state) = draw_step(self.state);
        let place = (draws.c % 3) as usize;
        let id = self.ids[place];
        let at = moment_at(101 + self.steps)?;
        let frame = step_bytes(alloc, id, draws.o % 8, draws.a, draws.b)?;
        self.state = state;
        self.ids[place] = next_id(id);
        self.steps += 1;
        Ok(Request {
            link: 1 + place as u32,
            at,
            frame,
        })
    }
}
