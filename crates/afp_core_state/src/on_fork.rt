//! The open forks of a session by their references.
ghost use Rattle.afp_core_state.specs.OnForks.{IsFork};
ghost use Rattle.afp_core_state.specs.Running.{IsReady};

use crate::state::State;
use afp_base::{ForkRef, SessionNumber};
use deny_modes::{ForkKey, Mode};
use record_keeper::Keeper;

/// An open fork of a session: the index of its volume, from 0 in house order, the fork, and what the open may do and denies to others.
#[derive(Clone, Copy)]
pub struct OwnFork {
    pub index: usize,
    pub fork: ForkKey,
    pub mode: Mode,
}

impl<K: Keeper> State<K> {
    /// The open fork of that reference, where it is the session's.
    pub fn fork_at(&self, session: SessionNumber, reference: ForkRef) -> Option<OwnFork>
        requires { IsReady self.now.world }
        ensures { IsFork self.now session.0 reference.0 result }
    {
        let Some(open) = self.forks.get(session, reference) else {
            return None;
        };
        match self.index(open.fork.volume) {
            Some(index) => Some(OwnFork {
                index,
                fork: open.fork,
                mode: open.mode,
            }),
            None => None,
        }
    }
}
