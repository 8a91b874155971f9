//! The state of the server: what it is set up with, moments, links, sessions and open forks.
ghost use Rattle.std.specs.Prelude.{◌≡◌, IfOk};
ghost use Rattle.afp_serial.specs.World.{without_session, start_world};
ghost use Rattle.afp_core_state.specs.KeptWorld.{volumes_of, kept_world};
ghost use Rattle.afp_core_state.specs.Running.{IsReady};

use crate::forks::OpenForks;
use afp_base::{Moment, OutOfMemory, SessionNumber};
use afp_serial::House;
use record_keeper::Keeper;
use session_table::Sessions;
use std::alloc::Global;
use std::marker::Model;
use volume_keeper::KeptVolume;

/// The state of the server: its volumes stand beside their keepers.
///
/// Contracts see it as its world, with the keepers' counts.
#[derive(Drop)]
pub struct State<K: Keeper> {
    pub alloc: Global,
    pub house: House,
    pub latest: Moment,
    pub drain: Option<Moment>,
    pub sessions: Sessions,
    pub forks: OpenForks,
    pub kept: Vec<KeptVolume<K>>,
}

impl<K: Keeper> Model for State<K> {
    ghost use Rattle.afp_core_state.specs.KeptWorld.{KeptWorld, kept_world, volumes_of, with_token_key, world_of};

    ghost Value = { KeptWorld };

    ghost view = { λ a. kept_world (world_of (with_token_key a.house a.sessions.token_key) a.latest a.drain a.sessions.next_link a.sessions.sessions a.forks (volumes_of a.kept.items)) a.kept.items };
}

impl<K: Keeper> State<K> {
    /// The state of a house that nobody has asked yet, over its volumes. The one error is want of memory.
    pub fn new(
        alloc: Global,
        house: House,
        kept: Vec<KeptVolume<K>>,
        now: Moment,
    ) -> Result<State<K>, OutOfMemory>
        ensures { IfOk result (λ state. state ≡ kept_world (start_world house now (volumes_of kept.items)) kept.items) }
    {
        let sessions = Sessions::new(alloc, house.token_key())?;
        Ok(State {
            alloc,
            house,
            latest: now,
            drain: None,
            sessions,
            forks: OpenForks::new(alloc),
            kept,
        })
    }

    /// A session ends: its forks are closed, and their locks go.
    pub fn end(&mut self, session: SessionNumber)
        requires { IsReady self.old.world }
        ensures { self.new ≡ record self.old { world = without_session self.old.world session.0 } }
    {
        self.sessions.end(session);
        self.forks.close_session(session);
    }
}
