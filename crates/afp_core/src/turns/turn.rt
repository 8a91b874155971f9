//! The core, and its turns.
ghost use Rattle.std.specs.Prelude.{◌≡◌, ◌≢◌, ◌≤◌, ◌↔◌, ◌-◌, Err, IfErr, IfOk, IfSome, Some, is_some, length, option_map, slice_get, true};
ghost use Rattle.afp_base.specs.Limits.{payload_limit};
ghost use Rattle.afp_serial.specs.Answered.{tells_bytes, told_of};
ghost use Rattle.afp_serial.specs.World.{volume_at};
ghost use Rattle.afp_serial.specs.Sound.{IsSound};
ghost use Rattle.afp_core_state.specs.Holding.{AreHeld};
ghost use Rattle.afp_core_state.specs.KeptWorld.{with_token_key};
ghost use Rattle.record_keeper.specs.Records.{Records};
ghost use Rattle.volume_keeper_records.specs.Image.{kept_image};
ghost use Rattle.afp_core_dispatch.specs.Asks.{told_in};
ghost use Rattle.afp_core.specs.keepers.Loads.{IsCoreFault};
ghost use Rattle.afp_core.specs.turns.Loads.{IsLoadedServer};
ghost use Rattle.afp_core.specs.turns.Retiring.{RetiresServer};
ghost use Rattle.afp_core.specs.turns.Turn.{TakesTurn};
ghost use Rattle.afp_core.specs.turns.lemma.Turn.{TakesStep};
ghost use Rattle.record_keeper.specs.Records.{steadily};

use crate::keepers::{CoreFault, Retired, load_all, settle_all};
use crate::turns::counts::Counts;
use afp_base::{LinkNumber, Moment, OutOfMemory, VolumeId};
use afp_core_dispatch::run_ask;
use afp_core_state::State;
use afp_serial::fork_laws::references_are_lowest;
use afp_serial::{Answered, Ask, House, Outcome, entry_in_range, moment_in_range};
use record_keeper::Keeper;
use std::alloc::Global;
use std::marker::Model;

/// The serial file server over a world in memory, whose volumes stand beside their keepers.
///
/// Contracts see its world, which is sound, its counts, and those of the keepers.
#[derive(Drop)]
pub struct Core<K: Keeper> {
    state: State<K>,
    entries: u64,
    opened: u64,
}

impl<K: Keeper> Model for Core<K> {
    ghost use Rattle.afp_core.specs.turns.ServerState.{ServerState};
    ghost use Rattle.afp_serial.specs.Sound.{IsSound};

    ghost Value = { ServerState };

    ghost view = { λ c. record { world = c.state.world; entries = c.entries; opened = c.opened; faults = c.state.faults; sure = c.state.sure; settled = c.state.settled } };

    ghost invariant = { λ c. IsSound c.state.world };
}

impl<K: Keeper> Core<K> {
    /// The core of a house over its volumes' keepers, in house order: each volume is the one that its keeper's records say, and a new one
    /// where the keeper holds nothing. `Count` exactly where the numbers of keepers and volumes differ; else the fault of the first load
    /// that gave no volume: `BadRecord` has the first bad record of that keeper, `Failed` comes only where that keeper is not sure.
    pub fn new(
        alloc: Global,
        house: &House,
        keepers: Vec<K>,
        now: Moment,
    ) -> Result<Core<K>, CoreFault>
        ensures start { IfOk result (λ core. IsLoadedServer (steadily K.steady K.records) K.sure K.faults house.now now keepers.items core) }
        ensures count { (result ≡ Err CoreFault.Count) ↔ (length keepers.items ≢ length house.now.volumes) }
        ensures fault { IfErr result (λ fault. IsCoreFault (steadily K.steady K.records) K.sure K.faults now house.now.volumes keepers.items fault) }
    {
        if keepers.len() != house.volumes().len() {
            return Err(CoreFault::Count);
        }
        moment_in_range(now);
        let kept = load_all(alloc, house, keepers, now)?;
        let Ok(house) = house.copy(alloc) else {
            return Err(CoreFault::Memory);
        };
        match State::new(alloc, house, kept, now) {
            Ok(state) => Ok(Core {
                state,
                entries: 0,
                opened: 0,
            }),
            Err(OutOfMemory) => Err(CoreFault::Memory),
        }
    }

    /// Answers one ask, and tells its outcome too; the block of a reply is put at the front of `out`.
    pub(crate) fn step(
        &mut self,
        now: Moment,
        link: LinkNumber,
        ask: Ask,
        out: &mut [u8],
    ) -> Result<(Answered, Outcome), OutOfMemory>
        requires { tells_bytes ask ≡ true → payload_limit ≤ length out.old }
        ensures step { TakesStep self.old now link ask (told_in result out.new) self.new }
        ensures length { length out.new ≡ length out.old }
    {
        entry_in_range(now, link, &ask);
        references_are_lowest();
        let (answered, outcome) = run_ask(&mut self.state, now, link, ask, out)?;
        self.entries = self.entries.saturating_add(1);
        if let Answered::Opened { .. } = answered {
            self.opened = self.opened.saturating_add(1);
        }
        Ok((answered, outcome))
    }

    /// Answers one ask; the block of a reply is put at the front of `out`. `Memory`: nothing has changed but there; that
    /// answer is for `Open` alone, and for a call whose link has a session that keeps no answer for it.
    pub fn turn(&mut self, now: Moment, link: LinkNumber, ask: Ask, out: &mut [u8]) -> Answered
        requires { tells_bytes ask ≡ true → payload_limit ≤ length out.old }
        ensures turn { TakesTurn self.old now link ask (told_of result out.new) self.new }
        ensures length { length out.new ≡ length out.old }
    {
        match self.step(now, link, ask, out) {
            Ok((answered, _)) => answered,
            Err(OutOfMemory) => Answered::Memory,
        }
    }

    /// How many turns did not answer `Memory`, and how many sessions they opened.
    pub fn counts(&self) -> Counts
        ensures entries { result.entries ≡ self.now.entries }
        ensures sessions { result.sessions ≡ self.now.opened }
        ensures sound { IsSound self.now.world }
    {
        Counts {
            entries: self.entries,
            sessions: self.opened,
        }
    }

    /// The house that it serves, whose status block its server ends answer with. The key of its tokens is the one of the table of sessions.
    pub fn house(&self) -> &House
        ensures { with_token_key result.now self.now.world.house.token_key ≡ self.now.world.house }
    {
        &self.state.house
    }

    /// How many nodes the volume of an id has, its root among them. `None`: there is no such volume.
    pub fn nodes(&self, v: VolumeId) -> Option<usize>
        ensures { result ≡ option_map (λ volume. length volume.rows) (volume_at self.now.world.volumes v.0) }
    {
        self.state.nodes(v)
    }

    /// The keeper of the volume of an id, which holds that volume's records, and no others. `None`: there is no such volume.
    pub fn keeper(&self, v: VolumeId) -> Option<&K>
        ensures there { is_some result ≡ is_some (volume_at self.now.world.volumes v.0) }
        ensures records { IfSome result (λ keeper. IfSome (K.records keeper.now) (λ (held : Records). option_map kept_image (volume_at self.now.world.volumes v.0) ≡ Some held)) }
        ensures faults { IfSome result (λ keeper. slice_get self.now.faults (v.0 - 1) ≡ Some (K.faults keeper.now)) }
        ensures sure { IfSome result (λ keeper. slice_get self.now.sure (v.0 - 1) ≡ Some (K.sure keeper.now)) }
    {
        self.state.keeper(v)
    }

    /// What is kept true: each keeper holds the volume at its place. The call does nothing.
    pub fn keepers_hold(&self)
        ensures { AreHeld K.records K.sure K.faults self.now.world.volumes self.now.faults self.now.sure }
    {
        self.state.keepers_hold();
    }

    /// Asks each keeper to settle, once, in order, and lets it go. Of their answers `failed` and `memory` are counts. A sure keeper does not fail.
    pub fn retire(self) -> Retired
        ensures { RetiresServer K.faults K.sure K.settles self result }
    {
        settle_all(self.state.kept)
    }
}
