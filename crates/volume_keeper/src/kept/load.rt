//! Volumes from their keepers.
ghost use Rattle.std.specs.Prelude.{◌≡◌, false, None, IfOk, IfErr, IfSome, IsErrOf};
ghost use Rattle.afp_names.specs.Name.{name_fault};
ghost use Rattle.volume_keeper.specs.kept.Loading.{IsLoadedFrom, IsLoadedVolume};
ghost use Rattle.record_keeper.specs.Records.{Records, steadily};
ghost use Rattle.volume_keeper.specs.loading.Loading.{IsFaultIn};
ghost use Rattle.volume_keeper_records.specs.Image.{records_in};

use crate::kept::kept::KeptVolume;
use crate::loading::{LoadFault, load};
use afp_base::Moment;
use record_keeper::Keeper;
use std::alloc::Global;

impl<K: Keeper> KeptVolume<K> {
    /// The volume of that name that the keeper holds, or a new one, made at the moment, where it holds nothing. `BadRecord` comes exactly where a
    /// record is bad, and has the first of them.
    pub fn load(
        alloc: Global,
        keeper: K,
        name: &str,
        now: Moment,
    ) -> Result<KeptVolume<K>, LoadFault>
        requires { name_fault name.now ≡ None }
        ensures loaded { IfOk result (λ kept. IsLoadedVolume name.now now (steadily K.steady K.records keeper) (K.sure keeper) (K.faults keeper) kept) }
        ensures from { IfOk result (λ kept. IfSome (steadily K.steady K.records keeper) (λ (held : Records). IsLoadedFrom name.now held kept.state)) }
        ensures fault { IfErr result (λ fault. IfSome (steadily K.steady K.records keeper) (λ (held : Records). IsFaultIn name.now (records_in held) fault)) }
        ensures failed { IsErrOf result LoadFault.Failed → K.sure keeper ≡ false }
    {
        let mut keeper = keeper;
        match load(alloc, &mut keeper, name, now) {
            Ok(whole) => {
                whole.keeps_sound();
                Ok(KeptVolume { keeper, whole })
            }
            Err(fault) => Err(fault),
        }
    }
}
