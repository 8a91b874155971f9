//! The volumes of a house, from their keepers.
ghost use Rattle.std.specs.Prelude.{◌≡◌, ◌++◌, ◌∷◌, [], All, IfOk, IfErr, IfSome, None, OnOk, length};
ghost use Rattle.afp_names.specs.Name.{name_fault};
ghost use Rattle.volume_keeper.specs.kept.Loading.{IsLoadedFrom, IsLoadedVolume};
ghost use Rattle.record_keeper.specs.Records.{Records, steadily};
ghost use Rattle.afp_core.specs.keepers.Loads.{IsCoreFault, LoadEach};
ghost use Rattle.afp_core.specs.keepers.lemma.Loads.{IsFaultAt};

use crate::keepers::core_fault::CoreFault;
use afp_base::{Bytes, Moment, OutOfMemory};
use afp_names::{Name, NameFault};
use afp_serial::House;
use record_keeper::Keeper;
use std::alloc::Global;
use volume_keeper::{KeptVolume, LoadFault};

/// Loads the volumes of a house, in its order, each from its keeper. An error is that of the first load that gave none, or
/// `Memory`.
pub fn load_all<K: Keeper>(
    alloc: Global,
    house: &House,
    keepers: Vec<K>,
    now: Moment,
) -> Result<Vec<KeptVolume<K>>, CoreFault>
    requires { length keepers.items ≡ length house.now.volumes }
    ensures loaded { IfOk result (λ kept. LoadEach (steadily K.steady K.records) K.sure K.faults now house.now.volumes keepers.items kept.items) }
    ensures fault { IfErr result (λ fault. IsCoreFault (steadily K.steady K.records) K.sure K.faults now house.now.volumes keepers.items fault) }
{
    let names = house.volumes();
    load_named(alloc, names, keepers, now)
}

/// The same by the volumes' names.
fn load_named<K: Keeper>(
    alloc: Global,
    names: &[Bytes],
    keepers: Vec<K>,
    now: Moment,
) -> Result<Vec<KeptVolume<K>>, CoreFault>
    requires same { length keepers.items ≡ length names.now }
    requires named { All (λ name. name_fault name ≡ None) names.now }
    ensures loaded { IfOk result (λ kept. LoadEach (steadily K.steady K.records) K.sure K.faults now names.now keepers.items kept.items) }
    ensures fault { IfErr result (λ fault. IsCoreFault (steadily K.steady K.records) K.sure K.faults now names.now keepers.items fault) }
{
    let mut keepers = keepers;
    let mut kept = Vec::new(alloc);
    while !keepers.is_empty() {
        let index = kept.len();
        let keeper = keepers.remove(0);
        match load_one(alloc, &names[index], keeper, now, index) {
            Ok(one) => {
                if push_kept(&mut kept, one).is_err() {
                    return Err(CoreFault::Memory);
                }
            }
            Err(fault) => return Err(fault),
        }
    }
    Ok(kept)
}

/// Puts a volume behind the others; without memory it is let go.
fn push_kept<K: Keeper>(
    kept: &mut Vec<KeptVolume<K>>,
    one: KeptVolume<K>,
) -> Result<(), OutOfMemory>
    ensures { OnOk result (kept.new.items ≡ kept.old.items ++ one ∷ []) }
{
    kept.push(one)?;
    Ok(())
}

/// Loads the volume of a name from its keeper; `index` is told in an error.
fn load_one<K: Keeper>(
    alloc: Global,
    name: &Bytes,
    keeper: K,
    now: Moment,
    index: usize,
) -> Result<KeptVolume<K>, CoreFault>
    requires { name_fault name.now ≡ None }
    ensures loaded { IfOk result (λ kept. IsLoadedVolume name.now now (steadily K.steady K.records keeper) (K.sure keeper) (K.faults keeper) kept) }
    ensures from { IfOk result (λ kept. IfSome (steadily K.steady K.records keeper) (λ (held : Records). IsLoadedFrom name.now held kept.state)) }
    ensures fault { IfErr result (λ fault. IsFaultAt index name.now (steadily K.steady K.records keeper) (K.sure keeper) fault) }
{
    let Ok(name) = name_of(alloc, name) else {
        return Err(CoreFault::Memory);
    };
    match KeptVolume::load(alloc, keeper, name.as_str(), now) {
        Ok(kept) => Ok(kept),
        Err(LoadFault::BadRecord { key, reason }) => Err(CoreFault::Load {
            index,
            fault: LoadFault::BadRecord { key, reason },
        }),
        Err(LoadFault::Failed) => Err(CoreFault::Load {
            index,
            fault: LoadFault::Failed,
        }),
        Err(LoadFault::Memory) => Err(CoreFault::Memory),
    }
}

/// The name that these bytes are.
fn name_of(alloc: Global, bytes: &Bytes) -> Result<Name, OutOfMemory>
    requires { name_fault bytes.now ≡ None }
    ensures { IfOk result (λ name. name ≡ bytes.now) }
{
    match Name::new(alloc, bytes.as_slice()) {
        Ok(name) => Ok(name),
        Err(fault) => match fault {
            NameFault::Memory => Err(OutOfMemory),
            _ => unreachable!(),
        },
    }
}
