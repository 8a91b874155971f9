//! The file that a parcel holds.
ghost use Rattle.std.specs.Prelude.{◌≡◌, ◌≤◌, length, IfOk, IfSome};
ghost use Rattle.client_script_lines.specs.calls.Places.{longest_place};
ghost use Rattle.client_script_commands.specs.parcels.Unpack.{parcel_in};
ghost use Rattle.client_script_commands.specs.parcels.lemma.Telling.{FitsLine};

use afp_base::OutOfMemory;
use apple_double::laws::one_file_for_each_parcel;
use apple_double::{Parcel, ParcelFault, read_parcel};
use std::alloc::Global;

/// The file that bytes hold; `None` where they are no parcel.
#[tactic(auto, using(crate::proofs::OfParcels::HeldLemmas::held_in, crate::proofs::OfParcels::HeldLemmas::not_held, crate::proofs::OfParcels::HeldLemmas::held_fits))]
pub(crate) fn parcel_of(alloc: Global, bytes: &[u8]) -> Result<Option<Parcel>, OutOfMemory>
    requires { length bytes.now ≤ longest_place }
    ensures parcel { IfOk result (λ found. found ≡ parcel_in bytes.now) }
    ensures fits { IfOk result (λ found. IfSome found FitsLine) }
{
    one_file_for_each_parcel();
    match read_parcel(alloc, bytes) {
        Ok(found) => Ok(Some(found.1)),
        Err(fault) => match fault {
            ParcelFault::Memory => Err(OutOfMemory),
            _ => Ok(None),
        },
    }
}
