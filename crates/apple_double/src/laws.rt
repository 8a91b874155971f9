//! What holds of parcels without any call.
ghost use Rattle.std.specs.Prelude.{◌≡◌, ◌<◌, ◌^◌, ℕ, List, length, IfSome, None};
ghost use Rattle.afp_names.specs.Name.{name_fault};
ghost use Rattle.apple_double.specs.Parcel.{Parcels};
ghost use Rattle.apple_double.specs.Written.{parcel_bytes, IsComment, as_held};

use crate::parcel::{Parcel, Shape};
use crate::write::finder_is_whole;
use afp_names::Name;

/// No bytes hold two files: what is read of a parcel is told by its bytes.
pub fn one_file_for_each_parcel()
    ensures { (bytes : List ℕ) (s t : Shape) (p q : Parcel) → Parcels bytes s p → Parcels bytes t q → (s ≡ t) × (p ≡ q) }
{}

// A name in a parcel has no fault.
fn name_is_good(name: &Option<Name>)
    ensures { IfSome name.now (λ name. name_fault name ≡ None) }
{
    if let Some(name) = name {
        name.as_str();
    }
}

/// What is written is read again: the parcel of a file holds this file, but in an AppleDouble header file for its data.
pub fn what_is_written_is_read_again(p: &Parcel, shape: Shape)
    requires comment { IfSome p.now.comment IsComment }
    requires size { length (parcel_bytes shape p.now) < 2 ^ 32 }
    ensures { Parcels (parcel_bytes shape p.now) shape (as_held shape p.now) }
{
    name_is_good(&p.name);
    finder_is_whole(&p.finder);
    let _dates = (p.created, p.modified, p.backup);
}
