//! A file, printed as one AppleSingle file.
ghost use Rattle.std.specs.Prelude.{◌≡◌, IfOk, IfSome};
ghost use Rattle.apple_double.specs.Contents.{if_name};
ghost use Rattle.apple_double.specs.Written.{IsComment};
ghost use Rattle.client_script_commands.specs.parcels.Pack.{bad_parcel, packed, parcel_of, printed};

use crate::parcels::found::Shown;
use afp_base::{Bytes, OutOfMemory};
use afp_names::{Name, NameFault};
use apple_double::{Parcel, Shape, parcel_size, write_parcel};
use client_script_lines::packed_text;
use std::alloc::Global;

/// What is printed of a file that no parcel can hold, and of bytes that are no parcel.
pub(crate) fn bad_parcel(alloc: Global) -> Result<Bytes, OutOfMemory>
    ensures { IfOk result (λ text. text ≡ bad_parcel) }
{
    Bytes::of(alloc, b"bad parcel")
}

/// A file, where its AppleSingle file has fewer than 2^32 bytes.
#[tactic(auto, unfolding(crate::specs::parcels::Pack::printed))]
fn printed(alloc: Global, p: &Parcel) -> Result<Bytes, OutOfMemory>
    requires { IfSome p.now.comment IsComment }
    ensures { IfOk result (λ text. text ≡ printed p.now) }
{
    if parcel_size(p, Shape::Single) >= (1 << 32) {
        return bad_parcel(alloc);
    }
    let mut bytes = Bytes::new(alloc);
    write_parcel(p, Shape::Single, &mut bytes)?;
    packed_text(alloc, bytes.as_slice())
}

/// The name that bytes are.
fn name_of(alloc: Global, bytes: &[u8]) -> Result<Option<Name>, OutOfMemory>
    ensures { IfOk result (λ name. name ≡ if_name bytes.now) }
{
    match Name::new(alloc, bytes) {
        Ok(name) => Ok(Some(name)),
        Err(fault) => match fault {
            NameFault::Memory => Err(OutOfMemory),
            _ => Ok(None),
        },
    }
}

/// The file that is shown, with its comment and its forks.
fn parcel_of(
    name: Name,
    shown: Shown,
    comment: Option<Bytes>,
    data_fork: Bytes,
    resource_fork: Bytes,
) -> Parcel
    ensures { result ≡ parcel_of name shown comment data_fork resource_fork }
{
    let finder = shown.finder;
    Parcel {
        name: Some(name),
        created: shown.created,
        modified: shown.modified,
        backup: shown.backup,
        finder,
        comment,
        data_fork,
        resource_fork,
    }
}

/// The file that is shown, with its comment and its forks, where its name is one.
#[tactic(auto, unfolding(crate::specs::parcels::Pack::packed))]
pub(crate) fn packed(
    alloc: Global,
    shown: Shown,
    comment: Option<Bytes>,
    data_fork: Bytes,
    resource_fork: Bytes,
) -> Result<Bytes, OutOfMemory>
    requires { IfSome comment IsComment }
    ensures { IfOk result (λ text. text ≡ packed shown comment data_fork resource_fork) }
{
    match name_of(alloc, shown.name.as_slice())? {
        Some(name) => {
            let parcel = parcel_of(name, shown, comment, data_fork, resource_fork);
            printed(alloc, &parcel)
        }
        None => bad_parcel(alloc),
    }
}
