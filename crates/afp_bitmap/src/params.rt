//! Blocks of parameters of all kinds.
ghost use Rattle.std.specs.Prelude.{◌≡◌, ◌≤◌, ◌++◌, OnOk, OnErr, IfOk, MatchResult};
ghost use Rattle.afp_bitmap.specs.declared.params.ParamFault.TheVariants.{Memory};
ghost use Rattle.afp_bitmap.specs.declared.params.Values.{Values};
ghost use Rattle.afp_bitmap.specs.Bits.{IsWithin, mask_of};
ghost use Rattle.afp_bitmap.specs.Params.{params, Fits, IsAnswer, IsBadAt, IfBad};
ghost use Rattle.afp_bitmap.specs.Table.{kind_of};
ghost use Rattle.afp_bitmap.specs.lemma.Read.{reading};
ghost use Rattle.afp_bitmap.specs.lemma.Reading.{Gives};
ghost use Rattle.afp_base.specs.Appended.{Keeps};

use crate::directory::{DirValues, put_dir, read_dir};
use crate::file::{FileValues, put_file, read_file};
use crate::volume::{VolumeValues, put_volume, read_volume};
use afp_base::{Bytes, OutOfMemory};
use std::alloc::Global;
use thiserror::Error;

/// What is told of a volume, a file or a directory.
#[derive(Drop)]
pub enum Values {
    Volume(VolumeValues),
    File(FileValues),
    Dir(DirValues),
}

/// Why bytes could not be read.
#[derive(Clone, Copy, Debug, PartialEq, Eq, Error)]
pub enum ParamFault {
    /// From the place `at` on, in bytes from the first, they are no block.
    #[error("no block of parameters from byte {at} on")]
    Bad { at: usize },
    #[error("out of memory")]
    Memory,
}

impl From<OutOfMemory> for ParamFault {
    ghost from_gives = { λ _ e. e ≡ Memory };

    fn from(_error: OutOfMemory) -> ParamFault {
        ParamFault::Memory
    }
}

/// Appends the block of the asked values. After an error, any part of it may stand there.
fn put(bits: u16, values: &Values, out: &mut Bytes) -> Result<(), OutOfMemory>
    requires { Fits bits values.now }
    ensures ok { OnOk result (out.new ≡ out.old ++ params bits values.now) }
    ensures err { OnErr result (Keeps out.old out.new) }
{
    match values {
        Values::Volume(volume) => put_volume(bits, volume, out),
        Values::File(file) => put_file(bits, file, out),
        Values::Dir(dir) => put_dir(bits, dir, out),
    }
}

/// Appends the block of the asked values: the fixed part by rising bit, then the names (AFP
/// Reference, "FPGetFileDirParms"). All numbers are big-endian. An error changes nothing.
pub fn put_params(bits: u16, values: &Values, out: &mut Bytes) -> Result<(), OutOfMemory>
    requires bits { IsWithin (mask_of (kind_of values.now)) bits }
    requires fits { Fits bits values.now }
    ensures ok { OnOk result (out.new ≡ out.old ++ params bits values.now) }
    ensures err { OnErr result (out.new ≡ out.old) }
{
    let start = out.as_slice().len();
    match put(bits, values, out) {
        Ok(()) => Ok(()),
        Err(error) => {
            out.truncate(start);
            Err(error)
        }
    }
}

/// The values in the bytes, by kind.
fn read(alloc: Global, bits: u16, kind: u8, bytes: &[u8]) -> Result<Values, ParamFault>
    requires { kind ≤ 2 }
    ensures { Gives (λ v. v) result (reading kind bits bytes.now) }
{
    match kind {
        0 => Ok(Values::Volume(read_volume(alloc, bits, bytes)?)),
        1 => Ok(Values::File(read_file(alloc, bits, bytes)?)),
        _ => Ok(Values::Dir(read_dir(alloc, bits, bytes)?)),
    }
}

/// The values whose block for these bits the bytes are, from the first to the last. The kind is 0
/// for a volume, 1 for a file and 2 for a directory. `Bad` tells the place of the first field, name
/// or pad that does not fit, or where bytes stand behind the last of them.
pub fn read_params(alloc: Global, bits: u16, kind: u8, bytes: &[u8]) -> Result<Values, ParamFault>
    requires kind { kind ≤ 2 }
    requires bits { IsWithin (mask_of kind) bits }

    // What is read has these bytes as its block.
    ensures found { IfOk result (λ v. IsAnswer kind bits v × (bytes.now ≡ params bits v)) }
    // What has these bytes as its block is read, unless memory runs out.
    ensures only { (v : Values) → IsAnswer kind bits v → bytes.now ≡ params bits v
        → MatchResult result (λ w. w ≡ v) (λ fault. fault ≡ Memory) }
    // Where they are no block.
    ensures bad { IfBad result (IsBadAt kind bits bytes.now) }
{
    read(alloc, bits, kind, bytes)
}
