//! The bits by which a client asks for parameters.
ghost use Rattle.std.specs.Prelude.{◌≡◌, ◌↔◌, IfOk, IfErr, IsOk};
ghost use Rattle.afp_bitmap.specs.Bits.{IsWithin, volume_mask, file_mask, dir_mask};

use crate::table::is_outside;
use afp_base::Code;
use std::marker::Model;

/// What is asked of a volume (AFP Reference, "Volume Bitmap"): no bit outside of [`VolumeBits::MASK`] is set.
///
/// Contracts see it as a number.
#[derive(Clone, Copy, Debug, PartialEq, Eq)]
pub struct VolumeBits(u16);

impl Model for VolumeBits {
    ghost use Rattle.std.specs.Prelude.{ℕ};
    ghost use Rattle.afp_bitmap.specs.Bits.{IsWithin, volume_mask};

    ghost Value = { ℕ };

    ghost view = { λ b. b.0 };

    ghost invariant = { λ b. IsWithin volume_mask b.0 };

    ghost inverse = { λ n. record { 0 = n } };
}

impl VolumeBits {
    /// The bits that may be asked.
    pub const MASK: u16 = 0x0fff;

    /// These bits; `BitmapErr` exactly where a bit outside of the mask is set.
    pub fn new(bits: u16) -> Result<VolumeBits, Code>
        ensures within { IsOk result ↔ IsWithin volume_mask bits }
        ensures value { IfOk result (λ b. b ≡ bits) }
        ensures error { IfErr result (λ e. e ≡ Code.BitmapErr) }
    {
        if is_outside(VolumeBits::MASK, bits) {
            Err(Code::BitmapErr)
        } else {
            Ok(VolumeBits(bits))
        }
    }

    /// The bits as a number.
    pub fn get(self) -> u16
        ensures value { result ≡ self }
        ensures within { IsWithin volume_mask result }
    {
        self.0
    }
}

/// What is asked of a file (AFP Reference, "File Bitmap"): no bit outside of [`FileBits::MASK`] is set.
///
/// Contracts see it as a number.
#[derive(Clone, Copy, Debug, PartialEq, Eq)]
pub struct FileBits(u16);

impl Model for FileBits {
    ghost use Rattle.std.specs.Prelude.{ℕ};
    ghost use Rattle.afp_bitmap.specs.Bits.{IsWithin, file_mask};

    ghost Value = { ℕ };

    ghost view = { λ b. b.0 };

    ghost invariant = { λ b. IsWithin file_mask b.0 };

    ghost inverse = { λ n. record { 0 = n } };
}

impl FileBits {
    /// The bits that may be asked.
    pub const MASK: u16 = 0x6f7f;

    /// These bits; `BitmapErr` exactly where a bit outside of the mask is set.
    pub fn new(bits: u16) -> Result<FileBits, Code>
        ensures within { IsOk result ↔ IsWithin file_mask bits }
        ensures value { IfOk result (λ b. b ≡ bits) }
        ensures error { IfErr result (λ e. e ≡ Code.BitmapErr) }
    {
        if is_outside(FileBits::MASK, bits) {
            Err(Code::BitmapErr)
        } else {
            Ok(FileBits(bits))
        }
    }

    /// The bits as a number.
    pub fn get(self) -> u16
        ensures value { result ≡ self }
        ensures within { IsWithin file_mask result }
    {
        self.0
    }
}

/// What is asked of a directory (AFP Reference, "Directory Bitmap"): no bit outside of [`DirBits::MASK`] is set.
///
/// Contracts see it as a number.
#[derive(Clone, Copy, Debug, PartialEq, Eq)]
pub struct DirBits(u16);

impl Model for DirBits {
    ghost use Rattle.std.specs.Prelude.{ℕ};
    ghost use Rattle.afp_bitmap.specs.Bits.{IsWithin, dir_mask};

    ghost Value = { ℕ };

    ghost view = { λ b. b.0 };

    ghost invariant = { λ b. IsWithin dir_mask b.0 };

    ghost inverse = { λ n. record { 0 = n } };
}

impl DirBits {
    /// The bits that may be asked.
    pub const MASK: u16 = 0x3f7f;

    /// These bits; `BitmapErr` exactly where a bit outside of the mask is set.
    pub fn new(bits: u16) -> Result<DirBits, Code>
        ensures within { IsOk result ↔ IsWithin dir_mask bits }
        ensures value { IfOk result (λ b. b ≡ bits) }
        ensures error { IfErr result (λ e. e ≡ Code.BitmapErr) }
    {
        if is_outside(DirBits::MASK, bits) {
            Err(Code::BitmapErr)
        } else {
            Ok(DirBits(bits))
        }
    }

    /// The bits as a number.
    pub fn get(self) -> u16
        ensures value { result ≡ self }
        ensures within { IsWithin dir_mask result }
    {
        self.0
    }
}
