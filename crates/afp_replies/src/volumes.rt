//! The volumes of a server.
ghost use Rattle.std.specs.Prelude.{◌≡◌, ◌∷◌, ◌++◌, [], OnOk, OnErr};

use afp_base::{Bytes, OutOfMemory};
use std::alloc::Global;
use std::marker::Model;

/// A volume of a server (AFP Reference, "FPGetSrvrParms").
#[derive(Drop)]
pub struct VolumeEntry {
    /// Whether it has a password, and whether it has configuration information; 0 from this server.
    pub flags: u8,
    /// The volume's name, at most 255 bytes.
    pub name: Bytes,
}

/// The volumes of a server, in order. Contracts see them as a list.
#[derive(Drop)]
pub struct VolumeList(Vec<VolumeEntry>);

impl Model for VolumeList {
    ghost use Rattle.std.specs.Prelude.{List};
    ghost use Rattle.afp_replies.specs.declared.volumes.VolumeEntry.{VolumeEntry};

    ghost Value = { List VolumeEntry };

    ghost view = { λ a. a.0.items };
}

impl VolumeList {
    /// No volumes. It takes no memory.
    pub fn new(alloc: Global) -> VolumeList
        ensures { result ≡ [] }
    {
        VolumeList(Vec::new(alloc))
    }

    /// Appends a volume. An error changes nothing.
    pub fn push(&mut self, entry: VolumeEntry) -> Result<(), OutOfMemory>
        ensures ok { OnOk result (self.new ≡ self.old ++ (entry ∷ [])) }
        ensures err { OnErr result (self.new ≡ self.old) }
    {
        self.0.push(entry)?;
        Ok(())
    }

    /// The volumes, lent.
    pub fn as_slice(&self) -> &[VolumeEntry]
        ensures { result.now ≡ self.now }
    {
        self.0.as_slice()
    }
}
