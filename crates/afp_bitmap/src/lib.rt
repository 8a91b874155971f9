//! Blocks of parameters: what a client asks of a volume, a file or a directory by the bits of a
//! bitmap, and how the answer stands in bytes (AFP Reference, "FPGetVolParms",
//! "FPGetFileDirParms").
#![tactic(auto)]

mod bits;
mod directory;
mod file;
mod judge;
mod laws;
mod names;
mod params;
mod spot;
mod table;
mod take;
mod volume;
mod write;

pub use bits::{DirBits, FileBits, VolumeBits};
pub use directory::DirValues;
pub use file::FileValues;
pub use laws::{names_stand_at_their_offsets, one_block_for_each};
pub use params::{ParamFault, Values, put_params, read_params};
pub use table::{is_asked, is_outside};
pub use volume::VolumeValues;
