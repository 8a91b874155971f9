//! Parcels: a Macintosh file with both forks as one AppleSingle file, or all but its data as an AppleDouble header
//! file (RFC 1740, version 2), written and read.
#![tactic(auto)]

mod descriptor;
pub mod laws;
mod parcel;
mod read;
mod write;

pub use parcel::{LONGEST_COMMENT, Parcel, ParcelFault, Shape};
pub use read::read_parcel;
pub use write::{parcel_size, write_parcel};
