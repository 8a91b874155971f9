//! Replies of the Apple Filing Protocol: written canonically, and read exactly (AFP Reference, "AFP
//! Calls").
//!
//! A comment on a reply names its fields in order, each with its size in bytes. A pad has 1. A
//! Pascal string is a count (1) and as many bytes. Parameters are all that remains, or in an entry
//! what its length counts. Nothing may stand behind the last field.
#![tactic(auto)]

mod answer;
mod commands;
mod cursor;
mod entry;
mod fields;
mod laws;
mod list;
mod read;
mod reply;
mod volumes;
mod write;

pub use answer::read_reply;
pub use entry::{flag_of, put_entry_pad, put_length, put_place};
pub use laws::{
    entries_are_even, one_reply_for_each, what_fits_a_request_is_shown_to_it, what_fits_is_shown,
    what_is_written_is_shown,
};
pub use list::{ListEntry, ListRows};
pub use reply::{Reply, ReplyFault, ReplyKind};
pub use volumes::{VolumeEntry, VolumeList};
pub use write::write_reply;
