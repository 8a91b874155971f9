//! The rows of the calls about the desktop database (AFP Reference, "Desktop Database Commands").

pub mod appls;
pub mod comments;
pub mod icons;
pub mod open_dt;
