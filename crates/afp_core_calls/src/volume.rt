//! The rows of the calls about volumes (AFP Reference, "Volume Commands").

pub mod close_vol;
pub mod flush;
pub mod get_vol_parms;
pub mod open_vol;
pub mod set_vol_parms;
