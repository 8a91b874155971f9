//! Two ports, and what the calls of a mirror do to the worlds behind them.

mod port;
mod worlds;

pub use crate::run::port::{Port, PortFault};
pub use crate::run::worlds::{
    files_are_set, forks_are_read_and_written, nodes_are_made_and_copied, trees_are_changed,
    volumes_stay, what_is_listed_is_there, what_is_served_ok_runs,
};
