//! A mirror of one volume in an empty one of another server: what follows each answer that it gets, and
//! what its calls do to the worlds behind two ports.
#![tactic(auto)]

pub mod laws;
mod run;
mod walk;

pub use run::{
    Port, PortFault, files_are_set, forks_are_read_and_written, nodes_are_made_and_copied,
    trees_are_changed, volumes_stay, what_is_listed_is_there, what_is_served_ok_runs,
};
pub use walk::{
    Asking, Checking, Copying, Found, Heard, Line, Made, MirrorEnd, Pair, Place, Settings, Side,
    Stage, Walk, refusals_end, told,
};
