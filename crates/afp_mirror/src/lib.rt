//! A mirror of one volume in an empty one of another server, call by call over two ports.
#![tactic(auto)]

mod run;

pub use afp_mirror_walk::{Line, MirrorEnd, Port, PortFault, Side};
pub use run::mirror;
