//! Sessions of the Data Stream Interface: the options by which one is opened, the silence that ends
//! it, and the ids of the requests that an end of a link writes.
#![tactic(auto)]

mod attention;
mod ids;
mod laws;
mod options;
mod phase;
mod pulse;

pub use attention::Attention;
pub use ids::RequestIds;
pub use laws::{ids_count_in_rounds, one_way_to_read};
pub use options::{BadOptions, OpenOptions, option_bytes, read_options};
pub use phase::Phase;
pub use pulse::{Due, Pulse};
