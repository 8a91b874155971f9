//! The records in which a keeper holds a volume: one for its head, one for each node, block of a fork, comment, icon and APPL mapping.
#![tactic(auto)]

mod climb;
mod judge;
pub mod laws;
mod limits;
mod load;
mod migration;
mod numbers;
mod pass;
mod read;
mod rows;
mod shape;
mod tree;
mod write;

pub use limits::{VERSION, versions_are_told};
pub use load::{Loaded, load_records};
pub use migration::{are_of_older_version, guest_privileges, migration_of, raise_rows};
pub use read::read_row;
pub use rows::{
    Appl, BadRecord, Comment, ForkBlock, Head, Icon, Node, Privileges, Reason, TableRow,
};
pub use write::{
    TAG_SIZE, appl_key, appl_record, block_key, block_record, comment_key, comment_record,
    head_bytes, head_key, head_record, icon_key, icon_record, is_node_value, node_key, node_record,
    node_value, record_of,
};
