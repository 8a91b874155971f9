//! Laws of a mirror's runs: each row of its table has just its cause, and what a run that is Done has listed and paired.
#![tactic(auto)]

mod rows;

pub use rows::{
    every_directory_is_listed, every_fork_is_read_back, every_id_has_one_line,
    every_node_is_paired, rows_are_exact, rows_are_exact_where_it_comes,
};
