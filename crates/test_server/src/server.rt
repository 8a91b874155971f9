//! Tests across the server's crates of what no lines of a program can say: links, doors, sinks, sources and clocks by their traits, and
//! laws that return.

#[cfg(test)]
mod laws;
#[cfg(test)]
mod outside;
#[cfg(test)]
mod taped;
