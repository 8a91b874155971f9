//! Each command of a client has its effect once and in order, over every schedule of breaks and rejoinings.

pub mod laws;
