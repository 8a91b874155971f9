//! The steps of the client are those of the law's client, whose commands have their effect once and in order.

pub mod laws;
