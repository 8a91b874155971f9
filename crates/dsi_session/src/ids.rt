//! Ids of requests.
ghost use Rattle.std.specs.Prelude.{◌≡◌};
ghost use Rattle.dsi_session.specs.RequestIds.{first_request_id, id_after};

use std::marker::Model;

/// The ids of the requests that one end of a link writes, from 0; after 65,535 comes 0.
///
/// Contracts see the next id.
#[derive(Debug, Drop)]
pub struct RequestIds {
    id: u16,
}

impl Model for RequestIds {
    ghost use Rattle.std.specs.Prelude.{ℕ};

    ghost Value = { ℕ };

    ghost view = { λ ids. ids.id };
}

impl RequestIds {
    /// No id was given.
    pub fn new() -> RequestIds
        ensures { result ≡ first_request_id }
    {
        RequestIds { id: 0 }
    }

    /// Gives the next id.
    pub fn next(&mut self) -> u16
        ensures id { result ≡ self.old }
        ensures after { self.new ≡ id_after self.old }
    {
        let id = self.id;
        self.id = id.wrapping_add(1);
        id
    }
}
