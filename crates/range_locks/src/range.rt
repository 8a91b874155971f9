//! Bytes of a fork, from one place to another.
ghost use Rattle.std.specs.Prelude.{◌≡◌, ◌≤◌};

use std::marker::Model;

/// The bytes of a fork from one place to another, both included: `from <= to <= 2^63 - 1`.
///
/// Contracts see it as `Range`.
#[derive(Clone, Copy, PartialEq, Eq)]
pub struct Range {
    pub from: u64,
    pub to: u64,
}

impl Model for Range {
    ghost use Rattle.std.specs.Prelude.{◌≤◌};
    ghost use Rattle.afp_base.specs.Limits.{last_byte};
    ghost use Rattle.afp_base.specs.Overlap.{Range as Bytes};

    ghost Value = { Bytes };

    ghost view = { λ r. record { from = r.from; to = r.to } };

    ghost invariant = { λ r. (r.from ≤ r.to) × (r.to ≤ last_byte) };

    ghost inverse = { λ b. record { from = b.from; to = b.to } };
}

impl Range {
    /// The first byte.
    pub(crate) fn first(&self) -> u64
        ensures value { result ≡ self.now.from }
        ensures order { self.now.from ≤ self.now.to }
    {
        self.from
    }

    /// The last byte.
    pub(crate) fn last(&self) -> u64
        ensures { result ≡ self.now.to }
    {
        self.to
    }
}
