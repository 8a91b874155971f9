//! Bytes that are lent.
ghost use Rattle.std.specs.Prelude.{◌≡◌};

use std::marker::Model;

/// Bytes that are lent. Contracts see them as a list of bytes.
#[derive(Drop)]
pub struct Piece<'a>(&'a [u8]);

impl<'a> Model for Piece<'a> {
    ghost use Rattle.std.specs.Prelude.{List, ℕ};

    ghost Value = { List ℕ };

    ghost view = { λ p. p.0.now };
}

impl<'a> Piece<'a> {
    /// These bytes.
    pub fn new(bytes: &'a [u8]) -> Piece<'a>
        ensures { result ≡ bytes.now }
    {
        Piece(bytes)
    }

    /// The bytes, lent.
    pub fn as_slice(&self) -> &[u8]
        ensures { result.now ≡ self.now }
    {
        self.0
    }
}
