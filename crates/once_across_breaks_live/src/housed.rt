//! Tellers that tell which house they serve.
ghost use Rattle.std.specs.Prelude.{◌≡◌};
ghost use Rattle.afp_serial.specs.StatusBlock.{status_block};
ghost use Rattle.once_across_breaks_live.specs.Once.{block_of};

use afp_serial::{House, Teller};

/// A teller that tells the house of its server.
pub trait HousedTeller: Teller + Drop {
    /// The house. Server ends answer with its status block.
    fn house(&self) -> &House
        ensures { status_block result.now ≡ block_of (Self.shown self.now) };
}
