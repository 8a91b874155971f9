//! Keepers that nobody has used.
ghost use Rattle.std.specs.Prelude.{◌≡◌, length, IfOk};
ghost use Rattle.afptool_lib.specs.teller.Keepers.{AreNew};
ghost use Rattle.record_keeper.specs.Records.{steadily};

use afp_base::OutOfMemory;
use record_keeper::Keeper;
use std::marker::Model;

/// Keepers each of which is steady, tells that it holds nothing, and is sure.
///
/// Contracts see how many there are.
#[derive(Drop)]
pub struct NewKeepers<K: Keeper> {
    keepers: Vec<K>,
}

impl<K: Keeper> Model for NewKeepers<K> {
    ghost use Rattle.std.specs.Prelude.{ℕ, length};
    ghost use Rattle.afptool_lib.specs.teller.Keepers.{AreNew};
    ghost use Rattle.record_keeper.specs.Records.{steadily};

    ghost Value = { ℕ };

    ghost view = { λ a. length a.keepers.items };

    ghost invariant = { λ a. AreNew (steadily K.steady K.records) K.sure a.keepers.items };
}

impl<K: Keeper> NewKeepers<K> {
    /// The same keepers.
    pub fn new(keepers: Vec<K>) -> NewKeepers<K>
        requires { AreNew (steadily K.steady K.records) K.sure keepers.items }
        ensures { result ≡ length keepers.items }
    {
        NewKeepers { keepers }
    }

    /// So many of them; the others are let go. `Err`: there are fewer.
    pub fn first(self, count: usize) -> Result<Vec<K>, OutOfMemory>
        ensures count { IfOk result (λ keepers. length keepers.items ≡ count) }
        ensures new { IfOk result (λ keepers. AreNew (steadily K.steady K.records) K.sure keepers.items) }
    {
        let mut keepers = self.keepers;
        if keepers.len() < count {
            return Err(OutOfMemory);
        }
        keepers.truncate(count);
        Ok(keepers)
    }
}
