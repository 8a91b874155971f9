//! The house: what a file server is set up with.
ghost use Rattle.std.specs.Prelude.{◌≡◌, ◌≢◌, ◌≤◌, length, None, Some, true, OnOk, IfOk, IfErr};

use crate::checks::find_fault;
use crate::house_fault::HouseFault;
use crate::ranges::fields_in_range;
use crate::status::status_block;
use crate::user::User;
use afp_base::{Bytes, OutOfMemory};
use std::alloc::Global;
use std::marker::Model;

/// What a file server is set up with. Each house has been found without a fault.
///
/// Contracts see it as a `Household`: the names, the users and the message as they were given.
#[derive(Drop)]
pub struct House {
    server: Bytes,
    signature: [u8; 16],
    users: Vec<User>,
    volumes: Vec<Bytes>,
    message: Bytes,
    token_key: [u8; 32],
}

impl Model for House {
    ghost use Rattle.std.specs.Prelude.{◌≡◌, None, true};
    ghost use Rattle.afp_serial.specs.Household.{Household, household};
    ghost use Rattle.afp_serial.specs.HouseFault.{house_fault};
    ghost use Rattle.afp_serial.specs.Ranges.{is_typed_house};

    ghost Value = { Household };

    ghost view = { λ h. household h.server h.signature h.users.items h.volumes.items h.message h.token_key };

    ghost invariant = { λ h. (house_fault (household h.server h.signature h.users.items h.volumes.items h.message h.token_key) ≡ None) × (is_typed_house (household h.server h.signature h.users.items h.volumes.items h.message h.token_key) ≡ true) };
}

impl House {
    ghost use Rattle.afp_base.specs.Limits.{payload_limit};
    ghost use Rattle.afp_serial.specs.Household.{household};
    ghost use Rattle.afp_serial.specs.HouseFault.{house_fault};
    ghost use Rattle.afp_serial.specs.Faultless.{IsFaultless, NamesFirstBad};
    ghost use Rattle.afp_serial.specs.Ranges.{is_typed_house};
    ghost use Rattle.afp_serial.specs.StatusBlock.{status_block, OffsetsFindParts};

    /// A house of these parts, or its first fault in the order of `HouseFault`.
    ///
    /// Names are printable ASCII (0x20 to 0x7E): the server's and a user's of 1 to 31 characters, a
    /// volume's of 1 to 27. There are at most 256 users and 1 to 8 volumes, with no name twice. The user
    /// at an index has the id 501 plus that index. The message is printable ASCII of at most 199
    /// characters.
    pub fn new(
        alloc: Global,
        server: &str,
        signature: [u8; 16],
        users: Vec<User>,
        volumes: Vec<Bytes>,
        message: &str,
        token_key: [u8; 32],
    ) -> Result<House, HouseFault>
        ensures value { IfOk result (λ house. house ≡ household server.now signature users.items volumes.items message.now token_key) }
        ensures sound { OnOk result (house_fault (household server.now signature users.items volumes.items message.now token_key) ≡ None) }
        ensures index { IfErr result (λ fault. NamesFirstBad fault (household server.now signature users.items volumes.items message.now token_key)) }
        ensures fault { IfErr result (λ fault. fault ≢ HouseFault.Memory → house_fault (household server.now signature users.items volumes.items message.now token_key) ≡ Some fault) }
    {
        if let Some(fault) = find_fault(
            server.as_bytes(),
            users.as_slice(),
            volumes.as_slice(),
            message.as_bytes(),
        ) {
            return Err(fault);
        }
        fields_in_range(&signature, users.as_slice(), &token_key);
        Ok(House {
            server: Bytes::of(alloc, server.as_bytes())?,
            signature,
            users,
            volumes,
            message: Bytes::of(alloc, message.as_bytes())?,
            token_key,
        })
    }

    /// The status block, which is answered before any session (AFP Reference, FPGetSrvrInfo).
    /// The one error is want of memory.
    #[tactic(auto, unfolding(crate::specs::StatusBlock::status_block))]
    pub fn status(&self, alloc: Global) -> Result<Bytes, OutOfMemory>
        ensures block { IfOk result (λ block. block ≡ status_block self.now) }
        ensures offsets { IfOk result (λ block. OffsetsFindParts self.now block) }
        ensures size { IfOk result (λ block. length block ≤ payload_limit) }
    {
        status_block(alloc, self.server.as_slice(), &self.signature)
    }

    /// The same house once more. The one error is want of memory.
    pub fn copy(&self, alloc: Global) -> Result<House, OutOfMemory>
        ensures value { IfOk result (λ house. house ≡ self.now) }
        ensures faultless { house_fault self.now ≡ None }
        ensures typed { is_typed_house self.now ≡ true }
    {
        Ok(House {
            server: self.server.copy()?,
            signature: self.signature,
            users: copied_users(alloc, self.users.as_slice())?,
            volumes: copied_volumes(alloc, self.volumes.as_slice())?,
            message: self.message.copy()?,
            token_key: self.token_key,
        })
    }

    /// Who may log in, in the order of their ids.
    pub fn users(&self) -> &[User]
        ensures value { result.now ≡ self.now.users }
        ensures sound { IsFaultless self.now }
    {
        self.users.as_slice()
    }

    /// The volumes' names, in the order in which they were given.
    pub fn volumes(&self) -> &[Bytes]
        ensures value { result.now ≡ self.now.volumes }
        ensures sound { IsFaultless self.now }
    {
        self.volumes.as_slice()
    }

    /// The login message. No bytes: there is none.
    pub fn message(&self) -> &[u8]
        ensures value { result.now ≡ self.now.message }
        ensures sound { IsFaultless self.now }
    {
        self.message.as_slice()
    }

    /// The key of the session tokens.
    pub fn token_key(&self) -> [u8; 32]
        ensures { result ≡ self.now.token_key }
    {
        self.token_key
    }
}

fn copied_users(alloc: Global, users: &[User]) -> Result<Vec<User>, OutOfMemory>
    ensures { IfOk result (λ copy. copy.items ≡ users.now) }
{
    let mut copy = Vec::new(alloc);
    for user in users {
        copy.push(user.copy()?)?;
    }
    Ok(copy)
}

fn copied_volumes(alloc: Global, volumes: &[Bytes]) -> Result<Vec<Bytes>, OutOfMemory>
    ensures { IfOk result (λ copy. copy.items ≡ volumes.now) }
{
    let mut copy = Vec::new(alloc);
    for volume in volumes {
        copy.push(volume.copy()?)?;
    }
    Ok(copy)
}
