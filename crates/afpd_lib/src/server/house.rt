//! The house that the words ask for.
ghost use Rattle.std.specs.Prelude.{◌≡◌, ◌≢◌, Some, None, map, IfOk, IfErr};
ghost use Rattle.afp_serial.specs.HouseFault.{house_fault};
ghost use Rattle.afp_serial.specs.Limits.{first_user_id};
ghost use Rattle.afp_serial.specs.Household.{household};
ghost use Rattle.afpd_lib.specs.words.lemma.Values.{user_value, values_of};
ghost use Rattle.afpd_lib.specs.server.AskedHouse.{house_of, next_id, users_from};

use crate::words::{ServerWords, UserWord, VolumeWord};
use afp_base::{Bytes, OutOfMemory};
use afp_serial::{House, HouseFault, User};
use std::alloc::Global;

/// The id of the first user.
const FIRST_USER_ID: u32 = 501;

/// The last id that another one follows.
const LAST_FOLLOWED: u32 = 4_294_967_294;

/// The id behind one.
fn next_id(id: u32) -> u32
    ensures { result ≡ next_id id }
{
    if id <= LAST_FOLLOWED { id + 1 } else { id }
}

/// A user with this id.
fn user_of(alloc: Global, id: u32, user: &UserWord<'_>) -> Result<User, OutOfMemory>
    ensures { IfOk result (λ made. made ≡ record { id = id; name = user.now.name.now; password = user.now.password }) }
{
    Ok(User {
        id,
        name: Bytes::of(alloc, user.name.as_bytes())?,
        password: user.password,
    })
}

/// The users, with their ids in order.
fn users_of(alloc: Global, users: &[UserWord<'_>]) -> Result<Vec<User>, OutOfMemory>
    ensures { IfOk result (λ made. made.items ≡ users_from first_user_id (map user_value users.now)) }
{
    let mut made = Vec::new(alloc);
    let mut id = FIRST_USER_ID;
    for user in users {
        made.push(user_of(alloc, id, user)?)?;
        id = next_id(id);
    }
    Ok(made)
}

/// The names of the volumes.
fn volume_names(alloc: Global, volumes: &[VolumeWord<'_>]) -> Result<Vec<Bytes>, OutOfMemory>
    ensures { IfOk result (λ names. names.items ≡ map (λ volume. volume.name.now) volumes.now) }
{
    let mut names = Vec::new(alloc);
    for volume in volumes {
        names.push(Bytes::of(alloc, volume.name.as_bytes())?)?;
    }
    Ok(names)
}

/// The house that the words ask for, with this key of session tokens.
pub fn house_for(
    alloc: Global,
    said: &ServerWords<'_>,
    token_key: [u8; 32],
) -> Result<House, HouseFault>
    ensures house { IfOk result (λ house. house ≡ house_of (values_of said.now) token_key) }
    ensures sound { IfOk result (λ house. house_fault (house_of (values_of said.now) token_key) ≡ None) }
    ensures fault { IfErr result (λ fault. fault ≢ HouseFault.Memory → house_fault (house_of (values_of said.now) token_key) ≡ Some fault) }
{
    let users = users_of(alloc, said.users.as_slice())?;
    let volumes = volume_names(alloc, said.volumes.as_slice())?;
    House::new(
        alloc,
        said.server,
        said.signature,
        users,
        volumes,
        said.message,
        token_key,
    )
}
