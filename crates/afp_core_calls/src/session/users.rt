//! Users and groups, by id and by name.
ghost use Rattle.std.specs.Prelude.{◌≡◌, ◌==◌, ◌<◌, IfOk, IfSome, bytes_eq, length, option_map, position};
ghost use Rattle.afp_serial.specs.Users.{group_id_of, group_name_of, user_id_of, user_name_of, user_with_id, user_with_name};

use afp_base::{Bytes, OutOfMemory};
use afp_serial::User;
use std::alloc::Global;

/// The id of the user that logs in without a name.
pub(crate) const GUEST_ID: u32 = 500;

/// That user's name.
const GUEST_NAME: &str = "guest";

/// The id of the one group, which each user is in.
pub(crate) const EVERYONE_ID: u32 = 500;

/// That group's name.
const EVERYONE_NAME: &str = "everyone";

/// A copy of the name of a user, where one has the id. The one error is want of memory.
pub(crate) fn user_name(
    alloc: Global,
    users: &[User],
    id: u32,
) -> Result<Option<Bytes>, OutOfMemory>
    ensures { IfOk result (λ name. name ≡ user_name_of users.now id) }
{
    if id == GUEST_ID {
        return Ok(Some(Bytes::of(alloc, GUEST_NAME.as_bytes())?));
    }
    name_in_house(users, id)
}

/// The same of a user of the house.
fn name_in_house(users: &[User], id: u32) -> Result<Option<Bytes>, OutOfMemory>
    ensures { IfOk result (λ name. name ≡ option_map (λ user. user.name) (user_with_id users.now id)) }
{
    match place_of_id(users, id) {
        Some(place) => Ok(Some(users[place].name.copy()?)),
        None => Ok(None),
    }
}

/// The place of the first user that has the id.
fn place_of_id(users: &[User], id: u32) -> Option<usize>
    ensures place { result ≡ position (λ user. user.id == id) users.now }
    ensures within { IfSome result (λ place. place < length users.now) }
{
    users.iter().position(|user| user.id == id)
}

/// A copy of the name of a group, where one has the id. The one error is want of memory.
pub(crate) fn group_name(alloc: Global, id: u32) -> Result<Option<Bytes>, OutOfMemory>
    ensures { IfOk result (λ name. name ≡ group_name_of id) }
{
    if id == EVERYONE_ID {
        return Ok(Some(Bytes::of(alloc, EVERYONE_NAME.as_bytes())?));
    }
    Ok(None)
}

/// The id of a user, where one has exactly the name.
pub(crate) fn user_id(users: &[User], name: &[u8]) -> Option<u32>
    ensures { result ≡ user_id_of users.now name.now }
{
    if name == GUEST_NAME.as_bytes() {
        return Some(GUEST_ID);
    }
    id_in_house(users, name)
}

/// The same of a user of the house.
fn id_in_house(users: &[User], name: &[u8]) -> Option<u32>
    ensures { result ≡ option_map (λ user. user.id) (user_with_name users.now name.now) }
{
    match place_of_name(users, name) {
        Some(place) => Some(users[place].id),
        None => None,
    }
}

/// The place of the first user that has exactly the name.
fn place_of_name(users: &[User], name: &[u8]) -> Option<usize>
    ensures place { result ≡ position (λ user. bytes_eq user.name name.now) users.now }
    ensures within { IfSome result (λ place. place < length users.now) }
{
    users.iter().position(|user| user.name.as_slice() == name)
}

/// The id of a group, where one has exactly the name.
pub(crate) fn group_id(name: &[u8]) -> Option<u32>
    ensures { result ≡ group_id_of name.now }
{
    if name == EVERYONE_NAME.as_bytes() {
        return Some(EVERYONE_ID);
    }
    None
}
