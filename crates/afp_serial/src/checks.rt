//! What a house is refused for.
ghost use Rattle.std.specs.Prelude.{◌≡◌, ◌≤◌, ℕ, List, length, bytes_eq};
ghost use Rattle.std.specs.List.{list_all, list_any};
ghost use Rattle.afp_serial.specs.Household.{household};
ghost use Rattle.afp_serial.specs.HouseFault.{is_printable, is_text, is_name, is_bad_user, is_bad_volume, first_bad_name, house_fault};
ghost use Rattle.afp_serial.specs.Limits.{most_users};

use crate::house_fault::HouseFault;
use crate::limits::{
    FIRST_PRINTABLE, FIRST_USER_ID, LAST_PRINTABLE, LONGEST_MESSAGE, LONGEST_SERVER, LONGEST_USER,
    LONGEST_VOLUME, MOST_USERS, MOST_VOLUMES,
};
use crate::user::User;
use afp_base::Bytes;

fn is_printable(character: u8) -> bool
    ensures { result ≡ is_printable character }
{
    character >= FIRST_PRINTABLE && character <= LAST_PRINTABLE
}

fn are_printable(text: &[u8]) -> bool
    ensures { result ≡ list_all is_printable text.now }
{
    text.iter().all(|character| is_printable(*character))
}

/// Printable ASCII of at most `longest` characters.
fn is_text(longest: usize, text: &[u8]) -> bool
    ensures { result ≡ is_text longest text.now }
{
    text.len() <= longest && are_printable(text)
}

/// Whether the text is printable ASCII of at least one character and at most `longest`.
pub fn is_name(longest: usize, text: &[u8]) -> bool
    ensures { result ≡ is_name longest text.now }
{
    text.len() >= 1 && is_text(longest, text)
}

/// Whether one of the users has the name.
pub fn has_user_named(users: &[User], name: &[u8]) -> bool
    ensures { result ≡ list_any (λ other. bytes_eq other.name name.now) users.now }
{
    users.iter().any(|other| other.name.as_slice() == name)
}

/// Whether one of the volumes has the name.
pub fn has_volume_named(volumes: &[Bytes], name: &[u8]) -> bool
    ensures { result ≡ list_any (λ other. bytes_eq other name.now) volumes.now }
{
    volumes.iter().any(|other| other.as_slice() == name)
}

/// A user whose name is none or that of an earlier one, or whose id does not follow theirs.
fn is_bad_user(before: &[User], user: &User) -> bool
    requires { length before.now ≤ most_users }
    ensures { result ≡ is_bad_user before.now user.now }
{
    let name = user.name.as_slice();
    !is_name(LONGEST_USER, name)
        || has_user_named(before, name)
        || user.id as usize != FIRST_USER_ID + before.len()
}

/// A volume whose name is none or that of an earlier one.
fn is_bad_volume(before: &[Bytes], volume: &Bytes) -> bool
    ensures { result ≡ is_bad_volume before.now volume.now }
{
    let name = volume.as_slice();
    !is_name(LONGEST_VOLUME, name) || has_volume_named(before, name)
}

/// The index of the first bad user.
fn first_bad_user(users: &[User]) -> Option<usize>
    requires { length users.now ≤ most_users }
    ensures { result ≡ first_bad_name is_bad_user users.now }
{
    for (index, user) in users.iter().enumerate() {
        if is_bad_user(&users[..index], user) {
            return Some(index);
        }
    }
    None
}

/// The index of the first bad volume.
fn first_bad_volume(volumes: &[Bytes]) -> Option<usize>
    ensures { result ≡ first_bad_name is_bad_volume volumes.now }
{
    for (index, name) in volumes.iter().enumerate() {
        if is_bad_volume(&volumes[..index], name) {
            return Some(index);
        }
    }
    None
}

/// The first fault of a house of these parts.
#[tactic(auto, unfolding(crate::specs::HouseFault::house_fault))]
pub fn find_fault(
    server: &[u8],
    users: &[User],
    volumes: &[Bytes],
    message: &[u8],
) -> Option<HouseFault>
    ensures { (signature token_key : List ℕ) → result ≡ house_fault (household server.now signature users.now volumes.now message.now token_key) }
{
    if !is_name(LONGEST_SERVER, server) {
        return Some(HouseFault::Server);
    }
    if users.len() > MOST_USERS {
        return Some(HouseFault::Users);
    }
    if let Some(index) = first_bad_user(users) {
        return Some(HouseFault::User { index });
    }
    if volumes.is_empty() || volumes.len() > MOST_VOLUMES {
        return Some(HouseFault::Volumes);
    }
    if let Some(index) = first_bad_volume(volumes) {
        return Some(HouseFault::Volume { index });
    }
    if !is_text(LONGEST_MESSAGE, message) {
        return Some(HouseFault::Message);
    }
    None
}
