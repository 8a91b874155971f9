//! What the types of fields say of their numbers. Each function says it, and does nothing.
ghost use Rattle.std.specs.Prelude.{◌≡◌, ◌==◌, ◌&&◌, length, true};
ghost use Rattle.std.specs.List.{list_all};
ghost use Rattle.afp_base.specs.Limits.{signature_size, token_key_size};
ghost use Rattle.afp_serial.specs.History.{entry};
ghost use Rattle.afp_serial.specs.Ranges.{is_moment, is_typed_ask, is_typed_entry, is_typed_user};
ghost use Rattle.volume_spec.specs.TypedVolume.{is_quad, are_bytes};
ghost use Rattle.afp_serial.specs.declared.ask.Outcome.{Outcome};

use crate::ask::Ask;
use crate::user::User;
use afp_base::{LinkNumber, Moment};
use volume_spec::bytes_in_range;

/// A password has 8 bytes.
fn user_in_range(user: &User)
    ensures { is_typed_user user.now ≡ true }
{
    let password = user.password;
    bytes_in_range(&password);
}

/// Each user's has.
fn users_in_range(users: &[User])
    ensures { list_all is_typed_user users.now ≡ true }
{
    for user in users {
        user_in_range(user);
    }
}

/// A signature has 16 bytes, and a key of session tokens 32.
pub fn fields_in_range(signature: &[u8; 16], users: &[User], token_key: &[u8; 32])
    ensures users { list_all is_typed_user users.now ≡ true }
    ensures signature { (are_bytes signature.now && (length signature.now == signature_size)) ≡ true }
    ensures token_key { (are_bytes token_key.now && (length token_key.now == token_key_size)) ≡ true }
{
    users_in_range(users);
    bytes_in_range(signature);
    bytes_in_range(token_key);
}

/// A number of 64 bits.
fn number_in_range(number: u64)
    ensures { is_quad number ≡ true }
{
    let _ = number;
}

/// The numbers of an ask are in the ranges of its fields.
fn ask_in_range(ask: &Ask)
    ensures { is_typed_ask ask.now ≡ true }
{
    match ask {
        Ask::Open { attention } => {
            let _attention = *attention;
        }
        Ask::Call {
            id,
            write: _,
            offset,
            payload,
        } => {
            let _id = *id;
            let _offset = *offset;
            bytes_in_range(payload.as_slice());
        }
        Ask::Pulse | Ask::Bye | Ask::Lost | Ask::Drain => {}
    }
}

/// A moment is one that a date of AFP can hold.
pub fn moment_in_range(now: Moment)
    ensures { is_moment now ≡ true }
{
    let _seconds = now.seconds();
}

/// The numbers of an entry are in the ranges of its fields.
pub fn entry_in_range(now: Moment, link: LinkNumber, ask: &Ask)
    ensures { (outcome : Outcome) → is_typed_entry (entry now link ask.now outcome) ≡ true }
{
    moment_in_range(now);
    number_in_range(link.0);
    ask_in_range(ask);
}
