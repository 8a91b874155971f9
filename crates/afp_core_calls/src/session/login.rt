//! FPLogin and FPLoginExt (AFP Reference, under these names).
ghost use Rattle.std.specs.Prelude.{◌≡◌, ◌%◌, ◌<◌, ℕ, List, None, Ok, Some, bytes_eq, drop, false, length, option_map, position, IfSome};
ghost use Rattle.std.specs.List.{list_any};
ghost use Rattle.afp_calls_grammar.specs.declared.grammar.call.Call.{Call};
ghost use Rattle.afp_serial.specs.Login.{credentials_at, is_user, logs_in_row, named, tail_place, user_given};
ghost use Rattle.afp_serial.specs.Rows.{ends_session, row};
ghost use Rattle.afp_serial.specs.StatusWords.{versions};
ghost use Rattle.afp_core_state.specs.Running.{done as with_done, RunsRow};

use crate::session::users::GUEST_ID;
use afp_base::{Bytes, Code, PASSWORD_SIZE, SessionNumber};
use afp_calls_grammar::grammar::login_names::{
    CLEARTEXT, NO_USER, VERSION_3_1, VERSION_3_2, VERSION_3_3,
};
use afp_core_state::{State, done, refused};
use afp_serial::{Told, User};
use record_keeper::Keeper;
use std::marker::Model;

/// A user's name and password, as a login gives them.
#[derive(Drop)]
struct Credentials<'a> {
    name: &'a [u8],
    password: &'a [u8],
}

impl<'a> Model for Credentials<'a> {
    ghost use Rattle.afp_serial.specs.Login.{Credentials};

    ghost Value = { Credentials };

    ghost view = { λ c. record { name = c.name.now; password = c.password.now } };
}

/// Logs a user in to a session that has none.
pub fn login<K: Keeper>(
    state: &mut State<K>,
    session: SessionNumber,
    version: &[u8],
    uam: &[u8],
    tail: &[u8],
) -> Told
    ensures { RunsRow state.old session.0 (Call.Login version.now uam.now tail.now) (Ok (with_done result)) state.new }
{
    let odd = is_odd_tail(version, uam);
    log_in(state, session, version, uam, credentials_at(odd, tail))
}

/// The same by name in a field of its own, and the password in the tail.
pub fn login_ext<K: Keeper>(
    state: &mut State<K>,
    session: SessionNumber,
    version: &[u8],
    uam: &[u8],
    name: &[u8],
    tail: &[u8],
) -> Told
    ensures { (flags path_kind : ℕ) → (path : List ℕ) → RunsRow state.old session.0 (Call.LoginExt flags version.now uam.now name.now path_kind path tail.now) (Ok (with_done result)) state.new }
{
    log_in(state, session, version, uam, named(name, tail))
}

/// Logs in whom the UAM lets in.
fn log_in<K: Keeper>(
    state: &mut State<K>,
    session: SessionNumber,
    version: &[u8],
    uam: &[u8],
    given: Option<Credentials<'_>>,
) -> Told
    ensures { (call : Call) → row call ≡ logs_in_row version.now uam.now given.entry → ends_session call ≡ false → RunsRow state.old session.0 call (Ok (with_done result)) state.new }
{
    if state.sessions.user(session).is_some() {
        return refused(state.alloc, Code::ParamErr);
    }
    if !is_version(version) {
        return refused(state.alloc, Code::BadVersNum);
    }
    if uam == NO_USER.as_bytes() {
        state.sessions.set_user(session, GUEST_ID);
        return done(Bytes::new(state.alloc));
    }
    if uam != CLEARTEXT.as_bytes() {
        return refused(state.alloc, Code::BadUAM);
    }
    let Some(given) = given else {
        return refused(state.alloc, Code::ParamErr);
    };
    let Some(id) = id_given(state.house.users(), &given) else {
        return refused(state.alloc, Code::UserNotAuth);
    };
    state.sessions.set_user(session, id);
    done(Bytes::new(state.alloc))
}

/// Whether the server speaks the version.
fn is_version(version: &[u8]) -> bool
    ensures { result ≡ list_any (bytes_eq version.now) versions }
{
    version == VERSION_3_3.as_bytes()
        || version == VERSION_3_2.as_bytes()
        || version == VERSION_3_1.as_bytes()
}

/// The id of the user of the house with that name and all bytes of that password.
fn id_given(users: &[User], given: &Credentials<'_>) -> Option<u32>
    ensures { result ≡ option_map (λ user. user.id) (user_given users.now (Some given.now)) }
{
    match place_of(users, given) {
        Some(place) => Some(users[place].id),
        None => None,
    }
}

/// The place of that user.
fn place_of(users: &[User], given: &Credentials<'_>) -> Option<usize>
    ensures place { result ≡ position (is_user given.now) users.now }
    ensures within { IfSome result (λ place. place < length users.now) }
{
    users.iter().position(|user| user.name.as_slice() == given.name
        && user.password.as_slice() == given.password)
}

/// Whether the tail of FPLogin begins at an even place (0) or an odd one (1), counted from the command byte: it stands behind that byte, the version and the
/// UAM, each of these with its count of 1 byte.
fn is_odd_tail(version: &[u8], uam: &[u8]) -> usize
    ensures { result ≡ tail_place version.now uam.now % 2 }
{
    (3 + version.len() % 2 + uam.len() % 2) % 2
}

/// What the tail of FPLogin gives, where it begins at an even place (0) or an odd one (1): a name behind a count of 1 byte, a pad to an even place, and a password.
fn credentials_at(odd: usize, tail: &[u8]) -> Option<Credentials<'_>>
    requires { odd < 2 }
    ensures { (place : ℕ) → place % 2 ≡ odd → result ≡ credentials_at place tail.now }
{
    let (count, rest) = tail.split_first()?;
    let count = usize::from(*count);
    let pad = (odd + 1 + count) % 2;
    if rest.len() < count + pad {
        return None;
    }
    named(&rest[..count], &rest[count + pad..])
}

/// A name, and the password that begins these bytes, where they are enough.
fn named<'a>(name: &'a [u8], bytes: &'a [u8]) -> Option<Credentials<'a>>
    ensures { result ≡ named name.now bytes.now }
{
    if bytes.len() < PASSWORD_SIZE {
        return None;
    }
    Some(Credentials {
        name,
        password: &bytes[..PASSWORD_SIZE],
    })
}
