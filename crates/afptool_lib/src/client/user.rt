//! A user's name and password, in one word.
ghost use Rattle.std.specs.Prelude.{◌≡◌, option_and_then, option_map, IfOk, IfSome};
ghost use Rattle.afp_client.specs.session.Opening.{FitsLogin};
ghost use Rattle.afp_serial.specs.HouseFault.{is_name};
ghost use Rattle.afp_serial.specs.Limits.{longest_user};
ghost use Rattle.afpd_lib.specs.words.Users.{user_in};
ghost use Rattle.afptool_lib.specs.client.Words.{as_user, login_in};

use afp_base::{Bytes, OutOfMemory};
use afp_client::Login;
use afp_serial::is_name;
use afp_serial::limits::LONGEST_USER;
use afpd_lib::user_of;
use std::alloc::Global;

/// Whether a name is one that a user of a house may have.
pub(crate) fn is_login(name: &str) -> bool
    ensures { result ≡ is_name longest_user name.now }
{
    is_name(LONGEST_USER, name.as_bytes())
}

/// The login of the user that a word is, where its name is one that a user of a house may have.
fn login_of(alloc: Global, text: &str) -> Result<Option<Login>, OutOfMemory>
    ensures login { IfOk result (λ login. login ≡ option_and_then as_user (user_in text.now)) }
    ensures fits { IfOk result (λ login. IfSome login FitsLogin) }
{
    let Some(user) = user_of(text) else {
        return Ok(None);
    };
    if !is_login(user.name) {
        return Ok(None);
    }
    let name = Bytes::of(alloc, user.name.as_bytes())?;
    Ok(Some(Login {
        user: Some((name, user.password)),
    }))
}

/// The login that a word says, and a guest's where there is none.
pub(crate) fn login_in(alloc: Global, text: Option<&str>) -> Result<Option<Login>, OutOfMemory>
    ensures login { IfOk result (λ login. login ≡ login_in (option_map (λ word. word.now) text.entry)) }
    ensures fits { IfOk result (λ login. IfSome login FitsLogin) }
{
    match text {
        Some(text) => login_of(alloc, text),
        None => Ok(Some(Login { user: None })),
    }
}
