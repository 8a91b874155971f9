//! Users, as a word lists them.
ghost use Rattle.std.specs.Prelude.{◌≡◌, ◌≤◌, ◌<◌, length, map, Some, None, IfSome, IfNone, IfOk, IsErrOf, MatchOption};
ghost use Rattle.afp_base.specs.Limits.{password_size};
ghost use Rattle.afpd_lib.specs.words.Users.{AreUsers, filled, user_in};
ghost use Rattle.afpd_lib.specs.words.lemma.Values.{user_value};

use crate::words::read::WordFault;
use afp_base::PASSWORD_SIZE;
use std::alloc::Global;

/// A user that may log in, and its password, filled with zeros.
#[derive(Clone, Copy)]
pub struct UserWord<'a> {
    pub name: &'a str,
    pub password: [u8; 8],
}

/// A password of at most 8 bytes, filled with zeros.
fn password_of(text: &str) -> Option<[u8; 8]>
    ensures { MatchOption result (password_size < length text.now) (λ password. (length text.now ≤ password_size) × (password ≡ filled text.now)) }
{
    let bytes = text.as_bytes();
    if bytes.len() > PASSWORD_SIZE {
        return None;
    }
    let mut password = [0; PASSWORD_SIZE];
    password[..bytes.len()].copy_from_slice(bytes);
    Some(password)
}

/// The user that a pair `NAME:PASSWORD` is. Its first colon parts it, and its password has at most 8 bytes.
pub fn user_of<'a>(text: &'a str) -> Option<UserWord<'a>>
    ensures found { IfSome result (λ user. user_in text.entry.now ≡ Some (record { name = user.name.now; password = user.password })) }
    ensures none { IfNone result (user_in text.entry.now ≡ None) }
{
    let (name, password) = text.split_once(':')?;
    let password = password_of(password)?;
    Some(UserWord { name, password })
}

/// The users that a text lists.
pub fn users_of<'a>(alloc: Global, text: &'a str) -> Result<Vec<UserWord<'a>>, WordFault>
    ensures found { IfOk result (λ users. AreUsers text.entry.now (map user_value users.items)) }
    ensures bad { IsErrOf result WordFault.Bad → (values : _) → AreUsers text.entry.now values → ⊥ }
{
    let mut users = Vec::new(alloc);
    let mut rest = text;
    while let Some((first, more)) = rest.split_once(',') {
        let Some(user) = user_of(first) else {
            return Err(WordFault::Bad);
        };
        let Ok(()) = users.push(user) else {
            return Err(WordFault::Memory);
        };
        rest = more;
    }
    let Some(user) = user_of(rest) else {
        return Err(WordFault::Bad);
    };
    let Ok(()) = users.push(user) else {
        return Err(WordFault::Memory);
    };
    Ok(users)
}
