//! As whom a client logs in.
ghost use Rattle.std.specs.Prelude.{◌≡◌, ◌≤◌, length, IfOk};
ghost use Rattle.afp_base.specs.Limits.{password_size, payload_limit};
ghost use Rattle.afp_calls_grammar.specs.grammar.Call.{canonical_call};
ghost use Rattle.afp_calls_grammar.specs.declared.grammar.call.Call.{Call};
ghost use Rattle.afp_client.specs.session.Opening.{login_call, login_tail, most_user_name, FitsLogin};

use afp_base::{Bytes, OutOfMemory};
use afp_calls_grammar::Call;
use afp_calls_grammar::grammar::login_names::{CLEARTEXT, NO_USER, VERSION_3_3};
use std::alloc::Global;

/// A user's name and password; without a user a client logs in as a guest.
#[derive(Drop)]
pub struct Login {
    pub user: Option<(Bytes, [u8; 8])>,
}

// The tail of a login by name and password: the name with its count, a pad where it is needed for an even place, and
// the password.
fn tail_of(alloc: Global, name: &[u8], password: [u8; 8]) -> Result<Bytes, OutOfMemory>
    requires { length name.now ≤ most_user_name }
    ensures tail { IfOk result (λ tail. tail ≡ login_tail name.now password) }
    ensures password { length password ≡ password_size }
{
    let mut tail = Bytes::new(alloc);
    tail.push_u8(name.len() as u8)?;
    tail.extend(name)?;
    if name.len() % 2 == 1 {
        tail.push_u8(0)?;
    }
    tail.extend(&password)?;
    Ok(tail)
}

impl Login {
    /// The FPLogin request.
    pub(crate) fn call(&self, alloc: Global) -> Result<Call<'static>, OutOfMemory>
        requires { FitsLogin self.now }
        ensures call { IfOk result (λ call. call ≡ login_call self.now) }
        ensures fits { IfOk result (λ call. length (canonical_call call) ≤ payload_limit) }
    {
        let version = Bytes::of(alloc, VERSION_3_3.as_bytes())?;
        match &self.user {
            None => Ok(Call::Login {
                version,
                uam: Bytes::of(alloc, NO_USER.as_bytes())?,
                tail: Bytes::new(alloc),
            }),
            Some(user) => {
                Ok(Call::Login {
                    version,
                    uam: Bytes::of(alloc, CLEARTEXT.as_bytes())?,
                    tail: tail_of(alloc, user.0.as_slice(), user.1)?,
                })
            }
        }
    }
}
