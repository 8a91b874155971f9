//! Who may log in.
ghost use Rattle.std.specs.Prelude.{◌≡◌, IfOk};

use afp_base::{Bytes, OutOfMemory};

/// A user of the server: its id, its name, and its password, filled up with zero bytes.
#[derive(Drop)]
pub struct User {
    pub id: u32,
    pub name: Bytes,
    pub password: [u8; 8],
}

impl User {
    /// The same user once more. The one error is want of memory.
    pub(crate) fn copy(&self) -> Result<User, OutOfMemory>
        ensures { IfOk result (λ user. user ≡ self.now) }
    {
        Ok(User {
            id: self.id,
            name: self.name.copy()?,
            password: self.password,
        })
    }
}
