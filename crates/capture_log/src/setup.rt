//! The house that the first lines of a capture make.
ghost use Rattle.std.specs.Prelude.{◌≡◌, ◌≢◌, ◌<◌, ◌++◌, ◌∷◌, [], false, nat_lt, not, ◌||◌, length, Some, IfOk, IfErr, OnOk};
ghost use Rattle.afp_serial.specs.HouseFault.{house_fault, is_bad_user, is_bad_volume, is_name};
ghost use Rattle.afp_serial.specs.Household.{household};
ghost use Rattle.afp_serial.specs.Limits.{longest_server, most_users};
ghost use Rattle.afp_serial.specs.Limits.{most_volumes};
ghost use Rattle.capture_log_server.specs.CaptureState.{no_house, user_behind};
ghost use Rattle.capture_log.specs.Taking.{house_with, refused_by};

use afp_base::{Bytes, OutOfMemory};
use afp_serial::limits::{
    FIRST_USER_ID, LONGEST_SERVER, LONGEST_USER, LONGEST_VOLUME, MOST_USERS, MOST_VOLUMES,
};
use afp_serial::{House, HouseFault, User, has_user_named, has_volume_named, is_name};
use capture_log_lines::Line;
use std::alloc::Global;
use std::marker::Model;
use std::{mem, str};

/// The parts of a house, as far as lines have named them. Contracts see them as a house without a login message.
#[derive(Drop)]
pub struct Setup {
    server: Bytes,
    signature: [u8; 16],
    users: Vec<User>,
    volumes: Vec<Bytes>,
    key: [u8; 32],
}

impl Model for Setup {
    ghost use Rattle.std.specs.Prelude.{[]};
    ghost use Rattle.afp_serial.specs.Household.{Household, household};

    ghost Value = { Household };

    ghost view = { λ s. household s.server s.signature s.users.items s.volumes.items [] s.key };
}

impl Setup {
    /// No part is named.
    pub fn new(alloc: Global) -> Setup
        ensures { result ≡ no_house }
    {
        Setup {
            server: Bytes::new(alloc),
            signature: [0; 16],
            users: Vec::new(alloc),
            volumes: Vec::new(alloc),
            key: [0; 32],
        }
    }

    /// Names the server. The one error is want of memory.
    pub fn set_server(&mut self, name: &Bytes) -> Result<(), OutOfMemory>
        ensures { OnOk result (self.new ≡ record self.old { server = name.now }) }
    {
        self.server = name.copy()?;
        Ok(())
    }

    /// Gives the server's signature.
    pub fn set_signature(&mut self, signature: [u8; 16])
        ensures { self.new ≡ record self.old { signature = signature } }
    {
        self.signature = signature;
    }

    /// Gives the key of the session tokens.
    pub fn set_key(&mut self, key: [u8; 32])
        ensures { self.new ≡ record self.old { token_key = key } }
    {
        self.key = key;
    }

    /// Whether a server of this name is refused.
    pub fn refuses_server(&self, name: &[u8]) -> bool
        ensures { result ≡ not (is_name longest_server name.now) }
    {
        !is_name(LONGEST_SERVER, name)
    }

    /// Whether there are as many users as there may be.
    fn is_full(&self) -> bool
        ensures { result ≡ not (nat_lt (length self.now.users) most_users) }
    {
        self.users.len() >= MOST_USERS
    }

    /// Whether the user of this name is a bad one behind those that are there.
    fn is_bad_user(&self, name: &[u8], password: [u8; 8]) -> bool
        ensures { result ≡ is_bad_user self.now.users (user_behind self.now.users name.now password) }
    {
        !is_name(LONGEST_USER, name) || has_user_named(self.users.as_slice(), name)
    }

    /// Whether a user of this name is refused.
    pub fn refuses_user(&self, name: &[u8], password: [u8; 8]) -> bool
        ensures { result ≡ (not (nat_lt (length self.now.users) most_users) || is_bad_user self.now.users (user_behind self.now.users name.now password)) }
    {
        self.is_full() || self.is_bad_user(name, password)
    }

    /// Whether there are as many volumes as there may be.
    fn has_all_volumes(&self) -> bool
        ensures { result ≡ not (nat_lt (length self.now.volumes) most_volumes) }
    {
        self.volumes.len() >= MOST_VOLUMES
    }

    /// Whether the volume of this name is a bad one behind those that are there.
    fn is_bad_volume(&self, name: &[u8]) -> bool
        ensures { result ≡ is_bad_volume self.now.volumes name.now }
    {
        !is_name(LONGEST_VOLUME, name) || has_volume_named(self.volumes.as_slice(), name)
    }

    /// Whether a volume of this name is refused.
    pub fn refuses_volume(&self, name: &[u8]) -> bool
        ensures { result ≡ (not (nat_lt (length self.now.volumes) most_volumes) || is_bad_volume self.now.volumes name.now) }
    {
        self.has_all_volumes() || self.is_bad_volume(name)
    }

    /// One user more.
    fn add_user(&mut self, name: &Bytes, password: [u8; 8]) -> Result<(), OutOfMemory>
        requires { length self.old.users < most_users }
        ensures { OnOk result (self.new ≡ record self.old { users = self.old.users ++ user_behind self.old.users name.now password ∷ [] }) }
    {
        let user = User {
            id: FIRST_USER_ID as u32 + self.users.len() as u32,
            name: name.copy()?,
            password,
        };
        self.users.push(user)?;
        Ok(())
    }

    /// One volume more.
    pub fn add_volume(&mut self, name: &Bytes) -> Result<(), OutOfMemory>
        ensures { OnOk result (self.new ≡ record self.old { volumes = self.old.volumes ++ name.now ∷ [] }) }
    {
        self.volumes.push(name.copy()?)?;
        Ok(())
    }

    /// Whether the line is one that it refuses.
    pub fn refuses(&self, line: &Line) -> bool
        ensures { result ≡ refused_by self.now line.now }
    {
        match line {
            Line::Server(name) => self.refuses_server(name.as_slice()),
            Line::User { name, password } => self.refuses_user(name.as_slice(), *password),
            Line::Volume(name) => self.refuses_volume(name.as_slice()),
            Line::Title | Line::Signature(_) | Line::Key(_) | Line::At { .. } | Line::End => false,
        }
    }

    /// Takes what a line says of the house.
    pub fn take(&mut self, line: &Line) -> Result<(), OutOfMemory>
        requires { refused_by self.old line.now ≡ false }
        ensures { OnOk result (self.new ≡ house_with self.old line.now) }
    {
        match line {
            Line::Server(name) => self.set_server(name),
            Line::Signature(bytes) => {
                self.set_signature(*bytes);
                Ok(())
            }
            Line::User { name, password } => self.add_user(name, *password),
            Line::Volume(name) => self.add_volume(name),
            Line::Key(bytes) => {
                self.set_key(*bytes);
                Ok(())
            }
            Line::Title | Line::At { .. } | Line::End => Ok(()),
        }
    }

    /// The house of these parts, which are no longer here; or why there is none.
    pub fn house(&mut self, alloc: Global) -> Result<House, HouseFault>
        ensures house { IfOk result (λ house. house ≡ self.old) }
        ensures fault { IfErr result (λ fault. fault ≢ HouseFault.Memory → house_fault self.old ≡ Some fault) }
    {
        let Ok(server) = str::from_utf8(self.server.as_slice()) else {
            return Err(HouseFault::Server);
        };
        let users = mem::replace(&mut self.users, Vec::new(alloc));
        let volumes = mem::replace(&mut self.volumes, Vec::new(alloc));
        House::new(alloc, server, self.signature, users, volumes, "", self.key)
    }
}
