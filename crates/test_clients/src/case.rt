//! What a client meets.
ghost use Rattle.std.specs.Prelude.{IfOk};
ghost use Rattle.afp_client.specs.session.Opening.{FitsLogin};

use crate::link::LinkPlan;
use crate::plan::{Plan, moment_of};
use afp_base::{Bytes, OutOfMemory};
use afp_client::Login;
use std::alloc::Global;
use test_lines::lines::{bytes_of, small_number_of};

/// As whom a client logs in, its script, its links, and what is planned of its source, of its sink and of its dials.
#[derive(Drop)]
pub struct Case {
    pub user: Option<(Bytes, [u8; 8])>,
    pub turns: u32,
    pub script: Bytes,
    pub source: Plan,
    pub sink: Plan,
    pub dials: Plan,
    pub links: Vec<LinkPlan>,
}

/// The user of a name and a password, where they are one.
fn user_of(alloc: Global, words: &str) -> Result<Option<(Bytes, [u8; 8])>, OutOfMemory> {
    let Some((name, digits)) = words.split_once(' ') else {
        return Ok(None);
    };
    let password = bytes_of(alloc, digits);
    let [a, b, c, d, e, f, g, h] = password.as_slice() else {
        return Ok(None);
    };
    let name = Bytes::of(alloc, name.as_bytes())?;
    Ok(Some((name, [*a, *b, *c, *d, *e, *f, *g, *h])))
}

/// The login of a user; of a guest, where the name has more than 255 bytes.
fn login_of(alloc: Global, name: &[u8], password: [u8; 8]) -> Result<Login, OutOfMemory>
    ensures { IfOk result FitsLogin }
{
    if name.len() > 255 {
        return Ok(Login { user: None });
    }
    Ok(Login {
        user: Some((Bytes::of(alloc, name)?, password)),
    })
}

impl Case {
    /// A guest with an empty script, and no link.
    fn new(alloc: Global) -> Case {
        Case {
            user: None,
            turns: u32::MAX,
            script: Bytes::new(alloc),
            source: Plan::new(alloc),
            sink: Plan::new(alloc),
            dials: Plan::new(alloc),
            links: Vec::new(alloc),
        }
    }

    /// A line of the script.
    fn line(&mut self, text: &str) -> Result<(), OutOfMemory> {
        self.script.extend(text.as_bytes())?;
        self.script.push_u8(b'\n')
    }

    /// A line of the last link.
    fn of_link(&mut self, alloc: Global, word: &str, rest: &str) -> Result<(), OutOfMemory> {
        match self.links.last_mut() {
            Some(link) => link.take(alloc, word, rest),
            None => Ok(()),
        }
    }

    /// A line, as its first word and what stands behind it.
    fn take(&mut self, alloc: Global, word: &str, rest: &str) -> Result<(), OutOfMemory> {
        match word {
            "user" => self.user = user_of(alloc, rest)?,
            "turns" => self.turns = small_number_of(rest),
            "script" => self.line(rest)?,
            "bytes" => self.script.extend(bytes_of(alloc, rest).as_slice())?,
            "source" => self.source.take(rest)?,
            "sink" => self.sink.take(rest)?,
            "dials" => self.dials.take(rest)?,
            "link" => self.links.push(LinkPlan::new(alloc, moment_of(rest)))?,
            _ => self.of_link(alloc, word, rest)?,
        }
        Ok(())
    }

    /// The case of these lines.
    pub fn of(alloc: Global, text: &str) -> Result<Case, OutOfMemory> {
        let mut case = Case::new(alloc);
        for line in text.split('\n') {
            if let Some((word, rest)) = line.split_once(' ') {
                case.take(alloc, word, rest)?;
            }
        }
        Ok(case)
    }

    /// As whom the client logs in; a guest, where the name has more than 255 bytes.
    pub fn login(&self, alloc: Global) -> Result<Login, OutOfMemory>
        ensures { IfOk result FitsLogin }
    {
        match &self.user {
            None => Ok(Login { user: None }),
            Some(user) => login_of(alloc, user.0.as_slice(), user.1),
        }
    }
}
