//! A server, with the volume that is open on it.
ghost use Rattle.std.specs.Prelude.{◌<◌, ◌≤◌, ◌^◌, length};
ghost use Rattle.client_script_lines.specs.calls.Asked.{IsAskable};

use crate::calls;
use crate::entries::{Entry, entry_in, put_list, room_in, volumes_in};
use crate::paths::RemotePath;
use crate::trouble::{Trouble, Why};
use afp_base::{Bytes, Code, ForkRef, VolumeId};
use afp_calls_grammar::Call;
use afp_replies::Reply;
use client_script_commands::commands::replies::volume_of;
use client_script_commands::{Answer, Asker};
use client_script_lines::calls as script_calls;
use std::alloc::Global;

/// The most lists of a directory's entries that are asked for.
const MOST_LISTS: u32 = 1 << 24;

/// A server, with the volume that is open on it.
#[derive(Drop)]
pub(crate) struct Server<A> {
    pub(crate) alloc: Global,
    pub(crate) asker: A,
    volume: VolumeId,
}

/// Lets a call go.
fn let_call_go(_call: Call) {}

/// Lets a reply go.
fn let_go(_reply: Reply) {}

/// The reply of an answer that must be Ok.
fn reply_of(answer: Answer) -> Result<Reply, Trouble> {
    match answer.code {
        Code::Ok => Ok(answer.reply),
        _ => Err(Trouble::Refused(answer.code)),
    }
}

/// The code of an answer.
fn code_of(answer: Answer) -> Code {
    answer.code
}

/// The fork that a reply opened.
fn fork_of(reply: &Reply) -> Option<ForkRef> {
    match reply {
        Reply::Opened { reference, .. } => Some(*reference),
        _ => None,
    }
}

/// A value that a reply must tell.
fn told<T>(found: Option<T>) -> Result<T, Trouble> {
    match found {
        Some(value) => Ok(value),
        None => Err(Trouble::BadReply),
    }
}

impl<A: Asker<End = Why>> Server<A> {
    /// A server on which no volume is open.
    pub(crate) fn new(alloc: Global, asker: A) -> Server<A> {
        Server {
            alloc,
            asker,
            volume: VolumeId(0),
        }
    }

    /// Asks a call.
    fn ask(&mut self, call: Call) -> Result<Answer, Trouble>
        requires { IsAskable call }
    {
        let told = self.asker.ask(&call);
        let_call_go(call);
        match told {
            Ok(answer) => Ok(answer),
            Err(why) => Err(Trouble::Ended(why)),
        }
    }

    /// Asks a call that must be told Ok.
    fn must(&mut self, call: Call) -> Result<Reply, Trouble>
        requires { IsAskable call }
    {
        let answer = self.ask(call)?;
        reply_of(answer)
    }

    /// Asks a call, and gives its code.
    fn code(&mut self, call: Call) -> Result<Code, Trouble>
        requires { IsAskable call }
    {
        let answer = self.ask(call)?;
        Ok(code_of(answer))
    }

    /// Asks a call that must be told Ok, whatever its reply.
    fn must_do(&mut self, call: Call) -> Result<(), Trouble>
        requires { IsAskable call }
    {
        let reply = self.must(call)?;
        let_go(reply);
        Ok(())
    }

    /// The names of its volumes.
    pub(crate) fn volumes(&mut self) -> Result<Vec<Bytes>, Trouble> {
        let mut names = Vec::new(self.alloc);
        let reply = self.must(calls::get_volumes())?;
        let found = volumes_in(&reply, &mut names);
        let_go(reply);
        match found {
            Ok(true) => Ok(names),
            Ok(false) => Err(Trouble::BadReply),
            Err(_) => Err(Trouble::Memory),
        }
    }

    /// Opens a volume, in place of the one that is open.
    pub(crate) fn open_volume(&mut self, name: &[u8]) -> Result<(), Trouble> {
        if name.len() > 255 {
            return Err(Trouble::Bad("a volume's name has at most 255 bytes"));
        }
        let call = script_calls::open_volume(self.alloc, name)?;
        let reply = self.must(call)?;
        let found = volume_of(&reply);
        let_go(reply);
        self.volume = told(found)?;
        Ok(())
    }

    /// What stands at a path.
    pub(crate) fn stat(&mut self, path: &RemotePath) -> Result<Entry, Trouble> {
        let call = calls::get_entry(self.alloc, self.volume, path.as_slice())?;
        let reply = self.must(call)?;
        let found = entry_in(&reply);
        let_go(reply);
        told(found?)
    }

    /// Appends the entries of a directory from this one on: how many; 0 where there are no more.
    fn list_once(
        &mut self,
        path: &RemotePath,
        start: u32,
        out: &mut Vec<Entry>,
    ) -> Result<usize, Trouble> {
        let call = calls::list_entries(self.alloc, self.volume, path.as_slice(), start)?;
        let answer = self.ask(call)?;
        let code = answer.code;
        let reply = answer.reply;
        let found = match code {
            Code::Ok => put_list(&reply, out),
            _ => Ok(Some(0)),
        };
        let_go(reply);
        match code {
            Code::Ok | Code::ObjectNotFound => told(found?),
            _ => Err(Trouble::Refused(code)),
        }
    }

    /// What stands in a directory.
    pub(crate) fn list(&mut self, path: &RemotePath) -> Result<Vec<Entry>, Trouble> {
        let mut out = Vec::new(self.alloc);
        let mut start: u32 = 1;
        for _ in 0..MOST_LISTS {
            let count = self.list_once(path, start, &mut out)?;
            if count == 0 {
                return Ok(out);
            }
            start = start.saturating_add(u32::try_from(count).unwrap_or(u32::MAX));
        }
        Err(Trouble::Bad("the directory has more entries than can be listed"))
    }

    /// The bytes in all of the volume, and those that are free.
    pub(crate) fn room(&mut self) -> Result<(u64, u64), Trouble> {
        let reply = self.must(calls::get_room(self.volume))?;
        let found = room_in(&reply);
        let_go(reply);
        told(found)
    }

    /// Opens a fork in this mode: 0x01 to read, 0x22 to write with others kept from writing.
    pub(crate) fn open_fork(
        &mut self,
        path: &RemotePath,
        resource: bool,
        mode: u16,
    ) -> Result<ForkRef, Trouble> {
        let call = if resource {
            script_calls::open_resource_fork(self.alloc, self.volume, mode, path.as_slice())?
        } else {
            script_calls::open_fork(self.alloc, self.volume, mode, path.as_slice())?
        };
        let reply = self.must(call)?;
        let found = fork_of(&reply);
        let_go(reply);
        told(found)
    }

    /// Makes an open fork empty.
    pub(crate) fn empty_fork(&mut self, reference: ForkRef, resource: bool) -> Result<(), Trouble> {
        let call = calls::empty_fork(self.alloc, reference, resource)?;
        self.must_do(call)
    }

    /// Closes a fork.
    pub(crate) fn close_fork(&mut self, reference: ForkRef) -> Result<(), Trouble> {
        self.must_do(script_calls::close_fork(reference))
    }

    /// Makes a file where none is: whether one was there.
    pub(crate) fn make_file(&mut self, path: &RemotePath) -> Result<bool, Trouble> {
        let call = calls::create_file(self.alloc, self.volume, path.as_slice())?;
        match self.code(call)? {
            Code::Ok => Ok(false),
            Code::ObjectExists => Ok(true),
            code => Err(Trouble::Refused(code)),
        }
    }

    /// Makes a directory: the code.
    pub(crate) fn make_dir(&mut self, path: &RemotePath) -> Result<Code, Trouble> {
        let call = script_calls::create_dir(self.alloc, self.volume, path.as_slice())?;
        self.code(call)
    }

    /// Deletes a file or an empty directory.
    pub(crate) fn delete(&mut self, path: &RemotePath) -> Result<(), Trouble> {
        let call = script_calls::delete(self.alloc, self.volume, path.as_slice())?;
        self.must_do(call)
    }

    /// Moves a file or a directory into a directory, under a new name.
    pub(crate) fn move_to(
        &mut self,
        from: &RemotePath,
        dir: &RemotePath,
        name: &RemotePath,
    ) -> Result<(), Trouble> {
        let call = script_calls::move_to(
            self.alloc,
            self.volume,
            from.as_slice(),
            dir.as_slice(),
            name.as_slice(),
        )?;
        self.must_do(call)
    }

    /// Copies a file into a directory, under a new name.
    pub(crate) fn copy_to(
        &mut self,
        from: &RemotePath,
        dir: &RemotePath,
        name: &RemotePath,
    ) -> Result<(), Trouble> {
        let call = script_calls::copy_to(
            self.alloc,
            self.volume,
            from.as_slice(),
            dir.as_slice(),
            name.as_slice(),
        )?;
        self.must_do(call)
    }

    /// Sets the modification date.
    pub(crate) fn set_modified(&mut self, path: &RemotePath, date: i32) -> Result<(), Trouble> {
        let call = calls::set_modified(self.alloc, self.volume, path.as_slice(), date)?;
        self.must_do(call)
    }

    /// Sets the dates of a file and its Finder information.
    pub(crate) fn set_file(
        &mut self,
        path: &RemotePath,
        created: i32,
        modified: i32,
        backup: i32,
        finder: &[u8; 32],
    ) -> Result<(), Trouble> {
        let call = script_calls::set_file(
            self.alloc,
            self.volume,
            path.as_slice(),
            created,
            modified,
            backup,
            finder,
        )?;
        self.must_do(call)
    }
}

impl<A> Server<A> {
    /// Whoever asks.
    pub(crate) fn into_asker(self) -> A {
        self.asker
    }
}
