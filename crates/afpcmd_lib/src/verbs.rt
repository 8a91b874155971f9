//! Commands that change the server's files, or where a person stands.
use crate::local::Local;
use crate::notes::Console;
use crate::paths::{RemotePath, volume_and_path};
use crate::session::Session;
use crate::trouble::{Trouble, Why};
use afp_base::{Bytes, Code};
use client_script_commands::Asker;

/// Where a move or a copy goes: a directory, and a name in it.
#[derive(Drop)]
struct Target {
    dir: RemotePath,
    name: RemotePath,
}

impl<A: Asker<End = Why>, L: Local, C: Console> Session<A, L, C> {
    /// `cd`: without a path, above the volumes.
    pub(crate) fn cd(&mut self, text: &str) -> Result<(), Trouble> {
        let names = self.names(text)?;
        if !names.as_slice().is_empty() {
            let path = self.enter(names.as_slice())?;
            if !self.is_dir(&path)? {
                return Err(Trouble::Bad("it is no directory"));
            }
        }
        self.here = names;
        Ok(())
    }

    /// Whether a directory stands at a path.
    fn is_dir(&mut self, path: &RemotePath) -> Result<bool, Trouble> {
        let entry = self.server.stat(path)?;
        Ok(entry.facts.is_dir)
    }

    /// `lcd`.
    pub(crate) fn lcd(&mut self, text: &str) -> Result<(), Trouble> {
        let path = self.local_path(text)?;
        let seen = self.local.look(path.as_str());
        match seen {
            Some(seen) if seen.is_dir => {
                self.local_here = path;
                Ok(())
            }
            _ => Err(Trouble::Bad("it is no local directory")),
        }
    }

    /// `mkdir`.
    pub(crate) fn mkdir(&mut self, text: &str) -> Result<(), Trouble> {
        let path = self.path(text)?;
        match self.server.make_dir(&path)? {
            Code::Ok => Ok(()),
            code => Err(Trouble::Refused(code)),
        }
    }

    /// `rm`.
    pub(crate) fn rm(&mut self, text: &str) -> Result<(), Trouble> {
        let path = self.path(text)?;
        self.server.delete(&path)
    }

    /// The names of a path beside another's, which stand in one volume.
    fn in_one_volume(&self, from: &Bytes, text: &str) -> Result<Bytes, Trouble> {
        let to = self.names(text)?;
        if volume_and_path(from.as_slice()).0 == volume_and_path(to.as_slice()).0 {
            Ok(to)
        } else {
            Err(Trouble::Bad("the two are in other volumes"))
        }
    }

    /// The name in a directory, or the directory and the name of a path.
    fn target_in(
        &self,
        from: &RemotePath,
        to: RemotePath,
        is_dir: bool,
    ) -> Result<Target, Trouble> {
        if is_dir {
            let name = from.last(self.alloc)?;
            return Ok(Target { dir: to, name });
        }
        Ok(Target {
            dir: to.parent(self.alloc)?,
            name: to.last(self.alloc)?,
        })
    }

    /// Whether a directory stands at a path, where something does.
    fn may_be_dir(&mut self, path: &RemotePath) -> Result<bool, Trouble> {
        match self.is_dir(path) {
            Err(Trouble::Refused(_)) => Ok(false),
            other => other,
        }
    }

    /// Where a move or a copy comes from, and where it goes.
    fn from_and_target(
        &mut self,
        text: &str,
        target: &str,
    ) -> Result<(RemotePath, Target), Trouble> {
        let names = self.names(text)?;
        let goal = self.in_one_volume(&names, target)?;
        let from = self.enter(names.as_slice())?;
        let to = self.enter(goal.as_slice())?;
        let is_dir = self.may_be_dir(&to)?;
        let target = self.target_in(&from, to, is_dir)?;
        Ok((from, target))
    }

    /// `mv`: into a directory, or under a new name.
    pub(crate) fn mv(&mut self, text: &str, target: &str) -> Result<(), Trouble> {
        let (from, target) = self.from_and_target(text, target)?;
        self.server.move_to(&from, &target.dir, &target.name)
    }

    /// `cp`: into a directory, or under a new name; the server copies.
    pub(crate) fn cp(&mut self, text: &str, target: &str) -> Result<(), Trouble> {
        let (from, target) = self.from_and_target(text, target)?;
        self.server.copy_to(&from, &target.dir, &target.name)
    }
}
