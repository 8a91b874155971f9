//! `get` and `put`: a file, or with `-r` a folder and all in it.
use crate::copies::last_local;
use crate::entries::Entry;
use crate::local::{Local, Seen};
use crate::notes::{Cause, Console};
use crate::paths::RemotePath;
use crate::run::trouble_text;
use crate::session::{Session, in_dir, local_text};
use crate::show::{MOST_FOLDERS, push};
use crate::trouble::{Trouble, Why};
use afp_base::OutOfMemory;
use client_files::server_name;
use client_script_commands::Asker;

/// A folder on both sides.
#[derive(Drop)]
struct Pair {
    path: RemotePath,
    local: String,
}

/// The folders of a copy: those that are to be gone into.
#[derive(Drop)]
struct Folders {
    pairs: Vec<Pair>,
    go_on: bool,
}

impl<A: Asker<End = Why>, L: Local, C: Console> Session<A, L, C> {
    /// Tells why a file is not carried, where more can be.
    fn passes(&mut self, name: &str, done: Result<(), Trouble>) -> Result<(), Trouble> {
        match done {
            Ok(()) => Ok(()),
            Err(trouble) => match trouble {
                Trouble::Refused(_) | Trouble::Local(_) | Trouble::Bad(_) => {
                    let text = trouble_text(self.alloc, name, &trouble)?;
                    self.notes.note(Cause::NotDone, text.as_str());
                    Ok(())
                }
                _ => Err(trouble),
            },
        }
    }

    /// Fetches an entry of a folder; a folder is appended to those that are to be fetched.
    fn get_entry(
        &mut self,
        pair: &Pair,
        entry: &Entry,
        folders: &mut Folders,
    ) -> Result<(), Trouble> {
        let name = local_text(self.alloc, entry.name.as_slice())?;
        let local = in_dir(self.alloc, pair.local.as_str(), name.as_str())?;
        let path = pair.path.join(self.alloc, entry.name.as_slice())?;
        if entry.facts.is_dir {
            push(&mut folders.pairs, Pair { path, local })?;
            return Ok(());
        }
        let done = self.get_file(&path, &entry.facts, local.as_str(), folders.go_on);
        self.passes(local.as_str(), done)
    }

    /// Fetches what stands in a folder.
    fn get_folder(&mut self, pair: &Pair, folders: &mut Folders) -> Result<(), Trouble> {
        if let Err(fault) = self.local.make_dir(pair.local.as_str()) {
            return Err(Trouble::Local(fault));
        }
        let entries = self.server.list(&pair.path)?;
        for entry in &entries {
            self.get_entry(pair, entry, folders)?;
        }
        Ok(())
    }

    /// Fetches folders.
    fn get_folders(&mut self, folders: &mut Folders) -> Result<(), Trouble> {
        for _ in 0..MOST_FOLDERS {
            let Some(pair) = folders.pairs.pop() else {
                return Ok(());
            };
            let done = self.get_folder(&pair, folders);
            self.passes(pair.local.as_str(), done)?;
        }
        Err(Trouble::Bad("there are more than 1,000,000 directories"))
    }

    /// The folders of a copy that begins here.
    fn folders(
        &self,
        path: RemotePath,
        local: String,
        go_on: bool,
    ) -> Result<Folders, OutOfMemory> {
        let mut pairs = Vec::new(self.alloc);
        push(&mut pairs, Pair { path, local })?;
        Ok(Folders { pairs, go_on })
    }

    /// `get`.
    pub(crate) fn get(
        &mut self,
        text: &str,
        local: &str,
        deep: bool,
        go_on: bool,
    ) -> Result<(), Trouble> {
        let path = self.path(text)?;
        let local = self.local_path(local)?;
        let entry = self.server.stat(&path)?;
        let place = if path.is_root() {
            local
        } else {
            self.get_place(entry.name.as_slice(), local.as_str())?
        };
        if !entry.facts.is_dir {
            return self.get_file(&path, &entry.facts, place.as_str(), go_on);
        }
        if !deep {
            return Err(Trouble::Bad("it is a directory (get -r)"));
        }
        let mut folders = self.folders(path, place, go_on)?;
        self.get_folders(&mut folders)
    }

    /// Puts what stands at a local path; a folder is appended to those that are to be put.
    fn put_seen(
        &mut self,
        path: RemotePath,
        local: String,
        seen: Option<Seen>,
        folders: &mut Folders,
    ) -> Result<(), Trouble> {
        let Some(seen) = seen else {
            return self.passes(local.as_str(), Err(Trouble::Bad("it can't be read")));
        };
        if seen.is_dir {
            push(&mut folders.pairs, Pair { path, local })?;
            return Ok(());
        }
        let done = if seen.is_file {
            self.put_file(&path, local.as_str(), &seen, folders.go_on)
        } else {
            Err(Trouble::Bad("it is no file and no directory"))
        };
        self.passes(local.as_str(), done)
    }

    /// Puts an entry of a local folder. A header file goes with its file.
    fn put_entry(&mut self, pair: &Pair, name: &str, folders: &mut Folders) -> Result<(), Trouble> {
        if name.starts_with("._") {
            return Ok(());
        }
        let local = in_dir(self.alloc, pair.local.as_str(), name)?;
        let spelt = server_name(self.alloc, name.as_bytes())?;
        match pair.path.join(self.alloc, spelt.as_slice()) {
            Ok(path) => {
                let seen = self.local.look(local.as_str());
                self.put_seen(path, local, seen, folders)
            }
            Err(trouble) => self.passes(local.as_str(), Err(trouble)),
        }
    }

    /// Puts what stands in a local folder.
    fn put_folder(&mut self, pair: &Pair, folders: &mut Folders) -> Result<(), Trouble> {
        self.make_folder(&pair.path)?;
        let names = match self.local.names(pair.local.as_str()) {
            Ok(names) => names,
            Err(fault) => return Err(Trouble::Local(fault)),
        };
        for name in &names {
            self.put_entry(pair, name.as_str(), folders)?;
        }
        Ok(())
    }

    /// Puts folders.
    fn put_folders(&mut self, folders: &mut Folders) -> Result<(), Trouble> {
        for _ in 0..MOST_FOLDERS {
            let Some(pair) = folders.pairs.pop() else {
                return Ok(());
            };
            let done = self.put_folder(&pair, folders);
            self.passes(pair.local.as_str(), done)?;
        }
        Err(Trouble::Bad("there are more than 1,000,000 directories"))
    }

    /// Where a put goes: into a directory of the server, under the local name, or as it is said.
    fn put_place(&mut self, path: RemotePath, local: &str) -> Result<RemotePath, Trouble> {
        let is_dir = match self.server.stat(&path) {
            Ok(entry) => entry.facts.is_dir,
            Err(Trouble::Refused(_)) => false,
            Err(trouble) => return Err(trouble),
        };
        let name = last_local(local);
        if !is_dir || name.is_empty() || name == "." || name == ".." {
            return Ok(path);
        }
        let spelt = server_name(self.alloc, name.as_bytes())?;
        path.join(self.alloc, spelt.as_slice())
    }

    /// `put`.
    pub(crate) fn put(
        &mut self,
        local: &str,
        text: &str,
        deep: bool,
        go_on: bool,
    ) -> Result<(), Trouble> {
        let local = self.local_path(local)?;
        let Some(seen) = self.local.look(local.as_str()) else {
            return Err(Trouble::Bad("there is no such local file"));
        };
        let path = self.path(text)?;
        let place = self.put_place(path, local.as_str())?;
        if !seen.is_dir {
            return self.put_file(&place, local.as_str(), &seen, go_on);
        }
        if !deep {
            return Err(Trouble::Bad("it is a directory (put -r)"));
        }
        let mut folders = self.folders(place, local, go_on)?;
        self.put_folders(&mut folders)
    }
}
