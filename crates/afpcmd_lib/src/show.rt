//! What is shown of the server's files: `ls`, `stat`, `df`, `volumes`, `pwd`.
use crate::dates::date_text;
use crate::entries::{Entry, Facts};
use crate::local::Local;
use crate::notes::Console;
use crate::paths::RemotePath;
use crate::session::{Session, local_text};
use crate::trouble::{Trouble, Why};
use afp_base::{ForkRef, OutOfMemory};
use client_files::Got;
use client_script_commands::Asker;
use std::alloc::Global;

/// The most directories that one command goes into.
pub(crate) const MOST_FOLDERS: u32 = 1_000_000;

/// The letters of a byte of rights: search, read, write.
fn letters(out: &mut String, rights: u32) -> Result<(), OutOfMemory> {
    out.push(if rights & 1 == 0 { '-' } else { 's' })?;
    out.push(if rights & 2 == 0 { '-' } else { 'r' })?;
    out.push(if rights & 4 == 0 { '-' } else { 'w' })?;
    Ok(())
}

/// The rights of owner, group and everyone.
fn rights_text(alloc: Global, rights: u32) -> Result<String, OutOfMemory> {
    let mut out = String::new(alloc);
    letters(&mut out, rights & 0xff)?;
    letters(&mut out, rights >> 8 & 0xff)?;
    letters(&mut out, rights >> 16 & 0xff)?;
    Ok(out)
}

/// A line of `ls -l` of a file.
fn file_line(alloc: Global, facts: &Facts, name: &str) -> Result<String, OutOfMemory> {
    let date = date_text(alloc, facts.modified)?;
    let date = date.as_str();
    let size = facts.size;
    let resource = facts.resource;
    Ok(format!(in alloc; "-                  {size:>12} {resource:>8} {date} {name}\n")?)
}

/// A line of `ls -l` of a directory.
fn dir_line(alloc: Global, facts: &Facts, name: &str) -> Result<String, OutOfMemory> {
    let date = date_text(alloc, facts.modified)?;
    let date = date.as_str();
    let rights = rights_text(alloc, facts.rights)?;
    let rights = rights.as_str();
    let owner = facts.owner;
    let size = facts.size;
    Ok(format!(in alloc; "d {rights} {owner:>6} {size:>12}          {date} {name}/\n")?)
}

/// A line of `ls`.
fn short_line(alloc: Global, facts: &Facts, name: &str) -> Result<String, OutOfMemory> {
    if facts.is_dir {
        return Ok(format!(in alloc; "{name}/\n")?);
    }
    Ok(format!(in alloc; "{name}\n")?)
}

/// The line of an entry.
fn line_of(alloc: Global, facts: &Facts, name: &str, long: bool) -> Result<String, OutOfMemory> {
    if !long {
        return short_line(alloc, facts, name);
    }
    if facts.is_dir {
        return dir_line(alloc, facts, name);
    }
    file_line(alloc, facts, name)
}

/// The second line of `stat`.
fn more_line(alloc: Global, facts: &Facts) -> Result<String, OutOfMemory> {
    let created = date_text(alloc, facts.created)?;
    let created = created.as_str();
    let backup = date_text(alloc, facts.backup)?;
    let backup = backup.as_str();
    let id = facts.id;
    let attributes = facts.attributes;
    let group = facts.group;
    Ok(format!(in alloc;
        "  id {id} attributes {attributes:#06x} group {group} created {created} backup {backup}\n"
    )?)
}

/// A directory that is to be listed, and what is printed before its names.
#[derive(Drop)]
struct Folder {
    path: RemotePath,
    head: String,
}

impl<A: Asker<End = Why>, L: Local, C: Console> Session<A, L, C> {
    /// Prints an entry.
    fn print_entry(
        &mut self,
        name: &[u8],
        facts: &Facts,
        head: &str,
        long: bool,
    ) -> Result<(), Trouble> {
        let name = local_text(self.alloc, name)?;
        let name = name.as_str();
        let shown = format!(in self.alloc; "{head}{name}")?;
        let line = line_of(self.alloc, facts, shown.as_str(), long)?;
        self.print(line.as_str());
        Ok(())
    }

    /// Prints what stands in a directory.
    fn print_folder(
        &mut self,
        folder: &Folder,
        entries: &[Entry],
        long: bool,
    ) -> Result<(), Trouble> {
        for entry in entries {
            self.print_entry(
                entry.name.as_slice(),
                &entry.facts,
                folder.head.as_str(),
                long,
            )?;
        }
        Ok(())
    }

    /// Appends the directories among entries.
    fn push_folders(
        &mut self,
        folder: &Folder,
        entries: &[Entry],
        folders: &mut Vec<Folder>,
    ) -> Result<(), Trouble> {
        for entry in entries {
            if entry.facts.is_dir {
                let path = folder.path.join(self.alloc, entry.name.as_slice())?;
                let name = local_text(self.alloc, entry.name.as_slice())?;
                let name = name.as_str();
                let before = folder.head.as_str();
                let head = format!(in self.alloc; "{before}{name}/")?;
                push(folders, Folder { path, head })?;
            }
        }
        Ok(())
    }

    /// Lists a directory; with `deep` those in it are appended to those that are to be listed.
    fn ls_folder(
        &mut self,
        folder: &Folder,
        folders: &mut Vec<Folder>,
        long: bool,
        deep: bool,
    ) -> Result<(), Trouble> {
        let entries = self.server.list(&folder.path)?;
        self.print_folder(folder, entries.as_slice(), long)?;
        if deep {
            self.push_folders(folder, entries.as_slice(), folders)?;
        }
        Ok(())
    }

    /// `volumes`.
    pub(crate) fn show_volumes(&mut self) -> Result<(), Trouble> {
        let names = self.server.volumes()?;
        for name in &names {
            self.print_name(name.as_slice())?;
        }
        Ok(())
    }

    /// Prints a volume's name.
    fn print_name(&mut self, name: &[u8]) -> Result<(), Trouble> {
        let name = local_text(self.alloc, name)?;
        let name = name.as_str();
        let line = format!(in self.alloc; "{name}/\n")?;
        self.print(line.as_str());
        Ok(())
    }

    /// `ls`.
    pub(crate) fn ls(&mut self, text: &str, long: bool, deep: bool) -> Result<(), Trouble> {
        let names = self.names(text)?;
        if names.as_slice().is_empty() {
            return self.show_volumes();
        }
        let path = self.enter(names.as_slice())?;
        let entry = self.server.stat(&path)?;
        if !entry.facts.is_dir {
            return self.print_entry(entry.name.as_slice(), &entry.facts, "", long);
        }
        let mut folders = Vec::new(self.alloc);
        let head = String::new(self.alloc);
        push(&mut folders, Folder { path, head })?;
        self.ls_folders(&mut folders, long, deep)
    }

    /// Lists directories.
    fn ls_folders(
        &mut self,
        folders: &mut Vec<Folder>,
        long: bool,
        deep: bool,
    ) -> Result<(), Trouble> {
        for _ in 0..MOST_FOLDERS {
            let Some(folder) = folders.pop() else {
                return Ok(());
            };
            self.ls_folder(&folder, folders, long, deep)?;
        }
        Err(Trouble::Bad("there are more than 1,000,000 directories"))
    }

    /// `stat`.
    pub(crate) fn show(&mut self, text: &str) -> Result<(), Trouble> {
        let path = self.path(text)?;
        let entry = self.server.stat(&path)?;
        self.print_entry(entry.name.as_slice(), &entry.facts, "", true)?;
        let line = more_line(self.alloc, &entry.facts)?;
        self.print(line.as_str());
        Ok(())
    }

    /// `df`.
    pub(crate) fn df(&mut self, text: &str) -> Result<(), Trouble> {
        let _path = self.path(text)?;
        let (total, free) = self.server.room()?;
        let line = format!(in self.alloc; "{total} bytes, {free} free\n")?;
        self.print(line.as_str());
        Ok(())
    }

    /// `pwd`.
    pub(crate) fn pwd(&mut self) -> Result<(), Trouble> {
        let line = here_text(self.alloc, self.here.as_slice())?;
        self.print(line.as_str());
        Ok(())
    }

    /// `lpwd`.
    pub(crate) fn lpwd(&mut self) -> Result<(), Trouble> {
        let line = local_line(self.alloc, self.local_here.as_str())?;
        self.print(line.as_str());
        Ok(())
    }

    /// Closes a fork that was read, where its session goes on.
    pub(crate) fn ends_get(&mut self, reference: ForkRef, got: Got<Why>) -> Result<(), Trouble> {
        match got {
            Got::Done(_) => self.server.close_fork(reference),
            Got::SinkFault => {
                self.server.close_fork(reference)?;
                Err(Trouble::Bad("what is read can't be written"))
            }
            Got::Refused(code) => {
                self.server.close_fork(reference)?;
                Err(Trouble::Refused(code))
            }
            Got::Ended(why) => Err(Trouble::Ended(why)),
            Got::BadReply => Err(Trouble::BadReply),
        }
    }
}

/// Appends an item.
pub(crate) fn push<T: Drop>(items: &mut Vec<T>, item: T) -> Result<(), OutOfMemory> {
    items.push(item)?;
    Ok(())
}

/// Where a person stands on the server, as a line.
fn here_text(alloc: Global, here: &[u8]) -> Result<String, OutOfMemory> {
    let mut out = String::new(alloc);
    let here = str::from_utf8(here).unwrap_or("?");
    for name in here.split('\0') {
        let name = local_text(alloc, name.as_bytes())?;
        out.push('/')?;
        out.push_str(name.as_str())?;
    }
    out.push('\n')?;
    Ok(out)
}

/// Where a person stands on this machine, as a line.
fn local_line(alloc: Global, here: &str) -> Result<String, OutOfMemory> {
    if here.is_empty() {
        return Ok(String::from_str(alloc, ".\n")?);
    }
    Ok(format!(in alloc; "{here}\n")?)
}
