//! A person's session with a server.
use crate::local::Local;
use crate::notes::{Console, Notes};
use crate::paths::{RemotePath, typed, volume_and_path};
use crate::server::Server;
use crate::trouble::{Trouble, Why};
use afp_base::{Bytes, OutOfMemory};
use client_files::local_name;
use client_script_commands::Asker;
use std::alloc::Global;

/// What a command came to.
#[derive(Clone, Copy, Debug, PartialEq, Eq)]
pub enum Outcome {
    /// It is done.
    Done,
    /// Something is not done, which was told; the next command may come.
    Fails,
    /// No further command can be done, which was told.
    Ends,
    /// It was `quit`.
    Quits,
}

/// A person's session: the server, local files, the console, and where the person stands on both sides: on the server the names of the
/// volume and of the directories, parted by zero bytes; none above the volumes.
#[derive(Drop)]
pub struct Session<A, L, C: Console> {
    pub(crate) alloc: Global,
    pub(crate) server: Server<A>,
    pub(crate) local: L,
    pub(crate) notes: Notes<C>,
    pub(crate) opened: Bytes,
    pub(crate) here: Bytes,
    pub(crate) local_here: String,
}

/// A local path and a name in it.
pub(crate) fn in_dir(alloc: Global, dir: &str, name: &str) -> Result<String, OutOfMemory> {
    let mut out = String::from_str(alloc, dir)?;
    if !dir.is_empty() && !dir.ends_with('/') {
        out.push('/')?;
    }
    out.push_str(name)?;
    Ok(out)
}

/// The local name of a name of the server, as a text.
pub(crate) fn local_text(alloc: Global, name: &[u8]) -> Result<String, OutOfMemory> {
    let name = local_name(alloc, name)?;
    let text = str::from_utf8(name.as_slice()).unwrap_or("?");
    Ok(String::from_str(alloc, text)?)
}

impl<A: Asker<End = Why>, L: Local, C: Console> Session<A, L, C> {
    /// A session above the volumes of a server.
    pub fn new(alloc: Global, asker: A, local: L, notes: Notes<C>) -> Session<A, L, C> {
        Session {
            alloc,
            server: Server::new(alloc, asker),
            local,
            notes,
            opened: Bytes::new(alloc),
            here: Bytes::new(alloc),
            local_here: String::new(alloc),
        }
    }

    /// The names of a path of the server that a person types.
    pub(crate) fn names(&self, text: &str) -> Result<Bytes, OutOfMemory> {
        typed(self.alloc, self.here.as_slice(), text)
    }

    /// Opens the volume of these names where it is not open, and gives the path in it.
    pub(crate) fn enter(&mut self, names: &[u8]) -> Result<RemotePath, Trouble> {
        let (volume, path) = volume_and_path(names);
        if volume.is_empty() {
            return Err(Trouble::Bad("name a volume: /VOLUME/.. (volumes lists them)"));
        }
        let path = RemotePath::read(self.alloc, Bytes::of(self.alloc, path)?)?;
        if volume != self.opened.as_slice() {
            self.opened = Bytes::new(self.alloc);
            self.server.open_volume(volume)?;
            self.opened = Bytes::of(self.alloc, volume)?;
        }
        Ok(path)
    }

    /// The path of the server that a person types, in its volume, which is opened.
    pub(crate) fn path(&mut self, text: &str) -> Result<RemotePath, Trouble> {
        let names = self.names(text)?;
        self.enter(names.as_slice())
    }

    /// The local path that a person types.
    pub(crate) fn local_path(&self, text: &str) -> Result<String, OutOfMemory> {
        if text.starts_with('/') || self.local_here.is_empty() {
            return Ok(String::from_str(self.alloc, text)?);
        }
        in_dir(self.alloc, self.local_here.as_str(), text)
    }

    /// Prints a text.
    pub(crate) fn print(&mut self, text: &str) {
        let _done = self.notes.print(text.as_bytes());
    }
}

impl<A, L: Drop, C: Console> Session<A, L, C> {
    /// Whoever asked, and the notes.
    pub fn into_parts(self) -> (A, Notes<C>) {
        let Session { server, notes, .. } = self;
        (server.into_asker(), notes)
    }
}
