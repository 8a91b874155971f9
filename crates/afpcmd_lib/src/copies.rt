//! Files that are fetched and put, with both forks.
ghost use Rattle.std.specs.Prelude.{◌≡◌, IfOk, length};

use crate::dates::{NEVER, local_date, server_date};
use crate::entries::Facts;
use crate::headers::{Gathered, Held, has_more, header_file, read_whole};
use crate::local::{Local, Seen};
use crate::notes::Console;
use crate::paths::RemotePath;
use crate::session::{Session, in_dir, local_text};
use crate::trouble::{Trouble, Why};
use afp_base::{Bytes, Code, ForkRef, OutOfMemory};
use afp_outside::{Sink, Source, print_all};
use apple_double::{Parcel, read_parcel};
use client_files::{Put, get_fork, put_fork};
use client_script_commands::Asker;
use std::alloc::Global;

/// The most bytes of a read or a write: the quantum that the server answers.
const PIECE: u64 = 130_048;

/// The first place at which no read and no write may begin.
const LAST_PLACE: u64 = 1 << 63;

/// The room of a write.
fn room_of(alloc: Global) -> Result<Vec<u8>, OutOfMemory>
    ensures { IfOk result (λ room. length room.items ≡ 130048) }
{
    let Ok(room) = vec![in alloc; 0u8; 130_048] else {
        return Err(OutOfMemory);
    };
    Ok(room)
}

/// The last name of a local path.
pub(crate) fn last_local(path: &str) -> &str {
    let path = path.trim_end_matches('/');
    match path.rsplit_once('/') {
        Some((_, name)) => name,
        None => path,
    }
}

/// Where the header file of a local file stands.
fn header_path(alloc: Global, local: &str) -> Result<String, OutOfMemory> {
    match local.rsplit_once('/') {
        Some((dir, name)) => Ok(format!(in alloc; "{dir}/._{name}")?),
        None => Ok(format!(in alloc; "._{local}")?),
    }
}

/// Where a copy goes on: at a file's length, where it is not behind the other's end.
fn goes_on_at(size: u64, most: u64) -> Result<u64, Trouble> {
    if size > most {
        return Err(Trouble::Bad("the copy is longer than the file"));
    }
    Ok(size)
}

/// What a put came to, as a command's.
fn put_told(put: Put<Why>) -> Result<(), Trouble> {
    match put {
        Put::Done(_) => Ok(()),
        Put::Refused(code) => Err(Trouble::Refused(code)),
        Put::SourceFault => Err(Trouble::Bad("the local file can't be read")),
        Put::Ended(why) => Err(Trouble::Ended(why)),
        Put::BadReply => Err(Trouble::BadReply),
        Put::TooLong => Err(Trouble::Bad("the file is longer than a fork can be")),
    }
}

/// Whether calls can be asked behind this.
fn is_open(trouble: &Trouble) -> bool {
    match trouble {
        Trouble::Ended(_) | Trouble::BadReply => false,
        _ => true,
    }
}

impl<A: Asker<End = Why>, L: Local, C: Console> Session<A, L, C> {
    /// Where a fetch begins.
    fn get_from(&mut self, facts: &Facts, local: &str, go_on: bool) -> Result<u64, Trouble> {
        if !go_on {
            return Ok(0);
        }
        match self.local.look(local) {
            Some(seen) => goes_on_at(seen.size, facts.size),
            None => Ok(0),
        }
    }

    /// Reads an open fork into a sink.
    fn get_bytes<O: Sink>(
        &mut self,
        to: &mut O,
        reference: ForkRef,
        from: u64,
    ) -> Result<(), Trouble> {
        if from >= LAST_PLACE {
            return Err(Trouble::Bad("the file is longer than a fork can be"));
        }
        let got = get_fork(
            &mut self.server.asker,
            to,
            &mut self.notes,
            reference,
            from,
            PIECE,
        );
        self.ends_get(reference, got)
    }

    /// Fetches a file's data fork.
    fn get_data(
        &mut self,
        path: &RemotePath,
        facts: &Facts,
        local: &str,
        go_on: bool,
    ) -> Result<(), Trouble> {
        let from = self.get_from(facts, local, go_on)?;
        let reference = self.server.open_fork(path, false, 1)?;
        match self.local.make(local, from) {
            Ok(to) => self.get_into(to, reference, local, from, facts.size),
            Err(fault) => {
                self.server.close_fork(reference)?;
                Err(Trouble::Local(fault))
            }
        }
    }

    /// Fetches an open fork into a local file.
    fn get_into(
        &mut self,
        to: L::To,
        reference: ForkRef,
        local: &str,
        from: u64,
        size: u64,
    ) -> Result<(), Trouble> {
        let mut to = to;
        self.notes.begins(local, from, size);
        let done = self.get_bytes(&mut to, reference, from);
        self.notes.ends();
        done
    }

    /// The resource fork of a file.
    fn resource(&mut self, path: &RemotePath, facts: &Facts) -> Result<Bytes, Trouble> {
        if facts.resource == 0 {
            return Ok(Bytes::new(self.alloc));
        }
        let reference = self.server.open_fork(path, true, 1)?;
        let mut out = Gathered {
            bytes: Bytes::new(self.alloc),
            faults: 0,
        };
        self.get_bytes(&mut out, reference, 0)?;
        let Gathered { bytes, .. } = out;
        Ok(bytes)
    }

    /// Writes a local file.
    fn write_local(&mut self, path: &str, bytes: &[u8]) -> Result<(), Trouble> {
        match self.local.make(path, 0) {
            Ok(to) => write_whole(to, bytes),
            Err(fault) => Err(Trouble::Local(fault)),
        }
    }

    /// Fetches what a file has beside its data fork.
    fn get_more(&mut self, path: &RemotePath, facts: &Facts, local: &str) -> Result<(), Trouble> {
        let resource = self.resource(path, facts)?;
        let header = header_file(self.alloc, facts, resource)?;
        let place = header_path(self.alloc, local)?;
        self.write_local(place.as_str(), header.as_slice())
    }

    /// Fetches a file.
    pub(crate) fn get_file(
        &mut self,
        path: &RemotePath,
        facts: &Facts,
        local: &str,
        go_on: bool,
    ) -> Result<(), Trouble> {
        self.get_data(path, facts, local, go_on)?;
        if has_more(facts) {
            self.get_more(path, facts, local)?;
        }
        self.date_local(local, facts.modified)
    }

    /// Sets the date of a local file.
    pub(crate) fn date_local(&mut self, local: &str, date: i32) -> Result<(), Trouble> {
        if date == NEVER {
            return Ok(());
        }
        match self.local.date(local, local_date(date)) {
            Ok(()) => Ok(()),
            Err(fault) => Err(Trouble::Local(fault)),
        }
    }

    /// Where a fetched file goes: into a local directory, under its name, or as it is said.
    pub(crate) fn get_place(&mut self, name: &[u8], local: &str) -> Result<String, Trouble> {
        let is_dir = match self.local.look(local) {
            Some(seen) => seen.is_dir,
            None => false,
        };
        if !is_dir || name.is_empty() {
            return Ok(String::from_str(self.alloc, local)?);
        }
        let name = local_text(self.alloc, name)?;
        Ok(in_dir(self.alloc, local, name.as_str())?)
    }

    /// Whether the name at a path is spelt as the path says: the server's names differ by more than their case.
    fn size_if_spelt(&mut self, path: &RemotePath) -> Result<u64, Trouble> {
        let entry = self.server.stat(path)?;
        let name = path.last(self.alloc)?;
        if entry.name.as_slice() != name.as_slice() {
            return Err(Trouble::Bad(
                "the server has one whose name differs in case or accents alone",
            ));
        }
        if entry.facts.is_dir {
            return Err(Trouble::Bad("the server has a directory of that name"));
        }
        Ok(entry.facts.size)
    }

    /// Makes a file where none is, and tells where a put begins.
    fn put_from(&mut self, path: &RemotePath, seen: &Seen, go_on: bool) -> Result<u64, Trouble> {
        if !self.server.make_file(path)? {
            return Ok(0);
        }
        let size = self.size_if_spelt(path)?;
        if go_on {
            goes_on_at(size, seen.size)
        } else {
            Ok(0)
        }
    }

    /// Writes a source into an open fork.
    fn put_bytes<S: Source>(
        &mut self,
        source: &mut S,
        reference: ForkRef,
        from: u64,
    ) -> Result<(), Trouble> {
        if from >= LAST_PLACE {
            return Err(Trouble::Bad("the file is longer than a fork can be"));
        }
        let mut room = room_of(self.alloc)?;
        let put = put_fork(
            &mut self.server.asker,
            source,
            &mut self.notes,
            room.as_mut_slice(),
            reference,
            from,
        );
        put_told(put)
    }

    /// Writes a source into an open fork, which is closed where calls can be asked.
    fn put_source<S: Source>(
        &mut self,
        source: &mut S,
        reference: ForkRef,
        from: u64,
        resource: bool,
    ) -> Result<(), Trouble> {
        if from == 0 {
            self.server.empty_fork(reference, resource)?;
        }
        match self.put_bytes(source, reference, from) {
            Ok(()) => self.server.close_fork(reference),
            Err(trouble) => {
                if is_open(&trouble) {
                    self.server.close_fork(reference)?;
                }
                Err(trouble)
            }
        }
    }

    /// Puts a file's data fork.
    fn put_data(
        &mut self,
        path: &RemotePath,
        local: &str,
        seen: &Seen,
        from: u64,
    ) -> Result<(), Trouble> {
        match self.local.open(local, from) {
            Ok(source) => self.put_opened(path, source, local, seen, from),
            Err(fault) => Err(Trouble::Local(fault)),
        }
    }

    /// Puts an open local file into a data fork.
    fn put_opened(
        &mut self,
        path: &RemotePath,
        source: L::From,
        local: &str,
        seen: &Seen,
        from: u64,
    ) -> Result<(), Trouble> {
        let mut source = source;
        let reference = self.server.open_fork(path, false, 0x22)?;
        self.notes.begins(local, from, seen.size);
        let done = self.put_source(&mut source, reference, from, false);
        self.notes.ends();
        done
    }

    /// Puts a resource fork.
    fn put_resource(&mut self, path: &RemotePath, bytes: Bytes) -> Result<(), Trouble> {
        if bytes.as_slice().is_empty() {
            return Ok(());
        }
        let reference = self.server.open_fork(path, true, 0x22)?;
        let mut held = Held::new(bytes);
        self.put_source(&mut held, reference, 0, true)
    }

    /// Puts what a header file says.
    fn put_parcel(&mut self, path: &RemotePath, parcel: Parcel, date: i32) -> Result<(), Trouble> {
        let Parcel {
            created,
            backup,
            finder,
            resource_fork,
            ..
        } = parcel;
        self.put_resource(path, resource_fork)?;
        self.server.set_file(path, created, date, backup, &finder)
    }

    /// The bytes of a local header file, where one stands there.
    fn header_bytes(&mut self, local: &str) -> Result<Option<Bytes>, Trouble> {
        let place = header_path(self.alloc, local)?;
        match self.local.look(place.as_str()) {
            Some(seen) if seen.is_file => {}
            _ => return Ok(None),
        }
        match self.local.open(place.as_str(), 0) {
            Ok(source) => header_of(self.alloc, source),
            Err(fault) => Err(Trouble::Local(fault)),
        }
    }

    /// Puts what stands beside a local file's data: its header file, or its date alone.
    fn put_more(&mut self, path: &RemotePath, local: &str, seen: &Seen) -> Result<(), Trouble> {
        let date = server_date(seen.modified);
        let Some(bytes) = self.header_bytes(local)? else {
            return self.server.set_modified(path, date);
        };
        match read_parcel(self.alloc, bytes.as_slice()) {
            Ok((_, parcel)) => self.put_parcel(path, parcel, date),
            Err(_) => Err(Trouble::Bad("its header file `._` can't be read")),
        }
    }

    /// Puts a file.
    pub(crate) fn put_file(
        &mut self,
        path: &RemotePath,
        local: &str,
        seen: &Seen,
        go_on: bool,
    ) -> Result<(), Trouble> {
        let from = self.put_from(path, seen, go_on)?;
        self.put_data(path, local, seen, from)?;
        self.put_more(path, local, seen)
    }

    /// Makes a directory where none is.
    pub(crate) fn make_folder(&mut self, path: &RemotePath) -> Result<(), Trouble> {
        if path.is_root() {
            return Ok(());
        }
        match self.server.make_dir(path)? {
            Code::Ok => Ok(()),
            Code::ObjectExists => self.is_folder(path),
            code => Err(Trouble::Refused(code)),
        }
    }

    /// Refuses a path at which a file stands, or a directory of another spelling.
    fn is_folder(&mut self, path: &RemotePath) -> Result<(), Trouble> {
        let entry = self.server.stat(path)?;
        let name = path.last(self.alloc)?;
        if entry.name.as_slice() != name.as_slice() {
            return Err(Trouble::Bad(
                "the server has one whose name differs in case or accents alone",
            ));
        }
        if entry.facts.is_dir {
            Ok(())
        } else {
            Err(Trouble::Bad("the server has a file of that name"))
        }
    }
}

/// Writes a whole file.
fn write_whole<O: Sink + Drop>(to: O, bytes: &[u8]) -> Result<(), Trouble> {
    let mut to = to;
    if print_all(&mut to, bytes) {
        Ok(())
    } else {
        Err(Trouble::Bad("the header file `._` can't be written"))
    }
}

/// The bytes of a header file.
fn header_of<S: Source + Drop>(alloc: Global, source: S) -> Result<Option<Bytes>, Trouble> {
    let mut source = source;
    match read_whole(alloc, &mut source)? {
        Some(bytes) => Ok(Some(bytes)),
        None => Err(Trouble::Bad("its header file `._` can't be read")),
    }
}
