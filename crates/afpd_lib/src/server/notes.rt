//! What a person is told beside the report. No promise speaks of what it says.
use crate::words::{PlaceWord, ServerWords, VolumeWord};
use afp_base::{OutOfMemory, VolumeId};
use afp_core::Core;
use afp_outside::{Sink, TapeSink, print_all};
use afp_serial::HouseFault;
use record_keeper::Keeper;
use std::alloc::Global;
use std::io::ErrorKind;

/// Where a person is told what the report does not say.
pub trait Notes {
    /// Tells a text, in lines, as far as it can be written.
    fn tell(&mut self, text: &str);

    /// The port at which the doors are open, where the words ask for this one; `None` where they are not open, so that nobody is told that the server
    /// listens.
    fn open_port(&self, asked: u16) -> Option<u16>;
}

/// In memory the doors are at the port that was asked for.
impl Notes for TapeSink {
    fn tell(&mut self, text: &str) {
        let _written = print_all(self, text.as_bytes());
    }

    fn open_port(&self, asked: u16) -> Option<u16> {
        Some(asked)
    }
}

/// Notes to a sink, as the standard error, of a server whose doors are at a real port.
#[derive(Drop)]
pub struct PortNotes<P> {
    out: P,
    port: Option<u16>,
}

impl<P> PortNotes<P> {
    /// Notes to this sink; `port` is the one at which the doors are open, where they are.
    pub fn new(out: P, port: Option<u16>) -> PortNotes<P> {
        PortNotes { out, port }
    }
}

impl<P: Sink> Notes for PortNotes<P> {
    fn tell(&mut self, text: &str) {
        let _written = print_all(&mut self.out, text.as_bytes());
    }

    fn open_port(&self, _asked: u16) -> Option<u16> {
        self.port
    }
}

/// Appends where a volume is kept.
fn put_place(text: &mut String, place: PlaceWord<'_>) -> Result<(), OutOfMemory> {
    match place {
        PlaceWord::Memory => text.push_str("memory")?,
        PlaceWord::File(file) => text.push_str(file)?,
    }
    Ok(())
}

/// Appends a volume, where it is kept, and how many nodes it has.
fn put_volume(text: &mut String, volume: &VolumeWord<'_>, nodes: usize) -> Result<(), OutOfMemory> {
    let name = volume.name;
    write!(text, " {name}=")?;
    put_place(text, volume.place)?;
    write!(text, " (nodes {nodes})")?;
    Ok(())
}

/// The port, and each volume with its place and its nodes.
fn listening_text<K: Keeper>(
    alloc: Global,
    port: u16,
    said: &ServerWords<'_>,
    core: &Core<K>,
) -> Result<String, OutOfMemory> {
    let mut text = String::new(alloc);
    write!(text, "afpd: listens on port {port}:")?;
    let mut id: u16 = 0;
    for volume in said.volumes.as_slice() {
        id = id.saturating_add(1);
        let nodes = core.nodes(VolumeId(id)).unwrap_or(0);
        put_volume(&mut text, volume, nodes)?;
    }
    text.push_str("\n")?;
    Ok(text)
}

/// Tells that the server listens, and over which volumes, where its doors are open.
pub fn tell_listening<K: Keeper, P: Notes>(
    alloc: Global,
    notes: &mut P,
    said: &ServerWords<'_>,
    core: &Core<K>,
) {
    let Some(port) = notes.open_port(said.port) else {
        return;
    };
    if let Ok(text) = listening_text(alloc, port, said, core) {
        notes.tell(text.as_str());
    }
}

/// The volume at an index, and where it is kept.
fn unloaded_text(
    alloc: Global,
    said: &ServerWords<'_>,
    index: usize,
) -> Result<String, OutOfMemory> {
    let mut text = String::new(alloc);
    text.push_str("error: no volume is loaded from ")?;
    if let Some(volume) = said.volumes.as_slice().get(index) {
        put_place(&mut text, volume.place)?;
    }
    text.push_str("\n")?;
    Ok(text)
}

/// Tells from where a volume could not be loaded.
pub fn tell_unloaded<P: Notes>(alloc: Global, notes: &mut P, said: &ServerWords<'_>, index: usize) {
    if let Ok(text) = unloaded_text(alloc, said, index) {
        notes.tell(text.as_str());
    }
}

/// What a person may do where a port cannot be opened, by the system's error, in a line.
pub fn port_remedy(fault: ErrorKind) -> &'static str {
    match fault {
        ErrorKind::PermissionDenied => {
            "a port below 1024 takes root, or the capability CAP_NET_BIND_SERVICE, as `setcap cap_net_bind_service=ep FILE` gives it to the program's file; or take a higher one, as --port 5548\n"
        }
        ErrorKind::AddrInUse => {
            "another program has this port open, maybe another afpd: end that one, or take another port, as --port 5548; --port 0 takes one that is free, and tells it\n"
        }
        _ => "take another port, as --port 5548\n",
    }
}

/// What is wrong with a house.
pub fn house_text(fault: HouseFault) -> &'static str {
    match fault {
        HouseFault::Server => "error: --server takes 1 to 31 printable ASCII characters\n",
        HouseFault::Users => "error: --users takes at most 256 users\n",
        HouseFault::User { .. } => {
            "error: a user's name has 1 to 31 printable ASCII characters, and no two users have one name\n"
        }
        HouseFault::Volumes => "error: a server has 1 to 8 volumes\n",
        HouseFault::Volume { .. } => {
            "error: a volume's name has 1 to 27 printable ASCII characters, and no two volumes have one name\n"
        }
        HouseFault::Message => "error: --message takes at most 199 printable ASCII characters\n",
        HouseFault::Memory => "error: no memory\n",
    }
}
