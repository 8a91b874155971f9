//! A server of one's own: one volume in a keeper of one's own, and a client that makes a directory through one door.
#![tactic(auto)]

ghost use Rattle.std.specs.Prelude.{◌≡◌, ◌≤◌, false, length, All, IfOk};

use afp_base::{Bytes, Moment, NO_LIMIT, OutOfMemory};
use afp_core::Core;
use afp_desk::serve_loaded;
use afp_outside::{OpenGate, TapeLink, TapeListener};
use afp_serial::House;
use record_keeper::{Change, Keeper, KeeperFault, MemoryKeeper, RecordKey};
use std::alloc::Global;
use std::io;
use std::sync::Wait;
use std::thread::Threads;

/// What the client writes: DSIOpenSession, FPLogin, FPOpenVol, FPCreateDir.
const SESSION: &[u8] = b"\
\x00\x04\x00\x00\x00\x00\x00\x00\x00\x00\x00\x00\x00\x00\x00\x00\
\x00\x02\x00\x01\x00\x00\x00\x00\x00\x00\x00\x18\x00\x00\x00\x00\x12\x06AFP3.3\x0fNo User Authent\
\x00\x02\x00\x02\x00\x00\x00\x00\x00\x00\x00\x0a\x00\x00\x00\x00\x18\x00\x00\x20\x05Share\
\x00\x02\x00\x03\x00\x00\x00\x00\x00\x00\x00\x0b\x00\x00\x00\x00\x06\x00\x00\x01\x00\x00\x00\x02\x02\x01d";

/// A keeper: here it keeps in memory.
#[derive(Drop)]
struct OwnKeeper {
    kept: MemoryKeeper,
}

impl Keeper for OwnKeeper {
    ghost use Rattle.std.specs.Prelude.{Some, true};
    ghost use Rattle.record_keeper.specs.Planned.{never_fails};

    ghost records = { λ k. Some k.kept.records };

    ghost faults = { λ k. k.kept.planned.faults };

    ghost sure = { λ k. never_fails k.kept.planned };

    ghost steady = { λ _. true };

    ghost settles = { λ k. k.kept.settles };

    fn read(&mut self, alloc: Global, key: &RecordKey) -> Result<Option<Bytes>, KeeperFault> {
        self.kept.read(alloc, key)
    }

    fn next_key(
        &mut self,
        alloc: Global,
        after: Option<&RecordKey>,
    ) -> Result<Option<RecordKey>, KeeperFault> {
        self.kept.next_key(alloc, after)
    }

    fn commit(&mut self, alloc: Global, changes: Vec<Change>) -> Result<(), KeeperFault> {
        self.kept.commit(alloc, changes)
    }

    fn settle(&mut self) -> Result<(), KeeperFault> {
        self.kept.settle()
    }
}

/// A door through which the client comes.
fn doors(alloc: Global, now: Moment) -> Result<Vec<TapeListener>, OutOfMemory>
    ensures few { IfOk result (λ doors. length doors.items ≤ 16) }
    ensures open { IfOk result (λ doors. All (λ door. door.closed ≡ false) doors.items) }
{
    let (reads, writes, failing) = (Vec::new(alloc), Vec::new(alloc), Vec::new(alloc));
    let coming = Bytes::of(alloc, SESSION)?;
    let link = TapeLink::new(alloc, now, coming, reads, writes, Vec::new(alloc), failing)?;
    let door = TapeListener::new(alloc, vec![in alloc; link]?, Vec::new(alloc))?;
    Ok(vec![in alloc; door]?)
}

/// Serves the client: how many asks became entries, and how many bytes were written; `None` where there was no memory.
fn serve<R: Threads + Wait + Sync>(rt: &R, alloc: Global) -> Option<(u64, usize)> {
    let now = Moment::new(100)?;
    let volumes = vec![in alloc; Bytes::of(alloc, b"Share").ok()?].ok()?;
    let house = House::new(alloc, "Mac", [0; 16], Vec::new(alloc), volumes, "", [0; 32]).ok()?;
    let kept = MemoryKeeper::new(alloc, Vec::new(alloc));
    let keepers = vec![in alloc; OwnKeeper { kept }].ok()?;
    let core = Core::new(alloc, &house, keepers, now).ok()?;
    let Ok(doors) = doors(alloc, now) else {
        return None;
    };
    let closing = serve_loaded(rt, alloc, &house, core, doors, &OpenGate, NO_LIMIT).ok()?;
    let link = closing.done.first()?.door.returned().first()?;
    Some((closing.counts.entries, link.written().len()))
}

fn main(rt: HostRuntime) -> io::Result<()> {
    let (entries, written) = serve(&rt, rt.alloc()).unwrap_or((0, 0));
    println!(rt; "entries {entries}")?;
    println!(rt; "written {written} bytes")
}
