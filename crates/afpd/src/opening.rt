//! The keepers of the volumes.
ghost use Rattle.std.specs.Prelude.{IfOk};
ghost use Rattle.afpd.specs.Opening.{Opens, OpensFile};

use afp_base::OutOfMemory;
use afpd_lib::server::setup::VolumePlace;
use afpd_lib::server::unopened::unopened_keeper;
use record_keeper::MemoryKeeper;
use sqlite_durable_file::{FileKeeper, OpenFault};
use std::str;

/// The keeper of a volume.
#[derive(Drop)]
pub enum PlaceKeeper {
    /// It keeps in memory.
    Memory(MemoryKeeper),
    /// It keeps in a file.
    File(FileKeeper),
    /// It stands for a file that could not be opened: no volume is loaded from it.
    Unopened(MemoryKeeper),
}

/// Tells a person why a file is not opened.
fn tell_fault(rt: &HostRuntime, name: &str, fault: &OpenFault) {
    let _told = match fault {
        OpenFault::File(error) => eprintln!(rt; "error: {name}: {error}"),
        OpenFault::Start(fault) => eprintln!(rt; "error: {name}: no volume's records: {fault:?}"),
    };
}

/// The keeper over a file; where that cannot be opened, the one that stands for it. A person is told why; want of memory is an error.
fn open_file(rt: &HostRuntime, name: &str) -> Result<PlaceKeeper, OutOfMemory>
    ensures { IfOk result (λ keeper. OpensFile keeper) }
{
    match FileKeeper::open(rt, name) {
        Ok(keeper) => Ok(PlaceKeeper::File(keeper)),
        Err(fault) => {
            tell_fault(rt, name, &fault);
            if fault.is_memory() {
                return Err(OutOfMemory);
            }
            Ok(PlaceKeeper::Unopened(unopened_keeper(rt.alloc())?))
        }
    }
}

/// The keeper for a place.
pub fn open_place(rt: &HostRuntime, place: &VolumePlace) -> Result<PlaceKeeper, OutOfMemory>
    ensures { IfOk result (λ keeper. Opens place.now keeper) }
{
    match place {
        VolumePlace::Memory => {
            let alloc = rt.alloc();
            Ok(PlaceKeeper::Memory(MemoryKeeper::new(alloc, Vec::new(alloc))))
        }
        VolumePlace::File(name) => match str::from_utf8(name.as_slice()) {
            Ok(name) => open_file(rt, name),
            Err(_) => Ok(PlaceKeeper::Unopened(unopened_keeper(rt.alloc())?)),
        },
    }
}
