//! What the keepers hold that were handed to the server.
use crate::threads::doors::two_doors;
use crate::threads::keeper::LeavingKeeper;
use crate::threads::requests::{makes_directory, makes_file};
use crate::threads::run::run;
use afp_base::OutOfMemory;
use afp_outside::OpenGate;
use record_keeper::{Keeper, MemoryKeeper, Record};
use std::alloc::Global;
use std::sync::{Arc, OnceLock, Wait};
use std::thread::Threads;

/// A key and its value.
type Row = (&'static [u8], &'static [u8]);

/// The records of `Share`, made at 90, with the directory `d`, made in it at 100: the volume, its root, `d`.
fn shared() -> &'static [Row] {
    &[
        (
            b"\x00",
            b"\x00\x02\x00\x00\x00\x5a\x00\x00\x00\x64\x80\x00\x00\x00\x00\x00\x00\x00\x00\x00\x00\x12",
        ),
        (
            b"\x01\x00\x00\x00\x02",
            b"\x01\x00\x00\x00\x01\x00\x00\x00\x00\x00\x5a\x00\x00\x00\x64\x80\x00\x00\x00\x00\x00\x00\x00\x00\x00\x00\x00\x00\x00\x00\x00\x00\x00\x00\x00\x00\x00\x00\x00\x00\x00\x00\x00\x00\x00\x00\x00\x00\x00\x00\x00\x00\x00\x00\x00\x00\x00\x00\x00\x00\x00\x00\x00\x00\x00\x00\x00\x00\x00\x00\x01\xf4\x00\x00\x01\xf4\x07\x07\x07Share",
        ),
        (
            b"\x01\x00\x00\x00\x11",
            b"\x01\x00\x00\x00\x02\x00\x00\x00\x00\x00\x64\x00\x00\x00\x64\x80\x00\x00\x00\x00\x00\x00\x00\x00\x00\x00\x00\x00\x00\x00\x00\x00\x00\x00\x00\x00\x00\x00\x00\x00\x00\x00\x00\x00\x00\x00\x00\x00\x00\x00\x00\x00\x00\x00\x00\x00\x00\x00\x00\x00\x00\x00\x00\x00\x00\x00\x00\x00\x00\x00\x01\xf4\x00\x00\x01\xf4\x07\x07\x07d",
        ),
    ]
}

/// The same of `Other` with the file `f`.
fn other() -> &'static [Row] {
    &[
        (
            b"\x00",
            b"\x00\x02\x00\x00\x00\x5a\x00\x00\x00\x64\x80\x00\x00\x00\x00\x00\x00\x00\x00\x00\x00\x12",
        ),
        (
            b"\x01\x00\x00\x00\x02",
            b"\x01\x00\x00\x00\x01\x00\x00\x00\x00\x00\x5a\x00\x00\x00\x64\x80\x00\x00\x00\x00\x00\x00\x00\x00\x00\x00\x00\x00\x00\x00\x00\x00\x00\x00\x00\x00\x00\x00\x00\x00\x00\x00\x00\x00\x00\x00\x00\x00\x00\x00\x00\x00\x00\x00\x00\x00\x00\x00\x00\x00\x00\x00\x00\x00\x00\x00\x00\x00\x00\x00\x01\xf4\x00\x00\x01\xf4\x07\x07\x07Other",
        ),
        (
            b"\x01\x00\x00\x00\x11",
            b"\x00\x00\x00\x00\x02\x00\x00\x00\x00\x00\x64\x00\x00\x00\x64\x80\x00\x00\x00\x00\x00\x00\x00\x00\x00\x00\x00\x00\x00\x00\x00\x00\x00\x00\x00\x00\x00\x00\x00\x00\x00\x00\x00\x00\x00\x00\x00\x00\x00\x00\x00\x00\x00\x00\x00\x00\x00\x00\x00\x00\x00\x00\x00\x00\x00\x00\x00\x00\x00\x00\x00\x00\x00\x00\x00\x00\x00\x00\x00f",
        ),
    ]
}

/// A place for what a keeper leaves behind.
fn place(alloc: Global) -> Result<Arc<OnceLock<Vec<Record>>>, OutOfMemory> {
    Ok(Arc::new(alloc, OnceLock::new())?)
}

/// A keeper that leaves its records there.
fn keeper(alloc: Global, place: &Arc<OnceLock<Vec<Record>>>) -> Result<LeavingKeeper, OutOfMemory> {
    Ok(LeavingKeeper {
        kept: MemoryKeeper::new(alloc, Vec::new(alloc)),
        alloc,
        left: Arc::try_clone(place)?,
    })
}

/// Whether a place was set to these records.
fn has(place: &OnceLock<Vec<Record>>, want: &[Row]) -> bool {
    match place.get() {
        None => false,
        Some(records) => {
            records.len() == want.len()
                && records.iter().zip(want).all(|(it, row)| it.key.as_slice() == row.0
                    && it.value.as_slice() == row.1)
        }
    }
}

/// Two sessions, each of which makes something in a volume of its own: whether the keepers that were handed in have the image of their volumes then.
fn leave_their_images<R: Threads + Wait + Sync>(
    threads: &R,
    alloc: Global,
) -> Result<bool, OutOfMemory> {
    let (first, second) = (place(alloc)?, place(alloc)?);
    let mut keepers: Vec<Box<dyn Keeper + Send>> = Vec::new(alloc);
    keepers.push(Box::new(alloc, keeper(alloc, &first)?)?)?;
    keepers.push(Box::new(alloc, keeper(alloc, &second)?)?)?;
    let doors = two_doors(alloc, makes_directory(), makes_file())?;
    let volumes = ["Share=memory", "Other=memory"];
    let finish = run(threads, alloc, &volumes, keepers, doors, &OpenGate)?;
    Ok(finish.status == 0 && has(&first, shared()) && has(&second, other()))
}

#[test]
fn volumes_are_kept_in_the_boxes_handed_in(rt: HostRuntime) -> Result<(), OutOfMemory> {
    assert!(rt; leave_their_images(&rt, rt.alloc())?);
    Ok(())
}
