//! Keepers in memory, plain and in a box: what commits leave, and which calls fail.
use afp_base::Bytes;
use record_keeper::{Change, Keeper, KeeperFault, MemoryKeeper, Record, RecordKey, read_all};
use std::alloc::Global;
use std::test::Fail;

fn bytes(alloc: Global, text: &str) -> Result<Bytes, Fail> {
    Ok(Bytes::of(alloc, text.as_bytes())?)
}

/// A change as text: `key=value`, or `key` alone where it is removed.
fn change(alloc: Global, text: &str) -> Result<Change, Fail> {
    match text.split_once('=') {
        None => Ok(Change::Remove {
            key: RecordKey::new(bytes(alloc, text)?),
        }),
        Some((key, value)) => Ok(Change::Put {
            key: RecordKey::new(bytes(alloc, key)?),
            value: bytes(alloc, value)?,
        }),
    }
}

fn commit<K: Keeper>(alloc: Global, keeper: &mut K, text: &str) -> Result<(), Fail> {
    let mut changes = Vec::new(alloc);
    for part in text.split_whitespace() {
        changes.push(change(alloc, part)?)?;
    }
    keeper.commit(alloc, changes)?;
    Ok(())
}

fn shown(alloc: Global, records: &[Record]) -> Result<Vec<u8>, Fail> {
    let mut text = Vec::new(alloc);
    for record in records {
        text.extend_from_slice(record.key.as_slice())?;
        text.push(b'=')?;
        text.extend_from_slice(record.value.as_slice())?;
        text.push(b' ')?;
    }
    Ok(text)
}

/// All records as text, read by key and value.
fn listed<K: Keeper>(alloc: Global, keeper: &mut K) -> Result<Vec<u8>, Fail> {
    match read_all(alloc, keeper) {
        Ok(records) => shown(alloc, records.as_slice()),
        Err(_) => Err("the keeper was not read")?,
    }
}

/// The changes of each commit, and all records after it.
fn commits() -> &'static [(&'static str, &'static str)] {
    &[
        ("", ""),
        ("b=1 a=2 b=3", "a=2 b=3 "),
        ("c=4 c ab=", "a=2 ab= b=3 "),
        ("a a=5 ab x", "a=5 b=3 "),
    ]
}

/// Whether a new keeper has, after each commit, the records that are wanted.
fn keeps<K: Keeper>(alloc: Global, keeper: &mut K) -> Result<bool, Fail> {
    for (changes, want) in commits() {
        commit(alloc, keeper, changes)?;
        keeper.settle()?;
        let text = listed(alloc, keeper)?;
        if text.as_slice() != want.as_bytes() {
            return Ok(false);
        }
    }
    Ok(true)
}

#[test]
fn commits_are_kept_plain_and_in_a_box(rt: HostRuntime) -> Result<(), Fail> {
    let mut plain = MemoryKeeper::new(rt.alloc(), Vec::new(rt.alloc()));
    assert!(rt; keeps(rt.alloc(), &mut plain)?);
    let inner = MemoryKeeper::new(rt.alloc(), Vec::new(rt.alloc()));
    let mut boxed: Box<dyn Keeper + Send> = Box::new(rt.alloc(), inner)?;
    assert!(rt; keeps(rt.alloc(), &mut boxed)?);
    Ok(())
}

/// Whether of a new keeper's calls those of the numbers 1 and 3 fail, and no others.
fn fails_as_planned<K: Keeper>(keeper: &mut K) -> bool {
    for fails in [false, true, false, true, false] {
        let answer = keeper.settle();
        let want = if fails {
            Err(KeeperFault::Failed)
        } else {
            Ok(())
        };
        if answer != want {
            return false;
        }
    }
    true
}

#[test]
fn planned_calls_fail_plain_and_in_a_box(rt: HostRuntime) -> Result<(), Fail> {
    let mut plain = MemoryKeeper::new(rt.alloc(), vec![in rt.alloc(); 1, 3]?);
    assert!(rt; fails_as_planned(&mut plain));
    let inner = MemoryKeeper::new(rt.alloc(), vec![in rt.alloc(); 1, 3]?);
    let mut boxed: Box<dyn Keeper + Send> = Box::new(rt.alloc(), inner)?;
    assert!(rt; fails_as_planned(&mut boxed));
    Ok(())
}
