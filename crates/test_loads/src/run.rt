//! What comes of lines.
use crate::desktop::of_creator;
use crate::line::{Kind, Line, line_of};
use crate::rows::{appl_of, code_at, icon_of, node, row_of};
use afp_base::{Moment, OutOfMemory};
use afp_names::Name;
use record_keeper::{Change, Keeper, KeeperFault, MemoryKeeper, Record, RecordKey, read_all};
use std::alloc::Global;
use test_lines::lines::owned;
use test_lines::{AnswersLines, LineResult};
use volume_edits::WholeVolume;
use volume_keeper::{LoadFault, load};
use volume_keeper_records::{Reason, TableRow, record_of};

/// A keeper, whose records lines put.
#[derive(Drop)]
pub struct Run {
    keeper: MemoryKeeper,
}

fn word_of(fault: KeeperFault) -> LineResult {
    match fault {
        KeeperFault::Failed => LineResult::Word("failed"),
        KeeperFault::Memory => LineResult::Word("memory"),
    }
}

fn reason_word(reason: Reason) -> &'static str {
    match reason {
        Reason::Shape => "shape",
        Reason::Parent => "parent",
        Reason::Twin => "twin",
        Reason::Range => "range",
        Reason::Limit => "limit",
    }
}

fn put(alloc: Global, changes: &mut Vec<Change>, row: &TableRow) -> Result<(), OutOfMemory> {
    let Record { key, value } = record_of(alloc, row)?;
    changes.push(Change::Put { key, value })?;
    Ok(())
}

/// So many directories, each in the one behind it; the last in this one.
fn put_chain(
    alloc: Global,
    changes: &mut Vec<Change>,
    count: u32,
    last: u32,
) -> Result<(), OutOfMemory> {
    for i in 0..count {
        let id = i.wrapping_add(17);
        let parent = if i.wrapping_add(1) == count {
            last
        } else {
            id.wrapping_add(1)
        };
        put(alloc, changes, &node(alloc, id, parent, None, "n")?)?;
    }
    Ok(())
}

/// So many icons.
fn put_icons(alloc: Global, changes: &mut Vec<Change>, count: u32) -> Result<(), OutOfMemory> {
    for number in 0..count {
        put(alloc, changes, &icon_of(alloc, number))?;
    }
    Ok(())
}

/// So many APPL mappings to a file.
fn put_appls(
    alloc: Global,
    changes: &mut Vec<Change>,
    node: u32,
    count: u32,
) -> Result<(), OutOfMemory> {
    for number in 0..count {
        put(alloc, changes, &appl_of(node, number))?;
    }
    Ok(())
}

/// The changes that a line tells.
fn changes_of(alloc: Global, line: &Line<'_>) -> Result<Vec<Change>, OutOfMemory> {
    let mut changes = Vec::new(alloc);
    match line.kind {
        Kind::Put => changes.push(Change::Put {
            key: RecordKey::new(owned(alloc, line.second)?),
            value: owned(alloc, line.text)?,
        })?,
        Kind::Remove => changes.push(Change::Remove {
            key: RecordKey::new(owned(alloc, line.text)?),
        })?,
        Kind::Chain => put_chain(alloc, &mut changes, line.numbers[0], 2)?,
        Kind::Ring => put_chain(alloc, &mut changes, line.numbers[0], 17)?,
        Kind::Icons => put_icons(alloc, &mut changes, line.numbers[0])?,
        Kind::Appls => put_appls(alloc, &mut changes, line.numbers[0], line.numbers[1])?,
        _ => put(alloc, &mut changes, &row_of(alloc, line)?)?,
    }
    Ok(changes)
}

/// The result of a bad record: its key, and why it is bad.
fn of_bad(alloc: Global, key: &RecordKey, reason: Reason) -> Result<LineResult, OutOfMemory> {
    let digits = hex::encode(alloc, key.as_slice())?;
    let word = reason_word(reason);
    Ok(LineResult::Text(format!(in alloc; "bad {digits} {word}")?))
}

/// The result of a volume that was loaded: what it has of a creator, where that is asked for; else how many nodes there are.
fn of_whole(
    alloc: Global,
    line: &Line<'_>,
    whole: &WholeVolume,
) -> Result<LineResult, OutOfMemory> {
    match line.kind {
        Kind::Desktop => of_creator(alloc, &whole.desktop, &code_at(line.second, 0)),
        _ => Ok(LineResult::Number(whole.tree.count() as u64)),
    }
}

/// The result of a load: of the volume, or why there is none.
fn of_load(
    alloc: Global,
    line: &Line<'_>,
    loaded: Result<WholeVolume, LoadFault>,
) -> Result<LineResult, OutOfMemory> {
    match loaded {
        Ok(whole) => of_whole(alloc, line, &whole),
        Err(LoadFault::BadRecord { key, reason }) => of_bad(alloc, &key, reason),
        Err(LoadFault::Failed) => Ok(LineResult::Word("failed")),
        Err(LoadFault::Memory) => Ok(LineResult::Word("memory")),
    }
}

impl Run {
    pub fn new(alloc: Global) -> Run {
        Run {
            keeper: MemoryKeeper::new(alloc, Vec::new(alloc)),
        }
    }

    /// A keeper whose call of this number fails, from 0.
    fn failing(alloc: Global, call: u32) -> Result<Run, OutOfMemory> {
        let mut calls = Vec::new(alloc);
        calls.push(u64::from(call))?;
        Ok(Run {
            keeper: MemoryKeeper::new(alloc, calls),
        })
    }

    fn change(&mut self, alloc: Global, line: &Line<'_>) -> Result<LineResult, OutOfMemory> {
        let changes = changes_of(alloc, line)?;
        match self.keeper.commit(alloc, changes) {
            Ok(()) => Ok(LineResult::Nothing),
            Err(fault) => Ok(word_of(fault)),
        }
    }

    fn load(&mut self, alloc: Global, line: &Line<'_>) -> Result<LineResult, OutOfMemory> {
        let Some(now) = Moment::new(line.numbers[0]) else {
            return Ok(LineResult::Word("no moment"));
        };
        match Name::new(alloc, line.text.as_bytes()) {
            Ok(_) => of_load(alloc, line, load(alloc, &mut self.keeper, line.text, now)),
            Err(_) => Ok(LineResult::Word("no name")),
        }
    }

    fn read(&mut self, alloc: Global, line: &Line<'_>) -> Result<LineResult, OutOfMemory> {
        let key = RecordKey::new(owned(alloc, line.text)?);
        match self.keeper.read(alloc, &key) {
            Ok(Some(value)) => Ok(LineResult::Bytes(value)),
            Ok(None) => Ok(LineResult::Word("none")),
            Err(fault) => Ok(word_of(fault)),
        }
    }

    fn count(&mut self, alloc: Global) -> LineResult {
        match read_all(alloc, &mut self.keeper) {
            Ok(records) => LineResult::Number(records.len() as u64),
            Err(_) => LineResult::Word("unread"),
        }
    }

    /// What comes of a line.
    fn run(&mut self, alloc: Global, line: &Line<'_>) -> Result<LineResult, OutOfMemory> {
        match line.kind {
            Kind::New => {
                *self = Run::new(alloc);
                Ok(LineResult::Nothing)
            }
            Kind::Failing => {
                *self = Run::failing(alloc, line.numbers[0])?;
                Ok(LineResult::Nothing)
            }
            Kind::Load => self.load(alloc, line),
            Kind::Desktop => self.load(alloc, line),
            Kind::Read => self.read(alloc, line),
            Kind::Count => Ok(self.count(alloc)),
            _ => self.change(alloc, line),
        }
    }
}

impl AnswersLines for Run {
    fn answer(&mut self, alloc: Global, words: &[&str]) -> Result<Option<LineResult>, OutOfMemory> {
        match line_of(words) {
            Some(line) => Ok(Some(self.run(alloc, &line)?)),
            None => Ok(None),
        }
    }
}
