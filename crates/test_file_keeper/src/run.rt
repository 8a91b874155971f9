//! What comes of lines.
use crate::changes::{fill, key_of, numbered, put, removal};
use crate::line::{Kind, Line, Span, line_of};
use crate::words::{fault_word, open_word, read_word};
use afp_base::OutOfMemory;
use record_keeper::{Change, Keeper, KeeperFault, Record, read_all};
use sqlite_durable_file::FileKeeper;
use std::alloc::Global;
use std::io::ErrorKind;
use std::{io, mem};
use test_lines::TakesLines;
use test_lines::lines::{LineResult, print_result};

/// The keeper of the open file, and the changes that the next commit makes.
#[derive(Drop)]
pub struct Run {
    keeper: Option<FileKeeper>,
    changes: Vec<Change>,
}

const CLOSED: LineResult = LineResult::Word("closed");

const DONE: LineResult = LineResult::Word("ok");

fn of_answer(answer: Result<(), KeeperFault>) -> LineResult {
    match answer {
        Ok(()) => DONE,
        Err(fault) => LineResult::Word(fault_word(fault)),
    }
}

/// How many records there are, and how many bytes their values have.
fn totals<K: Keeper>(alloc: Global, keeper: &mut K) -> Result<LineResult, OutOfMemory> {
    match read_all(alloc, keeper) {
        Ok(records) => {
            let mut bytes: usize = 0;
            for record in records.iter() {
                bytes = bytes.wrapping_add(record.value.as_slice().len());
            }
            let count = records.len();
            Ok(LineResult::Text(format!(in alloc; "{count} {bytes}")?))
        }
        Err(fault) => Ok(LineResult::Word(read_word(&fault))),
    }
}

fn push_record(alloc: Global, text: &mut String, record: &Record) -> Result<(), OutOfMemory> {
    if !text.is_empty() {
        text.push(' ')?;
    }
    text.push_str(hex::encode(alloc, record.key.as_slice())?.as_str())?;
    text.push('=')?;
    text.push_str(hex::encode(alloc, record.value.as_slice())?.as_str())?;
    Ok(())
}

/// Each record.
fn shown<K: Keeper>(alloc: Global, keeper: &mut K) -> Result<LineResult, OutOfMemory> {
    match read_all(alloc, keeper) {
        Ok(records) => {
            if records.is_empty() {
                return Ok(LineResult::Nothing);
            }
            let mut text = String::new(alloc);
            for record in records.iter() {
                push_record(alloc, &mut text, record)?;
            }
            Ok(LineResult::Text(text))
        }
        Err(fault) => Ok(LineResult::Word(read_word(&fault))),
    }
}

fn value_at<K: Keeper>(
    alloc: Global,
    keeper: &mut K,
    digits: &str,
) -> Result<LineResult, OutOfMemory> {
    match keeper.read(alloc, &key_of(alloc, digits)?) {
        Ok(Some(value)) => Ok(LineResult::Bytes(value)),
        Ok(None) => Ok(LineResult::Word("none")),
        Err(fault) => Ok(LineResult::Word(fault_word(fault))),
    }
}

/// Commits each record of a span by itself. It ends at the first refusal.
fn commit_each<K: Keeper>(
    alloc: Global,
    keeper: &mut K,
    span: Span,
) -> Result<LineResult, OutOfMemory> {
    for i in 0..span.count {
        let mut changes = Vec::new(alloc);
        changes.push(numbered(alloc, span.first.wrapping_add(i), span)?)?;
        if let Err(fault) = keeper.commit(alloc, changes) {
            return Ok(LineResult::Word(fault_word(fault)));
        }
    }
    Ok(DONE)
}

/// What an open keeper answers to a line.
fn asked<K: Keeper>(
    alloc: Global,
    keeper: &mut K,
    changes: Vec<Change>,
    line: &Line<'_>,
) -> Result<LineResult, OutOfMemory> {
    match line.kind {
        Kind::Commit => Ok(of_answer(keeper.commit(alloc, changes))),
        Kind::Each => commit_each(alloc, keeper, line.span),
        Kind::Settle => Ok(of_answer(keeper.settle())),
        Kind::Read => value_at(alloc, keeper, line.second),
        Kind::Load => totals(alloc, keeper),
        _ => shown(alloc, keeper),
    }
}

impl Run {
    /// No file is open.
    pub fn new(alloc: Global) -> Run {
        Run {
            keeper: None,
            changes: Vec::new(alloc),
        }
    }

    fn open(&mut self, rt: &HostRuntime, path: &str) -> LineResult {
        self.keeper = None;
        match FileKeeper::open(rt, path) {
            Ok(keeper) => {
                self.keeper = Some(keeper);
                DONE
            }
            Err(fault) => LineResult::Word(open_word(&fault)),
        }
    }

    /// Takes a change that the next commit makes.
    fn change(&mut self, alloc: Global, line: &Line<'_>) -> Result<LineResult, OutOfMemory> {
        match line.kind {
            Kind::Put => self.changes.push(put(alloc, line.second, line.third)?)?,
            Kind::Remove => self.changes.push(removal(alloc, line.second)?)?,
            _ => fill(alloc, &mut self.changes, line.span)?,
        }
        Ok(LineResult::Nothing)
    }

    /// What comes of a line for the open keeper. A commit takes the changes, so that none are left.
    fn ask(&mut self, alloc: Global, line: &Line<'_>) -> Result<LineResult, OutOfMemory> {
        let mut changes = Vec::new(alloc);
        if line.kind == Kind::Commit {
            changes = mem::replace(&mut self.changes, changes);
        }
        match &mut self.keeper {
            Some(keeper) => asked(alloc, keeper, changes, line),
            None => Ok(CLOSED),
        }
    }

    fn run(&mut self, rt: &HostRuntime, line: &Line<'_>) -> Result<LineResult, OutOfMemory> {
        match line.kind {
            Kind::Open => Ok(self.open(rt, line.second)),
            Kind::Close => {
                self.keeper = None;
                Ok(DONE)
            }
            Kind::Put | Kind::Remove | Kind::Fill => self.change(rt.alloc(), line),
            _ => self.ask(rt.alloc(), line),
        }
    }
}

impl TakesLines for Run {
    fn take(&mut self, rt: &HostRuntime, _number: u64, line: &str) -> io::Result<()> {
        let words: Vec<&str> = line.split_whitespace().collect(rt.alloc())?;
        let Some(read) = line_of(words.as_slice()) else {
            return Ok(());
        };
        match self.run(rt, &read) {
            Ok(result) => print_result(rt, line, &result),
            Err(OutOfMemory) => Err(io::Error::from(ErrorKind::OutOfMemory)),
        }
    }
}
