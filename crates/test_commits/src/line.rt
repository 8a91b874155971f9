//! The lines of a run.
ghost use Rattle.std.specs.Prelude.{◌≤◌, length};

use crate::run::Run;
use afp_base::{NodeId, OutOfMemory};
use record_keeper::Change;
use std::alloc::Global;
use test_lines::{AnswersLines, LineResult, number_at, small_number_at, word_at};

/// How many zeros bytes begin with.
fn zeros_of(bytes: &[u8]) -> usize
    ensures { result ≤ length bytes.now }
{
    for place in 0..bytes.len() {
        if bytes[place] != 0 {
            return place;
        }
    }
    bytes.len()
}

/// The text of a change: the key, the zeros that the value begins with, and the bytes behind them.
fn text_of(alloc: Global, change: &Change) -> Result<String, OutOfMemory> {
    let key = hex::encode(alloc, change.key().as_slice())?;
    match change {
        Change::Put { key: _, value } => {
            let zeros = zeros_of(value.as_slice());
            let rest = hex::encode(alloc, &value.as_slice()[zeros..])?;
            Ok(format!(in alloc; "put {key}: {zeros} zeros, {rest}")?)
        }
        Change::Remove { key: _ } => Ok(format!(in alloc; "remove {key}")?),
    }
}

/// A change of the last commit, by its number from 0.
fn change_at(alloc: Global, run: &Run, number: u32) -> Result<LineResult, OutOfMemory> {
    match run.changes().get(number as usize) {
        Some(change) => Ok(LineResult::Text(text_of(alloc, change)?)),
        None => Ok(LineResult::Word("none")),
    }
}

/// What the words of a line do to a volume, or tell of it.
fn run_line(alloc: Global, run: &mut Run, words: &[&str]) -> Result<LineResult, OutOfMemory> {
    let dir = NodeId(small_number_at(words, 1));
    let text = word_at(words, 2);
    match word_at(words, 0) {
        "create_dir" => Ok(run.create_dir(alloc, dir, text)),
        "create_file" => Ok(run.create_file(alloc, dir, text)),
        "delete" => Ok(run.delete(alloc, dir, text)),
        "open_dir" => Ok(run.open_dir(alloc, dir, text)),
        "size" => Ok(run.size(alloc, dir, number_at(words, 2))),
        "write" => Ok(run.write(alloc, dir, number_at(words, 2), word_at(words, 3))),
        "change" => change_at(alloc, run, dir.0),
        "changes" => Ok(LineResult::Number(run.changes().len() as u64)),
        "count" => Ok(run.count()),
        "next" => Ok(run.next()),
        "settle" => Ok(run.settle()),
        _ => Ok(LineResult::Word("no such line")),
    }
}

/// The volume that lines work on, where one was loaded.
#[derive(Drop)]
pub struct Volumes {
    pub run: Option<Run>,
}

impl Volumes {
    /// Another volume, where it was loaded.
    fn renew(&mut self, loaded: Option<Run>) -> LineResult {
        let word = if loaded.is_some() { "ok" } else { "failed" };
        self.run = loaded;
        LineResult::Word(word)
    }
}

impl AnswersLines for Volumes {
    fn answer(&mut self, alloc: Global, words: &[&str]) -> Result<Option<LineResult>, OutOfMemory> {
        match word_at(words, 0) {
            "new" => {
                let failing = u64::from(small_number_at(words, 1));
                Ok(Some(self.renew(Run::new(alloc, failing)?)))
            }
            "spent" => Ok(Some(self.renew(Run::spent(alloc)?))),
            _ => match &mut self.run {
                Some(run) => Ok(Some(run_line(alloc, run, words)?)),
                None => Ok(Some(LineResult::Word("no volume"))),
            },
        }
    }
}
