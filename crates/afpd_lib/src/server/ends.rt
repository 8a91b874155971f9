//! How a run of the server ends, and what is reported of it.
ghost use Rattle.std.specs.Prelude.{◌≡◌, map, string_bytes};
ghost use Rattle.afpd_lib.specs.words.Words.{SaysWords, WordValues};
ghost use Rattle.afpd_lib.specs.server.Run.{Status};
ghost use Rattle.afpd_lib.specs.server.lemma.Run.{EndsLoad, EndsUnread, end_of};

use crate::server::notes::Notes;
use crate::server::report::{report_bad, report_counts, report_fault};
use crate::words::explain;
use afp_core::Counts;
use afp_outside::{Sink, print_all};
use afp_server::WorkerEnd;
use std::alloc::Global;
use volume_keeper::{LoadFault, Reason};

/// How a run of the server ends.
#[derive(Drop)]
pub enum RunEnd {
    /// The words ask for help, or for the version: this text.
    Helped {
        text: String,
    },
    /// The words are others, or the house that they ask for is refused, or the numbers of keepers or of doors are not those of its volumes and workers.
    Refused,
    /// There was no memory, before a door was served or for a link.
    Memory,
    /// The first record that no volume of that name has, of the keeper of the volume at this index, from 0: its key in hexadecimal, and why.
    BadRecord {
        index: usize,
        key: String,
        reason: Reason,
    },
    /// The keeper of the volume at this index, from 0, failed while its volume was loaded.
    LoadFailed {
        index: usize,
    },
    /// A door failed.
    DoorFailed(Counts),
    /// Each door is closed.
    Served(Counts),
}

/// How a run ends whose volumes could not be loaded.
pub(crate) fn load_end(alloc: Global, index: usize, fault: LoadFault) -> RunEnd
    ensures { EndsLoad index fault result }
{
    match fault {
        LoadFault::BadRecord { key, reason } => match hex::encode(alloc, key.as_slice()) {
            Ok(key) => RunEnd::BadRecord { index, key, reason },
            Err(_) => RunEnd::Memory,
        },
        LoadFault::Failed => RunEnd::LoadFailed { index },
        LoadFault::Memory => RunEnd::Memory,
    }
}

/// How a run ends whose doors were served, by how its workers ended.
pub(crate) fn end_of(end: WorkerEnd, counts: Counts) -> RunEnd
    ensures { result ≡ end_of end counts }
{
    match end {
        WorkerEnd::Closed => RunEnd::Served(counts),
        WorkerEnd::Failed => RunEnd::DoorFailed(counts),
        WorkerEnd::Memory => RunEnd::Memory,
    }
}

/// How a run ends whose words say nothing: with their help, where they ask for it. Else notes tell a person what is wrong.
pub(crate) fn unread_end<P: Notes>(alloc: Global, words: &[String], notes: &mut P) -> RunEnd
    requires { (values : WordValues) → SaysWords (map (λ word. string_bytes word) words.now) values → ⊥ }
    ensures { EndsUnread (map (λ word. string_bytes word) words.now) result }
{
    match explain(alloc, words) {
        Err(_) => RunEnd::Memory,
        Ok(None) => RunEnd::Refused,
        Ok(Some(told)) => {
            let text = told.text;
            if told.asked {
                return RunEnd::Helped { text };
            }
            notes.tell(text.as_str());
            RunEnd::Refused
        }
    }
}

/// Reports how the run ended, and gives the exit status.
pub fn report_end<O: Sink>(end: RunEnd, report: &mut O) -> u8
    ensures { Status end (O.sink_state report.old) (O.sink_state report.new) result }
{
    match end {
        RunEnd::Helped { text } => {
            if print_all(report, text.as_str().as_bytes()) {
                0
            } else {
                5
            }
        }
        RunEnd::Served(counts) => {
            if report_counts(report, counts.entries, counts.sessions) {
                0
            } else {
                5
            }
        }
        RunEnd::DoorFailed(counts) => {
            if report_counts(report, counts.entries, counts.sessions) {
                4
            } else {
                5
            }
        }
        RunEnd::BadRecord { index, key, reason } => {
            if report_bad(report, index, key.as_str().as_bytes(), reason) {
                3
            } else {
                5
            }
        }
        RunEnd::LoadFailed { index } => { if report_fault(report, index) { 3 } else { 5 } }
        RunEnd::Refused => {
            if print_all(report, b"bad words\n") {
                2
            } else {
                5
            }
        }
        RunEnd::Memory => {
            let _written = print_all(report, b"no memory\n");
            6
        }
    }
}
