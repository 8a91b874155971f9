//! The lines of a run.
use test_lines::{kind_of, last_word, number_at, word_at};

/// What a line does. A word of two parts names what it is done to: the bytes of a fork, the opens, the locks, or the table of open
/// forks.
#[derive(Clone, Copy, PartialEq, Eq)]
pub enum Kind {
    New,
    Write,
    Resize,
    PlanIndex,
    PlanBytes,
    PlanLength,
    PlanWrites,
    Read,
    Line,
    Stopped,
    Blocks,
    CopyLength,
    May,
    Note,
    Forget,
    Counter,
    SwapOpens,
    Lock,
    LockMany,
    Unlock,
    Blocked,
    Intervals,
    ForgetLocks,
    SwapLocks,
    Open,
    OpenMany,
    Close,
    CloseVolume,
    CloseSession,
    Get,
    Busy,
    MayOpen,
    Opened,
    Swap,
    OwnLock,
    OwnUnlock,
    OwnBlocked,
}

/// The word of each kind.
const KINDS: [(&str, Kind); 37] = [
    ("new", Kind::New),
    ("write", Kind::Write),
    ("resize", Kind::Resize),
    ("plan_index", Kind::PlanIndex),
    ("plan_bytes", Kind::PlanBytes),
    ("plan_length", Kind::PlanLength),
    ("plan_writes", Kind::PlanWrites),
    ("read", Kind::Read),
    ("line", Kind::Line),
    ("stopped", Kind::Stopped),
    ("blocks", Kind::Blocks),
    ("copy_length", Kind::CopyLength),
    ("opens_may", Kind::May),
    ("opens_note", Kind::Note),
    ("opens_forget", Kind::Forget),
    ("opens_counter", Kind::Counter),
    ("opens_swap", Kind::SwapOpens),
    ("locks_lock", Kind::Lock),
    ("locks_many", Kind::LockMany),
    ("locks_unlock", Kind::Unlock),
    ("locks_blocked", Kind::Blocked),
    ("locks_intervals", Kind::Intervals),
    ("locks_forget", Kind::ForgetLocks),
    ("locks_swap", Kind::SwapLocks),
    ("table_open", Kind::Open),
    ("table_many", Kind::OpenMany),
    ("table_close", Kind::Close),
    ("table_close_volume", Kind::CloseVolume),
    ("table_close_session", Kind::CloseSession),
    ("table_get", Kind::Get),
    ("table_busy", Kind::Busy),
    ("table_may", Kind::MayOpen),
    ("table_opened", Kind::Opened),
    ("table_swap", Kind::Swap),
    ("table_lock", Kind::OwnLock),
    ("table_unlock", Kind::OwnUnlock),
    ("table_blocked", Kind::OwnBlocked),
];

/// A line: what it does, the numbers behind it, 0 where there are none, and the last word.
#[derive(Clone, Copy)]
pub struct Line<'a> {
    pub kind: Kind,
    pub numbers: [u64; 4],
    pub text: &'a str,
}

/// The line of some words.
pub fn line_of<'a>(words: &[&'a str]) -> Option<Line<'a>> {
    let Some(kind) = kind_of(&KINDS, word_at(words, 0)) else {
        return None;
    };
    Some(Line {
        kind,
        numbers: [
            number_at(words, 1),
            number_at(words, 2),
            number_at(words, 3),
            number_at(words, 4),
        ],
        text: last_word(words),
    })
}
