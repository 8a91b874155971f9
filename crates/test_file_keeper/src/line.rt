//! The lines of a run.
use test_lines::{kind_of, number_at, word_at};

/// What a line does: it opens a file or closes it, names changes, commits them, or reads.
#[derive(Clone, Copy, PartialEq, Eq)]
pub enum Kind {
    Open,
    Close,
    Put,
    Remove,
    Fill,
    Each,
    Commit,
    Settle,
    Read,
    Load,
    Show,
}

/// The word of each kind.
const KINDS: [(&str, Kind); 11] = [
    ("open", Kind::Open),
    ("close", Kind::Close),
    ("put", Kind::Put),
    ("remove", Kind::Remove),
    ("fill", Kind::Fill),
    ("each", Kind::Each),
    ("commit", Kind::Commit),
    ("settle", Kind::Settle),
    ("read", Kind::Read),
    ("load", Kind::Load),
    ("show", Kind::Show),
];

/// Records whose keys are so many numbers from one on, with values of so many bytes, which tell a turn.
#[derive(Clone, Copy)]
pub struct Span {
    pub first: u64,
    pub count: u64,
    pub size: u64,
    pub turn: u64,
}

/// A line: what it does, its second and third word, empty where there are none, and the records that its numbers name.
#[derive(Clone, Copy)]
pub struct Line<'a> {
    pub kind: Kind,
    pub second: &'a str,
    pub third: &'a str,
    pub span: Span,
}

/// The line of some words.
pub fn line_of<'a>(words: &[&'a str]) -> Option<Line<'a>> {
    let Some(kind) = kind_of(&KINDS, word_at(words, 0)) else {
        return None;
    };
    Some(Line {
        kind,
        second: word_at(words, 1),
        third: word_at(words, 2),
        span: Span {
            first: number_at(words, 1),
            count: number_at(words, 2),
            size: number_at(words, 3),
            turn: number_at(words, 4),
        },
    })
}
