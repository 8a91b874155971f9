//! The lines of a run.
use test_lines::{kind_of, last_word, small_number_at, word_at};

/// What a line does: it takes a new keeper, also one of whose calls one fails, puts a record, also as the older version has it, or takes one away, puts the records
/// of many directories, one in the other, of many icons or of many APPL mappings, loads the volume, also to show what it has of a creator, or reads a value.
#[derive(Clone, Copy, PartialEq, Eq)]
pub enum Kind {
    New,
    Failing,
    Head,
    Dir,
    File,
    OldHead,
    OldDir,
    OldFile,
    Block,
    Comment,
    Icon,
    Bits,
    Icons,
    Appl,
    Appls,
    Put,
    Remove,
    Chain,
    Ring,
    Load,
    Desktop,
    Read,
    Count,
}

/// The word of each kind.
const KINDS: [(&str, Kind); 23] = [
    ("new", Kind::New),
    ("failing", Kind::Failing),
    ("head", Kind::Head),
    ("dir", Kind::Dir),
    ("file", Kind::File),
    ("old-head", Kind::OldHead),
    ("old-dir", Kind::OldDir),
    ("old-file", Kind::OldFile),
    ("block", Kind::Block),
    ("comment", Kind::Comment),
    ("icon", Kind::Icon),
    ("bits", Kind::Bits),
    ("icons", Kind::Icons),
    ("appl", Kind::Appl),
    ("appls", Kind::Appls),
    ("put", Kind::Put),
    ("remove", Kind::Remove),
    ("chain", Kind::Chain),
    ("ring", Kind::Ring),
    ("load", Kind::Load),
    ("desktop", Kind::Desktop),
    ("read", Kind::Read),
    ("count", Kind::Count),
];

/// A line: what it does, the numbers behind it, 0 where there are none, its second word, and its last.
#[derive(Clone, Copy)]
pub struct Line<'a> {
    pub kind: Kind,
    pub numbers: [u32; 3],
    pub second: &'a str,
    pub text: &'a str,
}

/// The line of some words.
pub fn line_of<'a>(words: &[&'a str]) -> Option<Line<'a>> {
    let Some(kind) = kind_of(&KINDS, word_at(words, 0)) else {
        return None;
    };
    Some(Line {
        kind,
        numbers: [
            small_number_at(words, 1),
            small_number_at(words, 2),
            small_number_at(words, 3),
        ],
        second: word_at(words, 1),
        text: last_word(words),
    })
}
