//! Lines, and what comes of them.
use crate::many::{clear, fill, fill_each, found, listed, rename};
use crate::volume::{add, add_node, admit, move_to, share};
use afp_base::{NodeId, OutOfMemory};
use node_rows::{Marks, Node, Rows};
use std::alloc::Global;
use test_lines::{AnswersLines, LineResult, kind_of, last_word, small_number_at, word_at};

/// What a line does: it changes one node or many, or it asks.
#[derive(Clone, Copy, PartialEq, Eq)]
enum Kind {
    New,
    Make,
    File,
    Admit,
    Place,
    Mark,
    Remove,
    Fill,
    FillEach,
    Rename,
    Clear,
    Count,
    Nodes,
    Children,
    Listed,
    Found,
    Child,
    Nth,
    Files,
    Dirs,
    Next,
    NodeAt,
    Keyed,
    Attributes,
    Marked,
    Named,
    Parent,
}

/// The word of each kind.
const KINDS: [(&str, Kind); 27] = [
    ("new", Kind::New),
    ("make", Kind::Make),
    ("file", Kind::File),
    ("admit", Kind::Admit),
    ("place", Kind::Place),
    ("mark", Kind::Mark),
    ("remove", Kind::Remove),
    ("fill", Kind::Fill),
    ("fill_each", Kind::FillEach),
    ("rename", Kind::Rename),
    ("clear", Kind::Clear),
    ("count", Kind::Count),
    ("nodes", Kind::Nodes),
    ("children", Kind::Children),
    ("listed", Kind::Listed),
    ("found", Kind::Found),
    ("child", Kind::Child),
    ("nth", Kind::Nth),
    ("files", Kind::Files),
    ("dirs", Kind::Dirs),
    ("next", Kind::Next),
    ("node_at", Kind::NodeAt),
    ("keyed", Kind::Keyed),
    ("attributes", Kind::Attributes),
    ("marked", Kind::Marked),
    ("named", Kind::Named),
    ("parent", Kind::Parent),
];

/// A line: what it does, the ids or numbers behind it, 0 where there are none, and the last word.
#[derive(Clone, Copy)]
struct Line<'a> {
    kind: Kind,
    id: NodeId,
    number: u32,
    skip: u32,
    text: &'a str,
}

/// The line of some words.
fn line_of<'a>(words: &[&'a str]) -> Option<Line<'a>> {
    match kind_of(&KINDS, word_at(words, 0)) {
        Some(kind) => Some(Line {
            kind,
            id: NodeId(small_number_at(words, 1)),
            number: small_number_at(words, 2),
            skip: small_number_at(words, 3),
            text: last_word(words),
        }),
        None => None,
    }
}

/// Marks that no node has at first, with these attributes.
fn marks(attributes: u32) -> Marks {
    Marks {
        attributes: (attributes % 65536) as u16,
        created: 1,
        modified: 2,
        backup: 3,
        finder: [7; 32],
        filed: true,
        owner: 501,
        group: 502,
        rights: [1, 2, 4],
    }
}

/// Whether a node has those marks.
fn is_marked(node: &Node) -> bool {
    node.filed
        && node.created == 1
        && node.modified == 2
        && node.backup == 3
        && node.finder[31] == 7
        && node.owner == 501
        && node.group == 502
        && node.rights[0] == 1
        && node.rights[1] == 2
        && node.rights[2] == 4
}

/// What is told of the node of an id: its attributes, whether it has those marks or that name, or its parent.
fn told_of(node: &Node, line: &Line<'_>) -> Option<u64> {
    match line.kind {
        Kind::Attributes => Some(u64::from(node.attributes)),
        Kind::Marked => Some(u64::from(is_marked(node))),
        Kind::Named => Some(u64::from(node.name.as_str() == line.text)),
        _ => Some(u64::from(node.parent.0)),
    }
}

/// The id of the node at a place of all nodes.
fn node_at(rows: &Rows, i: usize) -> Option<NodeId> {
    let nodes = rows.nodes();
    if i >= nodes.len() {
        return None;
    }
    let node = &nodes[i];
    Some(node.id)
}

/// The id of the child at a place of all children, where its key is this one.
fn keyed(rows: &Rows, i: usize, key: &str) -> Option<NodeId> {
    let children = rows.children();
    if i < children.len() && children[i].key.as_slice() == key.as_bytes() {
        Some(children[i].id)
    } else {
        None
    }
}

/// The place of the file, or of the directory, behind so many others, from a place on.
fn place_of(rows: &Rows, line: &Line<'_>, files: bool) -> Option<u64> {
    let (from, skip) = (line.number as usize, line.skip as usize);
    match rows.place_behind(line.id, files, from, skip) {
        Some(place) => Some(place as u64),
        None => None,
    }
}

fn id_of(id: Option<NodeId>) -> Option<u64> {
    match id {
        Some(id) => Some(u64::from(id.0)),
        None => None,
    }
}

/// What is asked of one node or one place: `get`, `child`, `nth` and the like.
fn asked(rows: &Rows, line: &Line<'_>) -> Option<u64> {
    let place = line.number as usize;
    match line.kind {
        Kind::Child => id_of(rows.child(line.id, line.text.as_bytes())),
        Kind::Nth => id_of(rows.nth(line.id, place)),
        Kind::Files => place_of(rows, line, true),
        Kind::Dirs => place_of(rows, line, false),
        Kind::Next => id_of(rows.next_id()),
        Kind::NodeAt => id_of(node_at(rows, line.id.0 as usize)),
        Kind::Keyed => id_of(keyed(rows, line.id.0 as usize, line.text)),
        _ => match rows.get(line.id) {
            Some(node) => told_of(node, line),
            None => None,
        },
    }
}

/// What is counted.
fn counted(alloc: Global, rows: &Rows, line: &Line<'_>) -> Result<Option<u64>, OutOfMemory> {
    match line.kind {
        Kind::Count => Ok(Some(rows.count() as u64)),
        Kind::Nodes => Ok(Some(rows.nodes().len() as u64)),
        Kind::Children => Ok(Some(rows.children().len() as u64)),
        Kind::Listed => Ok(Some(listed(rows, line.id) as u64)),
        Kind::Found => Ok(Some(u64::from(found(alloc, rows)?))),
        _ => Ok(asked(rows, line)),
    }
}

/// Many nodes at once: how many.
fn many(alloc: Global, rows: &mut Rows, line: &Line<'_>) -> Result<u32, OutOfMemory> {
    let (id, number, word) = (line.id, line.number, line.text);
    match line.kind {
        Kind::Fill => fill(alloc, rows, id, number, word),
        Kind::FillEach => fill_each(alloc, rows, id, number, word),
        Kind::Rename => rename(alloc, rows, id, number as usize, word),
        _ => Ok(clear(rows, id, number as usize)),
    }
}

/// One node: its id, none where the name or the id is not free.
fn one(alloc: Global, rows: &mut Rows, line: &Line<'_>) -> Result<Option<NodeId>, OutOfMemory> {
    let (id, dir, name) = (line.id, NodeId(line.number), line.text);
    match line.kind {
        Kind::Make => add(alloc, rows, id, name),
        Kind::File => add_node(alloc, rows, id, name, true),
        Kind::Admit => admit(alloc, rows, id, dir, name),
        Kind::Place => move_to(alloc, rows, id, dir, name),
        Kind::Mark => {
            match rows.find(id) {
                Some(place) => rows.mark_at(place, marks(line.number)),
                None => {}
            }
            Ok(Some(id))
        }
        _ => {
            rows.remove(id);
            Ok(Some(id))
        }
    }
}

/// What comes of a line: a number, or none.
fn answer(alloc: Global, rows: &mut Rows, line: &Line<'_>) -> Result<Option<u64>, OutOfMemory> {
    match line.kind {
        Kind::New => {
            *rows = share(alloc, line.id.0)?;
            Ok(Some(rows.count() as u64))
        }
        Kind::Make | Kind::File | Kind::Admit | Kind::Place | Kind::Mark | Kind::Remove => Ok(id_of(
            one(alloc, rows, line)?,
        )),
        Kind::Fill | Kind::FillEach | Kind::Rename | Kind::Clear => Ok(Some(u64::from(many(
            alloc, rows, line,
        )?))),
        _ => counted(alloc, rows, line),
    }
}

/// The nodes that lines have left.
#[derive(Drop)]
pub struct Run {
    rows: Rows,
}

impl Run {
    /// The root alone, and the next id 17.
    pub fn new(alloc: Global) -> Result<Run, OutOfMemory> {
        Ok(Run {
            rows: share(alloc, 17)?,
        })
    }
}

impl AnswersLines for Run {
    fn answer(&mut self, alloc: Global, words: &[&str]) -> Result<Option<LineResult>, OutOfMemory> {
        let Some(line) = line_of(words) else {
            return Ok(None);
        };
        match answer(alloc, &mut self.rows, &line)? {
            Some(number) => Ok(Some(LineResult::Number(number))),
            None => Ok(Some(LineResult::Word("none"))),
        }
    }
}
