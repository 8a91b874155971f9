//! The entries of a list of the source.
ghost use Rattle.std.specs.Prelude.{◌≡◌, ◌==◌, ◌+◌, ◌≤◌, [], IfOk, None, Some, length, nat_le};
ghost use Rattle.std.specs.List.{list_any};
ghost use Rattle.afp_mirror_walk.specs.Follows.{GivesPage, page_from, was_told, with_found};
ghost use Rattle.afp_mirror_walk.specs.Settings.{attributes_word, dir_attributes, file_attributes, found_in, settings_of};
ghost use Rattle.afp_mirror_walk.specs.lemma.Given.{GivesFound, GivesName};

use crate::walk::ends::{MirrorEnd, Side};
use crate::walk::standing::{Found, Made, Settings};
use afp_base::NodeId;
use afp_bitmap::{DirValues, FileValues, Values};
use afp_names::{Name, NameFault};
use afp_replies::ListEntry;
use std::alloc::Global;

/// The most nodes that are mirrored.
pub const MOST_NODES: usize = 10_000;

/// The attributes that can be set of a file, and of a directory; and the bit that sets them.
const FILE_ATTRIBUTES: u16 = 0x01e5;

const DIR_ATTRIBUTES: u16 = 0x01c5;

const SET: u16 = 0x8000;

/// The word that sets the attributes of a mask.
fn word_of(mask: u16, attributes: u16) -> u16
    ensures { result ≡ attributes_word mask attributes }
{
    (attributes & mask) | SET
}

/// The name of these bytes.
fn name_of(alloc: Global, bytes: &[u8]) -> Result<Name, MirrorEnd>
    ensures { GivesName bytes.now result }
{
    match Name::new(alloc, bytes) {
        Ok(name) => Ok(name),
        Err(fault) => match fault {
            NameFault::Memory => Err(MirrorEnd::Memory),
            NameFault::Empty | NameFault::TooLong | NameFault::HasNul | NameFault::NotUtf8 => {
                Err(MirrorEnd::Bad { side: Side::From })
            }
        },
    }
}

fn file_settings(file: &FileValues) -> Settings
    ensures { result ≡ settings_of (attributes_word file_attributes file.now.attributes) file.now.created file.now.modified file.now.backup file.now.finder }
{
    Settings {
        word: word_of(FILE_ATTRIBUTES, file.attributes),
        created: file.created,
        modified: file.modified,
        backup: file.backup,
        finder: file.finder,
    }
}

fn dir_settings(dir: &DirValues) -> Settings
    ensures { result ≡ settings_of (attributes_word dir_attributes dir.now.attributes) dir.now.created dir.now.modified dir.now.backup dir.now.finder }
{
    Settings {
        word: word_of(DIR_ATTRIBUTES, dir.attributes),
        created: dir.created,
        modified: dir.modified,
        backup: dir.backup,
        finder: dir.finder,
    }
}

/// The node that an entry tells.
#[tactic(auto, unfolding(crate::specs::Settings::found_in))]
fn found_of(alloc: Global, values: &Values) -> Result<Found, MirrorEnd>
    ensures { GivesFound (found_in values.now) result }
{
    match values {
        Values::File(file) => match name_of(alloc, file.utf8_name.as_slice()) {
            Ok(name) => Ok(Found {
                id: NodeId(file.id),
                dir: false,
                name,
                settings: file_settings(file),
            }),
            Err(end) => Err(end),
        },
        Values::Dir(dir) => match name_of(alloc, dir.utf8_name.as_slice()) {
            Ok(name) => Ok(Found {
                id: NodeId(dir.id),
                dir: true,
                name,
                settings: dir_settings(dir),
            }),
            Err(end) => Err(end),
        },
        Values::Volume(_) => Err(MirrorEnd::Bad { side: Side::From }),
    }
}

fn was_made(nodes: &[Made], id: NodeId) -> bool
    ensures { result ≡ list_any (λ node. node.source.0 == id.0) nodes.now }
{
    nodes.iter().any(|node| node.source.0 == id.0)
}

fn was_found(page: &[Found], id: NodeId) -> bool
    ensures { result ≡ list_any (λ f. f.id.0 == id.0) page.now }
{
    page.iter().any(|found| found.id.0 == id.0)
}

/// Whether an id was told before.
fn was_told(nodes: &[Made], page: &[Found], id: NodeId) -> bool
    ensures { result ≡ was_told nodes.now page.now id }
{
    if was_made(nodes, id) {
        true
    } else {
        was_found(page, id)
    }
}

/// Whether there are as many nodes as are mirrored.
fn are_most(made: usize, found: usize) -> bool
    ensures { result ≡ nat_le 10000 (made + found) }
{
    match made.checked_add(found) {
        Some(count) => count >= MOST_NODES,
        None => true,
    }
}

/// A page with the node of an entry.
fn with_found(
    alloc: Global,
    nodes: &[Made],
    page: Vec<Found>,
    values: &Values,
) -> Result<Vec<Found>, MirrorEnd>
    ensures given { GivesPage (λ v. v.items) (with_found nodes.now page.items (found_in values.now)) result }
    ensures longer { IfOk result (λ v. length v.items ≡ length page.items + 1) }
{
    let found = match found_of(alloc, values) {
        Ok(found) => found,
        Err(end) => return Err(end),
    };
    if was_told(nodes, page.as_slice(), found.id) {
        return Err(MirrorEnd::Bad { side: Side::From });
    }
    if are_most(nodes.len(), page.len()) {
        return Err(MirrorEnd::TooMany);
    }
    let mut page = page;
    match page.push(found) {
        Ok(()) => Ok(page),
        Err(_) => Err(MirrorEnd::Memory),
    }
}

/// The nodes of the entries of a list.
#[tactic(auto, using(crate::proofs::Steps::page_more, crate::proofs::Steps::page_done, crate::proofs::Steps::page_ends))]
pub(crate) fn page_of(
    alloc: Global,
    nodes: &[Made],
    rows: &[ListEntry],
) -> Result<Vec<Found>, MirrorEnd>
    ensures given { GivesPage (λ v. v.items) (page_from nodes.now [] rows.now) result }
    ensures longer { IfOk result (λ v. length rows.now ≤ length v.items) }
{
    let mut page = Vec::new(alloc);
    let mut index = 0;
    while index < rows.len() {
        let row = &rows[index];
        page = match with_found(alloc, nodes, page, &row.values) {
            Ok(more) => more,
            Err(end) => return Err(end),
        };
        index += 1;
    }
    Ok(page)
}
