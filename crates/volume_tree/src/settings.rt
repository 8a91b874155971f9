//! What calls set of nodes.
ghost use Rattle.std.specs.Prelude.{◌≡◌, pos, Some, None, unwrap_or, option_map};
ghost use Rattle.volume_spec.specs.SetFileDirParms.{attributes_by, with_settings};
ghost use Rattle.node_rows.specs.Kept.{marked};
ghost use Rattle.volume_tree.specs.lemma.After.{marks_after};

use afp_base::Moment;
use node_rows::{Marks, Node};
use std::marker::Model;
use volume_spec::limits::{DIRECTORY_ATTRIBUTES, FILE_ATTRIBUTES};

/// The bit of an attributes word that says that its others are to be set; without it they are to be
/// cleared (AFP Reference, "File attributes").
const SET_OR_CLEAR: u16 = 0x8000;

/// What is set of a node, where it is: attributes by their word, dates, Finder info; of a directory also its owner, its group, and the rights of everyone, of
/// the group and of the owner in this order.
///
/// Contracts see the definition's settings.
#[derive(Drop)]
pub struct Settings {
    pub attributes: Option<u16>,
    pub created: Option<i32>,
    pub modified: Option<i32>,
    pub backup: Option<i32>,
    pub finder: Option<[u8; 32]>,
    pub owner: Option<u32>,
    pub group: Option<u32>,
    pub rights: Option<[u8; 3]>,
}

impl Model for Settings {
    ghost use Rattle.volume_spec.specs.SetFileDirParms.{Settings as SettingsValue};

    ghost Value = { SettingsValue };

    ghost view = { λ a. record { attributes = a.attributes; created = a.created; modified = a.modified; backup = a.backup; finder = a.finder; owner = a.owner; group = a.group; rights = a.rights } };
}

impl Settings {
    /// The modified date alone, which is a moment.
    pub fn dated(now: Moment) -> Settings
        ensures { result ≡ record { attributes = None; created = None; modified = Some (pos now); backup = None; finder = None; owner = None; group = None; rights = None } }
    {
        Settings {
            attributes: None,
            created: None,
            modified: Some(now.seconds() as i32),
            backup: None,
            finder: None,
            owner: None,
            group: None,
            rights: None,
        }
    }

    /// The marks of a node with these settings.
    #[tactic(auto, unfolding(volume_spec::specs::SetFileDirParms::with_settings))]
    pub(crate) fn marks(&self, node: &Node) -> Marks
        ensures { marked result node.now ≡ with_settings self.now node.now }
    {
        self.marks_after(node.dir, Marks::of(node))
    }

    /// Marks with these settings, of a node of that kind.
    pub(crate) fn marks_after(&self, dir: bool, marks: Marks) -> Marks
        ensures { result ≡ marks_after self.now dir marks }
    {
        let marks = with_attributes(marks, dir, self.attributes);
        let marks = with_created(marks, self.created);
        let marks = with_modified(marks, self.modified);
        let marks = with_backup(marks, self.backup);
        let marks = with_finder(marks, self.finder);
        if dir {
            with_privileges(marks, self.owner, self.group, self.rights)
        } else {
            marks
        }
    }
}

fn with_attributes(marks: Marks, dir: bool, word: Option<u16>) -> Marks
    ensures { result ≡ record marks { attributes = unwrap_or (option_map (λ word. attributes_by dir word marks.attributes) word) marks.attributes } }
{
    match word {
        Some(word) => Marks {
            attributes: attributes_by(dir, word, marks.attributes),
            ..marks
        },
        None => marks,
    }
}

/// Attributes with those of a word set or cleared, as far as a node of that kind has them.
#[tactic(auto, unfolding(volume_spec::specs::SetFileDirParms::attributes_by))]
fn attributes_by(dir: bool, word: u16, old: u16) -> u16
    ensures { result ≡ attributes_by dir word old }
{
    let settable = if dir {
        DIRECTORY_ATTRIBUTES
    } else {
        FILE_ATTRIBUTES
    };
    if word >= SET_OR_CLEAR {
        settable & (old | word)
    } else {
        settable & (old & !word)
    }
}

fn with_created(marks: Marks, date: Option<i32>) -> Marks
    ensures { result ≡ record marks { created = unwrap_or date marks.created } }
{
    match date {
        Some(created) => Marks { created, ..marks },
        None => marks,
    }
}

fn with_modified(marks: Marks, date: Option<i32>) -> Marks
    ensures { result ≡ record marks { modified = unwrap_or date marks.modified } }
{
    match date {
        Some(modified) => Marks { modified, ..marks },
        None => marks,
    }
}

fn with_backup(marks: Marks, date: Option<i32>) -> Marks
    ensures { result ≡ record marks { backup = unwrap_or date marks.backup } }
{
    match date {
        Some(backup) => Marks { backup, ..marks },
        None => marks,
    }
}

fn with_finder(marks: Marks, info: Option<[u8; 32]>) -> Marks
    ensures { result ≡ record marks { finder = unwrap_or info marks.finder } }
{
    match info {
        Some(finder) => Marks { finder, ..marks },
        None => marks,
    }
}

fn with_privileges(
    marks: Marks,
    owner: Option<u32>,
    group: Option<u32>,
    rights: Option<[u8; 3]>,
) -> Marks
    ensures { result ≡ record marks { owner = unwrap_or owner marks.owner; group = unwrap_or group marks.group; rights = unwrap_or rights marks.rights } }
{
    Marks {
        owner: owner.unwrap_or(marks.owner),
        group: group.unwrap_or(marks.group),
        rights: rights.unwrap_or(marks.rights),
        ..marks
    }
}
