//! A volume's tree.
ghost use Rattle.std.specs.Prelude.{◌≡◌, ◌≤◌, Bool, [], true, Some, None, length, is_some, IfOk, OnOk, option_map, option_copied, if◌then◌else◌};
ghost use Rattle.afp_names.specs.Name.{name_fault};
ghost use Rattle.volume_spec.specs.DesktopLaws.{with_desktop};
ghost use Rattle.volume_spec.specs.Edits.{bare, changed_at};
ghost use Rattle.volume_spec.specs.SoundVolume.{IsSoundVolume, fork_bytes, has_file};
ghost use Rattle.volume_spec.specs.VolumeState.{fresh_volume};
ghost use Rattle.volume_spec.specs.Walk.{row_at};
ghost use Rattle.volume_spec.specs.OpenFork.{file_of};
ghost use Rattle.volume_tree.specs.Shown.{IsNode, fork_at};
ghost use Rattle.volume_tree.specs.declared.forks.FileForks.{FileForks as Kept};

use crate::forks::{FileForks, keep};
use crate::head::{Dates, VolumeHead};
use afp_base::{Moment, NodeId, OutOfMemory};
use afp_names::{Name, NameFault};
use fork_bytes::Fork;
use node_rows::{Node, Rows};
use sorted_map::SortedMap;
use std::alloc::Global;
use std::marker::Model;
use volume_spec::laws::fresh_volumes_are_sound;
use volume_spec::limits::{GUEST, LAST_NEXT_ID, ROOT_ID, ROOT_PARENT_ID};

/// The id of the root directory, and that of its parent (AFP Reference, "Directory IDs").
pub(crate) const ROOT: NodeId = NodeId(ROOT_ID);

pub(crate) const ROOT_PARENT: NodeId = NodeId(ROOT_PARENT_ID);

/// A volume: its name and dates, its files and directories, and their forks; and room for more nodes.
///
/// Contracts see the definition's volume, with no comments, icons and APPL rows, which are kept
/// elsewhere; and `spare`, a number of nodes that can be added with no memory.
#[derive(Drop)]
pub struct Volume {
    pub(crate) name: Name,
    pub(crate) dates: Dates,
    pub(crate) rows: Rows,
    pub(crate) forks: SortedMap<u64, FileForks>,
    pub(crate) used: u64,
}

impl Model for Volume {
    ghost use Rattle.volume_tree.specs.Shown.{TreeValue};

    ghost Value = { TreeValue };

    ghost use Rattle.volume_tree.specs.Kept.{state_of, spare_of};
    ghost use Rattle.volume_tree.specs.lemma.Kept.{IsKeptVolume};

    ghost view = { λ a. record { state = state_of a.name a.dates a.rows a.forks; spare = spare_of a.rows a.forks } };

    ghost invariant = { λ a. IsKeptVolume a.name a.dates a.rows a.forks a.used };
}

/// The name of this text.
fn name_of(alloc: Global, text: &str) -> Result<Name, OutOfMemory>
    requires { name_fault text.now ≡ None }
    ensures { IfOk result (λ name. name ≡ text.now) }
{
    match Name::new(alloc, text.as_bytes()) {
        Ok(name) => Ok(name),
        Err(NameFault::Memory) => Err(OutOfMemory),
        Err(_) => unreachable!(),
    }
}

/// The next node id of rows, [`LAST_NEXT_ID`] where the ids have ended.
pub(crate) fn next_of(rows: &Rows) -> u64
    ensures { result ≡ rows.now.next_id }
{
    match rows.next_id() {
        Some(id) => u64::from(id.0),
        None => LAST_NEXT_ID,
    }
}

/// Whether an id is a file's.
fn is_file(rows: &Rows, id: NodeId) -> bool
    ensures { result ≡ is_some (file_of (row_at rows.now.rows id.0)) }
{
    match rows.get(id) {
        Some(node) => !node.dir,
        None => false,
    }
}

impl Volume {
    /// A volume that nobody has used, made at a moment: its root alone.
    pub fn fresh(alloc: Global, name: &str, now: Moment) -> Result<Volume, OutOfMemory>
        requires { name_fault name.now ≡ None }
        ensures { IfOk result (λ volume. volume.state ≡ fresh_volume name.now now) }
    {
        fresh_volumes_are_sound();
        let name = name_of(alloc, name)?;
        let root = Node::new(true, GUEST, ROOT, ROOT_PARENT, name.copy(alloc)?, now);
        let rows = Rows::new(alloc, root, 17)?;
        Ok(Volume {
            name,
            dates: Dates::new(now),
            rows,
            forks: SortedMap::new(alloc),
            used: 0,
        })
    }

    /// What holds of every volume. The call does nothing.
    pub fn keeps_sound(&self)
        ensures { IsSoundVolume self.now.state }
    {
        let _ = &self.used;
    }

    /// The desktop database of a volume is kept elsewhere. The call does nothing.
    pub fn has_no_desktop(&self)
        ensures { self.now.state ≡ with_desktop self.now.state [] [] [] }
    {
        let _ = &self.used;
    }

    /// The volume's dates and its next node id.
    pub fn head(&self) -> VolumeHead
        ensures created { result.created ≡ self.now.state.created }
        ensures modified { result.modified ≡ self.now.state.modified }
        ensures backup { result.backup ≡ self.now.state.backup }
        ensures next_id { result.next_id ≡ self.now.state.next_id }
    {
        VolumeHead {
            created: self.dates.created,
            modified: self.dates.modified,
            backup: self.dates.backup,
            next_id: next_of(&self.rows),
        }
    }

    /// The volume's name.
    pub fn name(&self) -> &Name
        ensures { result.now ≡ self.now.state.name }
    {
        &self.name
    }

    /// The node of an id, without its forks.
    pub fn node(&self, id: NodeId) -> Option<&Node>
        ensures { option_copied result ≡ option_map bare (row_at self.now.state.rows id.0) }
    {
        match self.rows.get(id) {
            Some(node) => {
                let _ = &node.dir;
                Some(node)
            }
            None => None,
        }
    }

    /// Both forks of a node of this volume, found by one look-up: those of a file; a directory has none.
    pub fn forks(&self, node: &Node) -> Option<&FileForks>
        requires { IsNode self.now.state.rows node.now }
        ensures { (resource : Bool) → option_map (λ (forks : Kept). if resource then forks.resource_fork else forks.data_fork) (option_copied result) ≡ fork_at self.now.state.rows node.now.id resource }
    {
        // (forks of no bytes are kept for a directory's id too)
        if node.dir {
            return None;
        }
        self.forks.get(u64::from(node.id.0))
    }

    /// A fork of a file, found with no look at the nodes.
    pub fn file_fork(&self, id: NodeId, resource: bool) -> &Fork
        requires { has_file self.now.state.rows id.0 ≡ true }
        ensures { Some result.now ≡ fork_at self.now.state.rows id.0 resource }
    {
        match self.forks.get(u64::from(id.0)) {
            Some(forks) => forks.fork(resource),
            None => unreachable!(),
        }
    }

    /// A fork of the file of an id, if it is a file's.
    pub fn fork(&self, id: NodeId, resource: bool) -> Option<&Fork>
        ensures { option_copied result ≡ fork_at self.now.state.rows id.0 resource }
    {
        if !is_file(&self.rows, id) {
            return None;
        }
        match self.forks.get(u64::from(id.0)) {
            Some(forks) => Some(forks.fork(resource)),
            None => None,
        }
    }

    /// How many nodes there are, the root among them. It costs nothing.
    pub fn count(&self) -> usize
        ensures { result ≡ length self.now.state.rows }
    {
        self.rows.count()
    }

    /// How many bytes all forks have. It costs nothing.
    pub fn used(&self) -> u64
        ensures { result ≡ fork_bytes self.now.state.rows }
    {
        self.used
    }

    /// Makes room for one node more. An error changes nothing that contracts see.
    pub fn reserve(&mut self, alloc: Global) -> Result<(), OutOfMemory>
        ensures room { OnOk result (1 ≤ self.new.spare) }
        ensures state { self.new.state ≡ self.old.state }
        ensures spare { self.old.spare ≤ self.new.spare }
    {
        self.rows.reserve()?;
        let next = next_of(&self.rows);
        keep(&mut self.forks, alloc, next)
    }

    /// Sets the volume's modified date (AFP Reference, "Volume parameters").
    pub fn touch(&mut self, now: Moment)
        ensures state { self.new.state ≡ changed_at now self.old.state }
        ensures spare { self.new.spare ≡ self.old.spare }
    {
        self.dates = self.dates.touched(now);
    }
}
