//! Edits of a volume's tree, one method a kind. None of these takes memory.
ghost use Rattle.std.specs.Prelude.{◌≡◌, ◌≤◌, ◌<◌, true, false};
ghost use Rattle.volume_spec.specs.EditLaws.{MayCome, MayGo, MayRename, MayMove};
ghost use Rattle.volume_spec.specs.Edits.{filed_as, is_taken, renamed, with_changed, with_moved, with_row, without_node};
ghost use Rattle.volume_spec.specs.SetFileDirParms.{are_fit_settings, with_settings};
ghost use Rattle.volume_spec.specs.SoundVolume.{IsSoundVolume, has_file, has_node, last_next_id};

use crate::forks::FileForks;
use crate::going::{take_out, used_by};
use crate::kept_forks::put_back;
use crate::marks::{file_node, set_node};
use crate::parts::{NewName, NodeWithForks, with_id};
use crate::settings::Settings;
use crate::volume::Volume;
use afp_base::NodeId;
use node_rows::Rows;
use volume_spec::edit_laws::edits_keep_volumes_sound;

/// The id that the next new node draws.
fn drawn(rows: &Rows) -> NodeId
    requires { rows.now.next_id < last_next_id }
    ensures { result.0 ≡ rows.now.next_id }
{
    match rows.next_id() {
        Some(id) => id,
        None => unreachable!(),
    }
}

impl Volume {
    /// A node comes with its forks, and draws the next id.
    pub fn insert_node(&mut self, comer: NodeWithForks)
        requires may { MayCome self.old.state comer }
        requires room { 1 ≤ self.old.spare }
        ensures { self.new.state ≡ with_row comer self.old.state }
    {
        edits_keep_volumes_sound();
        let NodeWithForks {
            node,
            key,
            data_fork,
            resource_fork,
        } = comer;
        let id = drawn(&self.rows);
        self.used = self.used + data_fork.len() + resource_fork.len();
        let forks = FileForks {
            data_fork,
            resource_fork,
        };
        put_back(&mut self.forks, u64::from(id.0), forks);
        self.rows.insert(with_id(node, id), key);
    }

    /// Whether there is a node of an id.
    fn has_node(&self, id: NodeId) -> bool
        ensures { result ≡ has_node self.now.state.rows id.0 }
    {
        match self.node(id) {
            Some(_) => true,
            None => false,
        }
    }

    /// A node goes with its forks, if it is there.
    pub fn remove_node(&mut self, id: NodeId)
        requires { MayGo self.old.state id.0 }
        ensures state { self.new.state ≡ without_node id.0 self.old.state }
        ensures spare { self.old.spare ≤ self.new.spare }
    {
        self.has_no_desktop();
        if !self.has_node(id) {
            return;
        }
        self.take_node(id);
    }

    /// A node that is there goes with its forks.
    fn take_node(&mut self, id: NodeId)
        requires may { MayGo self.old.state id.0 }
        requires there { has_node self.old.state.rows id.0 ≡ true }
        ensures state { self.new.state ≡ without_node id.0 self.old.state }
        ensures spare { self.old.spare ≤ self.new.spare }
    {
        edits_keep_volumes_sound();
        let gone = Some(id);
        self.used -= used_by(&self.forks, gone);
        take_out(&mut self.rows, &mut self.forks, gone);
    }

    /// A node gets another name.
    pub fn rename_node(&mut self, id: NodeId, name: NewName)
        requires { MayRename self.old.state id.0 name }
        ensures state { self.new.state ≡ renamed id.0 name self.old.state }
        ensures spare { self.old.spare ≤ self.new.spare }
    {
        edits_keep_volumes_sound();
        self.keeps_sound();
        let parent = self.directory(id);
        self.place_node(id, parent, name);
    }

    /// A node gets another parent and another name.
    pub fn move_node(&mut self, id: NodeId, parent: NodeId, name: NewName)
        requires { MayMove self.old.state id.0 parent.0 name }
        ensures state { self.new.state ≡ with_moved id.0 parent.0 name self.old.state }
        ensures spare { self.old.spare ≤ self.new.spare }
    {
        edits_keep_volumes_sound();
        self.keeps_sound();
        self.place_node(id, parent, name);
    }

    /// A node gets another parent and another name, where the volume is sound then.
    fn place_node(&mut self, id: NodeId, parent: NodeId, name: NewName)
        requires free { is_taken self.old.state.rows id.0 parent.0 name ≡ false }
        requires sound { IsSoundVolume (with_moved id.0 parent.0 name self.old.state) }
        ensures state { self.new.state ≡ with_moved id.0 parent.0 name self.old.state }
        ensures spare { self.old.spare ≤ self.new.spare }
    {
        let NewName { name, key } = name;
        self.rows.place(id, parent, name, key);
    }

    /// Some fields of a node are set, if it is there.
    pub fn set_node(&mut self, id: NodeId, settings: &Settings)
        requires { are_fit_settings settings.now ≡ true }
        ensures state { self.new.state ≡ record self.old.state { rows = with_changed id.0 (with_settings settings.now) self.old.state.rows } }
        ensures spare { self.old.spare ≤ self.new.spare }
    {
        edits_keep_volumes_sound();
        set_node(&mut self.rows, id, settings);
    }

    /// A file is filed, or not.
    pub fn file_node(&mut self, id: NodeId, filed: bool)
        requires { has_file self.old.state.rows id.0 ≡ true }
        ensures state { self.new.state ≡ record self.old.state { rows = with_changed id.0 (filed_as filed) self.old.state.rows } }
        ensures spare { self.old.spare ≤ self.new.spare }
    {
        edits_keep_volumes_sound();
        file_node(&mut self.rows, id, filed);
    }

    /// The volume's backup date is set (AFP Reference, "Volume parameters").
    pub fn set_backup(&mut self, date: i32)
        ensures state { self.new.state ≡ record self.old.state { backup = date } }
        ensures spare { self.new.spare ≡ self.old.spare }
    {
        edits_keep_volumes_sound();
        self.dates = self.dates.backed_up(date);
    }
}
