//! Edits of forks. None of these takes memory.
ghost use Rattle.std.specs.Prelude.{◌≡◌, ◌==◌, ◌≤◌, ℕ, pos, true, false, Some, length, is_some, if◌then◌else◌};
ghost use Rattle.std.specs.Ordering.{nat_cmp};
ghost use Rattle.sorted_map.specs.map.Entries.{at};
ghost use Rattle.volume_spec.specs.EditLaws.{MayExchange, MayWrite};
ghost use Rattle.volume_spec.specs.Edits.{exchanged_at, with_changed};
ghost use Rattle.volume_spec.specs.ForkEffect.{written};
ghost use Rattle.volume_spec.specs.VolumeState.{Row};
ghost use Rattle.volume_spec.specs.Walk.{row_at};
ghost use Rattle.volume_tree.specs.Shown.{fork_at};
ghost use Rattle.volume_tree.specs.lemma.ForkEffect.{IsChanged, kept_fork};

use crate::forks::FileForks;
use crate::kept_forks::place_of;
use crate::marks::set_modified;
use crate::volume::Volume;
use afp_base::{Moment, NodeId};
use fork_bytes::ForkWrite;
use node_rows::Rows;
use sorted_map::SortedMap;
use std::alloc::Global;
use volume_spec::edit_laws::edits_keep_volumes_sound;

impl Volume {
    /// A fork of a file gets the bytes of a write of it as it is, and the file the moment as its modified date.
    pub fn write_fork(
        &mut self,
        alloc: Global,
        now: Moment,
        id: NodeId,
        resource: bool,
        write: ForkWrite,
    )
        requires may { MayWrite self.old.state id.0 resource write.after }
        requires before { fork_at self.old.state.rows id.0 resource ≡ Some write.before }
        ensures state { self.new.state ≡ record self.old.state { rows = with_changed id.0 (written now resource write.after true) self.old.state.rows } }
        ensures spare { self.old.spare ≤ self.new.spare }
    {
        edits_keep_volumes_sound();
        let after = write.plan().len();
        let before = write_kept(&mut self.forks, alloc, id, resource, write);
        self.used = self.used - before + after;
        set_modified(&mut self.rows, id, date_of(now));
    }

    /// Two files exchange their forks and modified dates.
    pub fn exchange_forks(&mut self, a: NodeId, b: NodeId)
        requires { MayExchange self.old.state a.0 b.0 }
        ensures state { self.new.state ≡ exchanged_at a.0 b.0 (row_at self.old.state.rows a.0) (row_at self.old.state.rows b.0) self.old.state }
        ensures spare { self.old.spare ≤ self.new.spare }
    {
        edits_keep_volumes_sound();
        let of_a = modified_of(&self.rows, a);
        let of_b = modified_of(&self.rows, b);
        swap(&mut self.forks, a, b);
        set_modified(&mut self.rows, a, of_b);
        set_modified(&mut self.rows, b, of_a);
    }
}

/// A moment as a date.
fn date_of(now: Moment) -> i32
    ensures { result ≡ pos now }
{
    now.seconds() as i32
}

/// The modified date of a node that is there.
fn modified_of(rows: &Rows, id: NodeId) -> i32
    ensures { (row : Row) → row_at rows.now.rows id.0 ≡ Some row → result ≡ row.modified }
{
    match rows.get(id) {
        Some(node) => node.modified,
        None => 0,
    }
}

/// A fork that is kept gets the bytes of a write of it as it is. Gives how many it had.
fn write_kept(
    forks: &mut SortedMap<u64, FileForks>,
    alloc: Global,
    id: NodeId,
    resource: bool,
    write: ForkWrite,
) -> u64
    requires there { is_some (at nat_cmp forks.old id.0) ≡ true }
    requires before { write.before ≡ kept_fork resource (at nat_cmp forks.old id.0) }
    ensures others { (q : ℕ) → (q == id.0) ≡ false → at nat_cmp forks.new q ≡ at nat_cmp forks.old q }
    ensures changed { IsChanged resource write.after (at nat_cmp forks.old id.0) (at nat_cmp forks.new id.0) }
    ensures len { result ≡ length write.before }
{
    let key = u64::from(id.0);
    let place = place_of(forks, key);
    let mut kept = forks.replace(place, key, FileForks::new(alloc));
    let before = kept.fork(resource).len();
    kept.write(resource, write);
    let _ = forks.replace(place, key, kept);
    before
}

/// The forks of two files change places.
fn swap(forks: &mut SortedMap<u64, FileForks>, a: NodeId, b: NodeId)
    ensures { (q : ℕ) → at nat_cmp forks.new q ≡ (if q == a.0 then at nat_cmp forks.old b.0 else if q == b.0 then at nat_cmp forks.old a.0 else at nat_cmp forks.old q) }
{
    forks.exchange(u64::from(a.0), u64::from(b.0));
}
