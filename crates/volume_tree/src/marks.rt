//! Marks of nodes that change by themselves. None of these takes memory.
ghost use Rattle.std.specs.Prelude.{◌≡◌, ◌≤◌, ◌<◌, length, slice_get};
ghost use Rattle.volume_spec.specs.Edits.{filed_as, with_changed};
ghost use Rattle.volume_spec.specs.SetFileDirParms.{with_settings};
ghost use Rattle.volume_tree.specs.lemma.Edited.{modified_on};
ghost use Rattle.volume_tree.specs.lemma.Kept.{IsMarks, IsMarksSet};

use crate::settings::Settings;
use afp_base::NodeId;
use node_rows::{Marks, Rows};

/// The file of an id is filed, or not, if it is there.
pub(crate) fn file_node(rows: &mut Rows, id: NodeId, filed: bool)
    ensures rows { rows.new.rows ≡ with_changed id.0 (filed_as filed) rows.old.rows }
    ensures next { rows.new.next_id ≡ rows.old.next_id }
    ensures spare { rows.old.spare ≤ rows.new.spare }
{
    let _nodes = rows.nodes();
    match rows.find(id) {
        Some(place) => {
            let marks = marks_at(rows, place);
            rows.mark_at(place, filed_marks(marks, filed));
        }
        None => {}
    }
}

/// Marks that say that a file is filed, or not.
pub(crate) fn filed_marks(marks: Marks, filed: bool) -> Marks
    ensures { result ≡ record marks { filed = filed } }
{
    Marks { filed, ..marks }
}

/// The node of an id gets a modified date, if it is there.
pub(crate) fn set_modified(rows: &mut Rows, id: NodeId, date: i32)
    ensures rows { rows.new.rows ≡ with_changed id.0 (modified_on date) rows.old.rows }
    ensures next { rows.new.next_id ≡ rows.old.next_id }
    ensures spare { rows.old.spare ≤ rows.new.spare }
{
    let _nodes = rows.nodes();
    match rows.find(id) {
        Some(place) => {
            let marks = marks_at(rows, place);
            rows.mark_at(place, modified_marks(marks, date));
        }
        None => {}
    }
}

/// Marks with a modified date.
pub(crate) fn modified_marks(marks: Marks, date: i32) -> Marks
    ensures { result ≡ record marks { modified = date } }
{
    Marks {
        modified: date,
        ..marks
    }
}

/// Gives the node of an id its settings.
pub(crate) fn set_node(rows: &mut Rows, id: NodeId, settings: &Settings)
    ensures rows { rows.new.rows ≡ with_changed id.0 (with_settings settings.now) rows.old.rows }
    ensures next { rows.new.next_id ≡ rows.old.next_id }
    ensures spare { rows.old.spare ≤ rows.new.spare }
{
    let _nodes = rows.nodes();
    match rows.find(id) {
        Some(place) => {
            let marks = marks_set(rows, place, settings);
            rows.mark_at(place, marks);
        }
        None => {}
    }
}

/// The marks of the node at a place, with its settings.
fn marks_set(rows: &Rows, place: usize, settings: &Settings) -> Marks
    requires { place < length rows.now.rows }
    ensures { IsMarksSet settings.now result (slice_get rows.now.rows place) }
{
    settings.marks(&rows.nodes()[place])
}

/// The marks of the node at a place.
fn marks_at(rows: &Rows, place: usize) -> Marks
    requires { place < length rows.now.rows }
    ensures { IsMarks result (slice_get rows.now.rows place) }
{
    Marks::of(&rows.nodes()[place])
}
