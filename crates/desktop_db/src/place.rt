//! One element more, at its place.
ghost use Rattle.std.specs.Prelude.{◌≡◌, ◌≤◌, ◌<◌, ◌+◌, IsOk, OnOk, OnErr, vec_len, vec_capacity};
ghost use Rattle.std.specs.List.{insert};

use afp_base::OutOfMemory;

/// Puts an element at a place. An error changes nothing.
pub(crate) fn insert_at<T: Drop>(
    elements: &mut Vec<T>,
    place: usize,
    new: T,
) -> Result<(), OutOfMemory>
    requires { place ≤ vec_len elements.old }
    ensures ok { OnOk result (elements.new.items ≡ insert elements.old.items place new) }
    ensures err { OnErr result (elements.new.items ≡ elements.old.items) }
    ensures room { vec_len elements.old < vec_capacity elements.old → IsOk result }
    ensures len { vec_len elements.new ≤ vec_len elements.old + 1 }
    ensures capacity { vec_capacity elements.old ≤ vec_capacity elements.new }
{
    elements.insert(place, new)?;
    Ok(())
}
