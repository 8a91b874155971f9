//! A node that goes, with its forks. None of these takes memory.
ghost use Rattle.std.specs.Prelude.{◌≡◌, ◌≤◌, ◌<◌, ◌^◌, ℕ};
ghost use Rattle.std.specs.Ordering.{nat_cmp};
ghost use Rattle.sorted_map.specs.map.Entries.{at};
ghost use Rattle.volume_tree.specs.lemma.Kept.{at_gone, bytes_of, gone_rows};

use crate::forks::{FileForks, forget};
use afp_base::NodeId;
use node_rows::Rows;
use sorted_map::SortedMap;

/// How many bytes the forks of the node that goes have.
pub(crate) fn used_by(forks: &SortedMap<u64, FileForks>, gone: Option<NodeId>) -> u64
    requires { bytes_of gone forks.now < 2 ^ 64 }
    ensures { result ≡ bytes_of gone forks.now }
{
    match gone {
        Some(id) => match forks.get(u64::from(id.0)) {
            Some(forks) => forks.data_fork.len() + forks.resource_fork.len(),
            None => 0,
        },
        None => 0,
    }
}

/// Takes the node that goes out, with its forks.
pub(crate) fn take_out(rows: &mut Rows, forks: &mut SortedMap<u64, FileForks>, gone: Option<NodeId>)
    ensures rows { rows.new.rows ≡ gone_rows gone rows.old.rows }
    ensures next { rows.new.next_id ≡ rows.old.next_id }
    ensures spare { rows.old.spare ≤ rows.new.spare }
    ensures forks { (q : ℕ) → at nat_cmp forks.new q ≡ at_gone gone q (at nat_cmp forks.old q) }
{
    match gone {
        Some(id) => {
            rows.remove(id);
            forget(forks, u64::from(id.0));
        }
        None => {}
    }
}
