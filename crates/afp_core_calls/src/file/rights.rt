//! Which files a user may read.
ghost use Rattle.std.specs.Prelude.{◌≡◌};
ghost use Rattle.volume_spec.specs.Rights.{read_right};
ghost use Rattle.volume_spec.specs.Shared.{lacks_above};

use afp_base::NodeId;
use volume_edits::WholeVolume;
use volume_spec::limits::READ_RIGHT;

/// Whether a user lacks read in the directory of a node.
pub(crate) fn lacks_read(volume: &WholeVolume, user: u32, id: NodeId) -> bool
    ensures { result ≡ lacks_above volume.now.state.rows user read_right id.0 }
{
    volume.tree.lacks_above(user, READ_RIGHT, id)
}
