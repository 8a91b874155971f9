//! The children of directories, in the order of their lists.
ghost use Rattle.std.specs.Prelude.{◌≡◌, length, map};
ghost use Rattle.volume_spec.specs.Listing.{children, listed};
ghost use Rattle.node_rows.specs.Children.{child_of};
ghost use Rattle.node_rows.specs.Kinds.{IsPlaceBehind, are_of_kind};

use crate::volume::Volume;
use afp_base::NodeId;
use node_rows::Child;

impl Volume {
    /// The children of a directory in the order of its list, each by its id and the key of its name. They are found by two
    /// halvings.
    pub fn siblings(&self, dir: NodeId) -> &[Child]
        ensures { result.now ≡ map child_of (listed self.now.state.rows dir.0) }
    {
        self.rows.siblings(dir)
    }

    /// The place in a directory's list, from another place on, of the file behind `skip` other files, or of the directory behind
    /// `skip` other directories. It is found by three halvings, whatever stands before it.
    pub fn place_behind(&self, dir: NodeId, files: bool, from: usize, skip: usize) -> Option<usize>
        ensures { IsPlaceBehind (are_of_kind files (listed self.now.state.rows dir.0)) from skip result }
    {
        self.rows.place_behind(dir, files, from, skip)
    }

    /// How many children a directory has. It costs two halvings.
    pub fn child_count(&self, dir: NodeId) -> usize
        ensures { result ≡ length (children self.now.state.rows dir.0) }
    {
        self.siblings(dir).len()
    }
}
