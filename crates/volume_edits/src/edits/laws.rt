//! Laws of edits, node by node. The function does nothing.
ghost use Rattle.volume_edits.specs.edits.After as after;

/// An edit that may be made changes each node by itself: what it leaves of a node is told of that node, and of two files that exchange their forks.
pub fn edits_go_by_node()
    ensures { after.EditsByNode }
{}
