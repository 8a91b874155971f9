//! Laws. Each function says one, and does nothing.
ghost use Rattle.afp_mirror_walk.specs.Table as table;

/// A call that is refused ends the mirror, with its side, its code and the node that it is about.
pub fn refusals_end()
    ensures { table.RefusalsEnd }
{}
