//! Laws of a fork's blocks. Each function says one, and does nothing.
ghost use Rattle.fork_bytes.specs.Laws as laws;

/// Bytes and their blocks say the same, both ways.
pub fn blocks_are_bytes()
    ensures back { laws.BytesFromBlocks }
    ensures forth { laws.BlocksFromBytes }
    ensures length { laws.HasItsLength }
{}

/// The blocks of bytes rise by index, have bytes that can be kept, and are no more than the bytes reach into.
pub fn blocks_of_bytes_are_kept()
    ensures rising { laws.BlocksRise }
    ensures kept { laws.BlocksAreKept }
    ensures few { laws.BlocksAreFew }
{}

/// A plan says, with the bytes before it, those afterwards: so it turns some bytes into no two others.
pub fn plans_say_bytes()
    ensures { laws.PlansSayBytes }
{}
