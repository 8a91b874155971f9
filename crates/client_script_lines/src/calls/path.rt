//! Paths.
ghost use Rattle.std.specs.Prelude.{◌≡◌, ◌≤◌, length, IfOk};
ghost use Rattle.afp_names.specs.Path.{canonical_path};
ghost use Rattle.client_script_lines.specs.calls.Places.{IsPlace, longest_place, place, root};

use afp_base::{NodeId, OutOfMemory};
use afp_names::{Path, UTF8_NAMES};
use std::alloc::Global;

/// The root of a volume.
pub(crate) const ROOT: NodeId = NodeId(2);

/// The path that bytes spell.
pub(crate) fn path_of(alloc: Global, text: &[u8]) -> Result<Path, OutOfMemory>
    requires { IsPlace text.now }
    ensures place { IfOk result (λ path. path ≡ place text.now) }
    ensures short { IfOk result (λ path. length (canonical_path path) ≤ longest_place) }
{
    match Path::read(alloc, UTF8_NAMES, text) {
        Ok(path) => Ok(path),
        Err(_) => Err(OutOfMemory),
    }
}
