//! The two volumes.
ghost use Rattle.std.specs.Prelude.{◌≡◌};
ghost use Rattle.afp_mirror_walk.specs.Follows.{Gives, opened_source, opened_target};

use crate::walk::ends::{MirrorEnd, Side};
use crate::walk::replies::{is_ok, volume_of};
use crate::walk::standing::{ROOT, Stage, Walk};
use crate::walk::stepping::Heard;

/// The source was opened.
pub(crate) fn opened_source(walk: Walk, heard: &Heard) -> Result<Walk, MirrorEnd>
    ensures { Gives (opened_source walk heard.now.code heard.now.reply) result }
{
    if !is_ok(heard.code) {
        return Err(MirrorEnd::Refused {
            side: Side::From,
            code: heard.code,
            node: ROOT,
        });
    }
    match volume_of(&heard.reply) {
        Some(volume) => {
            let mut walk = walk;
            walk.from = volume;
            walk.stage = Stage::OpensTarget;
            Ok(walk)
        }
        None => Err(MirrorEnd::Bad { side: Side::From }),
    }
}

/// The target was opened.
pub(crate) fn opened_target(walk: Walk, heard: &Heard) -> Result<Walk, MirrorEnd>
    ensures { Gives (opened_target walk heard.now.code heard.now.reply) result }
{
    if !is_ok(heard.code) {
        return Err(MirrorEnd::Refused {
            side: Side::To,
            code: heard.code,
            node: ROOT,
        });
    }
    match volume_of(&heard.reply) {
        Some(volume) => {
            let mut walk = walk;
            walk.to = volume;
            walk.stage = Stage::Looks;
            Ok(walk)
        }
        None => Err(MirrorEnd::Bad { side: Side::To }),
    }
}
