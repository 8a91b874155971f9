//! FPOpenDT and FPCloseDT (AFP Reference, under these names). The number of a volume's desktop database is the volume's: nothing is opened or closed.
ghost use Rattle.std.specs.Prelude.{◌≡◌, IfOk};
ghost use Rattle.afp_replies.specs.Replies.{canonical_reply};
ghost use Rattle.afp_replies.specs.declared.reply.Reply.TheVariants.{Desk};
ghost use Rattle.afp_calls_grammar.specs.declared.grammar.call.Call.{Call};
ghost use Rattle.afp_core_state.specs.Running.{RunsRow};

use afp_base::{Bytes, Code, OutOfMemory, SessionNumber, VolumeId};
use afp_core_state::{State, done, refused};
use afp_serial::{Outcome, Told};
use record_keeper::Keeper;
use std::alloc::Global;

/// Tells the number of the desktop database of a volume that the session has open.
pub fn open_dt<K: Keeper>(
    state: &State<K>,
    session: SessionNumber,
    volume: VolumeId,
) -> Result<(Told, Outcome), OutOfMemory>
    ensures { RunsRow state.now session.0 (Call.OpenDT volume) result state.now }
{
    let Some(_index) = state.opened(session, volume) else {
        return Ok((refused(state.alloc, Code::ParamErr), Outcome::Done));
    };
    let block = desk_block(state.alloc, volume)?;
    Ok((done(block), Outcome::Done))
}

/// Nothing, where the session has the volume of that number open.
pub fn close_dt<K: Keeper>(
    state: &State<K>,
    session: SessionNumber,
    dt: u16,
) -> Result<(Told, Outcome), OutOfMemory>
    ensures { RunsRow state.now session.0 (Call.CloseDT dt) result state.now }
{
    let Some(_index) = state.opened(session, VolumeId(dt)) else {
        return Ok((refused(state.alloc, Code::ParamErr), Outcome::Done));
    };
    Ok((done(Bytes::new(state.alloc)), Outcome::Done))
}

/// The bytes of the number of a desktop database.
fn desk_block(alloc: Global, volume: VolumeId) -> Result<Bytes, OutOfMemory>
    ensures { IfOk result (λ block. block ≡ canonical_reply (Desk volume.0)) }
{
    let mut block = Bytes::new(alloc);
    block.push_u16(volume.0)?;
    Ok(block)
}
