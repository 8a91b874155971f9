//! What calls are told.
ghost use Rattle.std.specs.Prelude.{◌≡◌, [], false, IfOk};
ghost use Rattle.afp_core_state.specs.Replies.{Tells, TellsSettled};
ghost use Rattle.afp_base.specs.declared.code.Code.{Code};
ghost use Rattle.afp_serial.specs.declared.ask.Told.{Told};
ghost use Rattle.afp_serial.specs.Answer.{refusal_reply};

use afp_base::{Bytes, Code, OutOfMemory};
use afp_serial::{Outcome, Told};
use record_keeper::KeeperFault;
use std::alloc::Global;
use volume_tree::PlanFault;

/// Bytes that most replies with parameters do not pass: their memory is taken once.
const PARMS_ROOM: usize = 128;

/// No bytes, with room for the parameters that a reply tells.
pub fn parms_room(alloc: Global) -> Result<Bytes, OutOfMemory>
    ensures { IfOk result (λ block. block ≡ []) }
{
    Bytes::with_room(alloc, PARMS_ROOM)
}

/// A reply with no bytes, behind which the session goes on.
pub fn refused(alloc: Global, code: Code) -> Told
    ensures { result ≡ refusal_reply code }
{
    Told::Reply {
        code,
        block: Bytes::new(alloc),
        ends: false,
    }
}

/// A reply to a call that went well, behind which the session goes on.
pub fn done(block: Bytes) -> Told
    ensures { result ≡ Told.Reply Code.Ok block false }
{
    Told::Reply {
        code: Code::Ok,
        block,
        ends: false,
    }
}

/// What is told of bytes that were read of a volume, or of why they were not.
pub fn told_of(
    alloc: Global,
    answer: Result<(), PlanFault>,
    block: Bytes,
) -> Result<(Told, Outcome), OutOfMemory>
    ensures { Tells answer block result }
{
    match answer {
        Ok(()) => Ok((done(block), Outcome::Done)),
        Err(PlanFault::Code(code)) => Ok((refused(alloc, code), Outcome::Done)),
        Err(PlanFault::Memory) => Err(OutOfMemory),
    }
}

/// What is told of a keeper that settled, or did not.
pub fn told_settled(
    alloc: Global,
    answer: Result<(), KeeperFault>,
) -> Result<(Told, Outcome), OutOfMemory>
    ensures { TellsSettled answer result }
{
    match answer {
        Ok(()) => Ok((done(Bytes::new(alloc)), Outcome::Done)),
        Err(KeeperFault::Failed) => Ok((refused(alloc, Code::MiscErr), Outcome::Fault)),
        Err(KeeperFault::Memory) => Err(OutOfMemory),
    }
}
