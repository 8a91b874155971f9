//! A source's bytes into a fork.
ghost use Rattle.std.specs.Prelude.{◌≡◌, ◌<◌, ◌≤◌, ◌^◌, ◌+◌, length, ℕ};
ghost use Rattle.client_files.specs.Requests.{most_piece};
ghost use Rattle.client_files.specs.Puts.{is_end, PutsFork, PutsOnce, PutsPiece, TakesWrite};
ghost use Rattle.client_files.specs.declared.put.Step.{Step};

use crate::calls::write_at;
use crate::whole::{Filled, Watch, fill};
use afp_base::{Code, ForkRef};
use afp_outside::Source;
use afp_replies::Reply;
use client_script_commands::{Answer, Asker};

/// The last place behind a write.
const LAST_PLACE: u64 = (1 << 63) - 1;

/// How a fork's writes end.
#[derive(Drop)]
pub enum Put<E> {
    /// The source ended, and all its bytes are written: the last stands before this place.
    Done(u64),
    /// A write was refused.
    Refused(Code),
    /// No answer comes.
    Ended(E),
    /// A read of the source failed.
    SourceFault,
    /// The last reply is none that may come.
    BadReply,
    /// The next piece would end above 2^63 - 1, the last place of a fork.
    TooLong,
}

/// What one write came to.
#[derive(Drop)]
enum Step<E> {
    /// So many bytes were written, and there may be more.
    Moved(u64),
    /// The source has no more.
    Last,
    /// It ends.
    Ends(Put<E>),
}

/// Whether a reply tells that the write ended at this place.
fn is_end(reply: &Reply, end: u64) -> bool
    ensures { result ≡ is_end end reply.now }
{
    match reply {
        Reply::EndExt { end: told } => *told == end,
        _ => false,
    }
}

/// What an answer to a write comes to, which is to end here, and is lent.
fn take_told<E>(answer: &Answer, size: u64, end: u64) -> Step<E>
    ensures { TakesWrite answer.now size end result }
{
    match answer.code {
        Code::Ok => {
            if is_end(&answer.reply, end) {
                Step::Moved(size)
            } else {
                Step::Ends(Put::BadReply)
            }
        }
        _ => Step::Ends(Put::Refused(answer.code)),
    }
}

/// What an answer to a write comes to, which is to end here.
fn take_answer<E>(answer: Answer, size: u64, end: u64) -> Step<E>
    ensures { TakesWrite answer size end result }
{
    take_told(&answer, size, end)
}

/// Writes a piece.
fn put_piece<A: Asker>(asker: &mut A, reference: ForkRef, from: u64, piece: &[u8]) -> Step<A::End>
    requires from { from < 2 ^ 63 }
    requires piece { length piece.now ≤ most_piece }
    ensures puts { PutsPiece reference from piece.now (A.exchanges asker.old) result (A.exchanges asker.new) }
    ensures falls { (n : ℕ) → result ≡ Step.Moved n → A.left asker.new < A.left asker.old }
{
    let size = piece.len() as u64;
    if size > LAST_PLACE - from {
        return Step::Ends(Put::TooLong);
    }
    let call = write_at(reference, from, piece);
    match asker.ask(&call) {
        Ok(answer) => take_answer(answer, size, from + size),
        Err(end) => Step::Ends(Put::Ended(end)),
    }
}

/// Writes the next piece.
#[tactic(auto, using(crate::proofs::PutLemmas::put_nothing, crate::proofs::PutLemmas::next_written))]
fn put_once<A: Asker, S: Source>(
    asker: &mut A,
    source: &mut S,
    room: &mut [u8],
    reference: ForkRef,
    from: u64,
) -> Step<A::End>
    requires from { from < 2 ^ 63 }
    requires some { 0 < length room.old }
    requires most { length room.old ≤ most_piece }
    ensures size { length room.new ≡ length room.old }
    ensures puts { PutsOnce reference (length room.old) from (A.exchanges asker.old) (S.source_state source.old) result (A.exchanges asker.new) (S.source_state source.new) }
    ensures falls { (n : ℕ) → result ≡ Step.Moved n → A.left asker.new < A.left asker.old }
{
    match fill(source, room) {
        Filled::Failed => Step::Ends(Put::SourceFault),
        Filled::Got(n) => {
            if n == 0 {
                return Step::Last;
            }
            put_piece(asker, reference, from, &room[..n])
        }
    }
}

/// Writes what the source gives into an open fork, from this place on, in pieces of what the room holds.
pub fn put_fork<A: Asker, S: Source, W: Watch>(
    asker: &mut A,
    source: &mut S,
    watch: &mut W,
    room: &mut [u8],
    reference: ForkRef,
    from: u64,
) -> Put<A::End>
    requires from { from < 2 ^ 63 }
    requires some { 0 < length room.old }
    requires most { length room.old ≤ most_piece }
    ensures size { length room.new ≡ length room.old }
    ensures puts { PutsFork reference (length room.old) from (A.exchanges asker.old) (S.source_state source.old) result (A.exchanges asker.new) (S.source_state source.new) }
{
    let mut at = from;
    loop {
        match put_once(asker, source, room, reference, at) {
            Step::Moved(n) => {
                at += n;
                watch.moved(at);
            }
            Step::Last => return Put::Done(at),
            Step::Ends(end) => return end,
        }
    }
}
