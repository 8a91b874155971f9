//! A fork's bytes into a sink.
ghost use Rattle.std.specs.Prelude.{◌≡◌, ◌<◌, ◌≤◌, ◌^◌, ◌+◌, length, IfSome, IfNone, ℕ};
ghost use Rattle.afp_outside.specs.ends.Whole.{Prints, PrintsPart};
ghost use Rattle.client_script_commands.specs.commands.Replies.{piece_in};
ghost use Rattle.client_files.specs.Gets.{GetsFork, GetsOnce, TakesRead};
ghost use Rattle.client_files.specs.declared.get.Step.{Step};

use crate::calls::read_at;
use crate::whole::Watch;
use afp_base::{Code, ForkRef};
use afp_outside::{Sink, print_all};
use afp_replies::Reply;
use client_script_commands::{Answer, Asker};

/// The last place at which a read may begin.
const LAST_PLACE: u64 = (1 << 63) - 1;

/// How a fork's reads end.
#[derive(Drop)]
pub enum Got<E> {
    /// The end was read: the fork has so many bytes.
    Done(u64),
    /// A read was refused.
    Refused(Code),
    /// No answer comes.
    Ended(E),
    /// The sink took a first part of a piece, and then failed.
    SinkFault,
    /// The last reply is none that may come.
    BadReply,
}

/// What one read came to.
#[derive(Drop)]
enum Step<E> {
    /// So many bytes were read and written, and there may be more.
    Moved(u64),
    /// So many, and they are the last.
    Last(u64),
    /// It ends.
    Ends(Got<E>),
}

/// The bytes of a reply to a read, and none of another.
pub(crate) fn piece_of(reply: &Reply) -> &[u8]
    ensures { result.now ≡ piece_in reply.now }
{
    match reply {
        Reply::Piece { piece } => piece.as_slice(),
        _ => &[],
    }
}

/// Writes the bytes of a reply: how many, or none where the sink failed.
fn move_piece<O: Sink>(out: &mut O, reply: &Reply) -> Option<u64>
    ensures moved { IfSome result (λ n. (n ≡ length (piece_in reply.now)) × Prints (O.sink_state out.old) (piece_in reply.now) (O.sink_state out.new)) }
    ensures failed { IfNone result (PrintsPart (O.sink_state out.old) (piece_in reply.now) (O.sink_state out.new)) }
{
    let piece = piece_of(reply);
    if print_all(out, piece) {
        Some(piece.len() as u64)
    } else {
        None
    }
}

/// What an answer to a read comes to, which is lent.
fn take_told<E, O: Sink>(out: &mut O, answer: &Answer) -> Step<E>
    ensures { TakesRead answer.now (O.sink_state out.old) result (O.sink_state out.new) }
{
    match answer.code {
        Code::Ok => match move_piece(out, &answer.reply) {
            Some(n) => Step::Moved(n),
            None => Step::Ends(Got::SinkFault),
        },
        Code::EOFErr => match move_piece(out, &answer.reply) {
            Some(n) => Step::Last(n),
            None => Step::Ends(Got::SinkFault),
        },
        _ => Step::Ends(Got::Refused(answer.code)),
    }
}

/// What an answer to a read comes to.
fn take_answer<E, O: Sink>(out: &mut O, answer: Answer) -> Step<E>
    ensures { TakesRead answer (O.sink_state out.old) result (O.sink_state out.new) }
{
    take_told(out, &answer)
}

/// Reads once, and writes what came.
fn get_once<A: Asker, O: Sink>(
    asker: &mut A,
    out: &mut O,
    reference: ForkRef,
    from: u64,
    count: u64,
) -> Step<A::End>
    requires from { from < 2 ^ 63 }
    requires count { count < 2 ^ 63 }
    ensures gets { GetsOnce reference count from (A.exchanges asker.old) (O.sink_state out.old) result (A.exchanges asker.new) (O.sink_state out.new) }
    ensures falls { (n : ℕ) → result ≡ Step.Moved n → A.left asker.new < A.left asker.old }
{
    let call = read_at(reference, from, count);
    match asker.ask(&call) {
        Ok(answer) => take_answer(out, answer),
        Err(end) => Step::Ends(Got::Ended(end)),
    }
}

/// Reads an open fork from this place until its end, in pieces of `count` bytes at most, and writes each to the sink before the next is asked.
pub fn get_fork<A: Asker, O: Sink, W: Watch>(
    asker: &mut A,
    out: &mut O,
    watch: &mut W,
    reference: ForkRef,
    from: u64,
    count: u64,
) -> Got<A::End>
    requires from { from < 2 ^ 63 }
    requires count { count < 2 ^ 63 }
    ensures { GetsFork reference count from (A.exchanges asker.old) (O.sink_state out.old) result (A.exchanges asker.new) (O.sink_state out.new) }
{
    let mut at = from;
    loop {
        match get_once(asker, out, reference, at, count) {
            Step::Moved(n) => {
                if n > LAST_PLACE - at {
                    return Got::BadReply;
                }
                at += n;
                watch.moved(at);
            }
            Step::Last(n) => {
                if n > LAST_PLACE - at {
                    return Got::BadReply;
                }
                watch.moved(at + n);
                return Got::Done(at + n);
            }
            Step::Ends(end) => return end,
        }
    }
}
