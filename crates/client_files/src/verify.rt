//! A fork's bytes compared with a source's.
ghost use Rattle.std.specs.Prelude.{◌≡◌, ◌<◌, ◌≤◌, ◌^◌, ◌+◌, length, take, ℕ};
ghost use Rattle.afp_outside.specs.ends.Source.{SourceReads};
ghost use Rattle.client_files.specs.Verifies.{Compares, EndsAt, Shares, TakesPiece, TakesRead, VerifiesFork, VerifiesOnce};
ghost use Rattle.afp_outside.specs.declared.ends.link.ReadResult.{ReadResult};
ghost use Rattle.client_files.specs.declared.verify.Compared.{Compared};
ghost use Rattle.client_files.specs.declared.verify.Step.{Step};

use crate::calls::read_at;
use crate::get::piece_of;
use crate::whole::Watch;
use afp_base::{Code, ForkRef, rest_of};
use afp_outside::{ReadResult, Source};
use client_script_commands::{Answer, Asker};

/// The last place at which a read may begin.
const LAST_PLACE: u64 = (1 << 63) - 1;

/// How a comparison ends.
#[derive(Drop)]
pub enum Verified<E> {
    /// Both ended, with equal bytes: the fork has so many.
    Equal(u64),
    /// The first place of the fork where the two differ, or where one ended and the other did not.
    Differs(u64),
    /// A read of the fork was refused.
    Refused(Code),
    /// No answer comes.
    Ended(E),
    /// A read of the source failed.
    SourceFault,
    /// The last reply is none that may come.
    BadReply,
}

/// What comparing a piece came to.
#[derive(Clone, Copy, Debug, PartialEq, Eq)]
pub(crate) enum Compared {
    /// The source gave the same bytes.
    Same,
    /// So many were the same; then another byte came, or the source ended.
    Differs(usize),
    /// A read of the source failed.
    Failed,
}

/// What one read came to.
#[derive(Drop)]
enum Step<E> {
    /// So many bytes were the same, and there may be more.
    Moved(u64),
    /// It ends.
    Ends(Verified<E>),
}

/// How many bytes a piece has in common with the first of another, which is as long.
#[tactic(auto, using(crate::proofs::VerifyLemmas::shares_part, crate::proofs::VerifyLemmas::shares_end))]
fn common(given: &[u8], piece: &[u8]) -> usize
    requires { length given.now ≤ length piece.now }
    ensures { Shares given.now piece.now result }
{
    let mut more = given;
    let mut left = piece;
    let mut n = 0;
    while !more.is_empty() {
        if more[0] == left[0] {
            let next = rest_of(more, 1);
            let after = rest_of(left, 1);
            more = next;
            left = after;
            n += 1;
        } else {
            return n;
        }
    }
    n
}

/// Reads once, into the front of the room.
fn read_front<S: Source>(source: &mut S, room: &mut [u8], most: usize) -> ReadResult
    requires some { 0 < most }
    requires within { most ≤ length room.old }
    ensures size { length room.new ≡ length room.old }
    ensures reads { SourceReads (S.source_state source.old) (take most room.new) result (S.source_state source.new) }
    ensures most { (n : ℕ) → result ≡ ReadResult.Got n → n ≤ most }
{
    source.read(&mut room[..most])
}

/// Compares a piece, which is not the last, with the next bytes of a source.
fn compare<S: Source>(source: &mut S, room: &mut [u8], piece: &[u8]) -> Compared
    requires some { 0 < length room.old }
    ensures size { length room.new ≡ length room.old }
    ensures compares { Compares piece.now (S.source_state source.old) result (S.source_state source.new) }
    ensures within { (n : ℕ) → result ≡ Compared.Differs n → n ≤ length piece.now }
{
    let mut left = piece;
    while !left.is_empty() {
        let most = room.len().min(left.len());
        match read_front(source, room, most) {
            ReadResult::Got(n) => {
                let same = common(&room[..n], left);
                if same < n {
                    return Compared::Differs(piece.len() - left.len() + same);
                }
                let rest = rest_of(left, n);
                left = rest;
            }
            ReadResult::End => return Compared::Differs(piece.len() - left.len()),
            ReadResult::Failed => return Compared::Failed,
            ReadResult::Quiet => return Compared::Failed,
        }
    }
    Compared::Same
}

/// How a comparison ends where all bytes of the fork were the source's, up to this place.
fn ends<E, S: Source>(source: &mut S, room: &mut [u8], size: u64) -> Verified<E>
    requires some { 0 < length room.old }
    ensures size { length room.new ≡ length room.old }
    ensures ends { EndsAt size (S.source_state source.old) result (S.source_state source.new) }
{
    match read_front(source, room, 1) {
        ReadResult::Got(_) => Verified::Differs(size),
        ReadResult::End => Verified::Equal(size),
        ReadResult::Failed => Verified::SourceFault,
        ReadResult::Quiet => Verified::SourceFault,
    }
}

/// What a piece from this place comes to; behind the last the source must end.
#[tactic(auto, using(crate::proofs::VerifyLemmas::takes_last, crate::proofs::VerifyLemmas::takes_part))]
fn take_piece<E, S: Source>(
    source: &mut S,
    room: &mut [u8],
    piece: &[u8],
    from: u64,
    is_last: bool,
) -> Step<E>
    requires from { from < 2 ^ 63 }
    requires some { 0 < length room.old }
    ensures size { length room.new ≡ length room.old }
    ensures takes { TakesPiece is_last piece.now from (S.source_state source.old) result (S.source_state source.new) }
{
    let size = piece.len() as u64;
    if size > LAST_PLACE - from {
        return Step::Ends(Verified::BadReply);
    }
    match compare(source, room, piece) {
        Compared::Same => {
            if is_last {
                Step::Ends(ends(source, room, from + size))
            } else {
                Step::Moved(size)
            }
        }
        Compared::Differs(n) => Step::Ends(Verified::Differs(from + n as u64)),
        Compared::Failed => Step::Ends(Verified::SourceFault),
    }
}

/// What an answer to a read from this place comes to, which is lent.
#[tactic(auto, using(crate::proofs::VerifyLemmas::told_ok, crate::proofs::VerifyLemmas::told_end, crate::proofs::VerifyLemmas::told_refused))]
fn take_told<E, S: Source>(source: &mut S, room: &mut [u8], answer: &Answer, from: u64) -> Step<E>
    requires from { from < 2 ^ 63 }
    requires some { 0 < length room.old }
    ensures size { length room.new ≡ length room.old }
    ensures takes { TakesRead answer.now from (S.source_state source.old) result (S.source_state source.new) }
{
    match answer.code {
        Code::Ok => take_piece(source, room, piece_of(&answer.reply), from, false),
        Code::EOFErr => take_piece(source, room, piece_of(&answer.reply), from, true),
        _ => Step::Ends(Verified::Refused(answer.code)),
    }
}

/// What an answer to a read from this place comes to.
fn take_answer<E, S: Source>(source: &mut S, room: &mut [u8], answer: Answer, from: u64) -> Step<E>
    requires from { from < 2 ^ 63 }
    requires some { 0 < length room.old }
    ensures size { length room.new ≡ length room.old }
    ensures takes { TakesRead answer from (S.source_state source.old) result (S.source_state source.new) }
{
    take_told(source, room, &answer, from)
}

/// Reads once, and compares what came.
fn verify_once<A: Asker, S: Source>(
    asker: &mut A,
    source: &mut S,
    room: &mut [u8],
    reference: ForkRef,
    from: u64,
    count: u64,
) -> Step<A::End>
    requires from { from < 2 ^ 63 }
    requires count { count < 2 ^ 63 }
    requires some { 0 < length room.old }
    ensures size { length room.new ≡ length room.old }
    ensures verifies { VerifiesOnce reference count from (A.exchanges asker.old) (S.source_state source.old) result (A.exchanges asker.new) (S.source_state source.new) }
    ensures places { (n : ℕ) → result ≡ Step.Moved n → from + n < 2 ^ 63 }
    ensures falls { (n : ℕ) → result ≡ Step.Moved n → A.left asker.new < A.left asker.old }
{
    let call = read_at(reference, from, count);
    match asker.ask(&call) {
        Ok(answer) => take_answer(source, room, answer, from),
        Err(end) => Step::Ends(Verified::Ended(end)),
    }
}

/// Reads an open fork from this place until its end, in pieces of `count` bytes at most, and compares it with what the source gives.
pub fn verify_fork<A: Asker, S: Source, W: Watch>(
    asker: &mut A,
    source: &mut S,
    watch: &mut W,
    room: &mut [u8],
    reference: ForkRef,
    from: u64,
    count: u64,
) -> Verified<A::End>
    requires from { from < 2 ^ 63 }
    requires count { count < 2 ^ 63 }
    requires some { 0 < length room.old }
    ensures size { length room.new ≡ length room.old }
    ensures verifies { VerifiesFork reference count from (A.exchanges asker.old) (S.source_state source.old) result (A.exchanges asker.new) (S.source_state source.new) }
{
    let mut at = from;
    loop {
        match verify_once(asker, source, room, reference, at, count) {
            Step::Moved(n) => {
                at += n;
                watch.moved(at);
            }
            Step::Ends(end) => return end,
        }
    }
}
