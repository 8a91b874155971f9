//! Reads of a fork until its end.
ghost use Rattle.std.specs.Prelude.{◌≡◌, ◌<◌, ◌≤◌, ◌^◌, List, ℕ, length, true, IfOk, OnOk, Ok, Err, Result};
ghost use Rattle.afp_base.specs.declared.ids.ForkRef.{ForkRef};
ghost use Rattle.client_script_lines.specs.calls.Asked.{IsAskable};
ghost use Rattle.client_script_commands.specs.commands.Replies.{piece_in};
ghost use Rattle.client_script_commands.specs.get.Reads.{reads, reads_behind};
ghost use Rattle.client_script_commands.specs.get.Told.{ReadsFork};
ghost use Rattle.client_script_commands.specs.get.lemma.Reading.{ReadsAll, ReadsOnce, ReadsPiece};
ghost use Rattle.client_script_commands.specs.parts.Parts.{Asked, Comes, Part};
ghost use Rattle.client_script_commands.specs.declared.parts.asker.Stop.{Stop};

use crate::commands::replies::ask_fork;
use crate::parts::{Answer, Asker, Stop, ask, close_refused, must_do, parts_end};
use afp_base::{Bytes, Code, ForkRef, OutOfMemory};
use afp_calls_grammar::Call;
use afp_replies::Reply;
use client_script_lines::calls;
use std::alloc::Global;

/// What a read gave.
#[derive(Drop)]
enum ReadPiece {
    /// Bytes, and there may be more.
    More(Bytes),
    /// The last bytes.
    Last(Bytes),
}

/// The bytes of a reply to a read.
fn piece_of(alloc: Global, reply: &Reply) -> Result<Bytes, OutOfMemory>
    ensures { IfOk result (λ piece. piece ≡ piece_in reply.now) }
{
    match reply {
        Reply::Piece { piece } => piece.copy(),
        _ => Ok(Bytes::new(alloc)),
    }
}

/// The bytes of an answer to a read.
fn piece_told(alloc: Global, answer: Answer) -> Result<Bytes, OutOfMemory>
    ensures { IfOk result (λ piece. piece ≡ piece_in answer.reply) }
{
    piece_of(alloc, &answer.reply)
}

/// Lets an answer go.
fn let_go(_answer: Answer) {}

/// Reads once, from this place.
#[tactic(auto, using(crate::proofs::OfGet::ReadLemmas::reads_more, crate::proofs::OfGet::ReadLemmas::reads_end, crate::proofs::OfGet::ReadLemmas::reads_refused, crate::proofs::OfGet::ReadLemmas::reads_stop, crate::proofs::OfGet::ReadLemmas::reads_lack))]
fn read_piece<A: Asker>(
    alloc: Global,
    asker: &mut A,
    reference: ForkRef,
    offset: u32,
) -> Result<ReadPiece, Stop<A::End>>
    requires { offset < 2 ^ 31 }
    ensures told { ReadsPiece reference offset (A.exchanges asker.old) result (A.exchanges asker.new) }
    ensures falls { OnOk result (A.left asker.new < A.left asker.old) }
{
    parts_end::<A>();
    match ask(asker, calls::read(reference, offset)) {
        Ok(answer) => match answer.code {
            Code::Ok => match piece_told(alloc, answer) {
                Ok(piece) => Ok(ReadPiece::More(piece)),
                Err(_) => Err(Stop::Memory),
            },
            Code::EOFErr => match piece_told(alloc, answer) {
                Ok(piece) => Ok(ReadPiece::Last(piece)),
                Err(_) => Err(Stop::Memory),
            },
            _ => {
                let code = answer.code;
                let_go(answer);
                Err(close_refused(asker, reference, code))
            }
        },
        Err(stop) => Err(stop),
    }
}

/// Where the next read may begin: a law of reads.
fn reads_go_on<A: Asker>()
    ensures within { (before final : Asked A.Fixed) (reference : ForkRef) (next : List ℕ → Part) (got : List ℕ) (result : Result (List ℕ) (Stop A.End)) → length got < 2 ^ 31
        → Comes before (reads reference next got) result final → Comes before (reads_behind reference next got) result final }
    ensures past { (before : Asked A.Fixed) (reference : ForkRef) (next : List ℕ → Part) (got : List ℕ) (result : Result (List ℕ) (Stop A.End)) → 2 ^ 31 ≤ length got → result ≡ Err Stop.BadReply
        → Comes before (reads_behind reference next got) result before }
{
    parts_end::<A>();
}

/// Reads once, behind the bytes that were read. `false`: these are all.
fn read_once<A: Asker>(
    alloc: Global,
    asker: &mut A,
    reference: ForkRef,
    got: &mut Bytes,
) -> Result<bool, Stop<A::End>>
    requires { length got.old < 2 ^ 31 }
    ensures reads { ReadsOnce reference got.old (A.exchanges asker.old) result got.new (A.exchanges asker.new) }
    ensures within { result ≡ Ok true → length got.new < 2 ^ 31 }
    ensures falls { OnOk result (A.left asker.new < A.left asker.old) }
{
    parts_end::<A>();
    reads_go_on::<A>();
    let offset = got.as_slice().len() as u32;
    match read_piece(alloc, asker, reference, offset)? {
        ReadPiece::Last(piece) => {
            got.extend(piece.as_slice())?;
            Ok(false)
        }
        ReadPiece::More(piece) => {
            got.extend(piece.as_slice())?;
            if got.as_slice().len() >= (1 << 31) {
                return Err(Stop::BadReply);
            }
            Ok(true)
        }
    }
}

/// Reads until the end.
fn read_all<A: Asker>(
    alloc: Global,
    asker: &mut A,
    reference: ForkRef,
) -> Result<Bytes, Stop<A::End>>
    ensures { ReadsAll reference (A.exchanges asker.old) result (A.exchanges asker.new) }
{
    let mut got = Bytes::new(alloc);
    loop {
        match read_once(alloc, asker, reference, &mut got) {
            Ok(true) => {}
            Ok(false) => return Ok(got),
            Err(stop) => return Err(stop),
        }
    }
}

/// Reads a fork that this call opens until its end, and closes it.
#[tactic(auto, unfolding(crate::specs::get::Reads::read_fork))]
pub fn read_fork<A: Asker>(alloc: Global, asker: &mut A, opens: Call) -> Result<Bytes, Stop<A::End>>
    requires { IsAskable opens }
    ensures { ReadsFork opens.entry (A.exchanges asker.old) result (A.exchanges asker.new) }
{
    let reference = ask_fork(asker, opens)?;
    let bytes = read_all(alloc, asker, reference)?;
    must_do(asker, calls::close_fork(reference))?;
    Ok(bytes)
}
