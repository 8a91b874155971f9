//! The comment of a file, where it has one.
ghost use Rattle.std.specs.Prelude.{◌≡◌, IfOk, IfSome, option_map, take};
ghost use Rattle.apple_double.specs.Contents as contents;
ghost use Rattle.apple_double.specs.Written.{IsComment};
ghost use Rattle.client_script_lines.specs.calls.Asked.{IsAskable};
ghost use Rattle.client_script_lines.specs.calls.Places.{IsPlace};
ghost use Rattle.client_script_commands.specs.commands.Replies.{comment_in};
ghost use Rattle.client_script_commands.specs.parcels.lemma.Telling.{AsksComment, FindsComment};

use crate::commands::replies::ask_desk;
use crate::parts::{Answer, Asker, Stop, ask, parts_end};
use afp_base::{Bytes, Code, OutOfMemory, VolumeId};
use afp_calls_grammar::Call;
use afp_replies::Reply;
use apple_double::LONGEST_COMMENT;
use client_script_lines::calls;
use std::alloc::Global;

/// The first bytes of a text, at most so many.
fn front_of(text: &[u8], size: usize) -> &[u8]
    ensures { result.now ≡ take size text.now }
{
    if size < text.len() {
        &text[..size]
    } else {
        text
    }
}

/// A comment as a parcel holds it: cut, and none where it is empty.
fn held(alloc: Global, text: &[u8]) -> Result<Option<Bytes>, OutOfMemory>
    ensures held { IfOk result (λ comment. comment ≡ contents.comment_in text.now) }
    ensures is { IfOk result (λ comment. IfSome comment IsComment) }
{
    if text.is_empty() {
        return Ok(None);
    }
    let comment = Bytes::of(alloc, front_of(text, LONGEST_COMMENT))?;
    Ok(Some(comment))
}

/// The comment of a reply, as a parcel holds it; `None` where the reply is none to this call.
fn comment_of(alloc: Global, reply: &Reply) -> Result<Option<Option<Bytes>>, OutOfMemory>
    ensures comment { IfOk result (λ found. found ≡ option_map contents.comment_in (comment_in reply.now)) }
    ensures is { IfOk result (λ found. IfSome found (λ comment. IfSome comment IsComment)) }
{
    match reply {
        Reply::Comment { comment } => Ok(Some(held(alloc, comment.as_slice())?)),
        _ => Ok(None),
    }
}

/// The same of an answer.
fn comment_told(alloc: Global, answer: Answer) -> Result<Option<Option<Bytes>>, OutOfMemory>
    ensures comment { IfOk result (λ found. found ≡ option_map contents.comment_in (comment_in answer.reply)) }
    ensures is { IfOk result (λ found. IfSome found (λ comment. IfSome comment IsComment)) }
{
    comment_of(alloc, &answer.reply)
}

/// Lets an answer go.
fn let_go(_answer: Answer) {}

/// Asks for a comment.
#[tactic(auto, using(crate::proofs::OfParcels::CommentLemmas::comment_some, crate::proofs::OfParcels::CommentLemmas::comment_bad, crate::proofs::OfParcels::CommentLemmas::comment_none, crate::proofs::OfParcels::CommentLemmas::comment_refused, crate::proofs::OfParcels::CommentLemmas::comment_stop, crate::proofs::OfParcels::CommentLemmas::comment_lack))]
fn ask_comment<A: Asker>(
    alloc: Global,
    asker: &mut A,
    call: Call,
) -> Result<Option<Bytes>, Stop<A::End>>
    requires { IsAskable call }
    ensures told { AsksComment call.entry (A.exchanges asker.old) result (A.exchanges asker.new) }
    ensures is { IfOk result (λ comment. IfSome comment IsComment) }
{
    parts_end::<A>();
    match ask(asker, call) {
        Ok(answer) => match answer.code {
            Code::Ok => match comment_told(alloc, answer) {
                Ok(Some(comment)) => Ok(comment),
                Ok(None) => Err(Stop::BadReply),
                Err(_) => Err(Stop::Memory),
            },
            Code::ItemNotFound => {
                let_go(answer);
                Ok(None)
            }
            _ => {
                let code = answer.code;
                let_go(answer);
                Err(Stop::Refused(code))
            }
        },
        Err(stop) => Err(stop),
    }
}

/// The comment of what is at a path.
#[tactic(auto, unfolding(crate::specs::parcels::Comments::comment_at))]
pub(crate) fn comment_at<A: Asker>(
    alloc: Global,
    asker: &mut A,
    volume: VolumeId,
    path: &[u8],
) -> Result<Option<Bytes>, Stop<A::End>>
    requires { IsPlace path.now }
    ensures told { FindsComment volume path.now (A.exchanges asker.old) result (A.exchanges asker.new) }
    ensures is { IfOk result (λ comment. IfSome comment IsComment) }
{
    parts_end::<A>();
    let dt = ask_desk(asker, calls::open_desk(volume))?;
    ask_comment(alloc, asker, calls::get_comment(alloc, dt, path)?)
}
