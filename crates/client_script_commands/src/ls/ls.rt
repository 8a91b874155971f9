//! `ls PATH`.
ghost use Rattle.std.specs.Prelude.{◌≡◌, ◌+◌, ◌<◌, ◌≤◌, ◌^◌, List, ℕ, true, OnOk, Ok, Err, Result};
ghost use Rattle.afp_base.specs.declared.ids.VolumeId.{VolumeId};
ghost use Rattle.client_script_lines.specs.calls.Asked.{IsAskable};
ghost use Rattle.client_script_lines.specs.calls.Places.{IsPlace};
ghost use Rattle.client_script_commands.specs.ls.Ls.{IsSaid, entries_told, lists, lists_behind, ls};
ghost use Rattle.client_script_commands.specs.ls.lemma.Listing.{ListsOnce, ListsPage, Logs, ShowsOnce, ShowsPage};
ghost use Rattle.client_script_commands.specs.parts.Parts.{Asked, Comes};
ghost use Rattle.client_script_commands.specs.parts.Told.{AnyTells};
ghost use Rattle.client_script_commands.specs.declared.parts.asker.Stop.{Stop};

use crate::ls::rows::put_answer;
use crate::parts::{Answer, Asker, Stop, parts_end};
use afp_base::{Bytes, Code, VolumeId};
use afp_calls_grammar::Call;
use client_script_lines::{calls, error_text, numbered};
use std::alloc::Global;

/// What a list gave.
#[derive(Drop)]
enum Page {
    /// So many entries, whose lines were appended.
    Listed(u64),
    /// There are no more.
    Ended,
    /// It was refused.
    Refused(Code),
}

/// Lets an answer go.
fn let_go(_answer: Answer) {}

/// Lets a call go.
fn let_call_go(_call: Call) {}

/// Asks for a list.
#[tactic(auto, using(crate::proofs::OfParts::PartLemmas::any_told, crate::proofs::OfParts::PartLemmas::any_waits))]
fn ask_list<A: Asker>(asker: &mut A, call: Call) -> Result<Answer, Stop<A::End>>
    requires { IsAskable call }
    ensures any { AnyTells call.entry (A.exchanges asker.old) result (A.exchanges asker.new) }
    ensures log { Logs call.entry (A.exchanges asker.old) result (A.exchanges asker.new) }
    ensures falls { OnOk result (A.left asker.new < A.left asker.old) }
{
    let told = asker.ask(&call);
    let_call_go(call);
    match told {
        Ok(answer) => Ok(answer),
        Err(end) => Err(Stop::Ended(end)),
    }
}

/// Lists once, behind so many entries.
#[tactic(auto, using(crate::proofs::OfLs::ListLemmas::lists_more, crate::proofs::OfLs::ListLemmas::lists_bad, crate::proofs::OfLs::ListLemmas::lists_end, crate::proofs::OfLs::ListLemmas::lists_refused, crate::proofs::OfLs::ListLemmas::lists_stop, crate::proofs::OfLs::ListLemmas::lists_lack))]
fn list_page<A: Asker>(
    alloc: Global,
    asker: &mut A,
    volume: VolumeId,
    path: &[u8],
    count: u32,
    text: &mut Bytes,
) -> Result<Page, Stop<A::End>>
    requires place { IsPlace path.now }
    requires within { count + 1 < 2 ^ 32 }
    ensures page { ListsPage volume path.now count text.old (A.exchanges asker.old) result text.new (A.exchanges asker.new) }
    ensures shows { ShowsPage (A.exchanges asker.old) text.old result text.new (A.exchanges asker.new) }
    ensures falls { OnOk result (A.left asker.new < A.left asker.old) }
{
    parts_end::<A>();
    let call = match calls::list(alloc, volume, path, count + 1) {
        Ok(call) => call,
        Err(_) => return Err(Stop::Memory),
    };
    match ask_list(asker, call) {
        Ok(answer) => match answer.code {
            Code::Ok => match put_answer(alloc, text, answer) {
                Ok(Some(size)) => Ok(Page::Listed(size)),
                Ok(None) => Err(Stop::BadReply),
                Err(_) => Err(Stop::Memory),
            },
            Code::ObjectNotFound => {
                let_go(answer);
                Ok(Page::Ended)
            }
            _ => {
                let code = answer.code;
                let_go(answer);
                Ok(Page::Refused(code))
            }
        },
        Err(stop) => Err(stop),
    }
}

/// Where the next list may begin: a law of lists.
fn lists_go_on<A: Asker>()
    ensures within { (before final : Asked A.Fixed) (volume : VolumeId) (path : List ℕ) (count : ℕ) (text : List ℕ) (result : Result (List ℕ) (Stop A.End)) → count + 1 < 2 ^ 32
        → Comes before (lists volume path count text) result final → Comes before (lists_behind volume path count text) result final }
    ensures past { (before : Asked A.Fixed) (volume : VolumeId) (path : List ℕ) (count : ℕ) (text : List ℕ) (result : Result (List ℕ) (Stop A.End)) → 2 ^ 32 ≤ count + 1 → result ≡ Err Stop.BadReply
        → Comes before (lists_behind volume path count text) result before }
{
    parts_end::<A>();
}

/// Lists once, behind the entries that were listed. `false`: the text is whole.
fn list_once<A: Asker>(
    alloc: Global,
    asker: &mut A,
    volume: VolumeId,
    path: &[u8],
    count: &mut u32,
    text: &mut Bytes,
) -> Result<bool, Stop<A::End>>
    requires place { IsPlace path.now }
    requires within { count.old + 1 < 2 ^ 32 }
    ensures lists { ListsOnce volume path.now count.old text.old (A.exchanges asker.old) result count.new text.new (A.exchanges asker.new) }
    ensures shows { ShowsOnce (A.exchanges asker.old) text.old result text.new (A.exchanges asker.new) }
    ensures within { result ≡ Ok true → count.new + 1 < 2 ^ 32 }
    ensures falls { OnOk result (A.left asker.new < A.left asker.old) }
{
    parts_end::<A>();
    lists_go_on::<A>();
    match list_page(alloc, asker, volume, path, *count, text)? {
        Page::Listed(size) => {
            if size >= (1 << 32) {
                return Err(Stop::BadReply);
            }
            let next = u64::from(*count) + size;
            if next + 1 >= (1 << 32) {
                return Err(Stop::BadReply);
            }
            *count = next as u32;
            Ok(true)
        }
        Page::Ended => {
            let last = numbered(alloc, b"listed ", u64::from(*count))?;
            text.extend(last.as_slice())?;
            Ok(false)
        }
        Page::Refused(code) => {
            let last = error_text(alloc, code)?;
            text.extend(last.as_slice())?;
            Ok(false)
        }
    }
}

/// `ls PATH`: a line for each entry, and how many there are; or a refusal behind those that came before it. Where it stops in the middle, the
/// lines of the entries of the lists that were told are appended to `said`.
pub fn ls<A: Asker>(
    alloc: Global,
    asker: &mut A,
    volume: VolumeId,
    path: &[u8],
    said: &mut Bytes,
) -> Result<Bytes, Stop<A::End>>
    requires { IsPlace path.now }
    ensures comes { Comes (A.exchanges asker.old) (ls volume path.now) result (A.exchanges asker.new) }
    ensures said { IsSaid entries_told (A.exchanges asker.old) said.old result said.new (A.exchanges asker.new) }
    ensures silent { OnOk result (said.new ≡ said.old) }
{
    parts_end::<A>();
    let mut text = Bytes::new(alloc);
    let mut count = 0;
    loop {
        match list_once(alloc, asker, volume, path, &mut count, &mut text) {
            Ok(true) => {}
            Ok(false) => return Ok(text),
            Err(stop) => {
                let Ok(()) = said.extend(text.as_slice()) else {
                    return Err(Stop::Memory);
                };
                return Err(stop);
            }
        }
    }
}
