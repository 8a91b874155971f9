//! The answers that a session keeps.
use crate::text::short_of;
use afp_base::{Code, OutOfMemory};
use replay_cache::{Answer, Cache, Request};
use std::alloc::Global;
use test_lines::LineResult;
use test_lines::lines::{digits_of, owned, small_number_of};

/// The answer, its code and its block.
fn answer_text(alloc: Global, answer: &Answer) -> Result<String, OutOfMemory> {
    let code = answer.code.number();
    let block = digits_of(alloc, answer.block.as_slice())?;
    Ok(format!(in alloc; "{code} {block}")?)
}

/// `kept ID KIND OFFSET PAYLOAD`.
pub fn kept(
    alloc: Global,
    cache: &Cache,
    words: &[&str],
) -> Result<Option<LineResult>, OutOfMemory> {
    let [_, id, kind, offset, payload] = words else {
        return Ok(None);
    };
    let payload = owned(alloc, payload)?;
    let found = cache.find(
        short_of(id),
        *kind == "write",
        small_number_of(offset),
        payload.as_slice(),
    );
    match found {
        Some(answer) => Ok(Some(LineResult::Text(answer_text(alloc, answer)?))),
        None => Ok(Some(LineResult::Word("none"))),
    }
}

fn code_of(word: &str) -> Code {
    match word.parse::<i32>() {
        Ok(number) => Code::of(number).unwrap_or(Code::MiscErr),
        Err(_) => Code::MiscErr,
    }
}

/// `keep ID KIND OFFSET PAYLOAD CODE BLOCK`.
pub fn keep(
    alloc: Global,
    cache: &mut Cache,
    words: &[&str],
) -> Result<Option<LineResult>, OutOfMemory> {
    let [_, id, kind, offset, payload, code, block] = words else {
        return Ok(None);
    };
    let request = Request {
        id: short_of(id),
        write: *kind == "write",
        offset: small_number_of(offset),
        payload: owned(alloc, payload)?,
    };
    let answer = Answer {
        code: code_of(code),
        block: owned(alloc, block)?,
    };
    let found = cache.find(
        request.id,
        request.write,
        request.offset,
        request.payload.as_slice(),
    );
    if found.is_some() {
        return Ok(Some(LineResult::Word("kept before")));
    }
    cache.store(request, answer);
    Ok(Some(LineResult::Nothing))
}
