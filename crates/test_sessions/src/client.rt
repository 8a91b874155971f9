//! A client's end of a session.
ghost use Rattle.std.specs.Prelude.{IfOk, IfSome};
ghost use Rattle.afp_client.specs.session.Opening.{FitsLogin};

use crate::text::short_of;
use afp_base::{Bytes, OutOfMemory, VolumeId};
use afp_calls_grammar::Call;
use afp_client::{ClientCore, Event, Login};
use std::alloc::Global;
use test_lines::LineResult;
use test_lines::lines::{digits_of, owned};

/// A user's name and password, where they are one.
fn login_of(alloc: Global, name: &str, password: &str) -> Result<Option<Login>, OutOfMemory>
    ensures { IfOk result (λ login. IfSome login FitsLogin) }
{
    let password = owned(alloc, password)?;
    let [a, b, c, d, e, f, g, h] = password.as_slice() else {
        return Ok(None);
    };
    if name.len() > 255 {
        return Ok(None);
    }
    let user = Bytes::of(alloc, name.as_bytes())?;
    Ok(Some(Login {
        user: Some((user, [*a, *b, *c, *d, *e, *f, *g, *h])),
    }))
}

/// `user NAME PASSWORD`.
pub fn user(alloc: Global, words: &[&str]) -> Result<Option<ClientCore>, OutOfMemory> {
    let [_, name, password] = words else {
        return Ok(None);
    };
    match login_of(alloc, name, password)? {
        Some(login) => Ok(Some(ClientCore::new(alloc, login)?)),
        None => Ok(None),
    }
}

/// `guest`.
pub fn guest(alloc: Global) -> Result<ClientCore, OutOfMemory> {
    ClientCore::new(alloc, Login { user: None })
}

fn written(alloc: Global, out: &Bytes) -> Result<Option<LineResult>, OutOfMemory> {
    Ok(Some(LineResult::Text(digits_of(alloc, out.as_slice())?)))
}

/// `link BYTES`.
pub fn link(
    alloc: Global,
    client: &mut ClientCore,
    words: &[&str],
) -> Result<Option<LineResult>, OutOfMemory> {
    let [_, bytes] = words else {
        return Ok(None);
    };
    let coming = owned(alloc, bytes)?;
    let mut out = Bytes::new(alloc);
    client.start(&mut out)?;
    client.feed(coming.as_slice());
    written(alloc, &out)
}

/// What an event is, in words.
fn event_text(alloc: Global, event: &Event) -> Result<String, OutOfMemory> {
    match event {
        Event::Told { code, block } => {
            let (code, block) = (code.number(), digits_of(alloc, block.as_slice())?);
            Ok(format!(in alloc; "told {code} {block}")?)
        }
        Event::Refused { code } => {
            let code = code.number();
            Ok(format!(in alloc; "refused {code}")?)
        }
        Event::Lost { code } => {
            let code = code.number();
            Ok(format!(in alloc; "lost {code}")?)
        }
        Event::Attention(number) => Ok(format!(in alloc; "attention {number}")?),
        Event::Bad { at } => Ok(format!(in alloc; "bad {at}")?),
        other => Ok(String::from_str(alloc, plain_word(other))?),
    }
}

/// The word of an event that has nothing with it.
fn plain_word(event: &Event) -> &'static str {
    match event {
        Event::NotYet => "not yet",
        Event::Step => "step",
        Event::Ready => "ready",
        Event::Tickle => "tickle",
        Event::Closed => "closed",
        Event::Memory => "no memory",
        _ => "another",
    }
}

/// `event`.
pub fn event(alloc: Global, client: &mut ClientCore) -> Result<Option<LineResult>, OutOfMemory> {
    let mut out = Bytes::new(alloc);
    let event = client.event(&mut out);
    let what = event_text(alloc, &event)?;
    let digits = digits_of(alloc, out.as_slice())?;
    Ok(Some(LineResult::Text(format!(in alloc; "{what}, wrote {digits}")?)))
}

/// `flush VOLUME`.
pub fn flush(
    alloc: Global,
    client: &mut ClientCore,
    words: &[&str],
) -> Result<Option<LineResult>, OutOfMemory> {
    let [_, volume] = words else {
        return Ok(None);
    };
    if !client.ready() {
        return Ok(Some(LineResult::Word("not ready")));
    }
    let mut out = Bytes::new(alloc);
    let call = Call::Flush {
        volume: VolumeId(short_of(volume)),
    };
    client.ask(&call, &mut out)?;
    written(alloc, &out)
}
