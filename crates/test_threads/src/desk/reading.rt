//! A pass that reads what it wrote.
use crate::desk::house::{moment, new_core, open};
use afp_base::{Bytes, Code, LinkNumber, MAX_PAYLOAD, OutOfMemory};
use afp_desk::{Desk, DeskTeller};
use afp_serial::{Answered, Ask, Teller};
use std::alloc::Global;
use std::sync::Wait;

/// FPLogin, FPOpenVol of `Share`, FPCreateDir of `d` in its root, and FPGetFileDirParms, which asks for the id of `d`; and the block that each is told.
fn calls() -> &'static [(&'static [u8], &'static [u8])] {
    &[
        (b"\x12\x06AFP3.3\x0fNo User Authent", b""),
        (b"\x18\x00\x00\x20\x05Share", b"\x00\x20\x00\x01"),
        (
            b"\x06\x00\x00\x01\x00\x00\x00\x02\x02\x01d",
            b"\x00\x00\x00\x11",
        ),
        (
            b"\x22\x00\x00\x01\x00\x00\x00\x02\x00\x00\x01\x00\x02\x01d",
            b"\x00\x00\x01\x00\x80\x00\x00\x00\x00\x11",
        ),
    ]
}

/// Whether it is the reply Ok with this block, which is the first bytes of `out`.
fn is_reply(answered: Answered, out: &[u8], want: &[u8]) -> bool {
    match answered {
        Answered::Reply { code, size, ends } => {
            code == Code::Ok && &out[..size.min(out.len())] == want && !ends
        }
        _ => false,
    }
}

/// Whether the teller tells this call on link 1 the block that is wanted.
fn tells_one<T: Teller>(
    alloc: Global,
    teller: &mut T,
    id: u16,
    call: &[u8],
    want: &[u8],
) -> Result<bool, OutOfMemory> {
    let mut out = vec![in alloc; 0u8; MAX_PAYLOAD as usize]?;
    let ask = Ask::Call {
        id,
        write: false,
        offset: 0,
        payload: Bytes::of(alloc, call)?,
    };
    let answered = teller.ask(moment(), LinkNumber(1), ask, out.as_mut_slice());
    Ok(is_reply(answered, out.as_slice(), want))
}

/// Whether the teller tells each call on link 1 the block that is wanted.
fn tells<T: Teller>(
    alloc: Global,
    teller: &mut T,
    calls: &[(&[u8], &[u8])],
) -> Result<bool, OutOfMemory> {
    let mut id: u16 = 0;
    for (call, want) in calls {
        id = id.saturating_add(1);
        if !tells_one(alloc, teller, id, call, want)? {
            return Ok(false);
        }
    }
    Ok(true)
}

/// Whether a pass that asked for a session tells them.
fn pass_tells<R: Wait>(
    rt: &R,
    alloc: Global,
    calls: &[(&[u8], &[u8])],
) -> Result<bool, OutOfMemory> {
    let Ok((desk, mut pass)) = Desk::new(alloc, new_core(alloc)?) else {
        return Err(OutOfMemory);
    };
    let mut teller = DeskTeller {
        rt,
        desk: &desk,
        pass: &mut pass,
    };
    let mut out = vec![in alloc; 0u8; MAX_PAYLOAD as usize]?;
    teller.ask(moment(), LinkNumber(0), open(), out.as_mut_slice());
    tells(alloc, &mut teller, calls)
}

#[test]
fn a_pass_reads_what_it_wrote(rt: HostRuntime) -> Result<(), OutOfMemory> {
    assert!(rt; pass_tells(&rt, rt.alloc(), calls())?);
    Ok(())
}
