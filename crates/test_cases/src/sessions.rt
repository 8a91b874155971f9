//! Sessions of the Data Stream Interface: their options, their silence, their ids, and attentions.
use afp_base::Moment;
use dsi_session::{Attention, Due, Pulse, RequestIds, option_bytes, read_options};
use std::alloc::Global;
use test_lines::cases::{CaseFault, bits_of, bytes_of, moment_of, text_of, word_of};

/// `options BYTES`: the attention quantum, or where an option does not fit. `options`: those of the server.
pub fn options(alloc: Global, words: &[&str]) -> Result<String, CaseFault> {
    match words {
        [] => word_of(alloc, &option_bytes()),
        [bytes] => options_in(alloc, bytes_of(alloc, bytes)?.as_slice()),
        _ => Err(CaseFault::Word),
    }
}

fn options_in(alloc: Global, payload: &[u8]) -> Result<String, CaseFault> {
    match read_options(payload) {
        Ok(options) => {
            let attention = options.attention;
            Ok(format!(in alloc; "attention {attention}")?)
        }
        Err(bad) => {
            let at = bad.at;
            Ok(format!(in alloc; "bad {at}")?)
        }
    }
}

fn due_of(due: Due) -> &'static str {
    match due {
        Due::Nothing => " nothing",
        Due::Tickle => " tickle",
        Due::Silent => " silent",
    }
}

fn take(pulse: &mut Pulse, step: &str, now: Moment, text: &mut String) -> Result<(), CaseFault> {
    match step {
        "read" => pulse.note_read(now),
        "wrote" => pulse.note_write(now),
        "due" => text.push_str(due_of(pulse.due(now)))?,
        _ => return Err(CaseFault::Word),
    }
    Ok(())
}

/// `pulse MADE STEP SECONDS ..`, where a step is `read`, `wrote` or `due`: what is due at each `due`.
pub fn pulse(alloc: Global, words: &[&str]) -> Result<String, CaseFault> {
    let [made, steps @ ..] = words else {
        return Err(CaseFault::Word);
    };
    let mut pulse = Pulse::new(moment_of(made)?);
    let mut text = text_of(alloc, "due")?;
    for step in steps.chunks(2) {
        let [step, seconds] = step else {
            return Err(CaseFault::Word);
        };
        take(&mut pulse, step, moment_of(seconds)?, &mut text)?;
    }
    Ok(text)
}

/// `ids COUNT`: the first of so many ids, and each that is not one more than that before it.
pub fn ids(alloc: Global, words: &[&str]) -> Result<String, CaseFault> {
    let [count] = words else {
        return Err(CaseFault::Word);
    };
    let mut ids = RequestIds::new();
    let mut last = ids.next();
    let mut text = format!(in alloc; "{last}")?;
    for _ in 1..count.parse::<u32>()? {
        let id = ids.next();
        if last.checked_add(1) != Some(id) {
            write!(text, " .. {last} {id}")?;
        }
        last = id;
    }
    write!(text, " .. {last}")?;
    Ok(text)
}

/// `attention BITS`: what an Attention with these bits tells.
pub fn attention(alloc: Global, words: &[&str]) -> Result<String, CaseFault> {
    let [bits] = words else {
        return Err(CaseFault::Word);
    };
    let attention = Attention(bits_of(bits)?);
    let mut text = text_of(alloc, "tells")?;
    for (bit, name) in [
        (Attention::SHUTDOWN, " shutdown"),
        (Attention::CRASH, " crash"),
        (Attention::SERVER_MESSAGE, " message"),
        (Attention::DO_NOT_RECONNECT, " do not reconnect"),
    ] {
        if attention.0 & bit != 0 {
            text.push_str(name)?;
        }
    }
    Ok(text)
}
