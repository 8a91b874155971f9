//! Bad frames, as text.
use crate::cases::fault::CaseFault;
use dsi_frame::{BadFrame, Reason};

/// Why a frame is bad.
fn reason_of(reason: Reason) -> &'static str {
    match reason {
        Reason::Flags => "flags",
        Reason::Command => "command",
        Reason::Length => "length",
        Reason::Offset => "offset",
        Reason::Unexpected => "unexpected",
        Reason::Phase => "phase",
    }
}

/// Appends the place of a bad frame, and why it is bad.
pub fn put_bad(text: &mut String, bad: BadFrame) -> Result<(), CaseFault> {
    let at = bad.at;
    let reason = reason_of(bad.reason);
    write!(text, "bad {at} {reason}")?;
    Ok(())
}
