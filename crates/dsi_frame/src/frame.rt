//! Headers of frames, and the writing of frames.
ghost use Rattle.std.specs.Prelude.{◌≡◌, ◌<◌, ◌≤◌, ◌++◌, false, length, IfOk, IfErr, OnOk, OnErr, MatchOption};
ghost use Rattle.afp_base.specs.Limits.{payload_limit};
ghost use Rattle.dsi_frame.specs.Frame.{frame_of, canonical_frame, canonical_header, header_fault, command_number, is_listed, header_length, WordFits};
ghost use Rattle.dsi_frame.specs.lemma.GoodHeader.{AreNumbers, IsGoodHeader};

use afp_base::{Bytes, MAX_PAYLOAD, OutOfMemory, Scan, Short};
use byteorder::{BigEndian, ByteOrder};
use std::fmt;
use thiserror::Error;

/// What a frame asks (AFP over TCP, "DSI commands").
#[derive(Clone, Copy, Debug, PartialEq, Eq)]
pub enum DsiCommand {
    CloseSession,
    Command,
    GetStatus,
    OpenSession,
    Tickle,
    Write,
    Attention,
}

/// The fields of a frame's header. `word` is the code in a reply, and in a Write request the place in
/// the payload where the data begin. `length` is the payload's, in bytes.
#[derive(Clone, Copy, Debug, PartialEq, Eq)]
pub struct Header {
    pub reply: bool,
    pub command: DsiCommand,
    pub id: u16,
    pub word: u32,
    pub length: u32,
}

/// Why a frame is bad: its flags are above 1, its command is not listed, its length is above 131,072,
/// the word of a Write request is above its length; or the frame is whole, but unexpected, or comes in
/// the wrong phase of its link.
#[derive(Clone, Copy, Debug, PartialEq, Eq)]
pub enum Reason {
    Flags,
    Command,
    Length,
    Offset,
    Unexpected,
    Phase,
}

impl fmt::Display for Reason {
    fn fmt<W: fmt::Write>(&self, f: &mut fmt::Formatter<W>) -> fmt::Result {
        f.write_str(match self {
            Reason::Flags => "its flags are above 1",
            Reason::Command => "its command is not listed",
            Reason::Length => "its payload is too long",
            Reason::Offset => "its offset is above its length",
            Reason::Unexpected => "it may not come",
            Reason::Phase => "it comes in the wrong phase of its link",
        })
    }
}

/// A bad frame: the place of its first byte in the stream, and why it is bad.
#[derive(Clone, Copy, Debug, PartialEq, Eq, Error)]
#[error("bad frame at byte {at}: {reason}")]
pub struct BadFrame {
    pub at: u64,
    pub reason: Reason,
}

/// What stands at the front of a stream: a whole frame with this header, less than a frame, or a bad
/// header.
#[derive(Clone, Copy, Debug, PartialEq, Eq)]
pub enum Head {
    Whole(Header),
    NotYet,
    Bad(BadFrame),
}

impl DsiCommand {
    // The number that a header carries.
    fn number(self) -> u8
        ensures { result ≡ command_number self }
    {
        match self {
            DsiCommand::CloseSession => 1,
            DsiCommand::Command => 2,
            DsiCommand::GetStatus => 3,
            DsiCommand::OpenSession => 4,
            DsiCommand::Tickle => 5,
            DsiCommand::Write => 6,
            DsiCommand::Attention => 8,
        }
    }

    // The command with that number, where one is listed.
    fn of(number: u8) -> Option<DsiCommand>
        ensures { MatchOption result (is_listed number ≡ false) (λ c. command_number c ≡ number) }
    {
        match number {
            1 => Some(DsiCommand::CloseSession),
            2 => Some(DsiCommand::Command),
            3 => Some(DsiCommand::GetStatus),
            4 => Some(DsiCommand::OpenSession),
            5 => Some(DsiCommand::Tickle),
            6 => Some(DsiCommand::Write),
            8 => Some(DsiCommand::Attention),
            _ => None,
        }
    }
}

// The numbers in a header, as they stand there.
#[derive(Clone, Copy)]
pub(crate) struct HeaderNumbers {
    pub(crate) flags: u8,
    pub(crate) command: u8,
    pub(crate) id: u16,
    pub(crate) word: u32,
    pub(crate) length: u32,
}

// The numbers in the first 16 bytes, the last 4 of which are passed over.
fn scan_numbers(bytes: &[u8]) -> Result<HeaderNumbers, Short>
    ensures ok { IfOk result (AreNumbers bytes.now) }
    ensures err { OnErr result (length bytes.now < header_length) }
{
    let mut scan = Scan::new(bytes);
    let numbers = HeaderNumbers {
        flags: scan.u8()?,
        command: scan.u8()?,
        id: scan.u16()?,
        word: scan.u32()?,
        length: scan.u32()?,
    };
    let _reserved = scan.bytes(4)?;
    Ok(numbers)
}

// The numbers in the first 16 bytes.
pub(crate) fn numbers_in(bytes: &[u8]) -> HeaderNumbers
    requires { header_length ≤ length bytes.now }
    ensures { AreNumbers bytes.now result }
{
    match scan_numbers(bytes) {
        Ok(numbers) => numbers,
        Err(_) => unreachable!(),
    }
}

// The header in the first 16 bytes, or its first fault.
pub(crate) fn read_header(bytes: &[u8]) -> Result<Header, Reason>
    requires { header_length ≤ length bytes.now }
    ensures good { IfOk result (IsGoodHeader bytes.now) }
    ensures bad { IfErr result (λ reason. header_fault bytes.now ≡ Some reason) }
{
    let numbers = numbers_in(bytes);
    if numbers.flags > 1 {
        return Err(Reason::Flags);
    }
    let Some(command) = DsiCommand::of(numbers.command) else {
        return Err(Reason::Command);
    };
    if numbers.length > MAX_PAYLOAD {
        return Err(Reason::Length);
    }
    if numbers.flags == 0 && command == DsiCommand::Write && numbers.word > numbers.length {
        return Err(Reason::Offset);
    }
    Ok(Header {
        reply: numbers.flags == 1,
        command,
        id: numbers.id,
        word: numbers.word,
        length: numbers.length,
    })
}

/// The 16 bytes of a header, with reserved bytes 0.
pub fn header_bytes(h: &Header) -> [u8; 16]
    ensures { result ≡ canonical_header h.now }
{
    let mut bytes = [0; 16];
    bytes[0] = if h.reply { 1 } else { 0 };
    bytes[1] = h.command.number();
    BigEndian::write_u16(&mut bytes[2..], h.id);
    BigEndian::write_u32(&mut bytes[4..], h.word);
    BigEndian::write_u32(&mut bytes[8..], h.length);
    bytes
}

/// Appends a frame, its reserved bytes 0. The payload has as many bytes as the header says, at most
/// 131,072, and the word of a Write request is at most that. An error changes nothing.
pub fn write_frame(h: &Header, payload: &[u8], out: &mut Bytes) -> Result<(), OutOfMemory>
    requires length { h.now.length ≡ length payload.now }
    requires limit { h.now.length ≤ payload_limit }
    requires offset { WordFits h.now.reply h.now.command h.now.word h.now.length }
    ensures ok { OnOk result (out.new ≡ out.old ++ canonical_frame (frame_of h.now payload.now)) }
    ensures err { OnErr result (out.new ≡ out.old) }
{
    let start = out.as_slice().len();
    out.extend(&header_bytes(h))?;
    match out.extend(payload) {
        Ok(()) => Ok(()),
        Err(fault) => {
            out.truncate(start);
            Err(fault)
        }
    }
}
