//! The options by which a session is opened.
ghost use Rattle.std.specs.Prelude.{◌≡◌, List, IfOk, IfErr, OnErr};
ghost use Rattle.std.specs.List.{flat_map};
ghost use Rattle.dsi_session.specs.Options.{SessionOption, AreOptions, OptionsStopAt, attention_in, attention_of, option_spelling, server_options};
ghost use Rattle.dsi_session.specs.lemma.Next.{IsNext, HasNoNext};

use afp_base::{REPLAY_CACHE_SIZE, Scan, Short};
use byteorder::{BigEndian, ByteOrder};
use std::marker::Model;
use thiserror::Error;

/// The type of the option that tells the most bytes of a request that the server takes.
const REQUEST_QUANTUM_TYPE: u8 = 0;

/// The type of the option that tells the most bytes of an attention that the client takes.
const ATTENTION_QUANTUM_TYPE: u8 = 1;

/// The type of the option that tells how many replies the server keeps.
const REPLAY_CACHE_TYPE: u8 = 2;

/// Bytes of the value of each of these.
const NUMBER_LENGTH: u8 = 4;

/// The attention quantum of a client that tells none.
const DEFAULT_ATTENTION_QUANTUM: u32 = 2;

/// The most bytes of a request that this server takes.
const REQUEST_QUANTUM: u32 = 130_048;

/// What the options of an OpenSession request tell: the attention quantum, the most bytes of an
/// attention that the client takes.
#[derive(Clone, Copy, Debug, PartialEq, Eq)]
pub struct OpenOptions {
    pub attention: u32,
}

/// An option does not fit in its payload: the place of its type, in bytes from the first.
#[derive(Clone, Copy, Debug, PartialEq, Eq, Error)]
#[error("the option at byte {at} does not fit into its payload")]
pub struct BadOptions {
    pub at: usize,
}

/// An option: its type, and its value.
#[derive(Drop)]
struct FoundOption<'a> {
    kind: u8,
    value: &'a [u8],
}

impl<'a> Model for FoundOption<'a> {
    ghost use Rattle.std.specs.Prelude.{◌<◌, length};
    ghost use Rattle.dsi_session.specs.Options.{SessionOption};

    ghost Value = { SessionOption };

    ghost view = { λ option. record { kind = option.kind; value = option.value.now } };

    ghost invariant = { λ option. length option.value.now < 256 };
}

impl<'a> FoundOption<'a> {
    /// The next option, where one fits: the cursor goes behind it.
    fn next(scan: &mut Scan<'a>) -> Result<FoundOption<'a>, Short>
        ensures ok { IfOk result (λ option. IsNext scan.old option scan.new) }
        ensures err { OnErr result (HasNoNext scan.old) }
    {
        let kind = scan.u8()?;
        let size = scan.u8()?;
        let value = scan.bytes(usize::from(size))?;
        Ok(FoundOption { kind, value })
    }

    /// The attention quantum that it tells.
    fn attention(&self) -> Option<u32>
        ensures { result ≡ attention_in self.now }
    {
        if self.kind == ATTENTION_QUANTUM_TYPE && self.value.len() == usize::from(NUMBER_LENGTH) {
            Some(BigEndian::read_u32(self.value))
        } else {
            None
        }
    }
}

/// Reads the options of an OpenSession request's payload. Each has a type of 1 byte, a length of 1
/// byte, and a value of so many bytes. The last attention quantum of length 4 counts, and 2 where there is
/// none; all others are skipped. An option that does not fit is bad.
pub fn read_options(payload: &[u8]) -> Result<OpenOptions, BadOptions>
    ensures options { IfOk result (λ read. (options : List SessionOption) × AreOptions payload.now options × (read.attention ≡ attention_of options)) }
    ensures bad { IfErr result (λ bad. (options : List SessionOption) × OptionsStopAt payload.now options bad.at) }
{
    let mut attention = DEFAULT_ATTENTION_QUANTUM;
    let mut scan = Scan::new(payload);
    while scan.remaining() > 0 {
        let at = scan.place();
        let Ok(option) = FoundOption::next(&mut scan) else {
            return Err(BadOptions { at });
        };
        attention = option.attention().unwrap_or(attention);
    }
    Ok(OpenOptions { attention })
}

/// The options that the server answers an OpenSession request with: its request quantum, 130,048, and
/// the size of its replay cache.
pub fn option_bytes() -> [u8; 12]
    ensures { result ≡ flat_map option_spelling server_options }
{
    let mut bytes = [0; 12];
    bytes[0] = REQUEST_QUANTUM_TYPE;
    bytes[1] = NUMBER_LENGTH;
    BigEndian::write_u32(&mut bytes[2..], REQUEST_QUANTUM);
    bytes[6] = REPLAY_CACHE_TYPE;
    bytes[7] = NUMBER_LENGTH;
    BigEndian::write_u32(&mut bytes[8..], REPLAY_CACHE_SIZE);
    bytes
}
