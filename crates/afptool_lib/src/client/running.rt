//! A run of the client.
ghost use Rattle.std.specs.Prelude.{◌≡◌, ◌<◌, ◌^◌};
ghost use Rattle.afp_client.specs.session.Opening.{FitsLogin};
ghost use Rattle.afptool_lib.specs.client.Running.{RunsScript, status_of};

use crate::client::words::ClientWords;
use afp_outside::{Dialer, Sink, Source};
use client_script_run::{ClientEnd, run_client};
use std::alloc::Global;

/// A dialer to which all its links were handed back, and the exit status; and how the script ended, where one was carried out.
#[derive(Drop)]
pub struct Finished<D> {
    pub dialer: D,
    pub status: u8,
    pub end: Option<ClientEnd>,
}

/// The exit status of an end.
fn status_of(end: ClientEnd) -> u8
    ensures { result ≡ status_of end }
{
    match end {
        ClientEnd::Done => 0,
        ClientEnd::Refused { .. } => 1,
        ClientEnd::BadLine { .. } => 3,
        ClientEnd::ReadFault => 4,
        ClientEnd::WriteFault => 5,
        ClientEnd::Memory => 6,
        ClientEnd::Broken => 7,
        ClientEnd::DialFault => 7,
        ClientEnd::Spent => 8,
        ClientEnd::SessionLost { .. } => 9,
        ClientEnd::BadReply { .. } => 10,
    }
}

/// Carries out the script that the source gives, over links of the dialer, as the user that the words say; prints what each line comes to, and
/// gives the exit status. The dialer is one to the address of the words.
pub fn run_client_words<S: Source, O: Sink, D: Dialer>(
    alloc: Global,
    client: ClientWords,
    source: &mut S,
    out: &mut O,
    dialer: D,
    turns: u64,
) -> Finished<D>
    requires login { FitsLogin client.login }
    requires turns { turns < 2 ^ 63 }
    ensures { RunsScript D.Link.link_state turns client.login (D.dialer_state dialer) (D.dialer_state result.dialer) (S.source_state source.old) (S.source_state source.new) (O.sink_state out.old) (O.sink_state out.new) result.status }
{
    let ran = run_client(alloc, client.login, source, out, dialer, turns);
    Finished {
        dialer: ran.dialer,
        status: status_of(ran.end),
        end: Some(ran.end),
    }
}
