//! Replaying a capture that is read from a source.
ghost use Rattle.std.specs.Prelude.{◌≡◌, ◌<◌, ◌^◌, false, []};
ghost use Rattle.capture_log.specs.lemma.Gathering.{Holds};
ghost use Rattle.capture_log.specs.Reading.{Replays};

use crate::reader::Reader;
use crate::replay_end::ReplayEnd;
use afp_outside::{ReadResult, Source};
use capture_log_server::TellerMaker;
use std::alloc::Global;

/// The bytes of a read at most.
const ROOM: usize = 4096;

/// Reads until a line decides, or the source ends.
fn read_all<M: TellerMaker, S: Source>(
    reader: &mut Reader<M>,
    source: &mut S,
    turns: u64,
) -> ReplayEnd
    requires turns { turns < 2 ^ 63 }
    requires fresh { (S.source_state source.old).ended ≡ false }
    requires new { Holds reader.old [] }
    ensures { Replays turns (S.source_state source.old) result (S.source_state source.new) }
{
    let mut room = [0; ROOM];
    let mut taken: u64 = 0;
    while taken < turns {
        match source.read(&mut room) {
            ReadResult::Got(n) => {
                taken += n as u64;
                match reader.feed(&room[..n]) {
                    Ok(None) => {}
                    Ok(Some(end)) => return end,
                    Err(_) => return ReplayEnd::Memory,
                }
            }
            ReadResult::End => {
                let Ok(end) = reader.finish() else {
                    return ReplayEnd::Memory;
                };
                return end;
            }
            ReadResult::Failed => return ReplayEnd::ReadFault,
            ReadResult::Quiet => return ReplayEnd::ReadFault,
        }
    }
    ReplayEnd::Spent
}

/// Replays the capture that the source gives, on a server that nobody has used, until a line decides or the source ends. Its teller is made
/// once the house is known. It reads again only where fewer than `turns` bytes were taken. It holds one line at most, and the server.
pub fn replay<M: TellerMaker, S: Source>(
    alloc: Global,
    fresh: M,
    source: &mut S,
    turns: u64,
) -> ReplayEnd
    requires turns { turns < 2 ^ 63 }
    requires fresh { (S.source_state source.old).ended ≡ false }
    ensures { Replays turns (S.source_state source.old) result (S.source_state source.new) }
{
    let mut reader = Reader::new(alloc, fresh);
    read_all(&mut reader, source, turns)
}
