//! Runs of a server over links, doors, keepers and reports in memory that fail where they are told to: what no bytes on a link can
//! say. Behind each line of the standard input it prints what came of the run. Bytes are hexadecimal digits; lists are numbers joined
//! by `,`, with `*` and a count where one is repeated; `-` stands for none.
//!
//! - `link TURNS READS WRITES MOMENTS FAILING BYTES`: one link over a teller that opens one session. TURNS is how many bytes and quiets it
//!   may read; READS and WRITES are the most bytes of each call, where a read of 0 is a quiet; MOMENTS are those behind the reads;
//!   the calls of the numbers FAILING fail. Printed: why it ends, how many asks there were, the last Lost, the calls that entered the gate
//!   and those that left it, and what was written.
//! - `cut QUIET WRITES BYTES`: the same link at each place where its first read can end, with a quiet there or none; printed once for
//!   all places from the one that is told on.
//! - `room BYTES`: the same in a room that was taken before.
//! - `come READS BYTES`: a link that waits for the next `run`.
//! - `run KEEPERS FAILING ACCEPTS REPORT WORD..`: the whole server over so many keepers in memory, and as many doors as the words say workers, among which the
//!   links that wait are dealt out in turn, up to so many a door as the words say. FAILING are the calls of each keeper that fail, ACCEPTS and REPORT those of
//!   each door and of the report. A word that begins with `0x` is spelt by bytes. Printed: the status, the report, and what was written to each link that was
//!   handed back, door by door.
//! - `notes KEEPERS WORD..`: the whole server over so many keepers, and doors without a link. Printed: the status, the report, and what a person is told
//!   beside.
//! - `settings WORD..`: the volumes' places, the port, the workers and the links that the words set.
#![tactic(auto)]

mod gate;
mod link;
mod numbers;
mod one_session;
mod run;
mod server;

use run::answer_all;
use std::io;

fn main(rt: HostRuntime) -> io::Result<()> {
    answer_all(&rt, &rt)
}
