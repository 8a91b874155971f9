//! What happens to a client and the server ends of its links.
use afp_base::{LinkNumber, Moment};
use afp_calls_grammar::Call;
use afp_serial::Ask;

/// What happens. Links are numbered from 1, in the order in which the client begins them; bytes are counted.
#[derive(Drop)]
pub enum Happening<'a> {
    /// The client asks this call.
    Asks(Call<'a>),
    /// At most so many bytes under way to the server end of a link reach it.
    ToServer {
        link: u32,
        bytes: u32,
        now: Moment,
    },
    /// At most so many bytes under way on the client's newest link reach the client.
    ToClient {
        link: u32,
        bytes: u32,
    },
    /// A server end reads nothing for a while.
    Quiet {
        link: u32,
        now: Moment,
    },
    /// A server end is lost.
    Lost {
        link: u32,
        now: Moment,
    },
    /// The client's link breaks, and it begins the next one.
    Breaks,
    /// Others ask the teller.
    Others {
        now: Moment,
        link: LinkNumber,
        ask: Ask,
    },
}
