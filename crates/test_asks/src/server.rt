//! A server in memory, and what it is asked.
use crate::houses::{keepers_of, server_with};
use afp_base::{LinkNumber, MAX_PAYLOAD, Moment};
use afp_core::{Core, ListTeller};
use afp_serial::{Answered, Ask, House, Teller};
use record_keeper::MemoryKeeper;
use std::alloc::Global;
use test_lines::cases::{CaseFault, bytes_of, moment_of, owned, put_word, text_of};

/// A server `Mac` with the volume `Share`, begun at 100, and the moment of what follows.
#[derive(Drop)]
pub struct Server {
    pub house: House,
    pub teller: ListTeller<MemoryKeeper>,
    pub now: Moment,
}

fn teller_of(
    alloc: Global,
    house: &House,
    now: Moment,
) -> Result<ListTeller<MemoryKeeper>, CaseFault> {
    let keepers = keepers_of(alloc, house.volumes().len())?;
    match Core::new(alloc, house, keepers, now) {
        Ok(core) => Ok(ListTeller::new(alloc, core)),
        Err(_) => Err(CaseFault::Memory),
    }
}

impl Server {
    pub fn new(alloc: Global) -> Result<Server, CaseFault> {
        Server::with(alloc, "none", b"")
    }

    /// The same with these users, and with this message.
    pub fn with(alloc: Global, users: &str, message: &[u8]) -> Result<Server, CaseFault> {
        let now = moment_of("100")?;
        let house = server_with(alloc, b"Mac", message, users, "5368617265")?;
        let teller = teller_of(alloc, &house, now)?;
        Ok(Server { house, teller, now })
    }
}

/// `at SECONDS`: the moment of what follows.
pub fn at(alloc: Global, server: &mut Server, words: &[&str]) -> Result<String, CaseFault> {
    let [seconds] = words else {
        return Err(CaseFault::Word);
    };
    server.now = moment_of(seconds)?;
    text_of(alloc, "")
}

fn server_named(alloc: Global, words: &[&str]) -> Result<Server, CaseFault> {
    match words {
        [] => Server::new(alloc),
        [users, message] => { Server::with(alloc, users, bytes_of(alloc, message)?.as_slice()) }
        _ => Err(CaseFault::Word),
    }
}

/// `server` or `server USERS MESSAGE`: a new server follows, with users `ID:NAME,..` and a message, or without. The password of each user is `secret`.
pub fn new_server(alloc: Global, server: &mut Server, words: &[&str]) -> Result<String, CaseFault> {
    *server = server_named(alloc, words)?;
    text_of(alloc, "")
}

/// `counts`: how many entries the history has, and how many entries and sessions the server has counted.
pub fn counts(alloc: Global, server: &Server, words: &[&str]) -> Result<String, CaseFault> {
    let [] = words else {
        return Err(CaseFault::Word);
    };
    let mut text = String::new(alloc);
    put_counts(&server.teller, &mut text)?;
    Ok(text)
}

/// Appends how many entries the history has, and how many entries and sessions were counted.
pub fn put_counts(teller: &ListTeller<MemoryKeeper>, text: &mut String) -> Result<(), CaseFault> {
    let history = teller.entries().len();
    let counts = teller.core().counts();
    let (entries, sessions) = (counts.entries, counts.sessions);
    write!(
        text,
        "history {history} entries {entries} sessions {sessions}"
    )?;
    Ok(())
}

fn call_of(alloc: Global, id: &str, payload: &str) -> Result<Ask, CaseFault> {
    Ok(Ask::Call {
        id: id.parse::<u16>()?,
        write: false,
        offset: 0,
        payload: owned(alloc, payload)?,
    })
}

fn ask_of(alloc: Global, words: &[&str]) -> Result<Ask, CaseFault> {
    match words {
        ["open", attention] => Ok(Ask::Open {
            attention: attention.parse::<u32>()?,
        }),
        ["call", id, payload] => call_of(alloc, id, payload),
        ["pulse"] => Ok(Ask::Pulse),
        ["bye"] => Ok(Ask::Bye),
        ["lost"] => Ok(Ask::Lost),
        ["drain"] => Ok(Ask::Drain),
        _ => Err(CaseFault::Word),
    }
}

fn live_text(alloc: Global, drain: Option<Moment>) -> Result<String, CaseFault> {
    match drain {
        Some(since) => {
            let since = since.seconds();
            Ok(format!(in alloc; "live {since}")?)
        }
        None => text_of(alloc, "live"),
    }
}

fn reply_text(alloc: Global, code: i32, block: &[u8], ends: bool) -> Result<String, CaseFault> {
    let mut text = format!(in alloc; "reply {code} ")?;
    put_word(alloc, &mut text, block)?;
    if ends {
        text.push_str(" ends")?;
    }
    Ok(text)
}

/// What is told, whose block is the first bytes of `out`.
fn told_text(alloc: Global, answered: Answered, out: &[u8]) -> Result<String, CaseFault> {
    match answered {
        Answered::Opened { link } => {
            let link = link.0;
            Ok(format!(in alloc; "opened {link}")?)
        }
        Answered::Reply { code, size, ends } => {
            reply_text(alloc, code.number(), &out[..size.min(out.len())], ends)
        }
        Answered::Live { drain } => live_text(alloc, drain),
        Answered::Done => text_of(alloc, "done"),
        Answered::Displaced => text_of(alloc, "displaced"),
        Answered::Memory => Err(CaseFault::Memory),
    }
}

/// `ask LINK open ATTENTION`, `.. call ID PAYLOAD`, `.. pulse`, `.. bye`, `.. lost` or `.. drain`: what
/// the server tells that is asked a copy of this, past any link's frames.
pub fn ask(alloc: Global, server: &mut Server, words: &[&str]) -> Result<String, CaseFault> {
    let [link, words @ ..] = words else {
        return Err(CaseFault::Word);
    };
    let link = LinkNumber(link.parse::<u64>()?);
    let ask = ask_of(alloc, words)?;
    let copy = ask.copy()?;
    let mut out = vec![in alloc; 0u8; MAX_PAYLOAD as usize]?;
    let answered = server
        .teller
        .ask(server.now, link, copy, out.as_mut_slice());
    told_text(alloc, answered, out.as_slice())
}
