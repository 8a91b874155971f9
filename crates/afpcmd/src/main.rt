//! A file client: it carries files between this machine and a server of the Apple Filing Protocol.
#![tactic(auto)]

mod asking;
mod console;
mod disk;
mod given;
mod patience;
mod secrets;

use crate::asking::{Calls, why_of};
use crate::console::Person;
use crate::disk::Disk;
use crate::given::given_words;
use crate::patience::Patience;
use crate::secrets::login_of;
use afp_base::NO_LIMIT;
use afp_client::ClientCore;
use afpcmd_lib::{
    Cause, Notes, Outcome, Place, Session, WordFault, Words, command_words, explain, place_in,
    read_words, run_line, run_words, tell_end,
};
use client_script_run::{Unopened, open_asker};
use std::fs;
use std::io::{Input, IsTerminal};
use std::process::ExitCode;

/// The bytes of a read of a link at most.
const ROOM: usize = 147_456;

/// The exit status for want of memory.
const NO_MEMORY: u8 = 6;

/// For how many seconds a server is dialled that was there.
const PATIENCE: u64 = 60;

/// A person's session at this machine.
type Here<'a> = Session<Calls<Patience<'a>>, Disk<'a>, Person<'a>>;

/// Tells what a person is to know of words that say nothing, and gives the status.
fn tell_words(rt: &HostRuntime, words: &[String]) -> u8 {
    match explain(rt.alloc(), words) {
        Ok(Some(told)) => {
            let text = told.text.as_str();
            if !told.asked {
                let _told = eprint!(rt; "{text}");
                return 2;
            }
            match print!(rt; "{text}") {
                Ok(()) => 0,
                Err(_) => 5,
            }
        }
        Ok(None) => 2,
        Err(_) => NO_MEMORY,
    }
}

/// The address of a place, with the port that a word says.
fn address_of(rt: &HostRuntime, place: &Place, port: Option<&str>) -> Option<String> {
    let address = place.address.as_str();
    match port {
        Some(port) => format!(in rt.alloc(); "{address}:{port}").ok(),
        None => String::from_str(rt.alloc(), address).ok(),
    }
}

/// A number of seconds.
fn seconds_of(text: Option<&str>) -> Option<u64> {
    match text {
        Some(text) => text.parse::<u64>().ok(),
        None => None,
    }
}

/// The dialer to a place.
fn dialer_of<'a>(rt: &'a HostRuntime, place: &Place, words: &Words<'_>) -> Option<Patience<'a>> {
    let address = address_of(rt, place, words.port)?;
    let wait = seconds_of(words.wait);
    Some(Patience::new(rt, address, wait.unwrap_or(0), wait.unwrap_or(PATIENCE)))
}

/// Whether the next command is read behind one. On a terminal it is where this one was not done; elsewhere the first that is not done is the last.
fn goes_on(outcome: Outcome, on_terminal: bool) -> bool {
    match outcome {
        Outcome::Done => true,
        Outcome::Fails => on_terminal,
        Outcome::Ends | Outcome::Quits => false,
    }
}

/// Carries out the commands of a text.
fn run_lines(session: &mut Here<'_>, text: &str) {
    for line in text.lines() {
        if !goes_on(run_line(session, line), false) {
            return;
        }
    }
}

/// Carries out the commands of a file.
fn run_file(rt: &HostRuntime, session: &mut Here<'_>, path: &str) {
    match fs::read_to_string(rt, path) {
        Ok(text) => run_lines(session, text.as_str()),
        Err(_) => session.note(Cause::NotDone, "the file of commands can't be read"),
    }
}

/// The next line of the standard input: whether there is one.
fn next_line(rt: &HostRuntime, line: &mut String) -> Option<bool> {
    line.clear();
    match rt.read_line(line) {
        Ok(count) => Some(count > 0),
        Err(_) => None,
    }
}

/// Carries out the next command of the standard input, and tells whether one more is read.
fn run_next(rt: &HostRuntime, session: &mut Here<'_>, line: &mut String, asks: bool) -> bool {
    if asks {
        session.prompt();
    }
    match next_line(rt, line) {
        Some(true) => goes_on(run_line(session, line.as_str().trim_end()), asks),
        Some(false) => false,
        None => {
            session.note(Cause::NotDone, "the standard input can't be read");
            false
        }
    }
}

/// Carries out the commands of the standard input.
fn run_input(rt: &HostRuntime, session: &mut Here<'_>) {
    let asks = rt.stdin().is_terminal();
    let mut line = String::new(rt.alloc());
    for _ in 0..u64::MAX {
        if !run_next(rt, session, &mut line, asks) {
            return;
        }
    }
}

/// Carries out commands that are read.
fn run_commands(rt: &HostRuntime, session: &mut Here<'_>, place: &Place, words: &Words<'_>) {
    if !session.begins_in(place) {
        return;
    }
    match words.batch {
        Some(path) => run_file(rt, session, path),
        None => run_input(rt, session),
    }
}

/// Carries out the one command that the words say.
fn run_command(rt: &HostRuntime, session: &mut Here<'_>, words: &Words<'_>) {
    match command_words(rt.alloc(), words.words.as_slice()) {
        Ok(Some(command)) => run_words(session, command.as_slice(), words.flags),
        Ok(None) => session.note(
            Cause::Words,
            "a place is afp://[USER@]HOST[:PORT]/VOLUME/PATH",
        ),
        Err(_) => session.note(Cause::Memory, "there is no memory"),
    }
}

/// Carries out what the words say, in an open session.
fn run_session<'a>(
    rt: &'a HostRuntime,
    calls: Calls<Patience<'a>>,
    notes: Notes<Person<'a>>,
    place: &Place,
    words: &Words<'_>,
) -> u8 {
    let mut session = Session::new(rt.alloc(), calls, Disk::new(rt), notes);
    if words.words.len() == 1 {
        run_commands(rt, &mut session, place, words);
    } else {
        run_command(rt, &mut session, words);
    }
    let (calls, notes) = session.into_parts();
    calls.close();
    notes.status()
}

/// Tells why no client was opened.
fn tell_unopened<'a>(
    rt: &HostRuntime,
    notes: &mut Notes<Person<'a>>,
    unopened: Unopened<Patience<'a>>,
    place: &Place,
) {
    let address = place.address.as_str();
    match unopened.dialer.reason() {
        Some(reason) => match format!(in rt.alloc(); "{address}: {reason}") {
            Ok(text) => notes.note(Cause::NoServer, text.as_str()),
            Err(_) => notes.note(Cause::Memory, "there is no memory"),
        },
        None => tell_end(rt.alloc(), notes, &why_of(unopened.end)),
    }
}

/// Logs in, and carries out what the words say.
fn run_place(rt: &HostRuntime, words: &Words<'_>, place: &Place) -> u8 {
    let mut notes = Notes::new(Person::new(rt, words.quiet));
    let user = match words.user {
        Some(user) => Some(user),
        None => match &place.user {
            Some(user) => Some(user.as_str()),
            None => None,
        },
    };
    let login = match login_of(rt, user, words.password_file) {
        Ok(login) => login,
        Err(why) => {
            notes.note(Cause::Words, why);
            return notes.status();
        }
    };
    let Some(dialer) = dialer_of(rt, place, words) else {
        return NO_MEMORY;
    };
    let Ok(core) = ClientCore::new(rt.alloc(), login) else {
        return NO_MEMORY;
    };
    let Ok(room) = vec![in rt.alloc(); 0u8; ROOM] else {
        return NO_MEMORY;
    };
    match open_asker(rt.alloc(), core, dialer, room, NO_LIMIT) {
        Ok(asker) => run_session(rt, Calls::new(asker), notes, place, words),
        Err(unopened) => {
            tell_unopened(rt, &mut notes, unopened, place);
            notes.status()
        }
    }
}

/// Does what the words ask, and gives the exit status.
fn run(rt: &HostRuntime) -> u8 {
    let Ok(given) = given_words(rt) else {
        return NO_MEMORY;
    };
    let words = match read_words(rt.alloc(), given.as_slice()) {
        Ok(words) => words,
        Err(WordFault::Memory) => return NO_MEMORY,
        Err(WordFault::Bad) => return tell_words(rt, given.as_slice()),
    };
    match place_in(rt.alloc(), words.words.as_slice()) {
        Ok(Some(place)) => run_place(rt, &words, &place),
        Ok(None) => {
            let _told = eprintln!(rt;
                "afpcmd: name a server: HOST, or VERB with afp://HOST/VOLUME/PATH (--help)"
            );
            2
        }
        Err(_) => NO_MEMORY,
    }
}

fn main(rt: HostRuntime) -> ExitCode {
    ExitCode::from(run(&rt))
}
