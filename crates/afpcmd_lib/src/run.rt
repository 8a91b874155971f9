//! Commands, by their words.
ghost use Rattle.std.specs.Prelude.{◌≡◌};

use crate::codes::refusal_text;
use crate::lines::{flags_and_words, words_of};
use crate::local::Local;
use crate::notes::{Cause, Console, Notes};
use crate::place::Place;
use crate::session::{Outcome, Session};
use crate::trouble::{Trouble, Why};
use crate::words::Flags;
use afp_base::OutOfMemory;
use client_script_commands::Asker;
use std::alloc::Global;

/// The help.
const HELP: &str = "\
volumes                       ls [-lR] [PATH]
cd [PATH]       pwd           lcd LOCAL       lpwd
get [-rc] PATH [LOCAL]        put [-rc] LOCAL [PATH]
stat PATH       df [PATH]
mkdir PATH      rm PATH       mv PATH PATH    cp PATH PATH
help            quit
A PATH is names parted by /, from here, or from the volumes where it begins with /.
-r: a folder and all in it; -c: goes on where a copy stopped; -l: sizes and dates.
A name with spaces stands in double quotes.
";

/// Why a command is not done, in words.
pub(crate) fn trouble_text(
    alloc: Global,
    what: &str,
    trouble: &Trouble,
) -> Result<String, OutOfMemory> {
    match trouble {
        Trouble::Refused(code) => refusal_text(alloc, what, *code),
        Trouble::Ended(why) => match why.code {
            Some(code) => refusal_text(alloc, why.words, code),
            None => Ok(String::from_str(alloc, why.words)?),
        },
        Trouble::BadReply => Ok(format!(in alloc;
            "{what}: the server sent a reply that may not come"
        )?),
        Trouble::Local(error) => Ok(format!(in alloc; "{what}: {error}")?),
        Trouble::Bad(why) => Ok(format!(in alloc; "{what}: {why}")?),
        Trouble::Memory => Ok(String::from_str(alloc, "there is no memory")?),
    }
}

/// The cause of a note of trouble.
fn cause_of(trouble: &Trouble) -> Cause {
    match trouble {
        Trouble::Ended(why) => why.cause,
        Trouble::Memory => Cause::Memory,
        _ => Cause::NotDone,
    }
}

/// What follows it.
fn outcome_of(trouble: &Trouble) -> Outcome {
    match trouble {
        Trouble::Ended(_) | Trouble::BadReply | Trouble::Memory => Outcome::Ends,
        _ => Outcome::Fails,
    }
}

/// Whether a command ends the session.
fn is_quit(verb: &str) -> bool {
    verb == "quit" || verb == "exit" || verb == "bye"
}

impl<A: Asker<End = Why>, L: Local, C: Console> Session<A, L, C> {
    /// Tells trouble.
    fn tell(&mut self, what: &str, trouble: &Trouble) -> Outcome {
        let cause = cause_of(trouble);
        match trouble_text(self.alloc, what, trouble) {
            Ok(text) => self.notes.note(cause, text.as_str()),
            Err(_) => self.notes.note(Cause::Memory, "there is no memory"),
        }
        outcome_of(trouble)
    }

    /// Commands without a word behind their name.
    fn take_none(&mut self, verb: &str, flags: Flags) -> Result<(), Trouble> {
        match verb {
            "volumes" => self.show_volumes(),
            "ls" => self.ls("", flags.long, flags.deep),
            "cd" => self.cd("/"),
            "pwd" => self.pwd(),
            "lpwd" => self.lpwd(),
            "df" => self.df(""),
            "help" => {
                self.print(HELP);
                Ok(())
            }
            _ => Err(Trouble::Bad("no such command, or it takes other words (help)")),
        }
    }

    /// Commands with one.
    fn take_one(&mut self, verb: &str, path: &str, flags: Flags) -> Result<(), Trouble> {
        match verb {
            "volumes" => self.show_volumes(),
            "ls" => self.ls(path, flags.long, flags.deep),
            "cd" => self.cd(path),
            "lcd" => self.lcd(path),
            "get" => self.get(path, ".", flags.deep, flags.go_on),
            "put" => self.put(path, "", flags.deep, flags.go_on),
            "stat" => self.show(path),
            "df" => self.df(path),
            "mkdir" => self.mkdir(path),
            "rm" => self.rm(path),
            _ => Err(Trouble::Bad("no such command, or it takes other words (help)")),
        }
    }

    /// Commands with two.
    fn take_two(
        &mut self,
        verb: &str,
        first: &str,
        second: &str,
        flags: Flags,
    ) -> Result<(), Trouble> {
        match verb {
            "get" => self.get(first, second, flags.deep, flags.go_on),
            "put" => self.put(first, second, flags.deep, flags.go_on),
            "mv" => self.mv(first, second),
            "cp" => self.cp(first, second),
            _ => Err(Trouble::Bad("no such command, or it takes other words (help)")),
        }
    }

    /// Carries out a command.
    fn take(&mut self, words: &[&str], flags: Flags) -> Result<(), Trouble> {
        match words {
            [verb] => self.take_none(verb, flags),
            [verb, path] => self.take_one(verb, path, flags),
            [verb, first, second] => self.take_two(verb, first, second, flags),
            _ => Err(Trouble::Bad("a command takes at most two words (help)")),
        }
    }

    /// Carries out the words of a command, and tells what is not done.
    fn run(&mut self, words: &[&str], flags: Flags) -> Outcome {
        let what = match words {
            [] => return Outcome::Done,
            [verb] => *verb,
            [_, path, ..] => *path,
        };
        if words.len() == 1 && is_quit(what) {
            return Outcome::Quits;
        }
        match self.take(words, flags) {
            Ok(()) => Outcome::Done,
            Err(trouble) => self.tell(what, &trouble),
        }
    }

    /// Carries out a line.
    fn run_text(&mut self, line: &str) -> Result<Outcome, OutOfMemory> {
        let words = words_of(self.alloc, line)?;
        let (flags, words) = flags_and_words(self.alloc, words.as_slice())?;
        Ok(self.run(words.as_slice(), flags))
    }
}

/// Carries out a line that a person typed; one that begins with `#` is none.
pub fn run_line<A: Asker<End = Why>, L: Local, C: Console>(
    session: &mut Session<A, L, C>,
    line: &str,
) -> Outcome {
    if line.starts_with('#') {
        return Outcome::Done;
    }
    match session.run_text(line) {
        Ok(outcome) => outcome,
        Err(_) => session.tell("", &Trouble::Memory),
    }
}

/// Carries out the words of one command.
pub fn run_words<A: Asker<End = Why>, L: Local, C: Console>(
    session: &mut Session<A, L, C>,
    words: &[String],
    flags: Flags,
) {
    let mut texts = Vec::new(session.alloc);
    for word in words {
        if texts.push(word.as_str()).is_err() {
            session.notes.note(Cause::Memory, "there is no memory");
            return;
        }
    }
    let _outcome = session.run(texts.as_slice(), flags);
}

/// Tells why there is no session.
pub fn tell_end<C: Console>(alloc: Global, notes: &mut Notes<C>, why: &Why) {
    match trouble_text(alloc, "", &Trouble::Ended(*why)) {
        Ok(text) => notes.note(why.cause, text.as_str()),
        Err(_) => notes.note(Cause::Memory, "there is no memory"),
    }
}

impl<A: Asker<End = Why>, L: Local, C: Console> Session<A, L, C> {
    /// The next command is waited for.
    pub fn prompt(&mut self) {
        self.notes.prompt();
    }

    /// Tells a note.
    pub fn note(&mut self, cause: Cause, text: &str) {
        self.notes.note(cause, text);
    }

    /// Goes to the place's path, and tells whether that was done.
    pub fn begins_in(&mut self, place: &Place) -> bool {
        let path = place.path.as_str();
        if path.is_empty() {
            return true;
        }
        match self.cd(path) {
            Ok(()) => true,
            Err(trouble) => {
                let _outcome = self.tell(path, &trouble);
                false
            }
        }
    }
}
