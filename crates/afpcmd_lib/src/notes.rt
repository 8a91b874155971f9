//! A person's console, and what it is told: each note has a cause, and the exit status is that of the last.
ghost use Rattle.std.specs.Prelude.{◌≡◌, ◌++◌, ◌∷◌, []};
ghost use Rattle.afpcmd_lib.specs.Status.{cause_status, status_of};

use client_files::Watch;

/// Why a note is told.
#[derive(Clone, Copy, Debug, PartialEq, Eq)]
pub enum Cause {
    /// Something was not done.
    NotDone,
    /// The words say nothing.
    Words,
    /// The standard output takes no more.
    Output,
    /// There was no memory.
    Memory,
    /// There is no server.
    NoServer,
    /// The session is lost: what the last call did is not known.
    Lost,
}

/// The exit status of a cause.
fn cause_status(cause: Cause) -> u8
    ensures { result ≡ cause_status cause }
{
    match cause {
        Cause::NotDone => 1,
        Cause::Words => 2,
        Cause::Output => 5,
        Cause::Memory => 6,
        Cause::NoServer => 7,
        Cause::Lost => 9,
    }
}

/// A person's console: lines of output, notes, and how far a copy is.
pub trait Console {
    ghost use Rattle.std.specs.Prelude.{◌≡◌, List, ◌++◌, ◌∷◌, []};
    ghost use Rattle.afpcmd_lib.specs.declared.notes.Cause.{Cause};

    /// The causes of the notes so far.
    ghost causes: { Self → List Cause };

    /// Bytes of the output. `false`: it takes no more.
    fn print(&mut self, text: &[u8]) -> bool
        ensures { causes self.new ≡ causes self.old };

    /// A note, and its cause.
    fn note(&mut self, cause: Cause, text: &str)
        ensures { causes self.new ≡ causes self.old ++ cause ∷ [] };

    /// The next command is waited for.
    fn prompt(&mut self)
        ensures { causes self.new ≡ causes self.old };

    /// A copy of this name begins: from this byte, of so many.
    fn begins(&mut self, name: &str, from: u64, size: u64)
        ensures { causes self.new ≡ causes self.old };

    /// So many bytes are where they belong.
    fn moved(&mut self, bytes: u64)
        ensures { causes self.new ≡ causes self.old };

    /// It ended.
    fn ends(&mut self)
        ensures { causes self.new ≡ causes self.old };
}

/// A console with the exit status that its notes have come to: 0 exactly where none was told.
#[derive(Drop)]
pub struct Notes<C: Console> {
    console: C,
    status: u8,
    ghost told: { status ≡ status_of (C.causes console) },
}

impl<C: Console> Notes<C> {
    /// A console to which no note was told.
    #[tactic(auto, using(crate::proofs::StatusLemmas::status_none))]
    pub fn new(console: C) -> Notes<C>
        requires { C.causes console ≡ [] }
    {
        Notes { console, status: 0 }
    }

    /// Tells a note.
    #[tactic(auto, using(crate::proofs::StatusLemmas::status_more))]
    pub fn note(&mut self, cause: Cause, text: &str)
        ensures { C.causes self.new.console ≡ C.causes self.old.console ++ cause ∷ [] }
    {
        self.console.note(cause, text);
        self.status = cause_status(cause);
    }

    /// Prints bytes; where they can't be printed, that is told, and nothing more is printed.
    pub(crate) fn print(&mut self, text: &[u8]) -> bool {
        if self.status == 5 {
            return false;
        }
        let done = self.console.print(text);
        if !done {
            self.note(Cause::Output, "the standard output takes no more");
        }
        done
    }

    /// The next command is waited for.
    pub(crate) fn prompt(&mut self) {
        self.console.prompt();
    }

    /// A copy begins.
    pub(crate) fn begins(&mut self, name: &str, from: u64, size: u64) {
        self.console.begins(name, from, size);
    }

    /// It ended.
    pub(crate) fn ends(&mut self) {
        self.console.ends();
    }

    /// The exit status that the notes have come to.
    #[tactic(auto, using(crate::proofs::StatusLemmas::status_zero))]
    pub fn status(&self) -> u8
        ensures none { result ≡ 0 → C.causes self.now.console ≡ [] }
        ensures status { result ≡ status_of (C.causes self.now.console) }
    {
        self.status
    }
}

impl<C: Console> Watch for Notes<C> {
    fn moved(&mut self, bytes: u64) {
        self.console.moved(bytes);
    }
}
