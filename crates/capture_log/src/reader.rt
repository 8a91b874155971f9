//! A capture whose bytes come in pieces.
ghost use Rattle.std.specs.Prelude.{◌≡◌, ◌++◌, ◌+◌, ◌∷◌, ◌<◌, nat_lt, [], List, ℕ, length, IfOk, IfSome, IfNone, true};
ghost use Rattle.capture_log_lines.specs.log.Lines.{longest_line};
ghost use Rattle.capture_log.specs.Reading.{lines_in};
ghost use Rattle.capture_log.specs.Judged.{Judged};
ghost use Rattle.capture_log.specs.lemma.Gathering.{Holds, Gathers, EndsLine, IsOneLine};
ghost use Rattle.capture_log.specs.declared.replay_end.ReplayEnd.{ReplayEnd as End};

use crate::capture::Capture;
use crate::replay_end::ReplayEnd;
use afp_base::{Bytes, OutOfMemory};
use capture_log_lines::LONGEST_LINE;
use capture_log_server::TellerMaker;
use std::alloc::Global;
use std::marker::Model;

/// A capture, and what stands behind its last newline.
#[derive(Drop)]
pub struct Reader<M: TellerMaker> {
    capture: Capture<M>,
    held: Bytes,
}

impl<M: TellerMaker> Model for Reader<M> {
    ghost use Rattle.capture_log.specs.lemma.Gathering.{ReaderState};

    ghost Value = { ReaderState };

    ghost view = { λ r. record { capture = r.capture; held = r.held } };
}

/// The first line, and what stands behind its newline, where there is one.
fn first_line(bytes: &[u8]) -> Option<(&[u8], &[u8])>
    ensures cut { IfSome result (λ parts. bytes.now ≡ parts.0.now ++ 10 ∷ parts.1.now) }
    ensures one { IfSome result (λ parts. IsOneLine parts.0.now) }
    ensures none { IfNone result (IsOneLine bytes.now) }
{
    for i in 0..bytes.len() {
        if bytes[i] == b'\n' {
            return Some((&bytes[..i], &bytes[i + 1..]));
        }
    }
    None
}

impl<M: TellerMaker> Reader<M> {
    /// Nothing was read.
    pub fn new(alloc: Global, fresh: M) -> Reader<M>
        ensures { Holds result [] }
    {
        Reader {
            capture: Capture::new(alloc, fresh),
            held: Bytes::new(alloc),
        }
    }

    /// Whether what is held and these bytes are too long for a line.
    fn is_too_long(&self, more: usize) -> bool
        ensures { result ≡ nat_lt longest_line (length self.now.held + more) }
    {
        self.held.as_slice().len().saturating_add(more) > LONGEST_LINE
    }

    /// What a line that is too long decides.
    fn too_long(&self) -> Result<ReplayEnd, OutOfMemory>
        ensures { IfOk result (λ verdict. verdict ≡ End.BadCapture (self.now.capture.number + 1)) }
    {
        Ok(ReplayEnd::BadCapture {
            line: self.capture.next_number()?,
        })
    }

    /// The end of a line, in front of its newline.
    fn end_line(&mut self, last: &[u8]) -> Result<Option<ReplayEnd>, OutOfMemory>
        requires is { (read : List ℕ) × Holds self.old read }
        requires one { IsOneLine last.now }
        ensures { IfOk result (λ verdict. (read : List ℕ) → Holds self.old read → EndsLine read last.now verdict self.new) }
    {
        if self.is_too_long(last.len()) {
            return Ok(Some(self.too_long()?));
        }
        self.held.extend(last)?;
        let verdict = self.capture.take(self.held.as_slice())?;
        self.held.truncate(0);
        Ok(verdict)
    }

    /// Bytes without a newline.
    fn hold(&mut self, more: &[u8]) -> Result<Option<ReplayEnd>, OutOfMemory>
        requires { IsOneLine more.now }
        ensures { IfOk result (λ verdict. (read : List ℕ) → Holds self.old read → Gathers (read ++ more.now) verdict self.new) }
    {
        if self.is_too_long(more.len()) {
            return Ok(Some(self.too_long()?));
        }
        self.held.extend(more)?;
        Ok(None)
    }

    /// Takes the next bytes, and says what they decide, if they do.
    pub fn feed(&mut self, piece: &[u8]) -> Result<Option<ReplayEnd>, OutOfMemory>
        requires { (read : List ℕ) × Holds self.old read }
        ensures { IfOk result (λ verdict. (read : List ℕ) → Holds self.old read → Gathers (read ++ piece.now) verdict self.new) }
    {
        let mut left = piece;
        while let Some((line, rest)) = first_line(left) {
            if let Some(end) = self.end_line(line)? {
                return Ok(Some(end));
            }
            left = rest;
        }
        self.hold(left)
    }

    /// The last line, which no newline ends.
    fn finish_line(&mut self) -> Result<ReplayEnd, OutOfMemory>
        requires is { (read : List ℕ) × Holds self.old read }
        requires some { 0 < length self.old.held }
        ensures { IfOk result (λ verdict. (read : List ℕ) → Holds self.old read → Judged (lines_in true read) true verdict) }
    {
        if let Some(end) = self.capture.take(self.held.as_slice())? {
            return Ok(end);
        }
        self.capture.end()
    }

    /// What is decided where no more bytes come.
    pub fn finish(&mut self) -> Result<ReplayEnd, OutOfMemory>
        requires { (read : List ℕ) × Holds self.old read }
        ensures { IfOk result (λ verdict. (read : List ℕ) → Holds self.old read → Judged (lines_in true read) true verdict) }
    {
        if self.held.as_slice().len() == 0 {
            self.capture.end()
        } else {
            self.finish_line()
        }
    }
}
