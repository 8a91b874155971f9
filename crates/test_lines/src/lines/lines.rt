//! The lines of the standard input.
use crate::lines::line_result::{LineResult, print_result};
use afp_base::OutOfMemory;
use std::alloc::Global;
use std::io;
use std::io::ErrorKind;

/// Takes lines, one after the other.
pub trait TakesLines {
    /// Takes the line of a number. Lines are numbered from 1, those that are passed over too.
    fn take(&mut self, rt: &HostRuntime, number: u64, line: &str) -> io::Result<()>;
}

/// Hands on the lines of the standard input. One that is empty or begins with `#` is passed over.
pub fn take_lines<L: TakesLines>(rt: &HostRuntime, lines: &mut L) -> io::Result<()> {
    let mut number: u64 = 0;
    for line in rt.lines(rt.alloc()) {
        let line = line?;
        number = number.saturating_add(1);
        if !line.as_str().is_empty() && !line.as_str().starts_with('#') {
            lines.take(rt, number, line.as_str())?;
        }
    }
    Ok(())
}

/// Answers lines of words, one after the other.
pub trait AnswersLines {
    /// What comes of a line of these words. `None`: it is passed over.
    fn answer(&mut self, alloc: Global, words: &[&str]) -> Result<Option<LineResult>, OutOfMemory>;
}

/// Lines that are answered, and printed with what comes of them.
#[derive(Drop)]
struct Answered<A: Drop> {
    answers: A,
}

impl<A: AnswersLines + Drop> TakesLines for Answered<A> {
    fn take(&mut self, rt: &HostRuntime, _number: u64, line: &str) -> io::Result<()> {
        let words: Vec<&str> = line.split_whitespace().collect(rt.alloc())?;
        match self.answers.answer(rt.alloc(), words.as_slice()) {
            Ok(Some(line_result)) => print_result(rt, line, &line_result),
            Ok(None) => Ok(()),
            Err(OutOfMemory) => Err(io::Error::from(ErrorKind::OutOfMemory)),
        }
    }
}

/// Prints each line of the standard input, and behind it what comes of it.
pub fn answer_lines<A: AnswersLines + Drop>(rt: &HostRuntime, answers: A) -> io::Result<()> {
    let mut answered = Answered { answers };
    take_lines(rt, &mut answered)
}
