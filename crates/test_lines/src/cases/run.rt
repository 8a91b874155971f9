//! A run over the lines of cases.
use crate::cases::fault::CaseFault;
use crate::cases::words::{bytes_of, text_of, word_of};
use crate::lines::{TakesLines, take_lines};
use std::alloc::Global;
use std::io;
use std::io::ErrorKind;

/// Tries cases, one after the other.
pub trait TriesCases {
    /// What comes of a case of this kind, with these words behind it.
    fn case(&mut self, alloc: Global, kind: &str, words: &[&str]) -> Result<String, CaseFault>;
}

/// The cases, their kinds, and how many there were of each so far.
#[derive(Drop)]
struct Run<C: Drop> {
    cases: C,
    kinds: &'static [&'static str],
    counts: Vec<u64>,
}

/// What is wanted, with each word of bytes spelt out.
fn spelt_out(alloc: Global, wanted: &str) -> Result<String, CaseFault> {
    let mut text = String::new(alloc);
    for word in wanted.split(' ') {
        if !text.as_str().is_empty() {
            text.push(' ')?;
        }
        if word.contains('*') {
            text.push_str(word_of(alloc, bytes_of(alloc, word)?.as_slice())?.as_str())?;
        } else {
            text.push_str(word)?;
        }
    }
    Ok(text)
}

impl<C: TriesCases + Drop> Run<C> {
    fn count(&mut self, kind: &str) {
        for (known, count) in self.kinds.iter().zip(self.counts.iter_mut()) {
            if *known == kind {
                *count = count.saturating_add(1);
            }
        }
    }

    /// Runs a case, and says its result.
    fn run_case(&mut self, alloc: Global, case_words: &str) -> Result<String, CaseFault> {
        let words: Vec<&str> = case_words.split_whitespace().collect(alloc)?;
        let [kind, rest @ ..] = words.as_slice() else {
            return Err(CaseFault::Word);
        };
        self.count(kind);
        self.cases.case(alloc, kind, rest)
    }

    /// The result of a case, where it is not what is wanted.
    fn other_than(
        &mut self,
        alloc: Global,
        case_words: &str,
        wanted: &str,
    ) -> Result<Option<String>, CaseFault> {
        let wanted = spelt_out(alloc, wanted)?;
        match self.run_case(alloc, case_words) {
            Ok(got) => {
                if got.as_str() == wanted.as_str() {
                    return Ok(None);
                }
                Ok(Some(got))
            }
            Err(CaseFault::Word) => Ok(Some(text_of(alloc, "no case")?)),
            Err(CaseFault::Memory) => Err(CaseFault::Memory),
        }
    }

    /// Runs the case of a line, with what is wanted behind ` -> `. It tells the result of the case, where it is another.
    fn other(&mut self, alloc: Global, line: &str) -> Result<Option<String>, CaseFault> {
        match line.split_once(" -> ") {
            Some((case_words, wanted)) => self.other_than(alloc, case_words, wanted),
            None => self.other_than(alloc, line, ""),
        }
    }
}

/// The error of a program that cannot go on.
fn error_of(fault: CaseFault) -> io::Error {
    match fault {
        CaseFault::Word => io::Error::from(ErrorKind::InvalidInput),
        CaseFault::Memory => io::Error::from(ErrorKind::OutOfMemory),
    }
}

impl<C: TriesCases + Drop> TakesLines for Run<C> {
    /// Prints the line where its result is another.
    fn take(&mut self, rt: &HostRuntime, number: u64, line: &str) -> io::Result<()> {
        match self.other(rt.alloc(), line) {
            Ok(None) => Ok(()),
            Ok(Some(got)) => println!(rt; "line {number}: {line}\n  but got: {got}"),
            Err(fault) => Err(error_of(fault)),
        }
    }
}

/// One zero for each kind.
fn zeros(alloc: Global, kinds: &[&'static str]) -> Result<Vec<u64>, CaseFault> {
    let mut counts = Vec::new(alloc);
    for _ in kinds {
        counts.push(0)?;
    }
    Ok(counts)
}

fn print_counts(rt: &HostRuntime, kinds: &[&'static str], counts: &[u64]) -> io::Result<()> {
    for (kind, count) in kinds.iter().zip(counts.iter()) {
        println!(rt; "{count} {kind}")?;
    }
    Ok(())
}

/// Tries all cases of the standard input, and prints those whose result is another, and how many there were of each of these kinds.
pub fn try_cases<C: TriesCases + Drop>(
    rt: &HostRuntime,
    kinds: &'static [&'static str],
    cases: Result<C, CaseFault>,
) -> io::Result<()> {
    let (Ok(cases), Ok(counts)) = (cases, zeros(rt.alloc(), kinds)) else {
        return Err(error_of(CaseFault::Memory));
    };
    let mut run = Run {
        cases,
        kinds,
        counts,
    };
    take_lines(rt, &mut run)?;
    print_counts(rt, run.kinds, run.counts.as_slice())
}
