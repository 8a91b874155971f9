//! The words of a command line.
use afp_base::OutOfMemory;
use std::io::ErrorKind;
use std::{env, io};

/// The words behind the program's name.
fn words_behind(rt: &HostRuntime) -> io::Result<Vec<String>> {
    let mut words = Vec::new(rt.alloc());
    for word in env::args(rt)?.skip(1) {
        words.push(word)?;
    }
    Ok(words)
}

/// The words behind the program's name; none, where one of them is not UTF-8, which a person is told. The one error is want of memory.
pub fn given_words(rt: &HostRuntime) -> Result<Vec<String>, OutOfMemory> {
    match words_behind(rt) {
        Ok(words) => Ok(words),
        Err(error) => match error.kind() {
            ErrorKind::OutOfMemory => Err(OutOfMemory),
            _ => {
                let _told = eprintln!(rt; "afpcmd: a word is not UTF-8");
                Ok(Vec::new(rt.alloc()))
            }
        },
    }
}
