//! What comes of a line.
use afp_base::Bytes;
use std::io;

/// What comes of a line: nothing, a number, the code of a refusal, a word, bytes, or a text of its own.
#[derive(Drop)]
pub enum LineResult {
    Nothing,
    Number(u64),
    Code(i32),
    Word(&'static str),
    Bytes(Bytes),
    Text(String),
}

/// Prints a line, and what comes of it; bytes in hexadecimal digits, and nothing as `-`.
pub fn print_result(rt: &HostRuntime, line: &str, line_result: &LineResult) -> io::Result<()> {
    match line_result {
        LineResult::Nothing => println!(rt; "{line} -> -"),
        LineResult::Number(number) => println!(rt; "{line} -> {number}"),
        LineResult::Code(code) => println!(rt; "{line} -> {code}"),
        LineResult::Word(word) => println!(rt; "{line} -> {word}"),
        LineResult::Bytes(bytes) => {
            let digits = hex::encode(rt.alloc(), bytes.as_slice())?;
            println!(rt; "{line} -> {digits}")
        }
        LineResult::Text(text) => println!(rt; "{line} -> {text}"),
    }
}
