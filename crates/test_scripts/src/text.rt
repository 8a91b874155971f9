//! Numbers as text.
use afp_base::Code;

/// The code of a number, MiscErr where none has it.
pub fn code_of(word: &str) -> Code {
    match word.parse::<i32>() {
        Ok(number) => Code::of(number).unwrap_or(Code::MiscErr),
        Err(_) => Code::MiscErr,
    }
}
