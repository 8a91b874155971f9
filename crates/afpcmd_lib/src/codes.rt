//! Codes in words.
ghost use Rattle.std.specs.Prelude.{◌≡◌, IfOk};
ghost use Rattle.std.specs.String.{string_bytes};
ghost use Rattle.afpcmd_lib.specs.Refusals.{code_words, refusal_text};

use afp_base::{Code, OutOfMemory};
use itoa::Buffer;
use std::alloc::Global;

/// What a code tells a person.
#[tactic(auto, unfolding(crate::specs::Refusals::code_words))]
pub fn code_words(code: Code) -> &'static str
    ensures { result.now ≡ code_words code }
{
    match code {
        Code::Ok => "Ok",
        Code::NoMemory => "NoMemory: the server has no memory",
        Code::NoMoreSessions => "NoMoreSessions: the server has too many sessions",
        Code::AccessDenied => "AccessDenied: no right to do that",
        Code::BadUAM => "BadUAM: the server does not offer that login",
        Code::BadVersNum => "BadVersNum: the server does not speak AFP 3.3",
        Code::BitmapErr => "BitmapErr",
        Code::CantMove => "CantMove: a directory can't go into itself",
        Code::DenyConflict => "DenyConflict: somebody else has it open",
        Code::DirNotEmpty => "DirNotEmpty: the directory is not empty",
        Code::DiskFull => "DiskFull: the volume is full",
        Code::EOFErr => "EOFErr",
        Code::FileBusy => "FileBusy: it is open",
        Code::ItemNotFound => "ItemNotFound: there is none",
        Code::LockErr => "LockErr: somebody else locked that range",
        Code::MiscErr => "MiscErr: the server cannot keep it",
        Code::NoMoreLocks => "NoMoreLocks",
        Code::ObjectExists => "ObjectExists: it is there already",
        Code::ObjectNotFound => "ObjectNotFound: no such file or directory",
        Code::ParamErr => "ParamErr: the server does not take that",
        Code::RangeNotLocked => "RangeNotLocked",
        Code::RangeOverlap => "RangeOverlap",
        Code::UserNotAuth => "UserNotAuth: wrong name or password",
        Code::CallNotSupported => "CallNotSupported",
        Code::ObjectTypeErr => "ObjectTypeErr: it is a directory, or is none",
        Code::TooManyFilesOpen => "TooManyFilesOpen",
        Code::CantRename => "CantRename",
        Code::DirNotFound => "DirNotFound: no such directory",
        Code::VolLocked => "VolLocked",
        Code::ObjectLocked => "ObjectLocked: it is locked",
        Code::IDNotFound => "IDNotFound",
        Code::IDExists => "IDExists",
        Code::SameObjectErr => "SameObjectErr: source and target are one",
        Code::BadIDErr => "BadIDErr",
    }
}

/// A refusal: what was refused, the code's name and its number.
#[tactic(auto, unfolding(crate::specs::Refusals::refusal_text))]
pub(crate) fn refusal_text(alloc: Global, what: &str, code: Code) -> Result<String, OutOfMemory>
    ensures { IfOk result (λ text. string_bytes text ≡ refusal_text what.now code) }
{
    let mut text = String::from_str(alloc, what)?;
    text.push_str(": ")?;
    text.push_str(code_words(code))?;
    text.push_str(" (")?;
    let mut buffer = Buffer::new();
    text.push_str(buffer.format(code.number()))?;
    text.push_str(")")?;
    Ok(text)
}
