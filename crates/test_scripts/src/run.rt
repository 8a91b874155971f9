//! What comes of lines.
ghost use Rattle.std.specs.Prelude.{◌≡◌, ◌<◌, ◌≤◌, true, length, IfOk};
ghost use Rattle.client_script_lines.specs.calls.Places.{IsPlace};

use crate::fake::{Fake, FakeEnd, Given};
use crate::text::code_of;
use afp_base::{Bytes, ForkRef, NodeId, OutOfMemory, VolumeId};
use afp_names::{Path, UTF8_NAMES};
use client_script_commands::get::get::get;
use client_script_commands::ls::ls::ls;
use client_script_commands::parcels::pack::pack;
use client_script_commands::parcels::unpack::unpack;
use client_script_commands::{Stop, commands};
use std::alloc::Global;
use test_lines::lines::owned;
use test_lines::{AnswersLines, LineResult, number_at, small_number_at, word_at};

/// Lines of commands.
#[derive(Drop)]
pub struct Run;

/// The volume of every command.
const VOLUME: VolumeId = VolumeId(1);

/// What a command comes to.
type Comes = Result<Bytes, Stop<FakeEnd>>;

/// A path that fits a line, or the path of no elements.
fn place(alloc: Global, digits: &str) -> Result<Bytes, OutOfMemory>
    ensures { IfOk result (λ text. IsPlace text) }
{
    let text = owned(alloc, digits)?;
    if text.as_slice().len() > 4096 {
        return Err(OutOfMemory);
    }
    match Path::read(alloc, UTF8_NAMES, text.as_slice()) {
        Ok(_) => Ok(text),
        Err(_) => Err(OutOfMemory),
    }
}

/// A text of at most 255 bytes, or of none.
fn short(alloc: Global, digits: &str) -> Result<Bytes, OutOfMemory>
    ensures { IfOk result (λ text. length text < 256) }
{
    let text = owned(alloc, digits)?;
    if text.as_slice().len() > 255 {
        return Err(OutOfMemory);
    }
    Ok(text)
}

/// Bytes of a fork, at most 4,096.
fn piece(alloc: Global, digits: &str) -> Result<Bytes, OutOfMemory>
    ensures { IfOk result (λ text. length text ≤ 4096) }
{
    let text = owned(alloc, digits)?;
    if text.as_slice().len() > 4096 {
        return Err(OutOfMemory);
    }
    Ok(text)
}

fn reference_of(word: &str) -> ForkRef {
    match word.parse::<u16>() {
        Ok(number) => ForkRef(number),
        Err(_) => ForkRef(0),
    }
}

/// A place in a fork, 0 where it is past the last.
fn size_of(words: &[&str], place: usize) -> u64
    ensures { result < 9223372036854775808 }
{
    let number = number_at(words, place);
    if number < (1 << 63) { number } else { 0 }
}

/// The answers from this word on, the next one last.
fn given(alloc: Global, words: &[&str], first: usize) -> Result<Vec<Given>, OutOfMemory> {
    let mut given = Vec::new(alloc);
    let mut place = words.len();
    while place >= 2 && place - 2 >= first {
        given.push(Given {
            code: code_of(word_at(words, place - 2)),
            block: owned(alloc, word_at(words, place - 1))?,
        })?;
        place -= 2;
    }
    Ok(given)
}

/// What is printed.
fn told(alloc: Global, fake: &Fake, comes: Comes) -> Result<LineResult, OutOfMemory> {
    told_behind(alloc, fake, b"", comes)
}

/// What is printed of a command that may stop in its middle: then what it had said comes first.
fn told_behind(
    alloc: Global,
    fake: &Fake,
    said: &[u8],
    comes: Comes,
) -> Result<LineResult, OutOfMemory> {
    let asked = fake.asked();
    let said = match str::from_utf8(said) {
        Ok(said) => said,
        Err(_) => "no text ",
    };
    let text = match comes {
        Ok(text) => match str::from_utf8(text.as_slice()) {
            Ok(text) => format!(in alloc; "asks{asked} : {text}")?,
            Err(_) => format!(in alloc; "asks{asked} : no text")?,
        },
        Err(Stop::Refused(code)) => {
            let number = code.number();
            format!(in alloc; "asks{asked} : error {number}")?
        }
        Err(Stop::BadReply) => format!(in alloc; "asks{asked} : {said}bad reply")?,
        Err(Stop::Ended(FakeEnd::NoMore)) => format!(in alloc; "asks{asked} : {said}waits")?,
        Err(Stop::Ended(FakeEnd::Bad)) => format!(in alloc; "asks{asked} : {said}no reply")?,
        Err(_) => return Err(OutOfMemory),
    };
    Ok(LineResult::Text(text))
}

fn mount(alloc: Global, words: &[&str]) -> Result<LineResult, OutOfMemory> {
    let name = short(alloc, word_at(words, 1))?;
    let mut fake = Fake::new(alloc, given(alloc, words, 2)?);
    let comes = commands::mount::mount(alloc, &mut fake, name.as_slice());
    told(alloc, &fake, comes)
}

fn mkdir(alloc: Global, words: &[&str]) -> Result<LineResult, OutOfMemory> {
    let path = place(alloc, word_at(words, 1))?;
    let mut fake = Fake::new(alloc, given(alloc, words, 2)?);
    let comes = commands::mkdir::mkdir(alloc, &mut fake, VOLUME, path.as_slice());
    told(alloc, &fake, comes)
}

fn put(alloc: Global, words: &[&str]) -> Result<LineResult, OutOfMemory> {
    let path = place(alloc, word_at(words, 1))?;
    let bytes = piece(alloc, word_at(words, 2))?;
    let mut fake = Fake::new(alloc, given(alloc, words, 3)?);
    let comes = commands::put::put(alloc, &mut fake, VOLUME, path.as_slice(), bytes.as_slice());
    told(alloc, &fake, comes)
}

fn get_line(alloc: Global, words: &[&str]) -> Result<LineResult, OutOfMemory> {
    let path = place(alloc, word_at(words, 1))?;
    let mut fake = Fake::new(alloc, given(alloc, words, 2)?);
    let comes = get(alloc, &mut fake, VOLUME, path.as_slice());
    told(alloc, &fake, comes)
}

fn ls_line(alloc: Global, words: &[&str]) -> Result<LineResult, OutOfMemory> {
    let path = place(alloc, word_at(words, 1))?;
    let mut fake = Fake::new(alloc, given(alloc, words, 2)?);
    let mut said = Bytes::new(alloc);
    let comes = ls(alloc, &mut fake, VOLUME, path.as_slice(), &mut said);
    told_behind(alloc, &fake, said.as_slice(), comes)
}

fn mv(alloc: Global, words: &[&str]) -> Result<LineResult, OutOfMemory> {
    let path = place(alloc, word_at(words, 1))?;
    let target = place(alloc, word_at(words, 2))?;
    let name = place(alloc, word_at(words, 3))?;
    let mut fake = Fake::new(alloc, given(alloc, words, 4)?);
    let comes = commands::mv::mv(
        alloc,
        &mut fake,
        VOLUME,
        path.as_slice(),
        target.as_slice(),
        name.as_slice(),
    );
    told(alloc, &fake, comes)
}

fn cp(alloc: Global, words: &[&str]) -> Result<LineResult, OutOfMemory> {
    let path = place(alloc, word_at(words, 1))?;
    let target = place(alloc, word_at(words, 2))?;
    let name = place(alloc, word_at(words, 3))?;
    let mut fake = Fake::new(alloc, given(alloc, words, 4)?);
    let comes = commands::cp::cp(
        alloc,
        &mut fake,
        VOLUME,
        path.as_slice(),
        target.as_slice(),
        name.as_slice(),
    );
    told(alloc, &fake, comes)
}

fn swap(alloc: Global, words: &[&str]) -> Result<LineResult, OutOfMemory> {
    let path = place(alloc, word_at(words, 1))?;
    let target = place(alloc, word_at(words, 2))?;
    let mut fake = Fake::new(alloc, given(alloc, words, 3)?);
    let comes = commands::swap::swap(alloc, &mut fake, VOLUME, path.as_slice(), target.as_slice());
    told(alloc, &fake, comes)
}

fn rm(alloc: Global, words: &[&str]) -> Result<LineResult, OutOfMemory> {
    let path = place(alloc, word_at(words, 1))?;
    let mut fake = Fake::new(alloc, given(alloc, words, 2)?);
    let comes = commands::rm::rm(alloc, &mut fake, VOLUME, path.as_slice());
    told(alloc, &fake, comes)
}

fn hold(alloc: Global, words: &[&str]) -> Result<LineResult, OutOfMemory> {
    let path = place(alloc, word_at(words, 1))?;
    let mut fake = Fake::new(alloc, given(alloc, words, 2)?);
    let comes = commands::hold::hold(alloc, &mut fake, VOLUME, path.as_slice());
    told(alloc, &fake, comes)
}

fn id(alloc: Global, words: &[&str]) -> Result<LineResult, OutOfMemory> {
    let path = place(alloc, word_at(words, 1))?;
    let mut fake = Fake::new(alloc, given(alloc, words, 2)?);
    let comes = commands::id::id(alloc, &mut fake, VOLUME, path.as_slice());
    told(alloc, &fake, comes)
}

fn show(alloc: Global, words: &[&str]) -> Result<LineResult, OutOfMemory> {
    let path = place(alloc, word_at(words, 1))?;
    let mut fake = Fake::new(alloc, given(alloc, words, 2)?);
    let comes = commands::show::show(alloc, &mut fake, VOLUME, path.as_slice());
    told(alloc, &fake, comes)
}

fn lock(alloc: Global, words: &[&str]) -> Result<LineResult, OutOfMemory> {
    let mut fake = Fake::new(alloc, given(alloc, words, 4)?);
    let comes = commands::lock::lock(
        alloc,
        &mut fake,
        reference_of(word_at(words, 1)),
        size_of(words, 2),
        size_of(words, 3),
    );
    told(alloc, &fake, comes)
}

fn unlock(alloc: Global, words: &[&str]) -> Result<LineResult, OutOfMemory> {
    let mut fake = Fake::new(alloc, given(alloc, words, 4)?);
    let comes = commands::unlock::unlock(
        alloc,
        &mut fake,
        reference_of(word_at(words, 1)),
        size_of(words, 2),
        size_of(words, 3),
    );
    told(alloc, &fake, comes)
}

fn drop(alloc: Global, words: &[&str]) -> Result<LineResult, OutOfMemory> {
    let mut fake = Fake::new(alloc, given(alloc, words, 2)?);
    let comes = commands::drop::drop(alloc, &mut fake, reference_of(word_at(words, 1)));
    told(alloc, &fake, comes)
}

fn find(alloc: Global, words: &[&str]) -> Result<LineResult, OutOfMemory> {
    let mut fake = Fake::new(alloc, given(alloc, words, 2)?);
    let comes = commands::find::find(alloc, &mut fake, VOLUME, NodeId(small_number_at(words, 1)));
    told(alloc, &fake, comes)
}

fn note(alloc: Global, words: &[&str]) -> Result<LineResult, OutOfMemory> {
    let path = place(alloc, word_at(words, 1))?;
    let text = short(alloc, word_at(words, 2))?;
    let mut fake = Fake::new(alloc, given(alloc, words, 3)?);
    let comes = commands::note::note(alloc, &mut fake, VOLUME, path.as_slice(), text.as_slice());
    told(alloc, &fake, comes)
}

fn pack_line(alloc: Global, words: &[&str]) -> Result<LineResult, OutOfMemory> {
    let path = place(alloc, word_at(words, 1))?;
    let mut fake = Fake::new(alloc, given(alloc, words, 2)?);
    let comes = pack(alloc, &mut fake, VOLUME, path.as_slice());
    told(alloc, &fake, comes)
}

fn unpack_line(alloc: Global, words: &[&str]) -> Result<LineResult, OutOfMemory> {
    let path = place(alloc, word_at(words, 1))?;
    let bytes = piece(alloc, word_at(words, 2))?;
    let mut fake = Fake::new(alloc, given(alloc, words, 3)?);
    let comes = unpack(alloc, &mut fake, VOLUME, path.as_slice(), bytes.as_slice());
    told(alloc, &fake, comes)
}

fn bye(alloc: Global, words: &[&str]) -> Result<LineResult, OutOfMemory> {
    let mut fake = Fake::new(alloc, given(alloc, words, 1)?);
    let comes = commands::bye::bye(alloc, &mut fake);
    told(alloc, &fake, comes)
}

fn of_path(alloc: Global, words: &[&str]) -> Result<LineResult, OutOfMemory> {
    match word_at(words, 0) {
        "mkdir" => mkdir(alloc, words),
        "get" => get_line(alloc, words),
        "ls" => ls_line(alloc, words),
        "rm" => rm(alloc, words),
        "hold" => hold(alloc, words),
        "id" => id(alloc, words),
        "show" => show(alloc, words),
        "put" => put(alloc, words),
        "pack" => pack_line(alloc, words),
        "unpack" => unpack_line(alloc, words),
        _ => Ok(LineResult::Word("no command")),
    }
}

impl AnswersLines for Run {
    fn answer(&mut self, alloc: Global, words: &[&str]) -> Result<Option<LineResult>, OutOfMemory> {
        let result = match word_at(words, 0) {
            "mount" => mount(alloc, words)?,
            "mv" => mv(alloc, words)?,
            "cp" => cp(alloc, words)?,
            "swap" => swap(alloc, words)?,
            "lock" => lock(alloc, words)?,
            "unlock" => unlock(alloc, words)?,
            "drop" => drop(alloc, words)?,
            "find" => find(alloc, words)?,
            "note" => note(alloc, words)?,
            "bye" => bye(alloc, words)?,
            _ => of_path(alloc, words)?,
        };
        Ok(Some(result))
    }
}
