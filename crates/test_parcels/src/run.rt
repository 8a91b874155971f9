//! What comes of lines.
use afp_base::{Bytes, OutOfMemory};
use apple_double::{Parcel, ParcelFault, Shape, parcel_size, read_parcel, write_parcel};
use std::alloc::Global;
use test_lines::lines::{AnswersLines, LineResult, bytes_of, digits_of, word_at};

/// Lines of bytes that are read as a parcel.
#[derive(Drop)]
pub struct Run;

fn shape_word(shape: Shape) -> &'static str {
    match shape {
        Shape::Single => "single",
        Shape::Double => "double",
    }
}

/// A comment in hexadecimal digits, `none` where there is none.
fn comment_of(alloc: Global, comment: &Option<Bytes>) -> Result<String, OutOfMemory> {
    match comment {
        Some(comment) => digits_of(alloc, comment.as_slice()),
        None => Ok(String::from_str(alloc, "none")?),
    }
}

/// A name, `none` where there is none.
fn name_of(alloc: Global, p: &Parcel) -> Result<String, OutOfMemory> {
    match &p.name {
        Some(name) => Ok(String::from_str(alloc, name.as_str())?),
        None => Ok(String::from_str(alloc, "none")?),
    }
}

/// The format, the name, the three dates, the Finder's information, the comment, and both forks.
fn told(alloc: Global, shape: Shape, p: &Parcel) -> Result<LineResult, OutOfMemory> {
    let word = shape_word(shape);
    let name = name_of(alloc, p)?;
    let finder = digits_of(alloc, &p.finder)?;
    let comment = comment_of(alloc, &p.comment)?;
    let data_fork = digits_of(alloc, p.data_fork.as_slice())?;
    let resource_fork = digits_of(alloc, p.resource_fork.as_slice())?;
    let (created, modified, backup) = (p.created, p.modified, p.backup);
    let text = format!(in alloc;
        "{word} {name} {created} {modified} {backup} {finder} {comment} {data_fork} {resource_fork}"
    )?;
    Ok(LineResult::Text(text))
}

fn refused(alloc: Global, fault: ParcelFault) -> Result<LineResult, OutOfMemory> {
    match fault {
        ParcelFault::Short { at } => Ok(LineResult::Text(format!(in alloc; "short {at}")?)),
        ParcelFault::Magic => Ok(LineResult::Word("magic")),
        ParcelFault::Version => Ok(LineResult::Word("version")),
        ParcelFault::Entry { index } => Ok(LineResult::Text(format!(in alloc; "entry {index}")?)),
        ParcelFault::Memory => Err(OutOfMemory),
    }
}

/// The parcel of a file, in this format.
fn written(alloc: Global, shape: Shape, p: &Parcel) -> Result<LineResult, OutOfMemory> {
    if parcel_size(p, shape) >= 4_294_967_296 {
        return Ok(LineResult::Word("long"));
    }
    if let Some(comment) = &p.comment {
        let size = comment.as_slice().len();
        if size == 0 || size > 199 {
            return Ok(LineResult::Word("comment"));
        }
    }
    let mut out = Bytes::new(alloc);
    write_parcel(p, shape, &mut out)?;
    Ok(LineResult::Bytes(out))
}

impl AnswersLines for Run {
    fn answer(&mut self, alloc: Global, words: &[&str]) -> Result<Option<LineResult>, OutOfMemory> {
        let bytes = bytes_of(alloc, word_at(words, 1));
        let (shape, p) = match read_parcel(alloc, bytes.as_slice()) {
            Ok(found) => found,
            Err(fault) => return Ok(Some(refused(alloc, fault)?)),
        };
        match word_at(words, 0) {
            "read" => Ok(Some(told(alloc, shape, &p)?)),
            "single" => Ok(Some(written(alloc, Shape::Single, &p)?)),
            "double" => Ok(Some(written(alloc, Shape::Double, &p)?)),
            _ => Ok(None),
        }
    }
}
