//! Names of files and directories, paths, and the character set of long names.
use afp_base::NodeId;
use afp_names::mac_roman::{byte_of, char_of};
use afp_names::{Name, NameFault, Path, PathFault, Step, long_name};
use std::alloc::Global;
use test_lines::cases::{CaseFault, bytes_of, put_word, text_of, word_of};

fn name_fault(fault: NameFault) -> &'static str {
    match fault {
        NameFault::Empty => "empty",
        NameFault::TooLong => "too long",
        NameFault::HasNul => "has nul",
        NameFault::NotUtf8 => "not utf8",
        NameFault::Memory => "no memory",
    }
}

/// Appends the long name of a copy of the name.
fn put_long_name(
    alloc: Global,
    name: &Name,
    id: NodeId,
    text: &mut String,
) -> Result<(), CaseFault> {
    let copy = name.copy(alloc)?;
    put_word(alloc, text, long_name(alloc, &copy, id)?.as_slice())
}

fn key_and_long_name(alloc: Global, name: &Name, id: NodeId) -> Result<String, CaseFault> {
    let mut text = word_of(alloc, name.key(alloc)?.as_slice())?;
    text.push(' ')?;
    put_long_name(alloc, name, id, &mut text)?;
    Ok(text)
}

/// `name BYTES ID`: the key of the name, and the long name of the file or directory with that id; or why the bytes
/// are no name.
pub fn name(alloc: Global, words: &[&str]) -> Result<String, CaseFault> {
    let [bytes, id] = words else {
        return Err(CaseFault::Word);
    };
    let id = NodeId(id.parse::<u32>()?);
    match Name::new(alloc, bytes_of(alloc, bytes)?.as_slice()) {
        Ok(name) => key_and_long_name(alloc, &name, id),
        Err(fault) => text_of(alloc, name_fault(fault)),
    }
}

/// The kind of a path, and its steps: `^` to the parent, or the bytes of a name.
pub fn steps_of(alloc: Global, path: &Path) -> Result<String, CaseFault> {
    let kind = path.kind();
    let mut text = format!(in alloc; "{kind}")?;
    for i in 0..path.len() {
        text.push(' ')?;
        match path.step(i) {
            Step::Up => text.push('^')?,
            Step::Down(name) => {
                put_word(alloc, &mut text, name.as_str().as_bytes())?;
            }
        }
    }
    Ok(text)
}

fn path_fault(fault: PathFault) -> &'static str {
    match fault {
        PathFault::Kind => "kind",
        PathFault::Element => "element",
        PathFault::Memory => "no memory",
    }
}

/// `path KIND BYTES`: the kind, and the steps of the path; or why the bytes are no path.
pub fn path(alloc: Global, words: &[&str]) -> Result<String, CaseFault> {
    let [kind, bytes] = words else {
        return Err(CaseFault::Word);
    };
    let kind = kind.parse::<u8>()?;
    let bytes = bytes_of(alloc, bytes)?;
    if bytes.len() > 255 {
        return Err(CaseFault::Word);
    }
    match Path::read(alloc, kind, bytes.as_slice()) {
        Ok(path) => steps_of(alloc, &path),
        Err(fault) => text_of(alloc, path_fault(fault)),
    }
}

/// `characters BYTES`: the characters of these bytes in the character set of long names, in UTF-8. `!` stands before one whose
/// byte is another.
pub fn characters(alloc: Global, words: &[&str]) -> Result<String, CaseFault> {
    let [bytes] = words else {
        return Err(CaseFault::Word);
    };
    let mut text = String::new(alloc);
    for byte in bytes_of(alloc, bytes)? {
        let character = char_of(byte);
        if byte_of(character) != Some(byte) {
            text.push('!')?;
        }
        text.push(character)?;
    }
    word_of(alloc, text.as_bytes())
}

/// `byte CHARACTER`: its byte in the character set of long names.
pub fn byte(alloc: Global, words: &[&str]) -> Result<String, CaseFault> {
    let [text] = words else {
        return Err(CaseFault::Word);
    };
    match text.chars().next() {
        Some(character) => match byte_of(character) {
            Some(byte) => word_of(alloc, &[byte]),
            None => text_of(alloc, "none"),
        },
        None => Err(CaseFault::Word),
    }
}
