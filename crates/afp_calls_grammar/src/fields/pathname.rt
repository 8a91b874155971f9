//! Paths in requests (AFP Reference, "Pathnames").
ghost use Rattle.std.specs.Prelude.{◌≡◌, ◌≤◌, ◌++◌, ◌∷◌, length, replicate, IfOk, OnOk, OnErr};
ghost use Rattle.std.specs.Option.{option_copied};
ghost use Rattle.byteorder.specs.Endian.{big_bytes};
ghost use Rattle.afp_names.specs.Path.{IsPath, canonical_path, longest_path, step_bytes, element_of};
ghost use Rattle.afp_calls_grammar.specs.grammar.Words.{Pathname, pathname, hint_size, count_size};
ghost use Rattle.afp_calls_grammar.specs.fields.Taking.{Takes};
ghost use Rattle.afp_calls_grammar.specs.fields.lemma.Taking.{TakesText};
ghost use Rattle.afp_base.specs.Appended.{Keeps};
ghost use Rattle.afp_calls_grammar.specs.fields.Putting.{Puts};

use crate::fields::fields::Fields;
use crate::grammar::ReadFault;
use afp_base::{Bytes, OutOfMemory};
use afp_names::{LONG_NAMES, Name, Path, PathFault, Step, UTF8_NAMES, put_shown};
use byteorder::{BigEndian, ByteOrder};
use std::alloc::Global;

impl<'a> Fields<'a> {
    /// A path: its type, a hint where the type is that of UTF-8 names, a count and its bytes. An error
    /// takes nothing.
    pub fn path(&mut self, alloc: Global) -> Result<Path, ReadFault>
        ensures taken { Takes Pathname self.old result self.new }
        ensures err { OnErr result (self.new ≡ self.old) }
    {
        let mut ahead = self.again();
        let path = ahead.path_on(alloc)?;
        *self = ahead;
        Ok(path)
    }

    /// A path. An error may take some of its bytes.
    fn path_on(&mut self, alloc: Global) -> Result<Path, ReadFault>
        ensures { Takes Pathname self.old result self.new }
    {
        let piece = match self.piece(1) {
            Ok(piece) => piece,
            Err(fault) => return Err(fault),
        };
        let kind = piece[0];
        if kind != LONG_NAMES && kind != UTF8_NAMES {
            return Err(ReadFault::Param);
        }
        let text = match self.path_text(kind) {
            Ok(text) => text,
            Err(fault) => return Err(fault),
        };
        match Path::read(alloc, kind, text) {
            Ok(path) => Ok(path),
            Err(fault) => match fault {
                PathFault::Memory => Err(ReadFault::Memory),
                _ => Err(ReadFault::Param),
            },
        }
    }

    /// The bytes of a path of that type.
    fn path_text(&mut self, kind: u8) -> Result<&'a [u8], ReadFault>
        ensures text { TakesText kind self.old result self.new }
        ensures short { IfOk result (λ text. length text.now ≤ longest_path kind) }
    {
        if kind == LONG_NAMES {
            let piece = self.piece(1)?;
            return self.piece(usize::from(piece[0]));
        }
        let _hint = self.piece(4)?;
        let piece = self.piece(2)?;
        self.piece(usize::from(BigEndian::read_u16(piece)))
    }
}

/// A path. Its hint is 0. An error changes nothing.
pub fn put_path(alloc: Global, out: &mut Bytes, path: &Path) -> Result<(), OutOfMemory>
    ensures put { OnOk result (Puts (pathname path.now) out.old out.new) }
    ensures err { OnErr result (out.new ≡ out.old) }
{
    let text = canonical_bytes(alloc, path)?;
    let before = out.as_slice().len();
    match append_path(out, path.kind(), text.as_slice()) {
        Ok(()) => Ok(()),
        Err(error) => {
            out.truncate(before);
            Err(error)
        }
    }
}

/// A path's type, its hint and count, and its bytes. An error may leave some of them.
fn append_path(out: &mut Bytes, kind: u8, text: &[u8]) -> Result<(), OutOfMemory>
    requires { length text.now ≤ longest_path kind }
    ensures put { OnOk result (out.new ≡ out.old ++ (kind ∷ (replicate (hint_size kind) 0 ++ (big_bytes (count_size kind) (length text.now) ++ text.now)))) }
    ensures err { OnErr result (Keeps out.old out.new) }
{
    out.extend(&[kind])?;
    put_count(out, kind, text.len())?;
    out.extend(text)
}

/// What stands between a path's type and its bytes. An error changes nothing.
fn put_count(out: &mut Bytes, kind: u8, count: usize) -> Result<(), OutOfMemory>
    requires { count ≤ longest_path kind }
    ensures put { OnOk result (out.new ≡ out.old ++ (replicate (hint_size kind) 0 ++ big_bytes (count_size kind) count)) }
    ensures err { OnErr result (out.new ≡ out.old) }
{
    if kind == LONG_NAMES {
        return out.extend(&[count as u8]);
    }
    let mut bytes = [0; 6];
    BigEndian::write_u16(&mut bytes[4..], count as u16);
    out.extend(&bytes)
}

/// The shortest bytes that spell a path.
fn canonical_bytes(alloc: Global, path: &Path) -> Result<Bytes, OutOfMemory>
    ensures path { IsPath path.now }
    ensures bytes { IfOk result (λ bytes. bytes ≡ canonical_path path.now) }
{
    let kind = path.kind();
    let mut bytes = Bytes::new(alloc);
    let mut before = None;
    for i in 0..path.len() {
        let step = path.step(i);
        put_step(alloc, &mut bytes, kind, before, step)?;
        before = Some(step);
    }
    Ok(bytes)
}

/// A step, behind the step before it.
fn put_step(
    alloc: Global,
    bytes: &mut Bytes,
    kind: u8,
    before: Option<&Step>,
    step: &Step,
) -> Result<(), OutOfMemory>
    ensures { OnOk result (bytes.new ≡ bytes.old ++ step_bytes kind (option_copied before.entry) step.now) }
{
    match step {
        Step::Up => match before {
            Some(Step::Up) => bytes.extend(&[0]),
            _ => bytes.extend(&[0, 0]),
        },
        Step::Down(name) => {
            if let Some(Step::Down(_)) = before {
                bytes.extend(&[0])?;
            }
            put_element(alloc, bytes, kind, name)
        }
    }
}

/// A name, in UTF-8 or as a long name.
#[tactic(auto, unfolding(afp_names::specs::Path::element_of))]
fn put_element(alloc: Global, bytes: &mut Bytes, kind: u8, name: &Name) -> Result<(), OutOfMemory>
    ensures { OnOk result (bytes.new ≡ bytes.old ++ element_of kind name.now) }
{
    if kind != LONG_NAMES {
        return bytes.extend(name.as_str().as_bytes());
    }
    put_shown(alloc, bytes, name.as_str())
}
