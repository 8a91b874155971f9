//! Paths: steps up and down from a directory.
ghost use Rattle.std.specs.Prelude.{◌≡◌, ◌≢◌, ◌||◌, ◌<◌, ◌≤◌, ◌⊎◌, ◌++◌, ◌==◌, nat_le, not, true, false, Some, [], ◌∷◌, replicate, length, slice_get, IfOk, IfErr, OnOk};
ghost use Rattle.std.specs.List.{list_any, position_or_len};
ghost use Rattle.afp_names.specs.LongName.{longest_long_name};
ghost use Rattle.afp_names.specs.Path.{long_names, utf8_names, longest_long_path, longest_utf8_path, PathValue, IsPath, SpellsPath, canonical_path, path_fault, path_steps, has_bad_element, is_element, element_name};

use crate::long_names::LONGEST_LONG_NAME;
use crate::name::{Name, NameFault};
use afp_base::OutOfMemory;
use std::alloc::Global;
use std::marker::Model;
use thiserror::Error;

/// The kind of a path whose elements are long names, in bytes of [`crate::mac_roman`].
pub const LONG_NAMES: u8 = 2;

/// The kind of a path whose elements are names, in UTF-8.
pub const UTF8_NAMES: u8 = 3;

/// The most bytes of a path.
pub const LONGEST_PATH: usize = 65_535;

/// The most bytes of a path of kind [`LONG_NAMES`].
pub const LONGEST_LONG_PATH: usize = 255;

/// [`LONGEST_PATH`] and [`LONGEST_LONG_PATH`] are the most bytes that contracts speak of.
pub fn longest_paths_are_as_sent()
    ensures utf8 { LONGEST_PATH ≡ longest_utf8_path }
    ensures long { LONGEST_LONG_PATH ≡ longest_long_path }
{}

/// A step of a path: to the parent, or to the child of that name.
#[derive(Debug, Drop)]
pub enum Step {
    Up,
    Down(Name),
}

/// Why bytes are no path: their kind is none, or an element is no name. `Memory`: there is no
/// memory, which comes for no other reason.
#[derive(Clone, Copy, Debug, PartialEq, Eq, Error)]
pub enum PathFault {
    #[error("the kind of the path is neither long names nor UTF-8 names")]
    Kind,
    #[error("an element of the path is no name")]
    Element,
    #[error("out of memory")]
    Memory,
}

impl From<OutOfMemory> for PathFault {
    ghost use Rattle.std.specs.Prelude.{◌≡◌};
    ghost use Rattle.afp_names.specs.declared.path.PathFault.{PathFault};

    ghost from_gives = { λ _ fault. fault ≡ PathFault.Memory };

    fn from(_error: OutOfMemory) -> PathFault {
        PathFault::Memory
    }
}

/// A path. Contracts see its kind and its steps.
#[derive(Debug, Drop)]
pub struct Path {
    kind: u8,
    steps: Vec<Step>,
}

impl Model for Path {
    ghost use Rattle.afp_names.specs.LongName.{longest_long_name};
    ghost use Rattle.afp_names.specs.Path.{long_names, utf8_names, longest_long_path, longest_utf8_path, PathValue, IsPath};

    ghost Value = { PathValue };

    ghost view = { λ path. record { kind = path.kind; steps = path.steps.items } };

    ghost invariant = { λ path. IsPath (record { kind = path.kind; steps = path.steps.items }) };
}

impl Path {
    /// The path that these bytes spell. Each run of bytes other than 0 is a step down to the name
    /// that it spells, and each run of k zero bytes is k - 1 steps up, wherever it stands.
    pub fn read(alloc: Global, kind: u8, bytes: &[u8]) -> Result<Path, PathFault>
        requires fits { length bytes.now ≤ longest_utf8_path }
        requires long { kind ≡ long_names → length bytes.now ≤ longest_long_path }
        ensures kind { IfOk result (λ path. path.kind ≡ kind) }
        ensures path { IfOk result (λ path. SpellsPath bytes.now path) }
        ensures fault { IfErr result (λ fault. (fault ≡ PathFault.Memory) ⊎ (path_fault kind bytes.now ≡ Some fault)) }

        // No spelling of a path is shorter than its canonical one.
        ensures shortest { IfOk result (λ path. length (canonical_path path) ≤ length bytes.now) }
    {
        if !is_kind(kind) {
            return Err(PathFault::Kind);
        }
        match read_steps(alloc, kind, bytes) {
            Ok(steps) => Ok(Path { kind, steps }),
            Err(fault) => Err(fault),
        }
    }

    /// How many steps it has.
    pub fn len(&self) -> usize
        ensures len { result ≡ length self.now.steps }
        ensures path { IsPath self.now }
    {
        self.steps.len()
    }

    /// The step at a place, from 0.
    pub fn step(&self, i: usize) -> &Step
        requires { i < length self.now.steps }
        ensures { slice_get self.now.steps i ≡ Some result.now }
    {
        &self.steps[i]
    }

    /// The kind: [`LONG_NAMES`] or [`UTF8_NAMES`].
    pub fn kind(&self) -> u8
        ensures kind { result ≡ self.now.kind }
        ensures path { IsPath self.now }
    {
        self.kind
    }
}

fn is_kind(kind: u8) -> bool
    ensures { result ≡ (kind == long_names || kind == utf8_names) }
{
    kind == LONG_NAMES || kind == UTF8_NAMES
}

fn read_steps(alloc: Global, kind: u8, bytes: &[u8]) -> Result<Vec<Step>, PathFault>
    ensures steps { IfOk result (λ steps. steps.items ≡ path_steps kind bytes.now) }
    ensures good { OnOk result (has_bad_element kind bytes.now ≡ false) }
    ensures fault { IfErr result (λ fault. (fault ≡ PathFault.Memory) ⊎ ((fault ≡ PathFault.Element) × (has_bad_element kind bytes.now ≡ true))) }
{
    let mut steps = Vec::new(alloc);
    let mut place = 0;
    while place < bytes.len() {
        let rest = &bytes[place..];
        let zeros = zeros_at_front(rest);
        if zeros > 0 {
            go_up(&mut steps, zeros - 1)?;
            place += zeros;
        } else {
            let len = element_at_front(rest);
            let name = match read_element(alloc, kind, &rest[..len]) {
                Ok(name) => name,
                Err(fault) => return Err(fault),
            };
            push(&mut steps, Step::Down(name))?;
            place += len;
        }
    }
    Ok(steps)
}

/// How many zero bytes the bytes begin with.
fn zeros_at_front(bytes: &[u8]) -> usize
    ensures { result ≡ position_or_len (λ byte. not (byte == 0)) bytes.now }
{
    for (i, byte) in bytes.iter().enumerate() {
        if *byte != 0 {
            return i;
        }
    }
    bytes.len()
}

/// How many bytes other than 0 the bytes begin with.
fn element_at_front(bytes: &[u8]) -> usize
    ensures { result ≡ position_or_len (λ byte. byte == 0) bytes.now }
{
    for (i, byte) in bytes.iter().enumerate() {
        if *byte == 0 {
            return i;
        }
    }
    bytes.len()
}

/// Appends so many steps up.
fn go_up(steps: &mut Vec<Step>, times: usize) -> Result<(), OutOfMemory>
    ensures { OnOk result (steps.new.items ≡ steps.old.items ++ replicate times Step.Up) }
{
    for _time in 0..times {
        push(steps, Step::Up)?;
    }
    Ok(())
}

fn push(steps: &mut Vec<Step>, step: Step) -> Result<(), OutOfMemory>
    ensures { OnOk result (steps.new.items ≡ steps.old.items ++ step ∷ []) }
{
    steps.push(step)?;
    Ok(())
}

/// The name that an element spells.
fn read_element(alloc: Global, kind: u8, element: &[u8]) -> Result<Name, PathFault>
    requires not_empty { 0 < length element.now }
    requires no_zero { list_any (λ byte. byte == 0) element.now ≡ false }
    ensures name { IfOk result (λ name. name ≡ element_name kind element.now) }
    ensures good { OnOk result (is_element kind element.now ≡ true) }
    ensures fault { IfErr result (λ fault. (fault ≡ PathFault.Memory) ⊎ ((fault ≡ PathFault.Element) × (is_element kind element.now ≡ false))) }
{
    if kind != LONG_NAMES {
        return match Name::new(alloc, element) {
            Ok(name) => Ok(name),
            Err(fault) => Err(element_fault(fault)),
        };
    }
    if !fits_long_name(element) {
        return Err(PathFault::Element);
    }
    match Name::from_mac_roman(alloc, element) {
        Ok(name) => Ok(name),
        Err(_) => Err(PathFault::Memory),
    }
}

fn fits_long_name(element: &[u8]) -> bool
    ensures { result ≡ nat_le (length element.now) longest_long_name }
{
    element.len() <= LONGEST_LONG_NAME
}

/// What a fault of an element's name is to its path.
fn element_fault(fault: NameFault) -> PathFault
    ensures { (result ≡ PathFault.Memory) ⊎ ((result ≡ PathFault.Element) × (fault ≢ NameFault.Memory)) }
{
    match fault {
        NameFault::Memory => PathFault::Memory,
        NameFault::Empty | NameFault::TooLong | NameFault::HasNul | NameFault::NotUtf8 =>
            PathFault::Element,
    }
}
