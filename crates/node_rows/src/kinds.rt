//! Which of a list of nodes are files, and how many of a kind stand before a place.
ghost use Rattle.std.specs.Prelude.{◌≡◌, ◌+◌, ◌<◌, ◌≤◌, ◌++◌, ℕ, List, Bool, [], true, length, map, take, drop, insert, slice_index_or, OnOk, OnErr, vec_len, vec_capacity};
ghost use Rattle.std.specs.List.{remove, list_all};
ghost use Rattle.node_rows.specs.lemma.Kinds.{AreCounts, IsNth, fits_more, is_at_least, kinds_of, lowered, many, one_if, raised, running};

use afp_base::OutOfMemory;
use std::alloc::Global;
use std::marker::Model;

/// A list of kinds, file or directory, by how many files stand up to each place, that place itself counted.
///
/// Contracts see the kinds, true for a file; and `spare`, a number of kinds that can be added with no memory.
#[derive(Drop)]
pub(crate) struct Kinds {
    files: Vec<usize>,
}

impl Model for Kinds {
    ghost use Rattle.std.specs.Prelude.{◌-◌, vec_capacity, vec_len};
    ghost use Rattle.node_rows.specs.lemma.Kinds.{AreCounts, KindsValue, kinds_of};

    ghost Value = { KindsValue };

    ghost view = { λ a. record { kinds = kinds_of 0 a.files.items; spare = vec_capacity a.files - vec_len a.files } };

    ghost invariant = { λ a. AreCounts a.files.items };
}

impl Kinds {
    /// No kinds.
    pub(crate) fn new(alloc: Global) -> Kinds
        ensures { result.kinds ≡ [] }
    {
        Kinds {
            files: Vec::new(alloc),
        }
    }

    /// Makes room for one kind more. An error changes nothing that contracts see but the room.
    pub(crate) fn reserve(&mut self) -> Result<(), OutOfMemory>
        ensures room { OnOk result (1 ≤ self.new.spare) }
        ensures kinds { self.new.kinds ≡ self.old.kinds }
        ensures spare { self.old.spare ≤ self.new.spare }
    {
        self.files.reserve(1)?;
        Ok(())
    }

    /// Puts a kind in at a place. It takes no memory.
    pub(crate) fn insert(&mut self, place: usize, file: bool)
        requires within { place ≤ length self.old.kinds }
        requires room { 1 ≤ self.old.spare }
        ensures kinds { self.new.kinds ≡ insert self.old.kinds place file }
        ensures spare { self.old.spare ≤ self.new.spare + 1 }
    {
        put_kind(&mut self.files, place, file);
    }

    /// Takes the kind at a place away.
    pub(crate) fn remove(&mut self, place: usize)
        requires within { place < length self.old.kinds }
        ensures kinds { self.new.kinds ≡ remove self.old.kinds place }
        ensures spare { self.new.spare ≡ self.old.spare + 1 }
    {
        take_kind(&mut self.files, place);
    }

    /// The place of the one of a kind that stands behind `skip` others of it, from a place on and before another: that other
    /// where no more are there. It is found by a halving.
    pub(crate) fn find(&self, file: bool, from: usize, end: usize, skip: usize) -> usize
        requires end { end ≤ length self.now.kinds }
        requires few { from + skip < end }
        ensures { IsNth self.now.kinds file from end skip result }
    {
        find_nth(self.files.as_slice(), file, from, end, skip)
    }
}

/// Adds to each number. None is touched where nothing is added.
fn raise(numbers: &mut [usize], more: usize)
    requires { list_all (fits_more more) numbers.old ≡ true }
    ensures { numbers.new ≡ map (raised more) numbers.old }
{
    if more == 0 {
        return;
    }
    for i in 0..numbers.len() {
        numbers[i] += more;
    }
}

/// Takes from each number. None is touched where nothing is taken.
fn lower(numbers: &mut [usize], less: usize)
    requires { list_all (is_at_least less) numbers.old ≡ true }
    ensures { numbers.new ≡ map (lowered less) numbers.old }
{
    if less == 0 {
        return;
    }
    for i in 0..numbers.len() {
        numbers[i] -= less;
    }
}

/// Adds to each number from a place on.
fn raise_from(numbers: &mut Vec<usize>, place: usize, more: usize)
    requires within { place ≤ length numbers.old.items }
    requires fits { list_all (fits_more more) (drop place numbers.old.items) ≡ true }
    ensures items { numbers.new.items ≡ take place numbers.old.items ++ map (raised more) (drop place numbers.old.items) }
    ensures len { vec_len numbers.new ≡ vec_len numbers.old }
    ensures capacity { vec_capacity numbers.new ≡ vec_capacity numbers.old }
{
    raise(&mut numbers.as_mut_slice()[place..], more);
}

/// Takes from each number from a place on.
fn lower_from(numbers: &mut Vec<usize>, place: usize, less: usize)
    requires within { place ≤ length numbers.old.items }
    requires fits { list_all (is_at_least less) (drop place numbers.old.items) ≡ true }
    ensures items { numbers.new.items ≡ take place numbers.old.items ++ map (lowered less) (drop place numbers.old.items) }
    ensures len { vec_len numbers.new ≡ vec_len numbers.old }
    ensures capacity { vec_capacity numbers.new ≡ vec_capacity numbers.old }
{
    lower(&mut numbers.as_mut_slice()[place..], less);
}

/// How many of a kind stand up to a place, that place itself counted.
fn up_to(files: &[usize], file: bool, place: usize) -> usize
    requires counts { AreCounts files.now }
    requires within { place < length files.now }
    ensures { result ≡ many file (take (place + 1) (kinds_of 0 files.now)) }
{
    if file {
        files[place]
    } else {
        place + 1 - files[place]
    }
}

/// How many of a kind stand before a place.
fn before(files: &[usize], file: bool, place: usize) -> usize
    requires counts { AreCounts files.now }
    requires within { place ≤ length files.now }
    ensures { result ≡ many file (take place (kinds_of 0 files.now)) }
{
    if place == 0 {
        0
    } else {
        up_to(files, file, place - 1)
    }
}

fn one_if(file: bool) -> usize
    ensures { result ≡ one_if file }
{
    if file { 1 } else { 0 }
}

/// Puts a kind in at a place.
fn put_kind(files: &mut Vec<usize>, place: usize, file: bool)
    requires counts { AreCounts files.old.items }
    requires within { place ≤ length files.old.items }
    requires room { vec_len files.old < vec_capacity files.old }
    ensures items { files.new.items ≡ running 0 (insert (kinds_of 0 files.old.items) place file) }
    ensures len { vec_len files.new ≡ vec_len files.old + 1 }
    ensures capacity { vec_capacity files.old ≤ vec_capacity files.new }
{
    let more = one_if(file);
    let here = before(files.as_slice(), true, place) + more;
    raise_from(files, place, more);
    let _ = files.insert(place, here);
}

/// Takes the kind at a place away.
fn take_kind(files: &mut Vec<usize>, place: usize)
    requires counts { AreCounts files.old.items }
    requires within { place < length files.old.items }
    ensures items { files.new.items ≡ running 0 (remove (kinds_of 0 files.old.items) place) }
    ensures len { vec_len files.new + 1 ≡ vec_len files.old }
    ensures capacity { vec_capacity files.new ≡ vec_capacity files.old }
{
    let before = before(files.as_slice(), true, place);
    let here = files.remove(place);
    lower_from(files, place, here - before);
}

/// The place of the one of a kind behind `skip` others of it, from a place on and before another: that other where no more are there.
fn find_nth(files: &[usize], file: bool, from: usize, end: usize, skip: usize) -> usize
    requires counts { AreCounts files.now }
    requires end { end ≤ length files.now }
    requires few { from + skip < end }
    ensures { IsNth (kinds_of 0 files.now) file from end skip result }
{
    let passed = before(files, file, from) + skip;
    let mut low = from;
    let mut high = end;
    while low < high {
        let middle = low + (high - low) / 2;
        if up_to(files, file, middle) <= passed {
            low = middle + 1;
        } else {
            high = middle;
        }
    }
    low
}
