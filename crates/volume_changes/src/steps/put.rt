//! One element more in a vector that rises by key. The one error is want of memory.
ghost use Rattle.std.specs.Prelude.{◌≡◌, ◌≤◌, ◌∷◌, [], true, length, IfErr, IfOk, OnOk};
ghost use Rattle.std.specs.List.{insert};
ghost use Rattle.std.specs.Cmp.Lexicographic.{slice_cmp};
ghost use Rattle.std.specs.Ordering.{nat_cmp};
ghost use Rattle.desktop_db.specs.lemma.Places.{IsGapFor, IsPlaceOf};
ghost use Rattle.volume_spec.specs.Order.{rises};
ghost use Rattle.volume_keeper_records.specs.Records.{flag_byte};
ghost use Rattle.volume_changes.specs.steps.lemma.Put.{IsWith, fork_key, icon_key, id_key, mapping_key};

use crate::records::{ForkPlace, Mapping};
use afp_base::OutOfMemory;
use std::cmp::Ordering;

/// Puts an element at a place.
fn insert_at<T: Drop>(elements: &mut Vec<T>, place: usize, new: T) -> Result<(), OutOfMemory>
    requires { place ≤ length elements.old.items }
    ensures { OnOk result (elements.new.items ≡ insert elements.old.items place new) }
{
    elements.insert(place, new)?;
    Ok(())
}

/// How an id stands to another.
fn compare_ids(one: u32, other: u32) -> Ordering
    ensures { result ≡ slice_cmp nat_cmp (id_key one) (id_key other) }
{
    one.cmp(&other)
}

/// Where an id is, or where it would go.
fn id_place(ids: &[u32], id: u32) -> Result<usize, usize>
    requires { rises id_key ids.now ≡ true }
    ensures found { IfOk result (IsPlaceOf id_key (id_key id) ids.now) }
    ensures gap { IfErr result (IsGapFor id_key (id_key id) ids.now) }
{
    ids.binary_search_by(|other| compare_ids(*other, id))
}

/// Puts an id, where it is not there.
pub(crate) fn put_id(ids: &mut Vec<u32>, id: u32) -> Result<(), OutOfMemory>
    requires { rises id_key ids.old.items ≡ true }
    ensures { OnOk result (IsWith id_key (id ∷ []) ids.old.items ids.new.items) }
{
    match id_place(ids.as_slice(), id) {
        Ok(_) => Ok(()),
        Err(place) => insert_at(ids, place, id),
    }
}

/// Whether a fork is the resource fork, as a number.
fn flag(resource: bool) -> u8
    ensures { result ≡ flag_byte resource }
{
    if resource { 1 } else { 0 }
}

/// How a fork stands to another.
fn compare_forks(one: &ForkPlace, other: &ForkPlace) -> Ordering
    ensures { result ≡ slice_cmp nat_cmp (fork_key one.now) (fork_key other.now) }
{
    match one.node.cmp(&other.node) {
        Ordering::Less => Ordering::Less,
        Ordering::Equal => flag(one.resource).cmp(&flag(other.resource)),
        Ordering::Greater => Ordering::Greater,
    }
}

/// Where a fork is, or where it would go.
fn fork_place(forks: &[ForkPlace], fork: &ForkPlace) -> Result<usize, usize>
    requires { rises fork_key forks.now ≡ true }
    ensures found { IfOk result (IsPlaceOf fork_key (fork_key fork.now) forks.now) }
    ensures gap { IfErr result (IsGapFor fork_key (fork_key fork.now) forks.now) }
{
    forks.binary_search_by(|other| compare_forks(other, fork))
}

/// Puts a fork, where it is not there.
pub(crate) fn put_fork(forks: &mut Vec<ForkPlace>, fork: ForkPlace) -> Result<(), OutOfMemory>
    requires { rises fork_key forks.old.items ≡ true }
    ensures { OnOk result (IsWith fork_key (fork ∷ []) forks.old.items forks.new.items) }
{
    match fork_place(forks.as_slice(), &fork) {
        Ok(_) => Ok(()),
        Err(place) => insert_at(forks, place, fork),
    }
}

/// How a key of an icon stands to another.
fn compare_keys(one: &[u8; 9], other: &[u8; 9]) -> Ordering
    ensures { result ≡ slice_cmp nat_cmp one.now other.now }
{
    one.as_slice().cmp(other.as_slice())
}

/// Where a key of an icon is, or where it would go.
fn key_place(keys: &[[u8; 9]], key: &[u8; 9]) -> Result<usize, usize>
    requires { rises icon_key keys.now ≡ true }
    ensures found { IfOk result (IsPlaceOf icon_key key.now keys.now) }
    ensures gap { IfErr result (IsGapFor icon_key key.now keys.now) }
{
    keys.binary_search_by(|other| compare_keys(other, key))
}

/// Puts a key of an icon, where it is not there.
pub(crate) fn put_key(keys: &mut Vec<[u8; 9]>, key: [u8; 9]) -> Result<(), OutOfMemory>
    requires { rises icon_key keys.old.items ≡ true }
    ensures { OnOk result (IsWith icon_key (key ∷ []) keys.old.items keys.new.items) }
{
    match key_place(keys.as_slice(), &key) {
        Ok(_) => Ok(()),
        Err(place) => insert_at(keys, place, key),
    }
}

/// A creator has four bytes. The call does nothing.
fn four_bytes(creator: &[u8; 4])
    ensures { length creator.now ≡ 4 }
{}

/// How a creator stands to another.
fn compare_creators(one: &[u8; 4], other: &[u8; 4]) -> Ordering
    ensures { result ≡ slice_cmp nat_cmp one.now other.now }
{
    one.as_slice().cmp(other.as_slice())
}

/// How a mapping stands to another.
fn compare_mappings(one: &Mapping, other: &Mapping) -> Ordering
    ensures { result ≡ slice_cmp nat_cmp (mapping_key one.now) (mapping_key other.now) }
{
    four_bytes(&one.creator);
    four_bytes(&other.creator);
    match compare_creators(&one.creator, &other.creator) {
        Ordering::Less => Ordering::Less,
        Ordering::Equal => one.node.cmp(&other.node),
        Ordering::Greater => Ordering::Greater,
    }
}

/// Where a mapping is, or where it would go.
fn mapping_place(mappings: &[Mapping], mapping: &Mapping) -> Result<usize, usize>
    requires { rises mapping_key mappings.now ≡ true }
    ensures found { IfOk result (IsPlaceOf mapping_key (mapping_key mapping.now) mappings.now) }
    ensures gap { IfErr result (IsGapFor mapping_key (mapping_key mapping.now) mappings.now) }
{
    mappings.binary_search_by(|other| compare_mappings(other, mapping))
}

/// Puts a mapping, where it is not there.
pub(crate) fn put_mapping(mappings: &mut Vec<Mapping>, mapping: Mapping) -> Result<(), OutOfMemory>
    requires { rises mapping_key mappings.old.items ≡ true }
    ensures { OnOk result (IsWith mapping_key (mapping ∷ []) mappings.old.items mappings.new.items) }
{
    match mapping_place(mappings.as_slice(), &mapping) {
        Ok(_) => Ok(()),
        Err(place) => insert_at(mappings, place, mapping),
    }
}
