//! A map in a sorted vector: its entries are lent as a slice, keys are found where others were of late or by halving, and two keys change places without memory.

ghost use Rattle.std.specs.Prelude.{◌≡◌, ◌+◌, ◌<◌, ◌≤◌, [], true, length, slice_index_or, slice_set, IfOk, IfErr, OnOk, OnErr, Some, None, MatchOption, option_copied, is_some, IsSome, IfSome, if◌then◌else◌, vec_len, vec_capacity};
ghost use Rattle.std.specs.List.Sorted.{IsStrictlySortedBy};
ghost use Rattle.std.specs.Map.{keys_of, update, remove_entry};
ghost use Rattle.std.specs.BTreeMap.{insert_entry, is_at};
ghost use Rattle.std.specs.Ordering.{eq_by_cmp};
ghost use Rattle.sorted_map.specs.map.Entries.{at, IsAt, exchanged, with_new_value};
ghost use Rattle.sorted_map.specs.map.lemma.Entries.{with_value, with_swapped, IsGapFor};

use crate::recent::RecentPlaces;
use std::alloc::{AllocFailed, Global};
use std::cmp::Ordering;
use std::marker::Model;

/// A map whose keys are in order. Contracts see its entries.
#[derive(Drop)]
pub struct SortedMap<K: Ord, V> {
    entries: Vec<(K, V)>,
    recent: RecentPlaces,
}

impl<K: Ord, V> Model for SortedMap<K, V> {
    ghost use Rattle.std.specs.Prelude.{List};
    ghost use Rattle.std.specs.List.Sorted.{IsStrictlySortedBy};
    ghost use Rattle.std.specs.Map.{keys_of};

    ghost Value = { List (K × V) };

    ghost view = { λ m. m.entries.items };

    ghost invariant = { λ m. IsStrictlySortedBy K.cmp (keys_of m.entries.items) };
}

impl<K: Ord + Copy, V: Drop> SortedMap<K, V> {
    /// A map with no entry. It takes no memory.
    pub fn new(alloc: Global) -> SortedMap<K, V>
        ensures { result ≡ [] }
    {
        SortedMap {
            entries: Vec::new(alloc),
            recent: RecentPlaces::new(),
        }
    }

    /// The entries, by rising key.
    pub fn entries(&self) -> &[(K, V)]
        ensures all { result.now ≡ self.now }
        ensures sorted { IsStrictlySortedBy K.cmp (keys_of self.now) }
    {
        &self.entries
    }

    /// The value at the key.
    pub fn get(&self, key: K) -> Option<&V>
        ensures { option_copied result ≡ at K.cmp self.now key }
    {
        let entries = self.entries.as_slice();
        match find(entries, &self.recent, key) {
            Ok(place) => Some(&entries[place].1),
            Err(_) => None,
        }
    }

    /// Where the key is among the entries.
    pub fn place(&self, key: K) -> Option<usize>
        ensures { MatchOption result (at K.cmp self.now key ≡ None) (λ place. IsAt K.cmp self.now key place) }
    {
        match find(self.entries.as_slice(), &self.recent, key) {
            Ok(place) => Some(place),
            Err(_) => None,
        }
    }

    /// Puts a value at the key, and gives the one that stood there. Only a new key can find no memory; then the map is as it was.
    pub fn insert(&mut self, key: K, value: V) -> Result<Option<V>, AllocFailed<(K, V)>>
        ensures old { IfOk result (λ old. old ≡ at K.cmp self.old key) }
        ensures entries { OnOk result (self.new ≡ insert_entry K.cmp self.old key value) }
        ensures updates { OnOk result ((q : K) → at K.cmp self.new q ≡ update (eq_by_cmp K.cmp) (at K.cmp self.old) key (Some value) q) }
        ensures was_sorted { IsStrictlySortedBy K.cmp (keys_of self.old) }
        ensures absent { OnErr result (at K.cmp self.old key ≡ None) }
        ensures err { OnErr result (self.new ≡ self.old) }
    {
        match find(self.entries.as_slice(), &self.recent, key) {
            Ok(place) => {
                let old = std::mem::replace(&mut self.entries[place].1, value);
                Ok(Some(old))
            }
            Err(place) => {
                self.entries.insert(place, (key, value))?;
                self.recent.inserted(place);
                Ok(None)
            }
        }
    }

    /// Puts a value at a place in the order of the keys.
    pub fn set_value(&mut self, place: usize, value: V)
        requires { place < length self.old }
        ensures { (d : K × V) → self.new ≡ slice_set self.old place (with_new_value (slice_index_or self.old place d) value) }
    {
        self.entries[place].1 = value;
    }

    /// Puts a value at the place of a key, and gives the one that stood there. The key is where it was.
    pub fn replace(&mut self, place: usize, key: K, value: V) -> V
        requires { IsAt K.cmp self.old key place }
        ensures old { Some result ≡ at K.cmp self.old key }
        ensures updates { (q : K) → at K.cmp self.new q ≡ update (eq_by_cmp K.cmp) (at K.cmp self.old) key (Some value) q }
        ensures there { IsAt K.cmp self.new key place }
    {
        std::mem::replace(&mut self.entries[place].1, value)
    }

    /// Takes the entry of the key away, and gives its value.
    pub fn remove(&mut self, key: K) -> Option<V>
        ensures was_sorted { IsStrictlySortedBy K.cmp (keys_of self.old) }
        ensures value { result ≡ at K.cmp self.old key }
        ensures entries { self.new ≡ remove_entry (is_at (K.cmp key)) self.old }
        ensures updates { (q : K) → at K.cmp self.new q ≡ update (eq_by_cmp K.cmp) (at K.cmp self.old) key None q }
    {
        take(&mut self.entries, &self.recent, key)
    }

    /// What stood at the one key stands at the other, and the other way round. It takes no memory.
    pub fn exchange(&mut self, a: K, b: K)
        ensures { (q : K) → at K.cmp self.new q ≡ exchanged K.cmp (at K.cmp self.old) a b q }
    {
        let at_a = find(self.entries.as_slice(), &self.recent, a);
        let at_b = find(self.entries.as_slice(), &self.recent, b);
        match (at_a, at_b) {
            (Ok(x), Ok(y)) => swap_values(&mut self.entries, x, y),
            (Err(_), Err(_)) => {}
            _ => {
                let of_a = take(&mut self.entries, &self.recent, a);
                let of_b = take(&mut self.entries, &self.recent, b);
                put(&mut self.entries, &self.recent, b, of_a);
                put(&mut self.entries, &self.recent, a, of_b);
            }
        }
    }
}

/// The values at two places change places.
fn swap_values<K: Ord + Copy, V: Drop>(entries: &mut Vec<(K, V)>, x: usize, y: usize)
    requires x { x < length entries.old.items }
    requires y { y < length entries.old.items }
    ensures { (d : K × V) → entries.new.items ≡ with_swapped entries.old.items x y d }
{
    let first = entries[x].0;
    let second = entries[y].0;
    entries.swap(x, y);
    entries[x].0 = first;
    entries[y].0 = second;
}

/// Whether an entry at a place has the key.
fn is_there<K: Ord + Copy, V>(entries: &[(K, V)], place: usize, key: K) -> bool
    ensures { result ≡ true → IsAt K.cmp entries.now key place }
{
    place < entries.len() && entries[place].0.cmp(&key).is_eq()
}

/// Where the key is, if that is a recent place behind the last one.
fn find_again<K: Ord + Copy, V>(entries: &[(K, V)], recent: &RecentPlaces, key: K) -> Option<usize>
    ensures { IfSome result (IsAt K.cmp entries.now key) }
{
    let [_, second, third, fourth] = recent.places();
    let place = if is_there(entries, second, key) {
        second
    } else if is_there(entries, third, key) {
        third
    } else if is_there(entries, fourth, key) {
        fourth
    } else {
        return None;
    };
    recent.found(place);
    Some(place)
}

/// Where the key is, or where it would go. It is searched for where it is at no recent place.
fn find<K: Ord + Copy, V>(entries: &[(K, V)], recent: &RecentPlaces, key: K) -> Result<usize, usize>
    requires { IsStrictlySortedBy K.cmp (keys_of entries.now) }
    ensures found { IfOk result (IsAt K.cmp entries.now key) }
    ensures absent { IfErr result (IsGapFor K.cmp entries.now key) }
{
    if entries.is_empty() {
        return Err(0);
    }
    let last = recent.last();
    if is_there(entries, last, key) {
        return Ok(last);
    }
    if let Some(place) = find_again(entries, recent, key) {
        return Ok(place);
    }
    let found = search(entries, key);
    if let Ok(place) = found {
        recent.found(place);
    }
    found
}

/// Where the key is, or where it would go. The last entry is looked at first, since keys that are new often come behind all others.
fn search<K: Ord + Copy, V>(entries: &[(K, V)], key: K) -> Result<usize, usize>
    requires { IsStrictlySortedBy K.cmp (keys_of entries.now) }
    ensures found { IfOk result (IsAt K.cmp entries.now key) }
    ensures absent { IfErr result (IsGapFor K.cmp entries.now key) }
{
    let count = entries.len();
    if count == 0 {
        return Err(0);
    }
    match entries[count - 1].0.cmp(&key) {
        Ordering::Less => Err(count),
        Ordering::Equal => Ok(count - 1),
        Ordering::Greater => halve(entries, key),
    }
}

/// The same, found by halving.
fn halve<K: Ord + Copy, V>(entries: &[(K, V)], key: K) -> Result<usize, usize>
    requires { IsStrictlySortedBy K.cmp (keys_of entries.now) }
    ensures found { IfOk result (IsAt K.cmp entries.now key) }
    ensures absent { IfErr result (IsGapFor K.cmp entries.now key) }
{
    entries.binary_search_by_key(&key, |e| e.0)
}

/// Takes the entry of the key out.
fn take<K: Ord + Copy, V>(entries: &mut Vec<(K, V)>, recent: &RecentPlaces, key: K) -> Option<V>
    requires { IsStrictlySortedBy K.cmp (keys_of entries.old.items) }
    ensures value { result ≡ at K.cmp entries.old.items key }
    ensures entries { entries.new.items ≡ remove_entry (is_at (K.cmp key)) entries.old.items }
    ensures len { vec_len entries.new + (if is_some result then 1 else 0) ≡ vec_len entries.old }
    ensures capacity { vec_capacity entries.new ≡ vec_capacity entries.old }
{
    match find(entries.as_slice(), recent, key) {
        Ok(place) => {
            let (_, value) = entries.remove(place);
            recent.removed(place);
            Some(value)
        }
        Err(_) => None,
    }
}

/// Puts a value in at a new key, where there is one. There is room for it.
fn put<K: Ord + Copy, V: Drop>(
    entries: &mut Vec<(K, V)>,
    recent: &RecentPlaces,
    key: K,
    value: Option<V>,
)
    requires order { IsStrictlySortedBy K.cmp (keys_of entries.old.items) }
    requires absent { IsSome value → at K.cmp entries.old.items key ≡ None }
    requires room { IsSome value → vec_len entries.old < vec_capacity entries.old }
    ensures entries { entries.new.items ≡ with_value K.cmp entries.old.items key value }
    ensures len { vec_len entries.new ≡ vec_len entries.old + (if is_some value then 1 else 0) }
    ensures capacity { vec_capacity entries.old ≤ vec_capacity entries.new }
{
    match value {
        Some(value) => match find(entries.as_slice(), recent, key) {
            Ok(_) => {}
            Err(place) => {
                let _ = entries.insert(place, (key, value));
                recent.inserted(place);
            }
        },
        None => {}
    }
}
