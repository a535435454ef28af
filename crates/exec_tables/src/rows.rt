//! Rows by their key, whatever the order in which they lie. Nothing here but `reserve` takes memory.
ghost use Rattle.std.specs.Prelude.{◌≡◌, ◌+◌, ◌≤◌, Some, OnOk, OnErr, IsSome};
ghost use Rattle.std.specs.Option.{option_copied};
ghost use Rattle.indexmap.specs.IndexMap.{spare};
ghost use Rattle.queue_model.specs.Map as map;

use indexmap::IndexMap;
use job_states::{Name, NoMemory, Text};
use std::hash::Hash;

/// A key of rows. Two keys that are equal are the same.
pub trait Key: Ord + Hash + Drop {
    ghost use Rattle.std.specs.FinMap.{IsAntisymmetric};

    ghost exact: { IsAntisymmetric Self.cmp };
}

impl Key for u64 {
    ghost use Rattle.std.specs.FinMap.{nat_cmp-IsAntisymmetric};

    ghost exact = { nat_cmp-IsAntisymmetric };
}

impl Key for usize {
    ghost use Rattle.std.specs.FinMap.{nat_cmp-IsAntisymmetric};

    ghost exact = { nat_cmp-IsAntisymmetric };
}

impl<A: Key, B: Key> Key for (A, B) {
    ghost use Rattle.std.proofs.lemmas.Map.Lookups.{exact_pairs};

    ghost exact = { exact_pairs A.cmp B.cmp A.exact B.exact };
}

impl Key for Text {
    ghost use Rattle.std.specs.FinMap.{nat_cmp-IsAntisymmetric, slice_cmp-IsAntisymmetric};

    ghost exact = { slice_cmp-IsAntisymmetric nat_cmp-IsAntisymmetric };
}

impl Key for Name {
    ghost use Rattle.std.specs.FinMap.{nat_cmp-IsAntisymmetric, slice_cmp-IsAntisymmetric};

    ghost exact = { slice_cmp-IsAntisymmetric nat_cmp-IsAntisymmetric };
}

/// The row of this key.
pub fn find<'a, K: Key, V>(rows: &'a IndexMap<K, V>, key: &K) -> Option<&'a V>
    ensures { option_copied result ≡ map.get (map.from_entries {R = K.cmp} rows.now.entries) key.now }
{
    rows.get(key)
}

/// Writes a row in its place.
pub fn put<K: Key, V: Drop>(rows: &mut IndexMap<K, V>, key: K, row: V)
    requires { 1 ≤ spare rows.old }
    ensures rows { map.from_entries {R = K.cmp} rows.new.entries ≡ map.insert (map.from_entries rows.old.entries) key row }
    ensures room { spare rows.old ≤ spare rows.new + 1 }
{
    match rows.insert(key, row) {
        Ok(_) => {}
        Err(_) => unreachable!(),
    }
}

/// Writes a row in the place of the one that stands there.
pub fn replace<K: Key, V: Drop>(rows: &mut IndexMap<K, V>, key: &K, row: V)
    requires { IsSome (map.get (map.from_entries {R = K.cmp} rows.old.entries) key.now) }
    ensures rows { map.from_entries {R = K.cmp} rows.new.entries ≡ map.insert (map.from_entries rows.old.entries) key.now row }
    ensures room { spare rows.old ≤ spare rows.new }
{
    match rows.get_mut(key) {
        Some(place) => *place = row,
        None => unreachable!(),
    }
}

/// Takes a row away.
pub fn remove<K: Key, V: Drop>(rows: &mut IndexMap<K, V>, key: &K)
    ensures rows { map.from_entries {R = K.cmp} rows.new.entries ≡ map.remove (map.from_entries rows.old.entries) key.now }
    ensures room { spare rows.old ≤ spare rows.new }
{
    rows.swap_remove(key);
}

/// Makes room for so many more rows.
pub fn reserve<K: Key, V>(rows: &mut IndexMap<K, V>, more: usize) -> Result<(), NoMemory>
    ensures rows { rows.new.entries ≡ rows.old.entries }
    ensures room { OnOk result (more ≤ spare rows.new) }
    ensures kept { spare rows.old ≤ spare rows.new }
{
    match rows.reserve(more) {
        Ok(()) => Ok(()),
        Err(_) => Err(NoMemory),
    }
}
