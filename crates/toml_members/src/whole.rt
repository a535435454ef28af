ghost use Rattle.std.specs.Prelude.{◌≡◌, ◌≤ℤ◌, pos, IfOk};
ghost use Rattle.std.specs.Option.{ForSome};
ghost use Rattle.toml.specs.View.{view, table_view};
ghost use Rattle.job_states.specs.Judged.{Gives};
ghost use Rattle.toml_members.specs.Key as written;
ghost use Rattle.toml_members.specs.Kind as spec;

use crate::{SettingsFault, optional, refused};
use std::alloc::Global;
use toml::{Table, Value};

/// A key of a whole number: its name, the least and the greatest number, and what it is where it is absent.
#[derive(Clone, Copy)]
pub struct Whole {
    pub name: &'static str,
    pub least: i64,
    pub most: i64,
    pub default: i64,
}

fn within(alloc: Global, place: &str, key: &Whole, n: i64) -> Result<i64, SettingsFault>
    ensures given { Gives SettingsFault.NoMemory result
        (spec.within (written.key_in place.now key.now.name.now) key.now.least key.now.most n) }
    ensures range { IfOk result (λ n. (key.now.least ≤ℤ n) × (n ≤ℤ key.now.most)) }
{
    if key.least <= n && n <= key.most {
        return Ok(n);
    }
    refused(alloc, SettingsFault::NOT_ALLOWED, place, key.name)
}

/// A whole number in its range.
pub fn whole_in(
    alloc: Global,
    place: &str,
    key: &Whole,
    value: &Value,
) -> Result<i64, SettingsFault>
    ensures given { Gives SettingsFault.NoMemory result
        (spec.whole_in (written.key_in place.now key.now.name.now) key.now.least key.now.most (view value.now)) }
    ensures range { IfOk result (λ n. (key.now.least ≤ℤ n) × (n ≤ℤ key.now.most)) }
{
    match value.as_integer() {
        None => refused(alloc, SettingsFault::WRONG_KIND, place, key.name),
        Some(n) => within(alloc, place, key, n),
    }
}

/// A whole number in its range, or what an absent one is.
#[tactic(auto, unfolding(crate::specs::Kind::whole_at))]
pub fn whole_at(
    alloc: Global,
    place: &str,
    key: &Whole,
    table: &Table,
) -> Result<i64, SettingsFault>
    requires least { key.now.least ≤ℤ key.now.default }
    requires most { key.now.default ≤ℤ key.now.most }
    ensures given { Gives SettingsFault.NoMemory result
        (spec.whole_at place.now key.now.name.now key.now.least key.now.most key.now.default (table_view table.now)) }
    ensures range { IfOk result (λ n. (key.now.least ≤ℤ n) × (n ≤ℤ key.now.most)) }
{
    match optional(table, key.name) {
        None => Ok(key.default),
        Some(value) => whole_in(alloc, place, key, value),
    }
}

/// A whole number of a key that has no negative one.
pub fn count_at(
    alloc: Global,
    place: &str,
    key: &Whole,
    table: &Table,
) -> Result<u64, SettingsFault>
    requires sign { pos 0 ≤ℤ key.now.least }
    requires least { key.now.least ≤ℤ key.now.default }
    requires most { key.now.default ≤ℤ key.now.most }
    ensures given { Gives SettingsFault.NoMemory result
        (spec.counted (spec.whole_at place.now key.now.name.now key.now.least key.now.most key.now.default
        (table_view table.now))) }
    ensures range { IfOk result (λ n. (key.now.least ≤ℤ pos n) × (pos n ≤ℤ key.now.most)) }
{
    Ok(whole_at(alloc, place, key, table)?.unsigned_abs())
}

/// A whole number of a key that has no negative one, or none for a word.
pub fn count_or_word(
    alloc: Global,
    place: &str,
    key: &Whole,
    word: &str,
    value: &Value,
) -> Result<Option<u64>, SettingsFault>
    requires sign { pos 0 ≤ℤ key.now.least }
    ensures given { Gives SettingsFault.NoMemory result
        (spec.count_or_word (written.key_in place.now key.now.name.now) word.now key.now.least key.now.most
        (view value.now)) }
    ensures range { IfOk result (λ count. ForSome count (λ n. (key.now.least ≤ℤ pos n) × (pos n ≤ℤ key.now.most))) }
{
    if let Some(n) = value.as_integer() {
        return Ok(Some(within(alloc, place, key, n)?.unsigned_abs()));
    }
    match value.as_str() {
        None => refused(alloc, SettingsFault::WRONG_KIND, place, key.name),
        Some(text) if text == word => Ok(None),
        Some(_) => refused(alloc, SettingsFault::NOT_ALLOWED, place, key.name),
    }
}
