ghost use Rattle.std.specs.Prelude.{◌≡◌, map, option_map, IfOk};
ghost use Rattle.toml.specs.Data.{get_member};
ghost use Rattle.toml.specs.View.{view, table_view};
ghost use Rattle.toml_members.specs.Key as written;
ghost use Rattle.toml_members.specs.Kind as spec;
ghost use Rattle.job_states.specs.Judged.{Gives, GivesAs};
ghost use Rattle.job_states.specs.Length.{IsName};
ghost use Rattle.job_states.specs.Texts.{is_among};

use crate::{Key, SettingsFault, refused};
use job_states::{Name, NameFault};
use std::alloc::Global;
use toml::{Table, Value};

/// The value at a key, where the table has it.
pub fn optional<'t>(table: &'t Table, key: &str) -> Option<&'t Value>
    ensures { option_map (λ v. view v.now) result ≡ get_member key.now (table_view table.now) }
{
    table.get(key)
}

/// Is it one of the keys?
fn is_known(keys: &[&str], key: &str) -> bool
    ensures { result ≡ is_among (map (λ k. k.now) keys.now) key.now }
{
    keys.contains(&key)
}

/// The first key of the table that is none of these.
fn first_unknown<'t>(keys: &[&str], table: &'t Table) -> Option<&'t str>
    ensures { option_map (λ k. k.now) result
        ≡ spec.first_unknown (map (λ k. k.now) keys.now) (table_view table.now) }
{
    for (key, _) in table.iter() {
        if !is_known(keys, key.as_str()) {
            return Some(key.as_str());
        }
    }
    None
}

/// Refuses a table with another key than these.
pub fn known(alloc: Global, place: &str, keys: &[&str], table: &Table) -> Result<(), SettingsFault>
    ensures { GivesAs SettingsFault.NoMemory (λ _. table_view table.now) result
        (spec.known place.now (map (λ k. k.now) keys.now) (table_view table.now)) }
{
    match first_unknown(keys, table) {
        None => Ok(()),
        Some(key) => refused(alloc, SettingsFault::UNKNOWN, place, key),
    }
}

/// A table with none but these keys.
#[tactic(auto, unfolding(crate::specs::Kind::section))]
pub fn section<'t>(
    alloc: Global,
    place: &str,
    keys: &[&str],
    value: &'t Value,
) -> Result<&'t Table, SettingsFault>
    ensures { GivesAs SettingsFault.NoMemory (λ t. table_view t.now) result
        (spec.section place.now (map (λ k. k.now) keys.now) (view value.now)) }
{
    match value.as_table() {
        None => Err(SettingsFault::Refused {
            number: SettingsFault::WRONG_KIND,
            key: Key::read(alloc, place)?,
        }),
        Some(table) => {
            known(alloc, place, keys, table)?;
            Ok(table)
        }
    }
}

/// The value at a key that is needed.
pub fn needed<'t>(
    alloc: Global,
    place: &str,
    key: &str,
    table: &'t Table,
) -> Result<&'t Value, SettingsFault>
    ensures { GivesAs SettingsFault.NoMemory (λ v. view v.now) result
        (spec.needed place.now key.now (table_view table.now)) }
{
    match optional(table, key) {
        None => refused(alloc, SettingsFault::MISSING, place, key),
        Some(value) => Ok(value),
    }
}

/// A text.
pub fn text_in<'t>(
    alloc: Global,
    place: &str,
    key: &str,
    value: &'t Value,
) -> Result<&'t str, SettingsFault>
    ensures { GivesAs SettingsFault.NoMemory (λ s. s.now) result
        (spec.text_in (written.key_in place.now key.now) (view value.now)) }
{
    match value.as_str() {
        None => refused(alloc, SettingsFault::WRONG_KIND, place, key),
        Some(text) => Ok(text),
    }
}

fn name_from(alloc: Global, place: &str, key: &str, text: &str) -> Result<Name, SettingsFault>
    ensures given { Gives SettingsFault.NoMemory result (spec.name_from (written.key_in place.now key.now) text.now) }
    ensures name { IfOk result IsName }
{
    match Name::read(alloc, text) {
        Ok(name) => Ok(name),
        Err(NameFault::NoMemory) => Err(SettingsFault::NoMemory),
        Err(NameFault::Empty | NameFault::TooLong { .. }) => {
            refused(alloc, SettingsFault::NOT_ALLOWED, place, key)
        }
    }
}

/// A text of 1 to 128 bytes.
pub fn name_in(alloc: Global, place: &str, key: &str, value: &Value) -> Result<Name, SettingsFault>
    ensures given { Gives SettingsFault.NoMemory result (spec.name_in (written.key_in place.now key.now) (view value.now)) }
    ensures name { IfOk result IsName }
{
    name_from(alloc, place, key, text_in(alloc, place, key, value)?)
}

/// A name that is needed.
#[tactic(auto, unfolding(crate::specs::Kind::name_at))]
pub fn name_at(alloc: Global, place: &str, key: &str, table: &Table) -> Result<Name, SettingsFault>
    ensures given { Gives SettingsFault.NoMemory result (spec.name_at place.now key.now (table_view table.now)) }
    ensures name { IfOk result IsName }
{
    name_in(alloc, place, key, needed(alloc, place, key, table)?)
}

/// A name, or what an absent one is.
#[tactic(auto, unfolding(crate::specs::Kind::name_or))]
pub fn name_or(
    alloc: Global,
    place: &str,
    key: &str,
    default: &str,
    table: &Table,
) -> Result<Name, SettingsFault>
    requires { IsName default.now }
    ensures given { Gives SettingsFault.NoMemory result (spec.name_or place.now key.now default.now (table_view table.now)) }
    ensures name { IfOk result IsName }
{
    match optional(table, key) {
        None => name_from(alloc, place, key, default),
        Some(value) => name_in(alloc, place, key, value),
    }
}

/// One of two words: is it the second?
pub fn flag_in(
    alloc: Global,
    place: &str,
    key: &str,
    off: &str,
    on: &str,
    value: &Value,
) -> Result<bool, SettingsFault>
    ensures { Gives SettingsFault.NoMemory result
        (spec.flag_in (written.key_in place.now key.now) off.now on.now (view value.now)) }
{
    let text = text_in(alloc, place, key, value)?;
    if text == off {
        return Ok(false);
    }
    if text == on {
        return Ok(true);
    }
    refused(alloc, SettingsFault::NOT_ALLOWED, place, key)
}
