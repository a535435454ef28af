ghost use Rattle.std.specs.Prelude.{◌≡◌, ◌≤◌, ◌≤ℤ◌, codes, option_map, All, IfOk, pos};
ghost use Rattle.std.specs.Option.{ForSome};
ghost use Rattle.toml.specs.View.{view, table_view};
ghost use Rattle.job_states.specs.Judged.{Gives, GivesAs};
ghost use Rattle.job_states.specs.Length.{IsName};
ghost use Rattle.toml_members.specs.Key.{key_in};
ghost use Rattle.queue_config.specs.Ranges.{IsClass, IsErrorList, IsKeyFrom, IsLimit, IsRule, IsRuleAct};
ghost use Rattle.queue_config.specs.Settings as spec;

use crate::whole::{ATTEMPTS, DURATION, KEY_ARGUMENT, TO, WAIT};
use crate::{Class, ErrorList, KeyFrom, Limit, Rule, RuleAct};
use job_states::{List, Name, Text};
use std::alloc::Global;
use toml::{Table, Value};
use toml_members::{
    Element, Key, SettingsFault, Whole, array_at, count_at, count_or_word, flag_in, name_at,
    name_in, name_or, names_in, needed, optional, refused, section, whole_in,
};

/// The greatest length of the text of a list of errors.
const MAX_LIST_LEN: usize = 1024;

// ---- limits

fn fixed_key(alloc: Global, place: &str, value: &Value) -> Result<Text, SettingsFault>
    ensures given { Gives SettingsFault.NoMemory result (spec.fixed_key place.now (view value.now)) }
    ensures name { IfOk result IsName }
{
    let name = name_in(alloc, place, "key", value)?;
    Ok(Text::read(alloc, name.as_str())?)
}

/// One of `key` and `key_argument` is needed, and not both.
fn key_from(
    alloc: Global,
    place: &str,
    key: Option<&Value>,
    argument: Option<&Value>,
) -> Result<KeyFrom, SettingsFault>
    ensures given { Gives SettingsFault.NoMemory result
        (spec.key_from place.now (option_map (λ v. view v.now) key.entry) (option_map (λ v. view v.now) argument.entry)) }
    ensures range { IfOk result IsKeyFrom }
{
    match (key, argument) {
        (None, None) => refused(alloc, SettingsFault::MISSING, place, "key"),
        (Some(text), None) => Ok(KeyFrom::Fixed(fixed_key(alloc, place, text)?)),
        (None, Some(n)) => {
            let n = whole_in(alloc, place, &KEY_ARGUMENT, n)?;
            Ok(KeyFrom::Argument(n.unsigned_abs() as u32))
        }
        (Some(text), Some(n)) => {
            fixed_key(alloc, place, text)?;
            whole_in(alloc, place, &KEY_ARGUMENT, n)?;
            refused(alloc, SettingsFault::NOT_ALLOWED, place, "key_argument")
        }
    }
}

fn discards_in(alloc: Global, place: &str, value: Option<&Value>) -> Result<bool, SettingsFault>
    ensures { Gives SettingsFault.NoMemory result
        (spec.discards_in place.now (option_map (λ v. view v.now) value.entry)) }
{
    match value {
        None => Ok(false),
        Some(value) => flag_in(alloc, place, "on_conflict", "block", "discard", value),
    }
}

/// The table of a limit.
#[tactic(auto, unfolding(crate::specs::Settings::limit_members))]
fn limit_members<'t>(
    alloc: Global,
    place: &str,
    value: &'t Value,
) -> Result<&'t Table, SettingsFault>
    ensures { GivesAs SettingsFault.NoMemory (λ t. table_view t.now) result (spec.limit_members place.now (view value.now)) }
{
    section(
        alloc,
        place,
        &[
            "group",
            "key",
            "key_argument",
            "to",
            "duration",
            "on_conflict",
        ],
        value,
    )
}

/// The limit of a class of this name.
#[tactic(auto, unfolding(crate::specs::Settings::limit_of))]
fn limit_of(alloc: Global, name: &Name, place: &str, value: &Value) -> Result<Limit, SettingsFault>
    ensures given { Gives SettingsFault.NoMemory result (spec.limit_of name.now place.now (view value.now)) }
    ensures range { IfOk result IsLimit }
{
    let table = limit_members(alloc, place, value)?;
    Ok(Limit {
        group: name_or(alloc, place, "group", name.as_str(), table)?,
        key: key_from(
            alloc,
            place,
            optional(table, "key"),
            optional(table, KEY_ARGUMENT.name),
        )?,
        to: count_at(alloc, place, &TO, table)? as u32,
        duration: count_at(alloc, place, &DURATION, table)?,
        discard: discards_in(alloc, place, optional(table, "on_conflict"))?,
    })
}

fn limit_at(
    alloc: Global,
    name: &Name,
    place: &str,
    value: Option<&Value>,
) -> Result<Option<Limit>, SettingsFault>
    ensures given { Gives SettingsFault.NoMemory result
        (spec.limit_at name.now place.now (option_map (λ v. view v.now) value.entry)) }
    ensures range { IfOk result (λ limit. ForSome limit IsLimit) }
{
    match value {
        None => Ok(None),
        Some(value) => Ok(Some(limit_of(alloc, name, place, value)?)),
    }
}

// ---- rules

fn error_list(alloc: Global, place: &str, value: &Value) -> Result<ErrorList, SettingsFault>
    ensures given { Gives SettingsFault.NoMemory result (spec.error_list (key_in place.now (codes "on")) (view value.now)) }
    ensures range { IfOk result IsErrorList }
{
    let list = ErrorList::of(alloc, names_in(alloc, place, "on", 8, value)?)?;
    if list.text().len() > MAX_LIST_LEN {
        return refused(alloc, SettingsFault::NOT_ALLOWED, place, "on");
    }
    Ok(list)
}

/// A key that stands beside `retry` alone.
fn retry_key(
    alloc: Global,
    place: &str,
    key: &Whole,
    word: &str,
    discard: bool,
    table: &Table,
) -> Result<Option<u64>, SettingsFault>
    requires sign { pos 0 ≤ℤ key.now.least }
    requires least { key.now.least ≤ℤ key.now.default }
    requires most { key.now.default ≤ℤ key.now.most }
    ensures given { Gives SettingsFault.NoMemory result
        (spec.retry_key place.now key.now.name.now word.now key.now.least key.now.most key.now.default discard
        (table_view table.now)) }
    ensures range { IfOk result (λ count. ForSome count (λ n. (key.now.least ≤ℤ pos n) × (pos n ≤ℤ key.now.most))) }
{
    let Some(value) = optional(table, key.name) else {
        return Ok(Some(key.default.unsigned_abs()));
    };
    let count = count_or_word(alloc, place, key, word, value)?;
    if discard {
        return refused(alloc, SettingsFault::NOT_ALLOWED, place, key.name);
    }
    Ok(count)
}

fn act_of(discard: bool, wait: Option<u64>, attempts: Option<u64>) -> RuleAct
    requires wait { ForSome wait (λ n. n ≤ 31_536_000) }
    requires attempts { ForSome attempts (λ n. (1 ≤ n) × (n ≤ 65_535)) }
    ensures same { result ≡ spec.act_of discard wait attempts }
    ensures range { IsRuleAct result }
{
    if discard {
        return RuleAct::Discard;
    }
    let attempts = match attempts {
        None => None,
        Some(n) => Some(n as u32),
    };
    RuleAct::Retry { wait, attempts }
}

impl Element<()> for Rule {
    ghost judged = { λ _. spec.rule_of };

    ghost holds = { λ _. All IsRule };

    #[tactic(auto, unfolding(crate::specs::Settings::rule_of))]
    fn read(
        alloc: Global,
        _context: &(),
        _before: &[Self],
        place: &str,
        value: &Value,
    ) -> Result<Self, SettingsFault> {
        let table = section(alloc, place, &["on", "do", WAIT.name, ATTEMPTS.name], value)?;
        let list = error_list(alloc, place, needed(alloc, place, "on", table)?)?;
        let does = needed(alloc, place, "do", table)?;
        let discard = flag_in(alloc, place, "do", "retry", "discard", does)?;
        let wait = retry_key(alloc, place, &WAIT, "polynomially_longer", discard, table)?;
        let attempts = retry_key(alloc, place, &ATTEMPTS, "unlimited", discard, table)?;
        Ok(Rule {
            list,
            act: act_of(discard, wait, attempts),
        })
    }
}

// ---- classes

impl Element<()> for Class {
    ghost judged = { λ _. spec.class_of };

    ghost holds = { λ _. All IsClass };

    #[tactic(auto, unfolding(crate::specs::Settings::class_of))]
    fn read(
        alloc: Global,
        _context: &(),
        _before: &[Self],
        place: &str,
        value: &Value,
    ) -> Result<Self, SettingsFault> {
        let table = section(alloc, place, &["name", "limit", "rules"], value)?;
        let name = name_at(alloc, place, "name", table)?;
        let key = Key::in_table(alloc, place, "limit")?;
        let limit = limit_at(alloc, &name, key.as_str(), optional(table, "limit"))?;
        let rules = array_at(alloc, &(), place, "rules", 16, table)?;
        Ok(Class { name, limit, rules })
    }
}
