ghost use Rattle.std.specs.Prelude.{◌≡◌, ◌<◌, ◌≤◌, length, codes, [], All, IfOk};
ghost use Rattle.toml.specs.Data as toml;
ghost use Rattle.toml.specs.Data.{get_member};
ghost use Rattle.toml.specs.View.{view, table_view};
ghost use Rattle.job_states.specs.Judged.{Gives, GivesAs};
ghost use Rattle.toml_members.specs.Kind.{array_at, or_empty};
ghost use Rattle.queue_config.specs.Fault.{too_long};
ghost use Rattle.queue_config.specs.Ranges.{HasRanges, IsConfig};
ghost use Rattle.queue_config.specs.Settings as spec;

use crate::tables::{dispatcher_of, jobs_of, processes_of};
use crate::worker::workers_at;
use crate::wrong::judge;
use crate::{Config, HasName, Index};
use std::alloc::Global;
use toml::{Table, Value};
use toml_members::{Element, Key, SettingsFault, array_at, document_of, known, optional};

/// The number of a text that is too long.
const TOO_LONG: u8 = 10;

/// The greatest number of classes, errors and tasks.
const MOST: usize = 1024;

/// The table at a key; an absent one is empty.
fn table<'t>(top: &'t Table, key: &str, empty: &'t Value) -> &'t Value
    requires { view empty.now ≡ toml.table toml.no_members }
    ensures { view result.now ≡ or_empty (get_member key.now (table_view top.now)) }
{
    optional(top, key).unwrap_or(empty)
}

/// The elements of an array at the top, by their names.
fn index_at<C, E: Element<C> + HasName>(
    alloc: Global,
    context: &C,
    key: &str,
    top: &Table,
) -> Result<Index<E>, SettingsFault>
    requires { E.holds context.now [] }
    ensures given { Gives SettingsFault.NoMemory result (array_at (E.judged context.now) [] key.now 1024 (table_view top.now)) }
    ensures holds { IfOk result (λ elements. E.holds context.now elements) }
    ensures count { IfOk result (λ elements. length elements ≤ 1024) }
{
    Ok(Index::of(alloc, array_at(alloc, context, "", key, MOST, top)?)?)
}

/// The settings of these tables, each judged by itself. An absent one is as the empty one.
#[tactic(auto, unfolding(crate::specs::Settings::tables_of))]
fn tables_of(alloc: Global, top: &Table, empty: &Value) -> Result<Config, SettingsFault>
    requires { view empty.now ≡ toml.table toml.no_members }
    ensures given { Gives SettingsFault.NoMemory result (spec.tables_of (table_view top.now)) }
    ensures ranges { IfOk result HasRanges }
{
    let classes = index_at(alloc, &(), "classes", top)?;
    let dispatcher = dispatcher_of(alloc, "dispatcher", table(top, "dispatcher", empty))?;
    let errors = index_at(alloc, &(), "errors", top)?;
    let jobs = jobs_of(alloc, "jobs", table(top, "jobs", empty))?;
    let processes = processes_of(alloc, "processes", table(top, "processes", empty))?;
    let tasks = index_at(alloc, &classes, "tasks", top)?;
    let workers = workers_at(alloc, top)?;
    Ok(Config {
        classes,
        dispatcher,
        errors,
        jobs,
        processes,
        tasks,
        workers,
    })
}

/// Refuses a key that no table has.
#[tactic(auto, unfolding(crate::specs::Settings::top_members))]
fn top_members(alloc: Global, top: &Table) -> Result<(), SettingsFault>
    ensures { GivesAs SettingsFault.NoMemory (λ _. table_view top.now) result (spec.top_members (table_view top.now)) }
{
    let keys = &[
        "classes",
        "dispatcher",
        "errors",
        "jobs",
        "processes",
        "tasks",
        "workers",
    ];
    known(alloc, "", keys, top)
}

#[tactic(auto, unfolding(crate::specs::Settings::settings_of))]
fn settings_of(alloc: Global, top: &Table) -> Result<Config, SettingsFault>
    ensures given { Gives SettingsFault.NoMemory result (spec.settings_of (table_view top.now)) }
    ensures accepted { IfOk result IsConfig }
{
    top_members(alloc, top)?;
    let config = tables_of(alloc, top, &Value::Table(Table::new(alloc)))?;
    judge(alloc, &config)?;
    Ok(config)
}

impl Config {
    /// The greatest length of settings in bytes.
    pub const MAX_LEN: usize = 1_048_576;

    /// The settings of a TOML document.
    #[tactic(auto, unfolding(crate::specs::Settings::config_of))]
    pub fn read(alloc: Global, text: &[u8]) -> Result<Self, SettingsFault>
        ensures given { Gives SettingsFault.NoMemory result (spec.config_of text.now) }
        // It takes no memory to refuse a text that is too long.
        ensures long { 1_048_576 < length text.now → result ≡ too_long (codes "length") }
        ensures accepted { IfOk result IsConfig }
    {
        if text.len() > Config::MAX_LEN {
            return Err(SettingsFault::Refused {
                number: TOO_LONG,
                key: Key::fixed("length"),
            });
        }
        settings_of(alloc, &document_of(alloc, text)?)
    }
}
