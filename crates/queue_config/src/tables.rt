ghost use Rattle.std.specs.Prelude.{◌≡◌, All, IfOk};
ghost use Rattle.toml.specs.View.{view, table_view};
ghost use Rattle.job_states.specs.Judged.{Gives, GivesAs};
ghost use Rattle.queue_config.specs.Ranges.{IsDispatcher, IsErrorKeys, IsJobs, IsProcesses};
ghost use Rattle.queue_config.specs.Settings as spec;

use crate::errors::STANDARD_ERROR;
use crate::whole::{
    ALIVE_THRESHOLD, BATCH_SIZE, CLEAR_AFTER, HEARTBEAT, KEPT_MAX, MAINTENANCE, POLLING_MS,
};
use crate::{DispatcherKeys, ErrorKeys, JobsKeys, ProcessKeys};
use std::alloc::Global;
use toml::{Table, Value};
use toml_members::{Element, SettingsFault, count_at, name_at, name_or, refused, section};

/// The table of the dispatcher.
#[tactic(auto, unfolding(crate::specs::Settings::dispatcher_members))]
fn dispatcher_members<'t>(
    alloc: Global,
    place: &str,
    value: &'t Value,
) -> Result<&'t Table, SettingsFault>
    ensures { GivesAs SettingsFault.NoMemory (λ t. table_view t.now) result (spec.dispatcher_members place.now (view value.now)) }
{
    section(
        alloc,
        place,
        &["batch_size", "polling_ms", "maintenance"],
        value,
    )
}

#[tactic(auto, unfolding(crate::specs::Settings::dispatcher_of))]
pub(crate) fn dispatcher_of(
    alloc: Global,
    place: &str,
    value: &Value,
) -> Result<DispatcherKeys, SettingsFault>
    ensures given { Gives SettingsFault.NoMemory result (spec.dispatcher_of place.now (view value.now)) }
    ensures ranges { IfOk result IsDispatcher }
{
    let table = dispatcher_members(alloc, place, value)?;
    Ok(DispatcherKeys {
        batch_size: count_at(alloc, place, &BATCH_SIZE, table)?,
        polling_ms: count_at(alloc, place, &POLLING_MS, table)?,
        maintenance: count_at(alloc, place, &MAINTENANCE, table)?,
    })
}

#[tactic(auto, unfolding(crate::specs::Settings::jobs_of))]
pub(crate) fn jobs_of(alloc: Global, place: &str, value: &Value) -> Result<JobsKeys, SettingsFault>
    ensures given { Gives SettingsFault.NoMemory result (spec.jobs_of place.now (view value.now)) }
    ensures ranges { IfOk result IsJobs }
{
    let table = section(alloc, place, &["kept_max", "clear_after"], value)?;
    Ok(JobsKeys {
        kept_max: count_at(alloc, place, &KEPT_MAX, table)?,
        clear_after: count_at(alloc, place, &CLEAR_AFTER, table)?,
    })
}

#[tactic(auto, unfolding(crate::specs::Settings::processes_of))]
pub(crate) fn processes_of(
    alloc: Global,
    place: &str,
    value: &Value,
) -> Result<ProcessKeys, SettingsFault>
    ensures given { Gives SettingsFault.NoMemory result (spec.processes_of place.now (view value.now)) }
    ensures ranges { IfOk result IsProcesses }
{
    let table = section(alloc, place, &["heartbeat", "alive_threshold"], value)?;
    Ok(ProcessKeys {
        heartbeat: count_at(alloc, place, &HEARTBEAT, table)?,
        alive_threshold: count_at(alloc, place, &ALIVE_THRESHOLD, table)?,
    })
}

impl Element<()> for ErrorKeys {
    ghost judged = { λ _. spec.error_of };

    ghost holds = { λ _. All IsErrorKeys };

    #[tactic(auto, unfolding(crate::specs::Settings::error_of))]
    fn read(
        alloc: Global,
        _context: &(),
        _before: &[Self],
        place: &str,
        value: &Value,
    ) -> Result<Self, SettingsFault> {
        let table = section(alloc, place, &["name", "parent"], value)?;
        let name = name_at(alloc, place, "name", table)?;
        if name.as_str() == STANDARD_ERROR {
            return refused(alloc, SettingsFault::NOT_ALLOWED, place, "name");
        }
        let parent = name_or(alloc, place, "parent", STANDARD_ERROR, table)?;
        Ok(ErrorKeys { name, parent })
    }
}
