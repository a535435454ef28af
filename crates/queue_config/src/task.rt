ghost use Rattle.std.specs.Prelude.{◌≡◌, ◌≤◌, false, length, map, option_map, string_bytes, All, IfOk, Ok, codes};
ghost use Rattle.serde_json.specs.View as json;
ghost use Rattle.toml.specs.View.{view, table_view};
ghost use Rattle.job_states.specs.Judged.{Gives, GivesAs};
ghost use Rattle.toml_members.specs.Key.{key_in};
ghost use Rattle.cron_lines.specs.Text.{schedule_of};
ghost use Rattle.queue_config.specs.Limits as limits;
ghost use Rattle.queue_config.specs.Limits.{find_class, limit_in, refuses_key};
ghost use Rattle.queue_config.specs.Ranges as ranges;
ghost use Rattle.queue_config.specs.Ranges.{IsTask, arg_of, args_text};
ghost use Rattle.queue_config.specs.Settings as spec;

use crate::whole::PRIORITY;
use crate::{Class, Index, KeyFrom, Limit, Task, TaskArg};
use cron_lines::Schedule;
use job_states::{List, Name, NoMemory, Text};
use std::alloc::Global;
use toml::{Table, Value};
use toml_members::{
    Element, Key, SettingsFault, array_of, items_at, name_at, name_or, needed, refused, section,
    text_in, whole_at,
};

/// The greatest length of the JSON of a task's arguments.
const MAX_ARGS_LEN: usize = 4096;

// ---- schedules

fn schedule_in(alloc: Global, place: &str, text: &str) -> Result<Schedule, SettingsFault>
    ensures { Gives SettingsFault.NoMemory result
        (spec.schedule_in (key_in place.now (codes "schedule")) (schedule_of text.now)) }
{
    match Schedule::parse(text) {
        Ok(schedule) => Ok(schedule),
        Err(_) => refused(alloc, SettingsFault::NOT_ALLOWED, place, "schedule"),
    }
}

/// The text of a task's schedule, and what it says.
#[tactic(auto, unfolding(crate::specs::Settings::schedule_at))]
fn schedule_at(alloc: Global, place: &str, table: &Table) -> Result<(Text, Schedule), SettingsFault>
    ensures given { Gives SettingsFault.NoMemory result (spec.schedule_at place.now (table_view table.now)) }
    ensures read { IfOk result (λ timed. schedule_of timed.0 ≡ Ok timed.1) }
{
    let spelled = needed(alloc, place, "schedule", table)?;
    let text = Text::read(alloc, text_in(alloc, place, "schedule", spelled)?)?;
    let schedule = schedule_in(alloc, place, text.as_str())?;
    Ok((text, schedule))
}

// ---- arguments

/// An argument, refused at the key of its array, which is the context.
impl Element<Key> for TaskArg {
    ghost judged = { spec.arg_in };

    ghost holds = { λ _ _. Unit {0} };

    fn read(
        alloc: Global,
        array: &Key,
        _before: &[Self],
        _place: &str,
        value: &Value,
    ) -> Result<Self, SettingsFault> {
        match value {
            Value::String(text) => Ok(TaskArg::Text(Text::read(alloc, text.as_str())?)),
            Value::Integer(n) => Ok(TaskArg::Whole(*n)),
            Value::Boolean(b) => Ok(TaskArg::Truth(*b)),
            _ => refused(alloc, SettingsFault::WRONG_KIND, "", array.as_str()),
        }
    }
}

fn refuses_arg(arg: Option<&TaskArg>) -> bool
    ensures { result ≡ limits.is_refused (limits.key_of_arg (option_map (λ a. arg_of a.now) arg.entry)) }
{
    match arg {
        Some(TaskArg::Text(text)) => text.is_empty() || text.len() > Name::MAX_LEN,
        Some(TaskArg::Truth(_)) => true,
        None | Some(TaskArg::Whole(_)) => false,
    }
}

/// Does a class with this limit take no job with these arguments?
fn refuses_key(limit: &Limit, args: &[TaskArg]) -> bool
    ensures { result ≡ limits.is_refused (limits.key_of limit.now.key (map arg_of args.now)) }
{
    match &limit.key {
        KeyFrom::Fixed(_) => false,
        KeyFrom::Argument(n) => refuses_arg(args.get(*n as usize)),
    }
}

fn class_refuses(classes: &Index<Class>, class: &Name, args: &[TaskArg]) -> bool
    ensures { result ≡ refuses_key (limit_in (find_class class.now classes.now)) (map arg_of args.now) }
{
    match classes.find(class) {
        None => false,
        Some(class) => match &class.limit {
            None => false,
            Some(limit) => refuses_key(limit, args),
        },
    }
}

fn arg_value(alloc: Global, arg: &TaskArg) -> Result<serde_json::Value, NoMemory>
    ensures { IfOk result (λ value. json.view value ≡ ranges.arg_data arg.now) }
{
    match arg {
        TaskArg::Text(text) => Ok(serde_json::Value::String(text.as_str().to_string(alloc)?)),
        TaskArg::Whole(n) => Ok(serde_json::Value::from(*n)),
        TaskArg::Truth(b) => Ok(serde_json::Value::Bool(*b)),
    }
}

/// The arguments as JSON.
fn args_text(alloc: Global, args: &[TaskArg]) -> Result<String, NoMemory>
    ensures { IfOk result (λ text. string_bytes text ≡ args_text args.now) }
{
    let mut values = Vec::new(alloc);
    for arg in args {
        values.push(arg_value(alloc, arg)?)?;
    }
    Ok(serde_json::Value::Array(values).to_string(alloc)?)
}

/// The arguments of a task of this class.
#[tactic(auto, unfolding(crate::specs::Settings::args_at))]
fn args_at(
    alloc: Global,
    classes: &Index<Class>,
    class: &Name,
    place: &str,
    table: &Table,
) -> Result<List<TaskArg>, SettingsFault>
    ensures given { Gives SettingsFault.NoMemory result
        (spec.args_at place.now (codes "args") (limit_in (find_class class.now classes.now)) (table_view table.now)) }
    ensures text { IfOk result (λ args. length (args_text args) ≤ 4096) }
    ensures accepted { IfOk result (λ args. refuses_key (limit_in (find_class class.now classes.now)) (map arg_of args) ≡ false) }
{
    let items = items_at(alloc, place, "args", table)?;
    let array = Key::in_table(alloc, place, "args")?;
    let args: List<TaskArg> = array_of(alloc, &array, place, "args", items)?;
    let text = args_text(alloc, args.as_slice())?;
    if text.len() > MAX_ARGS_LEN || class_refuses(classes, class, args.as_slice()) {
        return refused(alloc, SettingsFault::NOT_ALLOWED, place, "args");
    }
    Ok(args)
}

// ---- tasks

/// The table of a task.
#[tactic(auto, unfolding(crate::specs::Settings::task_members))]
fn task_members<'t>(
    alloc: Global,
    place: &str,
    value: &'t Value,
) -> Result<&'t Table, SettingsFault>
    ensures { GivesAs SettingsFault.NoMemory (λ t. table_view t.now) result (spec.task_members place.now (view value.now)) }
{
    section(
        alloc,
        place,
        &["key", "class", "schedule", "queue", "priority", "args"],
        value,
    )
}

impl Element<Index<Class>> for Task {
    ghost judged = { spec.task_of };

    ghost holds = { λ classes. All (IsTask classes) };

    #[tactic(auto, unfolding(crate::specs::Settings::task_of))]
    fn read(
        alloc: Global,
        classes: &Index<Class>,
        _before: &[Self],
        place: &str,
        value: &Value,
    ) -> Result<Self, SettingsFault> {
        let table = task_members(alloc, place, value)?;
        let key = name_at(alloc, place, "key", table)?;
        let class = name_at(alloc, place, "class", table)?;
        let timed = schedule_at(alloc, place, table)?;
        let queue = name_or(alloc, place, "queue", "default", table)?;
        let priority = whole_at(alloc, place, &PRIORITY, table)? as i32;
        let args = args_at(alloc, classes, &class, place, table)?;
        let (schedule_text, schedule) = timed;
        Ok(Task {
            key,
            class,
            schedule,
            schedule_text,
            queue,
            priority,
            args,
        })
    }
}
