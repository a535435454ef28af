ghost use Rattle.std.specs.Prelude.{◌≡◌, [], None, All, IfOk};
ghost use Rattle.std.specs.List.{list_any, position};
ghost use Rattle.job_states.specs.Judged.{GivesAs};
ghost use Rattle.queue_config.specs.Fault as fault;
ghost use Rattle.queue_config.specs.Named.{first_clash};
ghost use Rattle.queue_config.specs.Errors as ancestry;
ghost use Rattle.queue_config.specs.Ranges.{HasRanges, IsConfig, IsErrorKeys};
ghost use Rattle.queue_config.specs.Wrong as spec;

use crate::errors::is_own_ancestor;
use crate::{Class, Config, ErrorKeys, Index, Limit, Task};
use std::alloc::Global;
use toml_members::{Key, SettingsFault, refused};

/// The numbers of what can be wrong with settings all of whose tables are as they should be.
const REPEATED: u8 = 6;

const NO_CLASS: u8 = 7;

const OWN_ANCESTOR: u8 = 8;

const UNLIKE: u8 = 9;

/// Refuses a key of the element at this place of an array, if there is one.
fn unless_at(
    alloc: Global,
    number: u8,
    array: &str,
    key: &str,
    place: Option<usize>,
) -> Result<(), SettingsFault>
    ensures given { GivesAs SettingsFault.NoMemory (λ u. u) result (fault.unless_at number array.now key.now place) }
    ensures none { IfOk result (λ _. place ≡ None) }
{
    match place {
        None => Ok(()),
        Some(i) => refused(alloc, number, Key::element(alloc, array, i)?.as_str(), key),
    }
}

/// The first task whose class isn't declared.
fn first_without_class(classes: &Index<Class>, tasks: &[Task]) -> Option<usize>
    ensures { result ≡ position (spec.lacks_class classes.now) tasks.now }
{
    tasks
        .iter()
        .position(|task| classes.find(&task.class).is_none())
}

/// The first error whose parents come round to it.
fn first_own_ancestor(errors: &Index<ErrorKeys>) -> Option<usize>
    requires { All IsErrorKeys errors.now }
    ensures { result ≡ position (ancestry.is_own_ancestor errors.now) errors.now }
{
    errors
        .as_slice()
        .iter()
        .position(|error| is_own_ancestor(errors, error))
}

fn differ(a: &Limit, b: &Limit) -> bool
    ensures { result ≡ spec.differ a.now b.now }
{
    a.group == b.group && !(a.to == b.to && a.duration == b.duration)
}

/// Do two classes have one group, and limits that differ?
fn clash(a: &Class, b: &Class) -> bool
    ensures { result ≡ spec.clash a.now b.now }
{
    match (&a.limit, &b.limit) {
        (Some(a), Some(b)) => differ(a, b),
        _ => false,
    }
}

fn clashes(before: &[Class], class: &Class) -> bool
    ensures { result ≡ list_any (λ earlier. spec.clash earlier class.now) before.now }
{
    before.iter().any(|earlier| clash(earlier, class))
}

/// The first class that clashes with one before it.
fn first_clash(classes: &[Class]) -> Option<usize>
    ensures { result ≡ first_clash spec.clash [] classes.now }
{
    for (i, class) in classes.iter().enumerate() {
        if clashes(&classes[..i], class) {
            return Some(i);
        }
    }
    None
}

/// Refuses settings all of whose tables are as they should be, and which are wrong as a whole.
#[tactic(auto, unfolding(crate::specs::Wrong::judged_whole))]
pub(crate) fn judge(alloc: Global, config: &Config) -> Result<(), SettingsFault>
    requires { HasRanges config.now }
    ensures given { GivesAs SettingsFault.NoMemory (λ _. config.now) result (spec.judged_whole config.now) }
    ensures accepted { IfOk result (λ _. IsConfig config.now) }
{
    let (classes, errors, tasks) = (&config.classes, &config.errors, &config.tasks);
    unless_at(alloc, REPEATED, "classes", "name", classes.first_repeat())?;
    unless_at(alloc, REPEATED, "errors", "name", errors.first_repeat())?;
    unless_at(alloc, REPEATED, "tasks", "key", tasks.first_repeat())?;
    let without_class = first_without_class(classes, tasks.as_slice());
    unless_at(alloc, NO_CLASS, "tasks", "class", without_class)?;
    unless_at(
        alloc,
        OWN_ANCESTOR,
        "errors",
        "parent",
        first_own_ancestor(errors),
    )?;
    unless_at(
        alloc,
        UNLIKE,
        "classes",
        "limit",
        first_clash(classes.as_slice()),
    )?;
    Ok(())
}
