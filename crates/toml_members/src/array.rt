ghost use Rattle.std.specs.Prelude.{◌≡◌, ◌≤◌, ◌++◌, ◌∷◌, [], List as Seq, ℕ, length, Some, IfOk};
ghost use Rattle.toml.specs.Data.{Data};
ghost use Rattle.toml.specs.View.{view, table_view, items_view};
ghost use Rattle.job_states.specs.Judged.{Gives, GivesAs};
ghost use Rattle.toml_members.specs.Fault.{Judged};
ghost use Rattle.toml_members.specs.Key as written;
ghost use Rattle.toml_members.specs.Kind as spec;

use crate::{Key, SettingsFault, optional, refused};
use job_states::List;
use std::alloc::Global;
use toml::{Table, Value};

/// What an element of an array stands for, beside a context.
pub trait Element<C>: Sized + Drop {
    /// What is read of it at its place, after those that were read before.
    ghost judged: { C → Seq Self → Seq ℕ → Data → Judged Self };

    /// What holds of a list of those that are accepted.
    ghost holds: { C → Seq Self → Type 0 };

    /// Reads an element at its place, as `classes[0]`.
    fn read(
        alloc: Global,
        context: &C,
        before: &[Self],
        place: &str,
        value: &Value,
    ) -> Result<Self, SettingsFault>
        requires { holds context.now before.now }
        ensures given { Gives SettingsFault.NoMemory result (judged context.now before.now place.now (view value.now)) }
        ensures holds { IfOk result (λ element. holds context.now (before.now ++ element ∷ [])) };
}

/// The elements of an array.
pub fn elements<C, E: Element<C>>(
    alloc: Global,
    context: &C,
    array: &str,
    values: &[Value],
) -> Result<List<E>, SettingsFault>
    requires { E.holds context.now [] }
    ensures given { Gives SettingsFault.NoMemory result (spec.each (E.judged context.now) array.now [] (items_view values.now)) }
    ensures holds { IfOk result (λ elements. E.holds context.now elements) }
    ensures count { IfOk result (λ elements. length elements ≡ length values.now) }
{
    let mut elements = Vec::new(alloc);
    for value in values {
        let before = elements.as_slice();
        let place = Key::element(alloc, array, before.len())?;
        let element = E::read(alloc, context, before, place.as_str(), value)?;
        elements.push(element)?;
    }
    Ok(List::of(elements))
}

/// The items of an array.
pub fn items_in<'t>(
    alloc: Global,
    place: &str,
    key: &str,
    value: &'t Value,
) -> Result<&'t [Value], SettingsFault>
    ensures given { GivesAs SettingsFault.NoMemory (λ v. items_view v.now) result
        (spec.items_in (written.key_in place.now key.now) (view value.now)) }
{
    match value.as_array() {
        None => refused(alloc, SettingsFault::WRONG_KIND, place, key),
        Some(items) => Ok(items),
    }
}

/// The items, from a least number of them to a greatest one.
pub(crate) fn sized<'t>(
    alloc: Global,
    place: &str,
    key: &str,
    least: usize,
    most: usize,
    items: &'t [Value],
) -> Result<&'t [Value], SettingsFault>
    ensures given { GivesAs SettingsFault.NoMemory (λ v. items_view v.now) result
        (spec.sized (written.key_in place.now key.now) least most (items_view items.now)) }
    ensures least { IfOk result (λ v. least ≤ length v.now) }
    ensures most { IfOk result (λ v. length v.now ≤ most) }
{
    if least <= items.len() && items.len() <= most {
        return Ok(items);
    }
    refused(alloc, SettingsFault::NOT_ALLOWED, place, key)
}

/// The items of an array; an absent one has none.
#[tactic(auto, unfolding(crate::specs::Kind::items_at))]
pub fn items_at<'t>(
    alloc: Global,
    place: &str,
    key: &str,
    table: &'t Table,
) -> Result<&'t [Value], SettingsFault>
    ensures { GivesAs SettingsFault.NoMemory (λ v. items_view v.now) result
        (spec.items_at place.now key.now (table_view table.now)) }
{
    match optional(table, key) {
        None => Ok(&[]),
        Some(value) => items_in(alloc, place, key, value),
    }
}

/// The elements of the array at a key.
pub fn array_of<C, E: Element<C>>(
    alloc: Global,
    context: &C,
    place: &str,
    key: &str,
    items: &[Value],
) -> Result<List<E>, SettingsFault>
    requires { E.holds context.now [] }
    ensures given { Gives SettingsFault.NoMemory result
        (spec.each (E.judged context.now) (written.key_in place.now key.now) [] (items_view items.now)) }
    ensures holds { IfOk result (λ elements. E.holds context.now elements) }
    ensures count { IfOk result (λ elements. length elements ≡ length items.now) }
{
    let array = Key::in_table(alloc, place, key)?;
    elements(alloc, context, array.as_str(), items)
}

/// The elements of an array of at most so many; an absent one has none.
#[tactic(auto, unfolding(crate::specs::Kind::array_at))]
pub fn array_at<C, E: Element<C>>(
    alloc: Global,
    context: &C,
    place: &str,
    key: &str,
    most: usize,
    table: &Table,
) -> Result<List<E>, SettingsFault>
    requires { E.holds context.now [] }
    ensures given { Gives SettingsFault.NoMemory result
        (spec.array_at (E.judged context.now) place.now key.now most (table_view table.now)) }
    ensures holds { IfOk result (λ elements. E.holds context.now elements) }
    ensures count { IfOk result (λ elements. length elements ≤ most) }
{
    let items = items_at(alloc, place, key, table)?;
    array_of(
        alloc,
        context,
        place,
        key,
        sized(alloc, place, key, 0, most, items)?,
    )
}
