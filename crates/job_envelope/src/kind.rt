ghost use Rattle.std.specs.Prelude.{◌≡◌, option_map, IfOk, IfSome, IsTrue};
ghost use Rattle.serde_json.specs.View.{view, items_view};
ghost use Rattle.job_states.specs.Judged.{Gives, GivesAs};
ghost use Rattle.job_states.specs.Moment.{IsMoment};
ghost use Rattle.job_states.specs.Ranges.{is_count};
ghost use Rattle.job_envelope.specs.Kind as spec;

use crate::{EnvelopeFault, Member};
use jiff::Timestamp;
use job_states::{LAST, Moment, Name, NameFault};
use serde_json::{Number, Value};
use std::alloc::Global;

/// The greatest count.
const MOST: u64 = 65_535;

/// The value of a member, where the object has it.
pub(crate) fn optional<'v>(object: &'v Value, member: Member) -> Option<&'v Value>
    ensures { option_map (λ v. view v.now) result ≡ spec.optional member (view object.now) }
{
    object.get(member.as_str())
}

/// The same, where null stands for a member that isn't there.
pub(crate) fn optional_or_null<'v>(object: &'v Value, member: Member) -> Option<&'v Value>
    ensures { option_map (λ v. view v.now) result
        ≡ spec.unless_null (spec.optional member (view object.now)) }
{
    match optional(object, member) {
        Some(value) if !value.is_null() => Some(value),
        _ => None,
    }
}

/// The value of a member that is needed.
pub(crate) fn needed<'v>(object: &'v Value, member: Member) -> Result<&'v Value, EnvelopeFault>
    ensures { GivesAs EnvelopeFault.NoMemory (λ v. view v.now) result (spec.needed member (view object.now)) }
{
    match optional(object, member) {
        Some(value) => Ok(value),
        None => Err(EnvelopeFault::Missing { member }),
    }
}

fn text_in<'v>(member: Member, value: &'v Value) -> Result<&'v str, EnvelopeFault>
    ensures { GivesAs EnvelopeFault.NoMemory (λ s. s.now) result (spec.text_in member (view value.now)) }
{
    match value.as_str() {
        Some(text) => Ok(text),
        None => Err(EnvelopeFault::WrongKind { member }),
    }
}

/// A name of these bytes.
pub(crate) fn name_from(alloc: Global, member: Member, text: &str) -> Result<Name, EnvelopeFault>
    ensures { Gives EnvelopeFault.NoMemory result (spec.name_from member text.now) }
{
    match Name::read(alloc, text) {
        Ok(name) => Ok(name),
        Err(NameFault::NoMemory) => Err(EnvelopeFault::NoMemory),
        Err(NameFault::Empty | NameFault::TooLong { .. }) => {
            Err(EnvelopeFault::WrongKind { member })
        }
    }
}

pub(crate) fn name_in(alloc: Global, member: Member, value: &Value) -> Result<Name, EnvelopeFault>
    ensures { Gives EnvelopeFault.NoMemory result (spec.name_in member (view value.now)) }
{
    name_from(alloc, member, text_in(member, value)?)
}

/// A whole number that fits.
pub(crate) fn priority_in(member: Member, value: &Value) -> Result<i32, EnvelopeFault>
    ensures { Gives EnvelopeFault.NoMemory result (spec.priority_in member (view value.now)) }
{
    match value.as_number().and_then(Number::as_i128) {
        Some(n) if n >= i32::MIN as i128 && n <= i32::MAX as i128 => Ok(n as i32),
        _ => Err(EnvelopeFault::WrongKind { member }),
    }
}

/// A whole number from 0 to 65535.
pub(crate) fn count_in(member: Member, value: &Value) -> Result<u32, EnvelopeFault>
    ensures exact { Gives EnvelopeFault.NoMemory result (spec.count_in member (view value.now)) }
    ensures range { IfOk result (λ n. IsTrue (is_count n)) }
{
    match value.as_u64() {
        Some(n) if n <= MOST => Ok(n as u32),
        _ => Err(EnvelopeFault::WrongKind { member }),
    }
}

/// The items of an array.
pub(crate) fn items_in<'v>(member: Member, value: &'v Value) -> Result<&'v [Value], EnvelopeFault>
    ensures { GivesAs EnvelopeFault.NoMemory (λ v. items_view v.now) result (spec.items_in member (view value.now)) }
{
    match value.as_array() {
        Some(items) => Ok(items),
        None => Err(EnvelopeFault::WrongKind { member }),
    }
}

/// Whole microseconds of an instant that is given in nanoseconds, from 1970 up to the last moment.
fn moment_from(nanos: i128) -> Option<Moment>
    ensures exact { result ≡ spec.moment_from nanos }
    ensures last { IfSome result IsMoment }
{
    if nanos < 0 {
        return None;
    }
    let micros = nanos / 1000;
    if micros > LAST as i128 {
        return None;
    }
    Some(micros as u64)
}

/// An instant.
pub(crate) fn moment_in(member: Member, value: &Value) -> Result<Moment, EnvelopeFault>
    ensures exact { Gives EnvelopeFault.NoMemory result (spec.moment_in member (view value.now)) }
    ensures last { IfOk result IsMoment }
{
    let text = text_in(member, value)?;
    let refused = EnvelopeFault::DateRefused { member };
    match text.parse::<Timestamp>() {
        Ok(instant) => moment_from(instant.as_nanosecond()).ok_or(refused),
        Err(_) => Err(refused),
    }
}
