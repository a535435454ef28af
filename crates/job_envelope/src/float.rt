ghost use Rattle.std.specs.Prelude.{◌≡◌};
ghost use Rattle.serde_json.specs.View.{view, items_view, members_view};
ghost use Rattle.serde_json.specs.Written.{has_float, items_have_float, members_have_float};

use serde_json::{Map, Value};

/// Does the value hold, at any depth, a number that isn't whole, or isn't from -2^63 to 2^64-1?
#[cycle(floats)]
pub(crate) fn holds_float(value: &Value) -> bool
    ensures { result ≡ has_float (view value.now) }
{
    match value {
        Value::Number(number) => number.is_f64(),
        Value::Array(items) => items_hold_float(items),
        Value::Object(members) => members_hold_float(members),
        Value::Null | Value::Bool(_) | Value::String(_) => false,
    }
}

/// Does an item hold one?
#[cycle(floats)]
pub(crate) fn items_hold_float(items: &[Value]) -> bool
    ensures { result ≡ items_have_float (items_view items.now) }
{
    for item in items {
        if holds_float(item) {
            return true;
        }
    }
    false
}

/// Does a member hold one?
#[cycle(floats)]
fn members_hold_float(members: &Map<String, Value>) -> bool
    ensures { result ≡ members_have_float (members_view members.now.entries) }
{
    for (_, member) in members.iter() {
        if holds_float(member) {
            return true;
        }
    }
    false
}
