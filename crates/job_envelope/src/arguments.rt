ghost use Rattle.std.specs.Prelude.{◌≡◌, ◌≤◌, length, IfOk};
ghost use Rattle.serde_json.specs.View.{view, items_view};
ghost use Rattle.job_envelope.specs.Arguments as spec;

use job_states::{Arg, List, NoMemory, Text};
use serde_json::{Number, Value};
use std::alloc::Global;

/// Of how many arguments a concurrency key can be made.
const MOST: usize = 16;

fn arg_of(alloc: Global, value: &Value) -> Result<Arg, NoMemory>
    ensures { IfOk result (λ arg. arg ≡ spec.arg_of (view value.now)) }
{
    Ok(match value {
        Value::Null => Arg::Null,
        Value::String(text) => Arg::Text(Text::read(alloc, text.as_str())?),
        Value::Number(number) => number.as_i128().map_or(Arg::Other, Arg::Whole),
        Value::Bool(_) | Value::Array(_) | Value::Object(_) => Arg::Other,
    })
}

/// The first 16 arguments.
pub(crate) fn first_args(alloc: Global, items: &[Value]) -> Result<List<Arg>, NoMemory>
    ensures exact { IfOk result (λ args. args ≡ spec.first_args (items_view items.now)) }
    ensures few { IfOk result (λ args. length args ≤ 16) }
{
    let mut args = Vec::new(alloc);
    for item in &items[..MOST.min(items.len())] {
        args.push(arg_of(alloc, item)?)?;
    }
    Ok(List::of(args))
}
