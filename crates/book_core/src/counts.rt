//! What is counted of open plans.
ghost use Rattle.std.specs.Prelude.{◌≡◌, ◌<◌, ◌^◌};
ghost use Rattle.std.specs.List.{count_by};
ghost use Rattle.book_core.specs.Counts as spec;

use crate::opened::Opened;
use job_states::{Pid, Transition};
use std::collections::BTreeMap;

/// Which transitions are counted.
#[derive(Clone, Copy)]
pub enum Counted {
    Any,
    Enqueues,
    Registers,
    ClaimsBy(Pid),
}

// How many transitions of open plans are counted.
pub fn count_in(opened: &BTreeMap<u32, Opened>, counted: Counted) -> u64
    requires { spec.planned_in opened.now.entries < 2 ^ 63 }
    ensures { result ≡ spec.count_in counted opened.now.entries }
{
    let mut sum = 0;
    for (_, plan) in opened.iter() {
        sum += count_steps(plan.tx.steps.as_slice(), counted);
    }
    sum
}

fn count_steps(steps: &[Transition], counted: Counted) -> u64
    ensures { result ≡ count_by (spec.is_counted counted) steps.now }
{
    steps
        .iter()
        .filter(|step| is_counted(step, counted))
        .count() as u64
}

fn is_counted(step: &Transition, counted: Counted) -> bool
    ensures { result ≡ spec.is_counted counted step.now }
{
    match counted {
        Counted::Any => true,
        Counted::Enqueues => matches!(step, Transition::Enqueue { .. }),
        Counted::Registers => matches!(step, Transition::Register { .. }),
        Counted::ClaimsBy(by) => match step {
            Transition::Claim { pid, .. } => *pid == by,
            _ => false,
        },
    }
}
