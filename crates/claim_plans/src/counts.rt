//! The counts of errors that a decision leaves in a job's row.
ghost use Rattle.std.specs.Prelude.{◌≡◌, ◌+◌, ◌-◌, ◌++◌, ◌∷◌, [], length, map, drop, if◌then◌else◌, IfOk};
ghost use Rattle.std.specs.List.{list_any};
ghost use Rattle.std.specs.Option.{option_copied};
ghost use Rattle.std.specs.Str.{bytes_eq};
ghost use Rattle.claim_plans.specs.Left.{rule_of};
ghost use Rattle.plan_model.specs.Counts as model;

use job_states::{Copied, Counted, List, Name, NoMemory, Text};
use queue_config::{Config, Decision, Rule, RuleAct};
use std::alloc::Global;

/// How many counts a job keeps at most.
const MOST: usize = 32;

/// The counts after the decision on a job of the class.
pub fn counts_after(
    alloc: Global,
    config: &Config,
    class: &Name,
    decision: &Decision,
    counts: &[Counted],
) -> Result<List<Counted>, NoMemory>
    ensures { IfOk result (λ after. after ≡ model.counts_after config.now class.now decision.now counts.now) }
{
    let after = match rule_of(config, class, decision) {
        Some(
            Rule {
                list,
                act: RuleAct::Retry { .. },
            },
        ) => with_count(alloc, counts, list.text(), decision.count)?,
        _ => Vec::from_clones(alloc, counts)?,
    };
    Ok(List::of(after))
}

// The rule that decided.
fn rule_of<'a>(config: &'a Config, class: &Name, decision: &Decision) -> Option<&'a Rule>
    ensures { option_copied result ≡ rule_of config.now class.now decision.now }
{
    let place = decision.rule?;
    config.class(class)?.rules.as_slice().get(place as usize)
}

// The list's count at its old place, or last; where 32 others stand the first of them goes.
fn with_count(
    alloc: Global,
    counts: &[Counted],
    list: &Text,
    count: u32,
) -> Result<Vec<Counted>, NoMemory>
    ensures { IfOk result (λ after. after.items ≡ model.with_count counts.now list.now count) }
{
    if is_there(counts, list) {
        in_place(alloc, counts, list, count)
    } else {
        at_end(alloc, counts, list, count)
    }
}

fn is_there(counts: &[Counted], list: &Text) -> bool
    ensures { result ≡ list_any (λ c. bytes_eq c.list list.now) counts.now }
{
    counts.iter().any(|counted| counted.list == *list)
}

// The counts, of which the list's is another one.
fn in_place(
    alloc: Global,
    counts: &[Counted],
    list: &Text,
    count: u32,
) -> Result<Vec<Counted>, NoMemory>
    ensures { IfOk result (λ after. after.items ≡ map (λ c. if bytes_eq c.list list.now then model.counted list.now count else c) counts.now) }
{
    let mut after = Vec::new(alloc);
    for counted in counts {
        after.push(counted_anew(counted, list, count)?)?;
    }
    Ok(after)
}

fn counted_anew(counted: &Counted, list: &Text, count: u32) -> Result<Counted, NoMemory>
    ensures { IfOk result (λ anew. anew ≡ (if bytes_eq counted.now.list list.now then model.counted list.now count else counted.now)) }
{
    let mut anew = counted.copy()?;
    if anew.list == *list {
        anew.count = count;
    }
    Ok(anew)
}

// The counts, and this one last; where there are 32 the first of them goes.
fn at_end(
    alloc: Global,
    counts: &[Counted],
    list: &Text,
    count: u32,
) -> Result<Vec<Counted>, NoMemory>
    ensures { IfOk result (λ after. after.items ≡ drop (length counts.now + 1 - 32) counts.now ++ model.counted list.now count ∷ []) }
{
    let gone = (counts.len() + 1).saturating_sub(MOST);
    let mut after = Vec::from_clones(alloc, &counts[gone..])?;
    after.push(Counted {
        list: list.copy()?,
        count,
    })?;
    Ok(after)
}
