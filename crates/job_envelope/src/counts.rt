ghost use Rattle.std.specs.Prelude.{◌≡◌, map, IfOk, IsTrue, OnOk, string_bytes, string_cmp};
ghost use Rattle.std.specs.List.{AllPass};
ghost use Rattle.std.specs.BTreeMap.{keys};
ghost use Rattle.std.specs.List.Sorted.{IsStrictlySortedBy};
ghost use Rattle.serde_json.specs.View.{view, members_view};
ghost use Rattle.job_states.specs.Judged.{Gives};
ghost use Rattle.job_envelope.specs.Kind as spec;
ghost use Rattle.job_states.specs.Ranges.{is_counted, texts_of_counts};
ghost use Rattle.job_envelope.specs.Ranges.{AreEnvelopeCounts};

use crate::kind::count_in;
use crate::{EnvelopeFault, Member};
use job_states::{Counted, List, Text};
use serde_json::{Map, Value};
use std::alloc::Global;

/// How many counts an envelope may bring.
const MOST: usize = 16;

/// How many bytes the text of a rule's errors may have.
const LONGEST: usize = 1024;

fn counted(
    alloc: Global,
    member: Member,
    list: &str,
    value: &Value,
) -> Result<Counted, EnvelopeFault>
    ensures exact { Gives EnvelopeFault.NoMemory result (spec.counted member list.now (view value.now)) }
    ensures range { IfOk result (λ c. IsTrue (is_counted c)) }
    ensures list { IfOk result (λ c. c.list ≡ list.now) }
{
    if list.is_empty() || list.len() > LONGEST {
        return Err(EnvelopeFault::WrongKind { member });
    }
    let count = count_in(member, value)?;
    Ok(Counted {
        list: Text::read(alloc, list)?,
        count,
    })
}

fn counts_of(
    alloc: Global,
    member: Member,
    lists: &Map<String, Value>,
) -> Result<List<Counted>, EnvelopeFault>
    ensures exact { Gives EnvelopeFault.NoMemory result (spec.counts_of member (members_view lists.now.entries)) }
    ensures each { IfOk result (AllPass is_counted) }
    ensures lists { IfOk result (λ counts. texts_of_counts counts ≡ map string_bytes (keys lists.now)) }
    ensures ordered { OnOk result (IsStrictlySortedBy string_cmp (keys lists.now)) }
{
    let mut counts = Vec::new(alloc);
    for (list, value) in lists.iter() {
        counts.push(counted(alloc, member, list.as_str(), value)?)?;
    }
    Ok(List::of(counts))
}

fn counts_from(
    alloc: Global,
    member: Member,
    lists: &Map<String, Value>,
) -> Result<List<Counted>, EnvelopeFault>
    ensures exact { Gives EnvelopeFault.NoMemory result
        (spec.counts_from member (Some (members_view lists.now.entries))) }
    ensures ranges { IfOk result AreEnvelopeCounts }
{
    if lists.len() > MOST {
        return Err(EnvelopeFault::WrongKind { member });
    }
    counts_of(alloc, member, lists)
}

/// At most 16 counts, by the texts of their rules' errors.
pub(crate) fn counts_in(
    alloc: Global,
    member: Member,
    value: &Value,
) -> Result<List<Counted>, EnvelopeFault>
    ensures exact { Gives EnvelopeFault.NoMemory result (spec.counts_in member (view value.now)) }
    ensures ranges { IfOk result AreEnvelopeCounts }
{
    match value.as_object() {
        Some(lists) => counts_from(alloc, member, lists),
        None => Err(EnvelopeFault::WrongKind { member }),
    }
}
