//! Names in order.
ghost use Rattle.std.specs.Prelude.{◌≡◌, ℕ, List, Option, Some, Contains, IfOk};
ghost use Rattle.std.specs.Iterator.{Drains, IsFinite};
ghost use Rattle.std.specs.Option.{option_copied};
ghost use Rattle.std.specs.List.Sorted.{IsStrictlySortedBy};
ghost use Rattle.queue_model.specs.World.{text_cmp};
ghost use Rattle.exec_tables.specs.Names.{AreSorted};

use job_states::{Copied, Name, NoMemory};
use std::alloc::Global;
use std::collections::BTreeSet;

/// These names, strictly sorted.
pub fn sorted_names<'a, I: Iterator<Item = Option<&'a Name>> + Drop>(
    alloc: Global,
    names: I,
) -> Result<Vec<Name>, NoMemory>
    requires can { I.can_next names }
    requires ends { IsFinite (I.remaining names) }
    ensures { IfOk result (λ sorted. (xs : _) × Drains I.next_gives names xs
        × AreSorted (λ name. (x : _) × Contains xs (Some x) × (x.now ≡ name)) sorted.items) }
{
    let mut found = BTreeSet::new(alloc);
    for listed in names {
        let Some(name) = listed else {
            continue;
        };
        if !found.contains(name) {
            found.insert(name.copy()?)?;
        }
    }
    listed_in(alloc, found)
}

fn listed_in(alloc: Global, names: BTreeSet<Name>) -> Result<Vec<Name>, NoMemory>
    ensures same { IfOk result (λ list. list.items ≡ names.keys) }
    ensures sorted { IsStrictlySortedBy text_cmp names.keys }
{
    Ok(names.into_iter().collect(alloc)?)
}
