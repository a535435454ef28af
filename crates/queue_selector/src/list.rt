use crate::groups::{poll_groups, polls_all};
use job_states::{List, Name, NoMemory, Text};
use std::alloc::{AllocError, Global};
use std::marker::Model;
use thiserror::Error;

/// The queues that a worker polls: 1 to 64 items of 1 to 128 bytes. An item is the name of a queue, a prefix of names
/// with a `*` after it, or `*` alone for all queues.
#[derive(Drop)]
pub struct QueueList(List<Text>);

impl Model for QueueList {
    ghost use Rattle.std.specs.Prelude.{ℕ, List};
    ghost use Rattle.queue_selector.specs.Items.{IsQueueList};

    ghost Value = { List (List ℕ) };

    ghost view = { λ l. l.0 };

    ghost invariant = { λ l. IsQueueList l.0 };
}

/// Why items are no queue list.
#[derive(Debug, Drop, Error)]
pub enum ListFault {
    /// There is no item, or there are more than 64: this many.
    #[error("a queue list has 1 to 64 items, and not {n}")]
    Count { n: usize },
    /// The item at this place is the first that is empty or has more than 128 bytes.
    #[error("the item at place {index} of the queue list is empty or has more than 128 bytes")]
    Item { index: usize },
    /// There was no memory for it.
    #[error("out of memory")]
    NoMemory,
}

impl From<AllocError> for ListFault {
    ghost use Rattle.std.specs.Prelude.{◌≡◌};
    ghost use Rattle.queue_selector.specs.declared.list.ListFault.TheVariants as fault;

    ghost from_gives = { λ _ e. e ≡ fault.NoMemory };

    fn from(_: AllocError) -> Self {
        ListFault::NoMemory
    }
}

impl ListFault {
    ghost use Rattle.std.specs.Prelude.{◌↔◌, IfSome, IsNone, IsTrue};
    ghost use Rattle.job_states.specs.Length.{IsName};
    ghost use Rattle.queue_selector.specs.Items.{IsQueueList};
    ghost use Rattle.queue_selector.specs.Fault.{IsListFault};

    fn first(items: &[Text]) -> Option<Self>
        ensures none { IsNone result ↔ IsQueueList items.now }
        ensures fault { IfSome result (IsListFault items.now) }
    {
        if items.is_empty() || items.len() > QueueList::MAX_ITEMS {
            return Some(ListFault::Count { n: items.len() });
        }
        let index = items.iter().position(|item| !ListFault::is_item(item))?;
        Some(ListFault::Item { index })
    }

    fn is_item(item: &Text) -> bool
        ensures { IsTrue result ↔ IsName item.now }
    {
        !item.is_empty() && item.len() <= Name::MAX_LEN
    }
}

impl QueueList {
    ghost use Rattle.std.specs.Prelude.{◌≡◌, map, Some, slice_get, IfOk, IfErr};
    ghost use Rattle.queue_selector.specs.Items.{IsQueueList};
    ghost use Rattle.queue_selector.specs.Fault.{IsListFault};
    ghost use Rattle.queue_selector.specs.Groups.{AreSorted, groups_of};
    ghost use Rattle.queue_selector.specs.Groups as groups;

    /// The greatest number of items.
    pub const MAX_ITEMS: usize = 64;

    /// The list of a copy of these items.
    pub fn parse(alloc: Global, items: &[Text]) -> Result<Self, ListFault>
        ensures same { IfOk result (λ list. list ≡ items.now) }
        ensures list { IfOk result IsQueueList }
        ensures fault { IfErr result (IsListFault items.now) }
    {
        match ListFault::first(items) {
            Some(fault) => Err(fault),
            None => Ok(QueueList(List::of(Vec::from_clones(alloc, items)?))),
        }
    }

    /// The list of these items. It takes no memory.
    pub fn of(items: List<Text>) -> Result<Self, ListFault>
        ensures accepted { IsQueueList items → result ≡ Ok items }
        ensures list { IfOk result IsQueueList }
        ensures fault { IfErr result (IsListFault items) }
    {
        match ListFault::first(items.as_slice()) {
            Some(fault) => Err(fault),
            None => Ok(QueueList(items)),
        }
    }

    /// Is an item `*` alone? All queues are then one group.
    pub fn polls_all(&self) -> bool
        ensures { result ≡ groups.polls_all self.now }
    {
        polls_all(self.0.as_slice())
    }

    /// The groups in which the queues of these names are polled, each as places in `names`, without the paused ones.
    pub fn groups(
        &self,
        alloc: Global,
        names: &[Name],
        paused: &[Name],
    ) -> Result<Vec<Vec<u64>>, NoMemory>
        requires names { AreSorted names.now }
        requires paused { AreSorted paused.now }
        // At the places of the groups stand the names of the list's groups.
        ensures { IfOk result (λ places. map (λ group. map (slice_get names.now) group.items) places.items
            ≡ map (map Some) (groups_of self.now names.now paused.now)) }
    {
        poll_groups(alloc, self.0.as_slice(), names, paused)
    }
}
