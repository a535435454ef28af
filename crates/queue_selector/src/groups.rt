//! Places of names in a sorted list of them.
ghost use Rattle.std.specs.Prelude.{◌≡◌, ◌≤◌, ◌&&◌, ◌++◌, ◌∷◌, [], ℕ, List, length, map, filter, if◌then◌else◌, position, slice_range, Some, IfOk, OnOk};
ghost use Rattle.std.specs.List.{list_any};
ghost use Rattle.job_states.specs.Texts.{is_among};
ghost use Rattle.queue_selector.specs.Groups as groups;
ghost use Rattle.queue_selector.specs.Groups.{AreSorted, count_in, count_of, groups_of, is_polled, is_star};
ghost use Rattle.queue_selector.specs.Places.{is_left, names_at, prefix_of};

use job_states::{Name, NoMemory, Text};
use std::alloc::Global;
use std::ops::Range;

/// A name that isn't paused and that an item selects stands in a list's groups as often as it was given, and any other one
/// never. So of sorted names it stands there once.
pub fn polled_once()
    ensures as_often { (items names paused : List (List ℕ)) (name : List ℕ) →
        count_in name (groups_of items names paused) ≡ (if is_polled items paused name then count_of name names else 0) }
    ensures once { (items names paused : List (List ℕ)) (name : List ℕ) → AreSorted names →
        count_in name (groups_of items names paused) ≡ (if is_among names name && is_polled items paused name then 1 else 0) }
{}

// The groups, as places.
pub fn poll_groups(
    alloc: Global,
    items: &[Text],
    names: &[Name],
    paused: &[Name],
) -> Result<Vec<Vec<u64>>, NoMemory>
    requires names { AreSorted names.now }
    requires paused { AreSorted paused.now }
    ensures { IfOk result (λ places. map (λ group. names_at names.now group.items) places.items ≡ map (map Some) (groups_of items.now names.now paused.now)) }
{
    let mut places = Vec::new(alloc);
    if polls_all(items) {
        add_left(&items[..0], names, paused, 0..names.len(), &mut places)?;
        return Ok(vec![in alloc; places]?);
    }
    for (index, item) in items.iter().enumerate() {
        let run = selected_run(item.as_bytes(), names);
        add_left(&items[..index], names, paused, run, &mut places)?;
    }
    groups_of_one(alloc, &places)
}

// Is an item a star alone?
pub fn polls_all(items: &[Text]) -> bool
    ensures { result ≡ groups.polls_all items.now }
{
    items.iter().any(|item| item.as_bytes() == b"*".as_slice())
}

// Adds the places of the run's names that no earlier item selects and that aren't paused.
fn add_left(
    earlier: &[Text],
    names: &[Name],
    paused: &[Name],
    run: Range<usize>,
    places: &mut Vec<u64>,
) -> Result<(), NoMemory>
    requires in_order { run.start ≤ run.end }
    requires within { run.end ≤ length names.now }
    requires paused { AreSorted paused.now }
    ensures { OnOk result (names_at names.now places.new.items ≡ names_at names.now places.old.items ++ map Some (filter (is_left earlier.now paused.now) (slice_range names.now run.start run.end))) }
{
    for place in run.start..run.end {
        if is_left(earlier, paused, &names[place]) {
            places.push(place as u64)?;
        }
    }
    Ok(())
}

fn is_left(earlier: &[Text], paused: &[Name], name: &Name) -> bool
    requires { AreSorted paused.now }
    ensures { result ≡ is_left earlier.now paused.now name.now }
{
    !is_selected(earlier, name.as_bytes()) && !is_paused(paused, name)
}

fn is_paused(paused: &[Name], name: &Name) -> bool
    requires { AreSorted paused.now }
    ensures { result ≡ is_among paused.now name.now }
{
    paused.binary_search(name).is_ok()
}

fn is_selected(items: &[Text], name: &[u8]) -> bool
    ensures { result ≡ list_any (λ item. groups.selects item name.now) items.now }
{
    items.iter().any(|item| selects(item.as_bytes(), name))
}

// The places of the names that the item selects: equal names and names with one prefix stand side by side.
fn selected_run(item: &[u8], names: &[Name]) -> Range<usize>
    requires { AreSorted names.now }
    ensures in_order { result.start ≤ result.end }
    ensures within { result.end ≤ length names.now }
    ensures run { slice_range names.now result.start result.end ≡ filter (groups.selects item.now) names.now }
{
    let prefix = prefix_of(item);
    let start = names.partition_point(|name| name.as_bytes().cmp(prefix).is_lt());
    let count = names[start..].partition_point(|name| selects(item, name.as_bytes()));
    start..start + count
}

fn selects(item: &[u8], name: &[u8]) -> bool
    ensures { result ≡ groups.selects item.now name.now }
{
    match star_place(item) {
        None => item == name,
        Some(place) => place + 1 == item.len() && name.starts_with(&item[..place]),
    }
}

fn prefix_of(item: &[u8]) -> &[u8]
    ensures { result.now ≡ prefix_of item.now }
{
    match star_place(item) {
        None => item,
        Some(place) => &item[..place],
    }
}

fn star_place(item: &[u8]) -> Option<usize>
    ensures { result ≡ position is_star item.now }
{
    item.iter().position(|byte| *byte == b'*')
}

// A group of one for each place.
fn groups_of_one(alloc: Global, places: &[u64]) -> Result<Vec<Vec<u64>>, NoMemory>
    ensures { IfOk result (λ groups. map (λ group. group.items) groups.items ≡ map (λ place. place ∷ []) places.now) }
{
    let mut groups = Vec::new(alloc);
    for place in places {
        groups.push(vec![in alloc; *place]?)?;
    }
    Ok(groups)
}
