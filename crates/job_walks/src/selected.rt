ghost use Rattle.std.specs.Prelude.{◌≡◌, false, [], ◌∷◌, drop, map, slice_get, Some, All, IfOk};
ghost use Rattle.std.specs.Option.{option_copied};
ghost use Rattle.queue_model.specs.GoodWorld.{IsGood};
ghost use Rattle.queue_selector.specs.Groups.{groups_of, polls_all};
ghost use Rattle.plan_model.specs.Orders.{first_of, names_in, ready_queues, selected};
ghost use Rattle.job_walks.specs.Left.{every_left, named_left, queue_left};
ghost use Rattle.job_walks.specs.Places.{IsOneOf};

use exec_tables::Tables;
use job_states::{JobId, Name, NoMemory};
use queue_model::Job;
use queue_selector::QueueList;
use std::alloc::Global;
use std::marker::Model;

/// A job's place in the order of a poll: its priority and its number.
type Place = (i32, JobId);

/// The ready jobs that a queue list selects, of queues that aren't paused: those that are left, in the order of a poll.
#[derive(Drop)]
pub struct Selected<'a> {
    tables: &'a Tables,
    queues: Queues,
    // The place of the last job of the present group.
    past: Option<Place>,
}

// The groups that are left.
#[derive(Drop)]
enum Queues {
    /// All queues are one group.
    Every,
    /// Each queue from this place on is a group.
    Named { names: Vec<Name>, at: usize },
}

impl<'a> Model for Selected<'a> {
    ghost use Rattle.std.specs.Prelude.{List};
    ghost use Rattle.queue_model.specs.GoodWorld.{IsGood};
    ghost use Rattle.queue_model.specs.declared.Job.{Job};
    ghost use Rattle.job_walks.specs.Left.{left};

    ghost Value = { List Job };

    ghost view = { λ s. left s.tables.now.world s.queues s.past };

    ghost invariant = { λ s. IsGood s.tables.now.world };
}

impl<'a> Selected<'a> {
    /// The jobs of the tables that the list selects.
    pub fn new(alloc: Global, tables: &'a Tables, list: &QueueList) -> Result<Self, NoMemory>
        requires { IsGood tables.now.world }
        ensures { IfOk result (λ jobs. jobs ≡ selected tables.now.world list.now) }
    {
        let queues = if list.polls_all() {
            Queues::Every
        } else {
            Queues::Named {
                names: queues_of(alloc, tables, list)?,
                at: 0,
            }
        };
        Ok(Selected {
            tables,
            queues,
            past: None,
        })
    }

    /// The first job that is left, which then is left no more. It takes no memory.
    pub fn next_job(&mut self) -> Option<&'a Job>
        ensures first { option_copied result ≡ first_of self.old }
        ensures left { self.new ≡ drop 1 self.old }
    {
        match &mut self.queues {
            Queues::Every => next_unpaused(self.tables, &mut self.past),
            Queues::Named { names, at } => next_named(self.tables, names, at, &mut self.past),
        }
    }
}

// The queues that the list selects, in turn.
fn queues_of(alloc: Global, tables: &Tables, list: &QueueList) -> Result<Vec<Name>, NoMemory>
    requires { polls_all list.now ≡ false }
    ensures { IfOk result (λ names. map (λ name. name ∷ []) names.items ≡ groups_of list.now (ready_queues tables.now.world) (names_in tables.now.world.paused)) }
{
    let ready = tables.ready_queues()?;
    let paused = tables.paused()?;
    let groups = list.groups(alloc, &ready, &paused)?;
    names_at(alloc, &ready, &groups)
}

// The names at these places, of groups of one.
fn names_at(alloc: Global, names: &[Name], groups: &[Vec<u64>]) -> Result<Vec<Name>, NoMemory>
    requires { All (λ group. IsOneOf names.now group.items) groups.now }
    ensures { IfOk result (λ found. map (λ name. Some name ∷ []) found.items ≡ map (λ group. map (slice_get names.now) group.items) groups.now) }
{
    let mut found = Vec::new(alloc);
    for group in groups {
        found.push(name_at(names, group).clone()?)?;
    }
    Ok(found)
}

// The name at the place of a group of one.
fn name_at<'a>(names: &'a [Name], group: &[u64]) -> &'a Name
    requires { IsOneOf names.now group.now }
    ensures { map (slice_get names.now) group.now ≡ Some result.now ∷ [] }
{
    &names[group[0] as usize]
}

// The next job of a queue that isn't paused.
fn next_unpaused<'a>(tables: &'a Tables, past: &mut Option<Place>) -> Option<&'a Job>
    requires { IsGood tables.now.world }
    ensures first { option_copied result ≡ first_of (every_left tables.now.world past.old) }
    ensures left { every_left tables.now.world past.new ≡ drop 1 (every_left tables.now.world past.old) }
{
    while let Some(place) = tables.ready_any_after(*past) {
        *past = Some(place);
        let job = tables.job(place.1)?;
        if !tables.is_paused(&job.row.queue) {
            return Some(job);
        }
    }
    None
}

// The next job of the queues from this place on.
fn next_named<'a>(
    tables: &'a Tables,
    names: &[Name],
    at: &mut usize,
    past: &mut Option<Place>,
) -> Option<&'a Job>
    requires { IsGood tables.now.world }
    ensures first { option_copied result ≡ first_of (named_left tables.now.world (drop at.old names.now) past.old) }
    ensures left { named_left tables.now.world (drop at.new names.now) past.new ≡ drop 1 (named_left tables.now.world (drop at.old names.now) past.old) }
{
    while *at < names.len() {
        if let Some(job) = next_in(tables, &names[*at], past) {
            return Some(job);
        }
        *at += 1;
        *past = None;
    }
    None
}

// The next job of the queue.
fn next_in<'a>(tables: &'a Tables, queue: &Name, past: &mut Option<Place>) -> Option<&'a Job>
    requires { IsGood tables.now.world }
    ensures first { option_copied result ≡ first_of (queue_left tables.now.world queue.now past.old) }
    ensures left { queue_left tables.now.world queue.now past.new ≡ drop 1 (queue_left tables.now.world queue.now past.old) }
{
    let place = tables.ready_after(queue, *past)?;
    *past = Some(place);
    tables.job(place.1)
}
