//! Where the path of a request leads, and by which method.
ghost use Rattle.std.specs.Prelude.{◌≡◌, [], ◌∷◌, map, codes, IfOk};
ghost use Rattle.std.specs.List.{list_all};
ghost use Rattle.std.specs.Char.{is_ascii_digit};
ghost use Rattle.job_states.specs.Judged.{Gives};
ghost use Rattle.queue_routes.specs.Routes as spec;
ghost use Rattle.queue_routes.specs.Ways.{HasWays, process_path, upkeep_path};

use crate::fault::NoCommand;
use job_states::{JobId, Name, NameFault, Pid};
use std::alloc::{AllocError, Global};

/// The paths of the service, with what they name.
#[derive(Drop)]
pub(crate) enum Place {
    Jobs,
    Bulk,
    Processes,
    Beat { pid: Pid },
    Process { pid: Pid },
    Poll { pid: Pid },
    Done { pid: Pid, id: JobId },
    Raised { pid: Pid, id: JobId },
    Release { pid: Pid, id: JobId },
    Tick { pid: Pid, task: Name },
    Dispatch,
    Expire,
    Unblock,
    Prune,
    Clear,
}

impl Place {
    ghost use Rattle.std.specs.Prelude.{◌≡◌};
    ghost use Rattle.queue_routes.specs.Ways.{method_of};

    /// The method that the path takes.
    fn method(&self) -> &'static str
        ensures { result.now ≡ method_of self.now }
    {
        match self {
            Place::Process { .. } => "DELETE",
            _ => "POST",
        }
    }
}

/// Where a method and a path lead.
pub(crate) fn place_of(alloc: Global, method: &str, path: &str) -> Result<Place, NoCommand>
    ensures { Gives NoCommand.NoMemory result (spec.place_of method.now path.now) }
{
    let segments = segments_of(alloc, path)?;
    let place = place_at(alloc, &segments)?;
    if place.method() != method {
        return Err(NoCommand::OtherMethod);
    }
    Ok(place)
}

fn segments_of<'p>(alloc: Global, path: &'p str) -> Result<Vec<&'p str>, AllocError>
    ensures { IfOk result (λ segments. map (λ s. s.now) segments.items ≡ spec.segments_of path.now) }
{
    path.split('/').collect(alloc)
}

#[tactic(auto, unfolding(crate::specs::Routes::ways_of))]
fn place_at(alloc: Global, segments: &[&str]) -> Result<Place, NoCommand>
    ensures { HasWays (spec.ways_of (map (λ s. s.now) segments.now)) result }
{
    match *segments {
        ["", "jobs"] => Ok(Place::Jobs),
        ["", "jobs", "bulk"] => Ok(Place::Bulk),
        ["", "processes"] => Ok(Place::Processes),
        ["", "processes", pid, ref rest @ ..] => process_place(alloc, pid, rest),
        ["", "upkeep", work] => upkeep_place(work),
        _ => Err(NoCommand::NoPath),
    }
}

/// The path of a process with these segments after its number.
#[tactic(auto, unfolding(crate::specs::Routes::ways_of))]
fn process_place(alloc: Global, pid: &str, rest: &[&str]) -> Result<Place, NoCommand>
    ensures { HasWays (spec.ways_of (process_path pid.now (map (λ s. s.now) rest.now))) result }
{
    match *rest {
        [] => Ok(Place::Process {
            pid: number_in(pid)?,
        }),
        ["beat"] => Ok(Place::Beat {
            pid: number_in(pid)?,
        }),
        ["poll"] => Ok(Place::Poll {
            pid: number_in(pid)?,
        }),
        ["jobs", id, end] => claim_place(pid, id, end),
        ["tick", task] => Ok(Place::Tick {
            pid: number_in(pid)?,
            task: name_in(alloc, task)?,
        }),
        _ => Err(NoCommand::NoPath),
    }
}

/// The path of a job that a process has claimed, with its last segment.
#[tactic(auto, unfolding(crate::specs::Routes::ways_of))]
fn claim_place(pid: &str, id: &str, end: &str) -> Result<Place, NoCommand>
    ensures { HasWays (spec.ways_of (process_path pid.now (codes "jobs" ∷ id.now ∷ end.now ∷ []))) result }
{
    let (pid, id) = (number_in(pid)?, number_in(id)?);
    match end {
        "done" => Ok(Place::Done { pid, id }),
        "raised" => Ok(Place::Raised { pid, id }),
        "release" => Ok(Place::Release { pid, id }),
        _ => Err(NoCommand::NoPath),
    }
}

#[tactic(auto, unfolding(crate::specs::Routes::ways_of))]
fn upkeep_place(work: &str) -> Result<Place, NoCommand>
    ensures { HasWays (spec.ways_of (upkeep_path work.now)) result }
{
    match work {
        "dispatch" => Ok(Place::Dispatch),
        "expire" => Ok(Place::Expire),
        "unblock" => Ok(Place::Unblock),
        "prune" => Ok(Place::Prune),
        "clear" => Ok(Place::Clear),
        _ => Err(NoCommand::NoPath),
    }
}

/// The number that a segment writes.
fn number_in(segment: &str) -> Result<u64, NoCommand>
    ensures { Gives NoCommand.NoMemory result (spec.needed (spec.number_of segment.now)) }
{
    if segment.len() > 20 || !is_digits(segment) {
        return Err(NoCommand::NoPath);
    }
    match segment.parse() {
        Ok(number) => Ok(number),
        Err(_) => Err(NoCommand::NoPath),
    }
}

fn is_digits(text: &str) -> bool
    ensures { result ≡ list_all is_ascii_digit text.now }
{
    text.bytes().all(|b| b.is_ascii_digit())
}

/// The name that a segment is.
fn name_in(alloc: Global, segment: &str) -> Result<Name, NoCommand>
    ensures { Gives NoCommand.NoMemory result (spec.needed (spec.name_of segment.now)) }
{
    match Name::read(alloc, segment) {
        Ok(name) => Ok(name),
        Err(NameFault::NoMemory) => Err(NoCommand::NoMemory),
        Err(NameFault::Empty | NameFault::TooLong { .. }) => Err(NoCommand::NoPath),
    }
}
