ghost use Rattle.std.specs.Prelude.{◌≡◌, drop};
ghost use Rattle.std.specs.Option.{option_copied};
ghost use Rattle.plan_model.specs.Orders.{first_of};
ghost use Rattle.plan_model.specs.UpkeepCommands.{is_over};
ghost use Rattle.upkeep_plans.specs.Left.{over_left};

use crate::times::micros;
use job_states::{JobId, State, later};
use plan_scenes::Scene;
use queue_model::Job;
use std::marker::Model;

/// The jobs that finished so long ago that they aren't kept any longer: those that are left, by number.
#[derive(Drop)]
pub struct Over<'a> {
    scene: &'a Scene<'a>,
    // The number of the last job.
    past: JobId,
}

impl<'a> Model for Over<'a> {
    ghost use Rattle.std.specs.Prelude.{List};
    ghost use Rattle.queue_model.specs.declared.Job.{Job};
    ghost use Rattle.upkeep_plans.specs.Left.{over_left};

    ghost Value = { List Job };

    ghost view = { λ o. over_left o.scene.now o.past };
}

impl<'a> Over<'a> {
    ghost use Rattle.std.specs.Prelude.{◌≡◌, drop, filter};
    ghost use Rattle.std.specs.Option.{option_copied};
    ghost use Rattle.queue_model.specs.Map as map;
    ghost use Rattle.plan_model.specs.Orders.{first_of};
    ghost use Rattle.plan_model.specs.UpkeepCommands.{is_over};

    /// The jobs of the scene that aren't kept any longer.
    pub fn new(scene: &'a Scene<'a>) -> Self
        ensures { result ≡ filter (is_over scene.now) (map.values scene.now.book.world.jobs) }
    {
        scene.is_good();
        Over { scene, past: 0 }
    }

    /// The first job that is left, which then is left no more.
    pub fn next_job(&mut self) -> Option<&'a Job>
        ensures first { option_copied result ≡ first_of self.old }
        ensures left { self.new ≡ drop 1 self.old }
    {
        next_over(self.scene, &mut self.past)
    }
}

// The next job that isn't kept any longer.
fn next_over<'a>(scene: &'a Scene<'a>, past: &mut JobId) -> Option<&'a Job>
    ensures first { option_copied result ≡ first_of (over_left scene.now past.old) }
    ensures left { over_left scene.now past.new ≡ drop 1 (over_left scene.now past.old) }
{
    let tables = scene.book().tables();
    while let Some(id) = tables.job_after(*past) {
        *past = id;
        let job = tables.job(id)?;
        if is_over(scene, job) {
            return Some(job);
        }
    }
    None
}

// Did the job finish as long ago as finished jobs are kept, or longer?
fn is_over(scene: &Scene, job: &Job) -> bool
    ensures { result ≡ is_over scene.now job.now }
{
    scene.is_good();
    match job.state {
        State::Finished(at) => later(at, micros(scene.config().jobs.clear_after)) <= scene.moment(),
        _ => false,
    }
}
