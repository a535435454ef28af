ghost use Rattle.std.specs.Prelude.{◌≡◌, drop};
ghost use Rattle.std.specs.Option.{option_map};
ghost use Rattle.plan_model.specs.Orders.{first_of};
ghost use Rattle.plan_model.specs.UpkeepCommands.{is_silent};
ghost use Rattle.upkeep_plans.specs.Left.{silent_left};

use crate::times::micros;
use job_states::{Pid, later};
use plan_scenes::Scene;
use queue_model::Process;
use std::marker::Model;

/// The processes whose last beat is so long ago that they count as gone: those that are left, by number.
#[derive(Drop)]
pub struct Silent<'a> {
    scene: &'a Scene<'a>,
    // The number of the last process.
    past: Pid,
}

impl<'a> Model for Silent<'a> {
    ghost use Rattle.std.specs.Prelude.{ℕ, List};
    ghost use Rattle.queue_model.specs.declared.Process.{Process};
    ghost use Rattle.upkeep_plans.specs.Left.{silent_left};

    ghost Value = { List (ℕ × Process) };

    ghost view = { λ s. silent_left s.scene.now s.past };
}

impl<'a> Silent<'a> {
    ghost use Rattle.std.specs.Prelude.{◌≡◌, drop, filter};
    ghost use Rattle.std.specs.Option.{option_map};
    ghost use Rattle.plan_model.specs.Orders.{first_of};
    ghost use Rattle.plan_model.specs.UpkeepCommands.{is_silent};

    /// The silent processes of the scene.
    pub fn new(scene: &'a Scene<'a>) -> Self
        ensures { result ≡ filter (λ e. is_silent scene.now e.1) scene.now.book.world.processes.entries }
    {
        scene.is_good();
        Silent { scene, past: 0 }
    }

    /// The first process that is left, which then is left no more, with its number.
    pub fn next_process(&mut self) -> Option<(Pid, &'a Process)>
        ensures first { option_map (λ p. (p.0, p.1.now)) result ≡ first_of self.old }
        ensures left { self.new ≡ drop 1 self.old }
    {
        next_silent(self.scene, &mut self.past)
    }
}

// The next silent process.
fn next_silent<'a>(scene: &'a Scene<'a>, past: &mut Pid) -> Option<(Pid, &'a Process)>
    ensures first { option_map (λ p. (p.0, p.1.now)) result ≡ first_of (silent_left scene.now past.old) }
    ensures left { silent_left scene.now past.new ≡ drop 1 (silent_left scene.now past.old) }
{
    let tables = scene.book().tables();
    while let Some(pid) = tables.process_after(*past) {
        *past = pid;
        let process = tables.process(pid)?;
        if is_silent(scene, process) {
            return Some((pid, process));
        }
    }
    None
}

// Is the process's last beat as long ago as the threshold, or longer?
fn is_silent(scene: &Scene, process: &Process) -> bool
    ensures { result ≡ is_silent scene.now process.now }
{
    scene.is_good();
    later(
        process.beat,
        micros(scene.config().processes.alive_threshold),
    ) <= scene.moment()
}
