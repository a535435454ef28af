//! What a request's command brings is within the ranges that the engine asks for. The functions do nothing: each contract is
//! the statement, and what is read brings what a type says of its values.
ghost use Rattle.std.specs.Prelude.{IsTrue, IfOk, Some, All, option_map};
ghost use Rattle.std.specs.Fmt.{signed_decimal};
ghost use Rattle.job_envelope.specs.Ranges.{IsInRange};
ghost use Rattle.job_states.specs.Length.{IsName};
ghost use Rattle.job_states.specs.Ranges.{is_priority};
ghost use Rattle.plan_model.specs.GoodScene.{IsNewJob, IsWithinRanges};
ghost use Rattle.queue_config.specs.Limits as spec;
ghost use Rattle.queue_config.specs.Ranges.{IsConfig, IsKeyFrom, IsLimit};
ghost use Rattle.queue_http.specs.Asked.{IsAskable};
ghost use Rattle.queue_http.specs.Ranges.{IsFitKey, IsFitLimit, scene_by};

use job_states::{Arg, Command, NewJob};
use queue_config::{Config, KeyFrom, Limit};

/// A command that can be begun, and that is fit, is within the ranges that the engine asks for.
pub fn is_in_range(config: &Config, command: &Command)
    requires config { IsConfig config.now }
    requires command { IsAskable command.now }
    ensures { IsWithinRanges (scene_by config.now) command.now }
{
    match command {
        Command::Enqueue { job } => job_is_in_range(config, job),
        Command::Bulk { jobs } => jobs_are_in_range(config, jobs.as_slice()),
        Command::Raised { error, .. } => {
            error.as_str();
        }
        Command::Pause { queue } | Command::Resume { queue } => {
            queue.as_str();
        }
        Command::Register { name, .. } => {
            name.as_str();
        }
        _ => {}
    }
}

fn jobs_are_in_range(config: &Config, jobs: &[NewJob])
    requires config { IsConfig config.now }
    requires range { All IsInRange jobs.now }
    ensures { All (IsNewJob (scene_by config.now)) jobs.now }
{
    for job in jobs {
        job_is_in_range(config, job);
    }
}

fn job_is_in_range(config: &Config, job: &NewJob)
    requires config { IsConfig config.now }
    requires range { IsInRange job.now }
    ensures { IsNewJob (scene_by config.now) job.now }
{
    job.class.as_str();
    job.queue.as_str();
    job.active_id.as_str();
    priority_is_in_range(job);
    limit_is_in_range(config, job);
}

fn priority_is_in_range(job: &NewJob)
    ensures { IsTrue (is_priority job.now.priority) }
{
    let _priority = job.priority;
}

// ---- the limit on a job

fn limit_is_in_range(config: &Config, job: &NewJob)
    requires { IsConfig config.now }
    ensures { IfOk (spec.limited_of config.now job.now.class job.now.args) IsFitLimit }
{
    if let Some(class) = config.class(&job.class) {
        if let Some(limit) = &class.limit {
            limited_is_in_range(limit, job.args.as_slice());
        }
    }
}

fn limited_is_in_range(limit: &Limit, args: &[Arg])
    requires { IsLimit limit.now }
    ensures { IfOk (spec.limited_by (Some limit.now) args.now) IsFitLimit }
{
    key_is_in_range(&limit.key, args);
}

fn key_is_in_range(from: &KeyFrom, args: &[Arg])
    requires { IsKeyFrom from.now }
    ensures { IfOk (spec.key_of from.now args.now) IsFitKey }
{
    if let KeyFrom::Argument(n) = from {
        arg_is_in_range(args.get(*n as usize));
    }
}

fn arg_is_in_range(arg: Option<&Arg>)
    ensures { IfOk (spec.key_of_arg (option_map (λ a. a.now) arg.entry)) IsFitKey }
{
    if let Some(Arg::Whole(n)) = arg {
        whole_is_in_range(*n);
    }
}

fn whole_is_in_range(n: i128)
    ensures { IsName (signed_decimal n) }
{}
