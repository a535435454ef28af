//! The commands, and the top call that runs one.
ghost use Rattle.std.specs.Prelude.{◌≡◌, ◌⊎◌, is_some, map, string_bytes, None, IfOk, IfErr};
ghost use Rattle.sq_outside.specs.Streams.{SourceState};
ghost use Rattle.queue_config.specs.declared.config.Config.{Config};
ghost use Rattle.queue_engine.specs.Standing.{StandsOn};
ghost use Rattle.queue_http.specs.Service.{DiskState, disk_state, IsIdle};
ghost use Rattle.queue_cli.specs.Command.{command_of};
ghost use Rattle.queue_cli.specs.Journal.{HasJournal, LacksJournal};
ghost use Rattle.queue_cli.specs.Outside.{outside};
ghost use Rattle.queue_cli.specs.Run.{Performs, Runs, RunsOver};
ghost use Rattle.queue_cli.specs.Settings.{HasSettings, LacksSettings};

use crate::End;
use crate::exec::exec;
use crate::settings::read_settings;
use crate::status::status;
use crate::trace::trace;
use journal_replay::one_verdict;
use queue_engine::Engine;
use sq_outside::{Clock, Disk, Sink, Source};
use std::alloc::Global;

/// What the program can do.
#[derive(Clone, Copy)]
pub(crate) enum Command {
    /// Answers the requests of the input.
    Exec,
    /// Prints counts of the store.
    Status,
    /// Does what the lines of a trace ask for.
    Trace,
}

impl Command {
    ghost use Rattle.std.specs.Prelude.{◌≡◌, map, string_bytes};
    ghost use Rattle.queue_cli.specs.Command.{command_of};

    /// The command that the words name.
    pub(crate) fn of_words(words: &[String]) -> Option<Self>
        ensures { result ≡ command_of (map string_bytes words.now) }
    {
        match words {
            [word] if word.as_str() == "exec" => Some(Command::Exec),
            [word] if word.as_str() == "status" => Some(Command::Status),
            [word] if word.as_str() == "trace" => Some(Command::Trace),
            _ => None,
        }
    }
}

/// Do the words name a command? Without one `run` touches no disk.
pub fn is_command(words: &[String]) -> bool
    ensures { result ≡ is_some (command_of (map string_bytes words.now)) }
{
    Command::of_words(words).is_some()
}

/// Runs the command that the words name (without the program's name) and answers the exit status. The settings are read
/// to their end before the disk is, and the journal is opened before the input is read.
pub fn run<S1: Source, S2: Source, K: Sink, D: Disk, C: Clock>(
    alloc: Global,
    words: &[String],
    config: &mut S1,
    input: &mut S2,
    output: &mut K,
    disk: &mut D,
    clock: &mut C,
) -> u8
    ensures runs { Runs (map string_bytes words.now)
        (outside (S1.source_state config.old) (S2.source_state input.old) (K.sink_state output.old) (disk_state (D.history disk.old) (D.faults disk.old)) (C.moments clock.old))
        (outside (S1.source_state config.new) (S2.source_state input.new) (K.sink_state output.new) (disk_state (D.history disk.new) (D.faults disk.new)) (C.moments clock.new))
        result }
{
    one_verdict();
    let end = perform(
        Command::of_words(words),
        alloc,
        config,
        input,
        output,
        disk,
        clock,
    );
    end.exit_status()
}

fn perform<S1: Source, S2: Source, K: Sink, D: Disk, C: Clock>(
    command: Option<Command>,
    alloc: Global,
    config: &mut S1,
    input: &mut S2,
    output: &mut K,
    disk: &mut D,
    clock: &mut C,
) -> End
    ensures { Performs command
        (outside (S1.source_state config.old) (S2.source_state input.old) (K.sink_state output.old) (disk_state (D.history disk.old) (D.faults disk.old)) (C.moments clock.old))
        (outside (S1.source_state config.new) (S2.source_state input.new) (K.sink_state output.new) (disk_state (D.history disk.new) (D.faults disk.new)) (C.moments clock.new))
        result }
{
    let Some(command) = command else {
        return End::Usage.report(alloc, output);
    };
    match open(alloc, config, disk) {
        Ok(mut engine) => {
            let end = perform_over(command, alloc, &mut engine, input, output, disk, clock);
            // one call in place of a drop of each part keeps the proof short
            drop(engine);
            end
        }
        Err(end) => end.report(alloc, output),
    }
}

// Reads the settings and opens the journal, or answers how a run ends that lacks one of them.
fn open<S: Source, D: Disk>(alloc: Global, config: &mut S, disk: &mut D) -> Result<Engine, End>
    ensures opened { IfOk result (λ engine. (settings : Config) × HasSettings (S.source_state config.old) (S.source_state config.new) settings
        × HasJournal settings (disk_state (D.history disk.old) (D.faults disk.old)) (disk_state (D.history disk.new) (D.faults disk.new)) engine) }
    ensures unopened { IfErr result (λ end.
        (LacksSettings (S.source_state config.old) (S.source_state config.new) end × (disk_state (D.history disk.new) (D.faults disk.new) ≡ disk_state (D.history disk.old) (D.faults disk.old)))
        ⊎ ((settings : Config) × HasSettings (S.source_state config.old) (S.source_state config.new) settings
        × LacksJournal (disk_state (D.history disk.old) (D.faults disk.old)) (disk_state (D.history disk.new) (D.faults disk.new)) end)) }
{
    let settings = read_settings(alloc, config)?;
    match Engine::open(alloc, disk, settings) {
        Ok(engine) => {
            // this says that its world is good
            engine.view();
            Ok(engine)
        }
        Err(fault) => Err(End::of_open_fault(fault)),
    }
}

// Does what the command does with the engine, whatever the settings' source and the disk were before.
fn perform_over<S: Source, K: Sink, D: Disk, C: Clock>(
    command: Command,
    alloc: Global,
    engine: &mut Engine,
    input: &mut S,
    output: &mut K,
    disk: &mut D,
    clock: &mut C,
) -> End
    requires idle { IsIdle engine.old.book }
    requires standing { StandsOn engine.old None (D.history disk.old) }
    ensures { (config later : SourceState) (before : DiskState) → RunsOver command engine.old (disk_state (D.history disk.old) (D.faults disk.old))
        (outside config (S.source_state input.old) (K.sink_state output.old) before (C.moments clock.old))
        (outside later (S.source_state input.new) (K.sink_state output.new) (disk_state (D.history disk.new) (D.faults disk.new)) (C.moments clock.new))
        result }
{
    match command {
        Command::Exec => exec(alloc, engine, input, output, disk, clock),
        Command::Status => status(alloc, engine.view(), output),
        Command::Trace => trace(alloc, engine, input, output, disk),
    }
}
