//! The counts of the store.
ghost use Rattle.std.specs.Prelude.{◌≡◌, ◌++◌, IfOk, OnOk, string_bytes};
ghost use Rattle.queue_cli.specs.Status.{Prints, counts_of, line, status_text};

use crate::End;
use exec_tables::Tables;
use http_wire::write_all;
use job_states::Stage;
use sq_outside::Sink;
use std::alloc::{AllocError, Global};

/// Prints how many jobs stand in each state, and how many processes and semaphores there are.
pub(crate) fn status<K: Sink>(alloc: Global, tables: &Tables, output: &mut K) -> End
    ensures { Prints (K.sink_state output.old) (K.sink_state output.new) (status_text (counts_of tables.now.world)) result }
{
    let Ok(text) = text_of(alloc, tables) else {
        return End::NoMemory;
    };
    if write_all(output, text.as_bytes()).is_err() {
        return End::WriteFault;
    }
    End::Done
}

fn text_of(alloc: Global, tables: &Tables) -> Result<String, AllocError>
    ensures { IfOk result (λ text. string_bytes text ≡ status_text (counts_of tables.now.world)) }
{
    let mut text = String::new(alloc);
    push_line(&mut text, "scheduled", tables.at_stage(Stage::Scheduled))?;
    push_line(&mut text, "ready", tables.at_stage(Stage::Ready))?;
    push_line(&mut text, "blocked", tables.at_stage(Stage::Blocked))?;
    push_line(&mut text, "claimed", tables.at_stage(Stage::Claimed))?;
    push_line(&mut text, "failed", tables.at_stage(Stage::Failed))?;
    push_line(&mut text, "finished", tables.at_stage(Stage::Finished))?;
    push_line(&mut text, "processes", tables.registered())?;
    push_line(&mut text, "semaphores", tables.semaphores())?;
    Ok(text)
}

fn push_line(text: &mut String, name: &str, n: u64) -> Result<(), AllocError>
    ensures { OnOk result (string_bytes text.new ≡ string_bytes text.old ++ line name.now n) }
{
    writeln!(text, "{name} {n}")
}
