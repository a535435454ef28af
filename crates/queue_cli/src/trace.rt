//! The lines of a trace, done in turn.
ghost use Rattle.std.specs.Prelude.{ℕ, List, Option, None};
ghost use Rattle.queue_engine.specs.Running.{running};
ghost use Rattle.queue_engine.specs.Standing.{StandsOn};
ghost use Rattle.queue_http.specs.Service.{disk_state, service};
ghost use Rattle.queue_cli.specs.Answering.{session, AnswersFrom};
ghost use Rattle.queue_cli.specs.Trace.{lines};

use crate::End;
use http_wire::write_two;
use queue_engine::Engine;
use queue_trace::perform;
use situation_model::worlds_are_replays;
use sq_outside::{Disk, Sink, Source};
use std::alloc::Global;
use trace_lines::Lines;

/// Does what the lines of the input ask for, and prints a line for each. The clock isn't asked, whatever moments it will give.
pub(crate) fn trace<S: Source, K: Sink, D: Disk>(
    alloc: Global,
    engine: &mut Engine,
    input: &mut S,
    output: &mut K,
    disk: &mut D,
) -> End
    requires { StandsOn engine.old None (D.history disk.old) }
    ensures { (moments : Option (List ℕ)) → AnswersFrom lines
        (session (service (running engine.old None) moments (disk_state (D.history disk.old) (D.faults disk.old))) (S.source_state input.old) (K.sink_state output.old))
        (S.source_state input.new) (K.sink_state output.new) (disk_state (D.history disk.new) (D.faults disk.new)) moments result }
{
    worlds_are_replays();
    let mut lines = Lines::new(alloc);
    'trace: loop {
        match lines.next(alloc, input) {
            Ok(Some(line)) => {
                let printed = perform(alloc, engine, disk, line);
                if write_two(output, printed.as_slice(), b"\n").is_err() {
                    return End::WriteFault;
                }
            }
            Ok(None) => return End::Done,
            Err(fault) => return End::of_input_fault(fault).report(alloc, output),
        }
    }
}
