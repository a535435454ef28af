//! Requests back to back, answered in turn.
ghost use Rattle.std.specs.Prelude.{None};
ghost use Rattle.queue_engine.specs.Running.{running};
ghost use Rattle.queue_engine.specs.Standing.{StandsOn};
ghost use Rattle.queue_http.specs.Service.{disk_state, service, IsIdle};
ghost use Rattle.queue_cli.specs.Answering.{session, AnswersFrom};
ghost use Rattle.queue_cli.specs.Exec.{requests};

use crate::End;
use http_wire::{Carry, read_request, write_reply};
use queue_engine::Engine;
use queue_http::{answer, answers_are_steps, only_faults_are_503};
use situation_model::worlds_are_replays;
use sq_outside::{Clock, Disk, Sink, Source};
use std::alloc::Global;

/// The seat at which the commands of a stream begin and commit.
const SEAT: u32 = 0;

/// Answers the requests of the input.
pub(crate) fn exec<S: Source, K: Sink, D: Disk, C: Clock>(
    alloc: Global,
    engine: &mut Engine,
    input: &mut S,
    output: &mut K,
    disk: &mut D,
    clock: &mut C,
) -> End
    requires idle { IsIdle engine.old.book }
    requires standing { StandsOn engine.old None (D.history disk.old) }
    ensures { AnswersFrom requests
        (session (service (running engine.old None) (C.moments clock.old) (disk_state (D.history disk.old) (D.faults disk.old))) (S.source_state input.old) (K.sink_state output.old))
        (S.source_state input.new) (K.sink_state output.new) (disk_state (D.history disk.new) (D.faults disk.new)) (C.moments clock.new) result }
{
    answers_are_steps();
    worlds_are_replays();
    only_faults_are_503();
    let mut carry = Carry::new(alloc);
    'requests: loop {
        match read_request(alloc, input, &mut carry) {
            Ok(Some(request)) => {
                let reply = answer(alloc, engine, disk, clock, SEAT, &request);
                if write_reply(output, &reply).is_err() {
                    return End::WriteFault;
                }
            }
            Ok(None) => return End::Done,
            Err(fault) => return End::of_fault(fault).report(alloc, output),
        }
    }
}
