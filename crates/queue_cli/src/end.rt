//! How a run ends, and what is written last.
ghost use Rattle.std.specs.Prelude.{◌≡◌, ◌≤◌, string_bytes, IfOk, OnOk, OnErr};
ghost use Rattle.queue_cli.specs.Exec.{fault_end};
ghost use Rattle.queue_cli.specs.ExitStatus as status;
ghost use Rattle.queue_cli.specs.Journal.{open_end};
ghost use Rattle.queue_cli.specs.LastText.{bad_record_line, not_a_journal_line, settings_line, version_line, Reports};
ghost use Rattle.queue_cli.specs.Trace.{input_end};

use http_wire::{Refusal, WireFault, write_all, write_reply, write_two};
use job_states::NoMemory;
use journal_keeper::OpenFault;
use queue_config::Key;
use queue_http::fault_reply;
use sq_outside::Sink;
use std::alloc::{AllocError, Global};
use trace_lines::{InputFault, Printed};

/// How a run ended.
#[derive(Drop)]
pub enum End {
    /// The command was done; its input was read to the end.
    Done,
    /// The input isn't a sequence of requests: this is refused at this place.
    BadInput { at: u64, refusal: Refusal },
    /// The input isn't a trace: no line stands at this place.
    BadLine { at: u64 },
    /// The words are no command.
    Usage,
    /// The settings are refused: the number of what is wrong, and the key that has it.
    BadSettings { number: u8, key: Key },
    /// The settings' source or the input failed.
    ReadFault,
    /// The output failed, or took nothing.
    WriteFault,
    /// The disk failed before its journal was opened.
    DiskFault,
    /// There was no memory.
    NoMemory,
    /// The file is neither a journal nor free for one.
    NotAJournal { file: u8 },
    /// The file is a journal of another version.
    JournalVersion { file: u8, n: u32 },
    /// At this place of the journal no record follows an open gate, or none whose transactions are legal after those before
    /// them.
    BadRecord { at: u64 },
    /// 2^30 bytes of input were taken, and it goes on.
    InputTooLong,
}

impl End {
    /// The program's exit status.
    pub fn exit_status(&self) -> u8
        ensures { result ≡ status.exit_status self.now }
    {
        match self {
            End::Done => 0,
            End::BadInput { .. } | End::BadLine { .. } => 1,
            End::Usage => 2,
            End::BadSettings { .. } => 3,
            End::ReadFault => 4,
            End::WriteFault => 5,
            End::DiskFault => 6,
            End::NoMemory => 7,
            End::NotAJournal { .. } | End::JournalVersion { .. } | End::BadRecord { .. } => 8,
            End::InputTooLong => 10,
        }
    }

    /// The end that a fault of the input is.
    pub(crate) fn of_fault(fault: WireFault) -> Self
        ensures { result ≡ fault_end fault }
    {
        match fault {
            WireFault::BadRequest { at } => End::BadInput {
                at,
                refusal: Refusal::Bad,
            },
            WireFault::TooLarge { at, len } => End::BadInput {
                at,
                refusal: Refusal::TooLarge { len },
            },
            WireFault::Unsupported { at } => End::BadInput {
                at,
                refusal: Refusal::Unsupported,
            },
            WireFault::ReadFault => End::ReadFault,
            WireFault::InputTooLong => End::InputTooLong,
            WireFault::NoMemory => End::NoMemory,
        }
    }

    /// The end that a fault of a trace's input is.
    pub(crate) fn of_input_fault(fault: InputFault) -> Self
        ensures { result ≡ input_end fault }
    {
        match fault {
            InputFault::BadLine { at } => End::BadLine { at },
            InputFault::ReadFault => End::ReadFault,
            InputFault::InputTooLong => End::InputTooLong,
            InputFault::NoMemory => End::NoMemory,
        }
    }

    /// The end that a fault of the opening of the journal is.
    pub(crate) fn of_open_fault(fault: OpenFault) -> Self
        ensures { result ≡ open_end fault }
    {
        match fault {
            OpenFault::NotAJournal { file } => End::NotAJournal { file },
            OpenFault::Version { file, n } => End::JournalVersion { file, n },
            OpenFault::BadRecord { at } => End::BadRecord { at },
            OpenFault::DiskFault => End::DiskFault,
            OpenFault::NoMemory => End::NoMemory,
        }
    }

    /// Writes the last text of this end, as far as the output takes it. Where there is no memory for the text nothing is
    /// written, and the run ends for that.
    pub(crate) fn report<K: Sink>(self, alloc: Global, output: &mut K) -> Self
        ensures reports { Reports (K.sink_state output.old) (K.sink_state output.new) self result }
        ensures count { (K.sink_state output.old).faults ≤ (K.sink_state output.new).faults }
    {
        match self.write_last(alloc, output) {
            Ok(()) => self,
            Err(NoMemory) => End::NoMemory,
        }
    }

    // Writes the last text. `Err` says that there was no memory for it.
    fn write_last<K: Sink>(&self, alloc: Global, output: &mut K) -> Result<(), NoMemory>
        ensures reported { OnOk result (Reports (K.sink_state output.old) (K.sink_state output.new) self.now self.now) }
        ensures unreported { OnErr result (Reports (K.sink_state output.old) (K.sink_state output.new) self.now End.NoMemory) }
        ensures count { (K.sink_state output.old).faults ≤ (K.sink_state output.new).faults }
    {
        let _ = match self {
            End::BadInput { at, refusal } => {
                write_reply(output, &fault_reply(alloc, *at, *refusal)?)
            }
            End::BadLine { at } => {
                write_two(output, Printed::bad_line(alloc, *at)?.as_slice(), b"\n")
            }
            End::BadSettings { number, key } => {
                let line = settings_line(alloc, *number, key.as_str())?;
                write_all(output, line.as_bytes())
            }
            End::NotAJournal { file } => {
                write_all(output, not_a_journal_line(alloc, *file)?.as_bytes())
            }
            End::JournalVersion { file, n } => {
                write_all(output, version_line(alloc, *file, *n)?.as_bytes())
            }
            End::BadRecord { at } => write_all(output, bad_record_line(alloc, *at)?.as_bytes()),
            End::DiskFault => write_all(output, b"disk fault\n"),
            End::Usage => write_all(output, b"usage\n"),
            End::InputTooLong => write_all(output, b"input too long\n"),
            End::Done | End::ReadFault | End::WriteFault | End::NoMemory => Ok(()),
        };
        Ok(())
    }
}

fn settings_line(alloc: Global, number: u8, key: &str) -> Result<String, AllocError>
    ensures { IfOk result (λ line. string_bytes line ≡ settings_line number key.now) }
{
    format!(in alloc; "settings {number} {key}\n")
}

fn not_a_journal_line(alloc: Global, file: u8) -> Result<String, AllocError>
    ensures { IfOk result (λ line. string_bytes line ≡ not_a_journal_line file) }
{
    format!(in alloc; "journal not a journal in file {file}\n")
}

fn version_line(alloc: Global, file: u8, n: u32) -> Result<String, AllocError>
    ensures { IfOk result (λ line. string_bytes line ≡ version_line file n) }
{
    format!(in alloc; "journal version {n} in file {file}\n")
}

fn bad_record_line(alloc: Global, at: u64) -> Result<String, AllocError>
    ensures { IfOk result (λ line. string_bytes line ≡ bad_record_line at) }
{
    format!(in alloc; "journal bad record at {at}\n")
}
