//! Opening a journal, and replaying its records.
ghost use Rattle.std.specs.Prelude.{◌≡◌, ◌<◌, ◌^◌, IfErr, IfOk, IfSome, OnOk};
ghost use Rattle.journal_keeper.specs.Answers.{HasOpenCause, KeepsAll};
ghost use Rattle.journal_keeper.specs.Writes.{IsOtherKept};
ghost use Rattle.journal_replay.specs.Kept.{IsEitherOf, IsNoRefusalOf, StaysKeptFor};
ghost use Rattle.journal_replay.specs.Opening.{IsFault, Opens};
ghost use Rattle.journal_replay.specs.Taking.{IsStepFault, Replays, StepsTo};

use crate::kept::kept_recovers;
use crate::laws::one_verdict;
use crate::taken::take_in;
use exec_tables::Tables;
use journal_keeper::{Journal, OpenFault, one_recovery};
use queue_model::{empty_is_good, worlds_stay_good};
use sq_outside::Disk;
use std::alloc::Global;

/// Opens the journal of this disk, and replays its records from the empty store on. Where file 0 isn't in use it becomes a
/// journal without records. The closing write of the keeper's opening comes after the last record was accepted; a journal
/// that is refused isn't written.
///
/// Refused is what the keeper refuses, and as `BadRecord` also a record that spells no transactions, or none that are legal
/// after those before it.
pub fn open<D: Disk>(alloc: Global, disk: &mut D) -> Result<(Journal, Tables), OpenFault>
    ensures opened { IfOk result (λ r. Opens r.0 r.1.world (D.history disk.old) (D.history disk.new)) }
    ensures fault { IfErr result (IsFault (D.history disk.old) (D.history disk.new)) }
    ensures any_moment { KeepsAll (D.history disk.old) (D.history disk.new) }
    ensures kept { StaysKeptFor (D.history disk.old) (D.history disk.new) }
    ensures either { IfOk result (λ r. IsEitherOf (D.history disk.old) r.1.world) }
    ensures accepted { IfErr result (IsNoRefusalOf (D.history disk.old)) }
    ensures other { IsOtherKept (D.history disk.old) (D.history disk.new) }
    ensures cause { HasOpenCause (D.faults disk.old) (D.faults disk.new) result }
{
    one_recovery();
    one_verdict();
    kept_recovers();
    let mut journal = Journal::open(alloc, disk)?;
    let mut tables = Tables::new(alloc);
    replay_all(alloc, disk, &mut journal, &mut tables)?;
    Ok((journal, tables))
}

// Takes in all records that are left.
fn replay_all<D: Disk>(
    alloc: Global,
    disk: &mut D,
    journal: &mut Journal,
    tables: &mut Tables,
) -> Result<(), OpenFault>
    requires { Replays journal.old tables.old.world (D.history disk.old) }
    ensures opened { OnOk result (Opens journal.new tables.new.world (D.history disk.old) (D.history disk.new)) }
    ensures fault { IfErr result (IsStepFault (D.history disk.old) (D.history disk.new)) }
    ensures any_moment { KeepsAll (D.history disk.old) (D.history disk.new) }
    ensures other { IsOtherKept (D.history disk.old) (D.history disk.new) }
    ensures cause { HasOpenCause (D.faults disk.old) (D.faults disk.new) result }
{
    while replay_next(alloc, disk, journal, tables)? {}
    Ok(())
}

// Takes in the next record. Was there one?
fn replay_next<D: Disk>(
    alloc: Global,
    disk: &mut D,
    journal: &mut Journal,
    tables: &mut Tables,
) -> Result<bool, OpenFault>
    requires { Replays journal.old tables.old.world (D.history disk.old) }
    ensures steps { IfOk result (StepsTo journal.old journal.new tables.new.world (D.history disk.old) (D.history disk.new)) }
    ensures range { journal.old.end < 2 ^ 63 }
    ensures fault { IfErr result (IsStepFault (D.history disk.old) (D.history disk.new)) }
    ensures any_moment { KeepsAll (D.history disk.old) (D.history disk.new) }
    ensures other { IsOtherKept (D.history disk.old) (D.history disk.new) }
    ensures cause { HasOpenCause (D.faults disk.old) (D.faults disk.new) result }
{
    empty_is_good();
    worlds_stay_good();
    let at = journal.end();
    let Some(payload) = journal.next_record(disk)? else {
        return Ok(false);
    };
    take_in(alloc, tables, at, payload.as_slice())?;
    Ok(true)
}
