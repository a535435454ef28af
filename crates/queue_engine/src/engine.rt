ghost use Rattle.std.specs.Prelude.{◌≡◌, ◌⊎◌, ◌<◌, ◌≤◌, None, Some, IfErr, OnErr, OnOk, length};
ghost use Rattle.plan_model.specs.Begins.{locked};
ghost use Rattle.plan_model.specs.Books.{with_plan};
ghost use Rattle.plan_model.specs.GoodBook.{MayOpen};
ghost use Rattle.queue_engine.specs.Recorded.{AreRecorded};

use crate::planned::{commands_are_short, commands_may_open, plan_of};
use crate::records::{append_any, put, record_of};
use book_core::{Book, Plan};
use exec_tables::Tables;
use job_states::{Answer, Bytes, Command, Moment, Refused};
use journal_keeper::{DiskFault, Journal, OpenFault, stands_kept};
use queue_config::Config;
use situation_model::steps_stay_good;
use sq_outside::Disk;
use std::alloc::Global;
use std::collections::BTreeMap;
use std::marker::Model;

/// The store with its settings and its journal, on which callers begin commands at the seats 0 to 63, one at most at a seat.
#[derive(Drop)]
pub struct Engine {
    config: Config,
    book: Book,
    journal: Journal,
    // Of each open plan with transitions, by seat.
    records: BTreeMap<u32, Bytes>,
}

impl Model for Engine {
    ghost use Rattle.std.specs.Prelude.{None};
    ghost use Rattle.queue_engine.specs.Coded.{coded_store};
    ghost use Rattle.queue_engine.specs.Recorded.{AreRecorded};
    ghost use Rattle.queue_engine.specs.Running.{IsGoodRunning, Store, running, store};

    ghost Value = { Store };

    ghost coded = { coded_store };

    ghost view = { λ e. store e.config e.book e.journal };

    ghost invariant = { λ e. IsGoodRunning (running (store e.config e.book e.journal) None) × AreRecorded e.book e.records };
}

impl Engine {
    ghost use Rattle.std.specs.Prelude.{◌≡◌, None, IfErr, IfOk, IsSome, IsTrue, is_some};
    ghost use Rattle.journal_keeper.specs.Answers.{HasOpenCause};
    ghost use Rattle.journal_keeper.specs.Writes.{IsOtherKept};
    ghost use Rattle.journal_replay.specs.Kept.{IsEitherOf, IsNoRefusalOf, StaysKeptFor};
    ghost use Rattle.journal_replay.specs.Opening.{IsFault};
    ghost use Rattle.queue_config.specs.Ranges.{IsConfig};
    ghost use Rattle.queue_engine.specs.Built as built;
    ghost use Rattle.queue_engine.specs.Calls.{Begins, EndsPlan, Opens, RollsBack, StaysStanding};
    ghost use Rattle.queue_engine.specs.Running.{IsGoodRunning, running};
    ghost use Rattle.queue_engine.specs.Standing.{IsStanding};
    ghost use Rattle.queue_model.specs.Map as map;
    ghost use Rattle.situation_model.specs.Situations.{Doubt};
    ghost use Rattle.situation_model.specs.Steps.{Begin, IsInRange};
    ghost use Rattle.sq_outside.specs.Fault.{HasCause};

    /// The store of this disk's journal. Where file 0 isn't in use it becomes a journal without records. One that is refused
    /// isn't written: file 0 is no journal, or of another version, or has a record that isn't spelled by the format or isn't
    /// legal after those before it.
    pub fn open<D: Disk>(alloc: Global, disk: &mut D, config: Config) -> Result<Self, OpenFault>
        requires { IsConfig config }
        ensures opened { IfOk result (λ engine. Opens config (D.history disk.old) engine (D.history disk.new)) }
        ensures fault { IfErr result (IsFault (D.history disk.old) (D.history disk.new)) }
        ensures kept { StaysKeptFor (D.history disk.old) (D.history disk.new) }
        ensures either { IfOk result (λ engine. IsEitherOf (D.history disk.old) engine.book.world) }
        ensures accepted { IfErr result (IsNoRefusalOf (D.history disk.old)) }
        ensures other { IsOtherKept (D.history disk.old) (D.history disk.new) }
        ensures cause { HasOpenCause (D.faults disk.old) (D.faults disk.new) result }
    {
        steps_stay_good();
        stands_kept();
        let (journal, tables) = journal_replay::open(alloc, disk)?;
        Ok(Engine {
            config,
            book: Book::new(alloc, tables),
            journal,
            records: BTreeMap::new(alloc),
        })
    }

    /// Begins the command at the seat: its plan is open there, and holds its rows, until the seat commits or rolls back.
    /// `now` is the clock's moment; where a greater one was given, that is the plan's. It takes all memory that the commit
    /// needs.
    ///
    /// Refused is `NoMemory`, `Locked` where another seat holds a row of the plan, or why the store refuses the command.
    pub fn begin(
        &mut self,
        alloc: Global,
        seat: u32,
        command: Command,
        now: Moment,
    ) -> Result<(), Refused>
        requires vacant { map.get self.old.book.open_plans seat ≡ None }
        requires range { IsInRange self.old.settings (Begin seat command now) }
        requires built { IsTrue (built.is_built command) }
        ensures begins { (doubt : Doubt) → Begins (running self.old doubt) seat command now result (running self.new doubt) }
        ensures standing { StaysStanding self.old self.new }
    {
        steps_stay_good();
        commands_may_open();
        commands_are_short();
        let moment = now.max(self.book.numbers().moment);
        let plan = plan_of(alloc, &self.book, &self.config, command, moment)?;
        open_plan(alloc, &mut self.book, &mut self.records, seat, plan)
    }

    /// Writes the record of the plan that is open at the seat, applies the plan and ends it: its answer. A plan without
    /// transitions writes nothing. Where the disk fails, the store is as it was, and the plan is gone; whether its record is
    /// on the disk is in doubt until the next commit writes. It takes no memory.
    pub fn commit<D: Disk>(&mut self, disk: &mut D, seat: u32) -> Result<Answer, DiskFault>
        requires open { IsSome (map.get self.old.book.open_plans seat) }
        requires standing { IsStanding self.old (D.history disk.old) }
        ensures ends { EndsPlan seat self.old (D.history disk.old) result self.new (D.history disk.new) }
        ensures cause { HasCause (D.faults disk.old) (D.faults disk.new) result }
    {
        steps_stay_good();
        stands_kept();
        let record = self.records.remove(&seat);
        match append_any(&mut self.journal, disk, record) {
            Ok(()) => Ok(self.book.apply_plan(seat)),
            Err(fault) => {
                self.book.close_plan(seat);
                Err(fault)
            }
        }
    }

    /// Gives up the plan that is open at the seat. It takes no memory.
    pub fn rollback(&mut self, seat: u32)
        requires { IsSome (map.get self.old.book.open_plans seat) }
        ensures gone { (doubt : Doubt) → RollsBack (running self.old doubt) seat (running self.new doubt) }
        ensures standing { StaysStanding self.old self.new }
    {
        steps_stay_good();
        self.records.remove(&seat);
        self.book.close_plan(seat);
    }

    /// Is a plan open at the seat?
    pub fn is_open(&self, seat: u32) -> bool
        ensures { result ≡ is_some (map.get self.now.book.open_plans seat) }
    {
        self.book.is_open(seat)
    }

    /// The tables. Open plans are in none of them.
    pub fn view(&self) -> &Tables
        ensures same { result.now.world ≡ self.now.book.world }
        ensures good { IsGoodRunning (running self.now None) }
    {
        self.book.tables()
    }

    /// The settings.
    pub fn config(&self) -> &Config
        ensures same { result.now ≡ self.now.settings }
        ensures good { IsConfig self.now.settings }
    {
        &self.config
    }
}

// Opens the plan at the seat, with its record beside it, or leaves all as it was.
fn open_plan(
    alloc: Global,
    book: &mut Book,
    records: &mut BTreeMap<u32, Bytes>,
    seat: u32,
    plan: Plan,
) -> Result<(), Refused>
    requires seat { seat < 64 }
    requires plan { MayOpen book.old seat plan }
    requires short { length plan.tx.steps ≤ 2000 }
    requires recorded { AreRecorded book.old records.old }
    ensures opened { OnOk result (book.new ≡ with_plan book.old seat plan) }
    ensures free { OnOk result (locked book.old plan.rows ≡ None) }
    ensures refused { IfErr result (λ refused. (refused ≡ Refused.NoMemory) ⊎ (locked book.old plan.rows ≡ Some refused)) }
    ensures kept { OnErr result (book.new ≡ book.old) }
    ensures world { book.new.world ≡ book.old.world }
    ensures recorded { AreRecorded book.new records.new }
{
    let Ok(record) = record_of(alloc, plan.tx()) else {
        return Err(Refused::NoMemory);
    };
    let Ok(()) = put(records, seat, record) else {
        return Err(Refused::NoMemory);
    };
    match book.open_plan(seat, plan) {
        Ok(()) => Ok(()),
        Err(refused) => {
            records.remove(&seat);
            Err(refused)
        }
    }
}
