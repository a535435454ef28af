use book_core::Book;
use job_states::{JobId, Moment, Pid, Refused};
use plan_drafts::Draft;
use queue_config::Config;
use queue_model::Job;
use std::alloc::Global;
use std::marker::Model;

/// What a command is planned in: the store with the plans that are open on it, the settings, and the command's moment.
#[derive(Drop)]
pub struct Scene<'a> {
    book: &'a Book,
    config: &'a Config,
    moment: Moment,
}

impl<'a> Model for Scene<'a> {
    ghost use Rattle.plan_model.specs.GoodScene.{IsGoodScene};
    ghost use Rattle.plan_model.specs.Scenes.{Scene, scene};
    ghost use Rattle.plan_scenes.specs.Coded.{coded_scene};

    ghost Value = { Scene };

    ghost coded = { coded_scene };

    ghost view = { λ s. scene s.book.now s.config.now s.moment };

    ghost invariant = { λ s. IsGoodScene (scene s.book.now s.config.now s.moment) };
}

impl<'a> Scene<'a> {
    ghost use Rattle.std.specs.Prelude.{◌≡◌, Some, IfOk, IfErr};
    ghost use Rattle.queue_model.specs.Map as map;
    ghost use Rattle.job_states.specs.Moment.{IsMoment};
    ghost use Rattle.plan_model.specs.GoodScene.{IsGoodScene};
    ghost use Rattle.plan_model.specs.Refusals as refusals;
    ghost use Rattle.plan_model.specs.Scenes.{scene};
    ghost use Rattle.plan_scenes.specs.Causes.{unless};
    ghost use Rattle.plan_scenes.specs.Begun.{begun};
    ghost use Rattle.queue_config.specs.Ranges.{IsConfig};

    /// The scene of a command at this moment.
    pub fn new(book: &'a Book, config: &'a Config, moment: Moment) -> Self
        requires config { IsConfig config.now }
        requires moment { IsMoment moment }
        ensures { result ≡ scene book.now config.now moment }
    {
        book.tables();
        Scene {
            book,
            config,
            moment,
        }
    }

    /// The store with its open plans.
    pub fn book(&self) -> &'a Book
        ensures { result.now ≡ self.now.book }
    {
        self.book
    }

    /// The settings.
    pub fn config(&self) -> &'a Config
        ensures { result.now ≡ self.now.settings }
    {
        self.config
    }

    /// The command's moment.
    pub fn moment(&self) -> Moment
        ensures { result ≡ self.now.moment }
    {
        self.moment
    }

    /// It does nothing: its contract is the statement.
    pub fn is_good(&self)
        ensures { IsGoodScene self.now }
    {
        let _moment = &self.moment;
    }

    /// The command's draft, with nothing in it.
    pub fn begin(&self, alloc: Global) -> Draft<'a>
        ensures { result ≡ begun self.now }
    {
        Draft::begin(alloc, self.book.tables(), self.book.numbers(), self.moment)
    }

    /// The job of this number, which is refused where it isn't there.
    pub fn job(&self, id: JobId) -> Result<&'a Job, Refused>
        ensures found { IfOk result (λ j. map.get self.now.book.world.jobs id ≡ Some j.now) }
        ensures refused { IfErr result (λ refused. refusals.no_such_job self.now id ≡ Some refused) }
    {
        let tables = self.book.tables();
        match tables.job(id) {
            Some(job) => Ok(job),
            None => Err(Refused::NoSuchJob {
                id,
                next: tables.numbers().job,
            }),
        }
    }

    /// Refuses a process that isn't registered.
    pub fn no_such_process(&self, pid: Pid) -> Result<(), Refused>
        ensures { result ≡ unless (refusals.no_such_process self.now pid) }
    {
        let tables = self.book.tables();
        match tables.process(pid) {
            Some(_) => Ok(()),
            None => Err(Refused::NoSuchProcess {
                pid,
                next: tables.numbers().pid,
            }),
        }
    }
}
