//! Transitions, transactions and payloads.

ghost use Rattle.std.specs.Prelude.{◌≡◌, ℕ, ◌≤◌, ◌<◌, ◌++◌, List, length};
ghost use Rattle.journal_format.specs.Reading.{items};
ghost use Rattle.journal_format.specs.Grammar.{enqueue_at, dispatch_at, retry_at, claim_at, unblock_at, fail_at, register_at, run_at, transition_at, transaction_at, list_at, payload_at};
ghost use Rattle.journal_format.specs.Reads.{Does};

use crate::reader::{Reader, Stop, first};
use job_states::{List, Transaction, Transition};

impl<'a> Reader<'a> {
    #[tactic(auto, unfolding(crate::specs::Grammar::enqueue_at))]
    fn enqueue(&mut self) -> Result<Transition, Stop>
        ensures { Does (λ t. t) result self.new.rest.now (enqueue_at self.old.rest.now) }
    {
        let row = self.row()?;
        let put = self.place(true, false)?;
        Ok(Transition::Enqueue { row, put })
    }

    #[tactic(auto, unfolding(crate::specs::Grammar::dispatch_at))]
    fn dispatch(&mut self) -> Result<Transition, Stop>
        ensures { Does (λ t. t) result self.new.rest.now (dispatch_at self.old.rest.now) }
    {
        let id = self.id()?;
        let put = self.place(false, true)?;
        Ok(Transition::Dispatch { id, put })
    }

    #[tactic(auto, unfolding(crate::specs::Grammar::retry_at))]
    fn retry(&mut self) -> Result<Transition, Stop>
        ensures { Does (λ t. t) result self.new.rest.now (retry_at self.old.rest.now) }
    {
        let id = self.id()?;
        let put = self.place(false, false)?;
        Ok(Transition::Retry { id, put })
    }

    #[tactic(auto, unfolding(crate::specs::Grammar::claim_at))]
    fn claim(&mut self) -> Result<Transition, Stop>
        ensures { Does (λ t. t) result self.new.rest.now (claim_at self.old.rest.now) }
    {
        let id = self.id()?;
        let pid = self.id()?;
        Ok(Transition::Claim { id, pid })
    }

    #[tactic(auto, unfolding(crate::specs::Grammar::unblock_at))]
    fn unblock(&mut self) -> Result<Transition, Stop>
        ensures { Does (λ t. t) result self.new.rest.now (unblock_at self.old.rest.now) }
    {
        let id = self.id()?;
        let generation = self.id()?;
        Ok(Transition::Unblock { id, generation })
    }

    #[tactic(auto, unfolding(crate::specs::Grammar::fail_at))]
    fn fail(&mut self) -> Result<Transition, Stop>
        ensures { Does (λ t. t) result self.new.rest.now (fail_at self.old.rest.now) }
    {
        let id = self.id()?;
        let error = self.name()?;
        let message = self.text(0, 1024)?;
        let counters = self.option_counters()?;
        Ok(Transition::Fail {
            id,
            error,
            message,
            counters,
        })
    }

    #[tactic(auto, unfolding(crate::specs::Grammar::register_at))]
    fn register(&mut self) -> Result<Transition, Stop>
        ensures { Does (λ t. t) result self.new.rest.now (register_at self.old.rest.now) }
    {
        let pid = self.id()?;
        let kind = self.kind()?;
        let name = self.name()?;
        Ok(Transition::Register { pid, kind, name })
    }

    #[tactic(auto, unfolding(crate::specs::Grammar::run_at))]
    fn run(&mut self) -> Result<Transition, Stop>
        ensures { Does (λ t. t) result self.new.rest.now (run_at self.old.rest.now) }
    {
        let task = self.name()?;
        let time = self.moment()?;
        let id = self.option_id()?;
        Ok(Transition::Run { task, time, id })
    }

    #[tactic(auto, unfolding(crate::specs::Grammar::transition_at, crate::specs::Grammar::fields_of))]
    fn transition(&mut self) -> Result<Transition, Stop>
        ensures { Does (λ t. t) result self.new.rest.now (transition_at self.old.rest.now) }
    {
        let tagged = self.rest;
        let Some((tag, rest)) = first(tagged) else {
            return Err(Stop::Refused);
        };
        self.rest = rest;
        match tag {
            1 => self.enqueue(),
            2 => self.dispatch(),
            3 => self.claim(),
            4 => Ok(Transition::Done { id: self.id()? }),
            5 => self.fail(),
            6 => Ok(Transition::Release { id: self.id()? }),
            7 => self.unblock(),
            8 => self.retry(),
            9 => Ok(Transition::Discard { id: self.id()? }),
            10 => Ok(Transition::Clear { id: self.id()? }),
            11 => self.register(),
            12 => Ok(Transition::Beat { pid: self.id()? }),
            13 => Ok(Transition::Deregister { pid: self.id()? }),
            14 => Ok(Transition::Pause {
                queue: self.name()?,
            }),
            15 => Ok(Transition::Resume {
                queue: self.name()?,
            }),
            16 => Ok(Transition::Expire {
                key: self.text(0, 65_535)?,
            }),
            17 => self.run(),
            _ => {
                self.rest = tagged;
                Err(Stop::Refused)
            }
        }
    }

    fn transitions(&mut self, count: u64) -> Result<Vec<Transition>, Stop>
        ensures { Does (λ v. v.items) result self.new.rest.now (items transition_at count self.old.rest.now) }
    {
        let mut steps = Vec::new(self.alloc);
        for _ in 0..count {
            let step = self.transition()?;
            steps.push(step)?;
        }
        Ok(steps)
    }

    #[tactic(auto, unfolding(crate::specs::Grammar::transaction_at, crate::specs::Grammar::sized_at))]
    fn transaction(&mut self) -> Result<Transaction, Stop>
        ensures { Does (λ t. t) result self.new.rest.now (transaction_at self.old.rest.now) }
    {
        let moment = self.moment()?;
        let count = self.number(2, 1, 2000)?;
        let steps = self.transitions(count)?;
        Ok(Transaction {
            moment,
            steps: List::of(steps),
        })
    }

    fn transactions(&mut self, count: u64) -> Result<Vec<Transaction>, Stop>
        ensures { Does (λ v. v.items) result self.new.rest.now (items transaction_at count self.old.rest.now) }
    {
        let mut txs = Vec::new(self.alloc);
        for _ in 0..count {
            let tx = self.transaction()?;
            txs.push(tx)?;
        }
        Ok(txs)
    }

    #[tactic(auto, unfolding(crate::specs::Grammar::payload_at, crate::specs::Grammar::sized_at))]
    pub fn payload(&mut self) -> Result<Vec<Transaction>, Stop>
        ensures { Does (λ v. v.items) result self.new.rest.now (payload_at self.old.rest.now) }
    {
        match first(self.rest) {
            Some((1, rest)) => {
                self.rest = rest;
                let count = self.number(1, 1, 64)?;
                self.transactions(count)
            }
            _ => Err(Stop::Refused),
        }
    }
}
