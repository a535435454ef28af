//! Rows of jobs, and their parts.

ghost use Rattle.std.specs.Prelude.{◌≡◌, ℕ, ◌≤◌, ◌<◌, ◌++◌, List, [], length, map};
ghost use Rattle.std.specs.List.{list_any};
ghost use Rattle.std.specs.Str.{bytes_eq};
ghost use Rattle.journal_format.specs.Grammar.{text_at, option_at, other_text, counted_at, counts_after, counts_at, limited_at, priority_at, row_at, counters_at};
ghost use Rattle.journal_format.specs.Reads.{Does};

use crate::reader::{Reader, Stop};
use job_states::{Counted, Counters, JobRow, Limited, List, Text};
use std::alloc::Global;

impl<'a> Reader<'a> {
    #[tactic(auto, unfolding(crate::specs::Grammar::limited_at))]
    fn limited(&mut self) -> Result<Limited, Stop>
        ensures { Does (λ l. l) result self.new.rest.now (limited_at self.old.rest.now) }
    {
        let key = self.text(3, 257)?;
        let to = self.number(2, 1, 65_535)?;
        let duration = self.number(8, 0, u64::MAX)?;
        let discard = self.flag()?;
        Ok(Limited {
            key,
            to: to as u32,
            duration,
            discard,
        })
    }

    #[tactic(auto, unfolding(crate::specs::Grammar::option_at))]
    fn option_limited(&mut self) -> Result<Option<Limited>, Stop>
        ensures { Does (λ l. l) result self.new.rest.now (option_at limited_at self.old.rest.now) }
    {
        if self.flag()? {
            Ok(Some(self.limited()?))
        } else {
            Ok(None)
        }
    }

    #[tactic(auto, unfolding(crate::specs::Grammar::priority_at))]
    fn priority(&mut self) -> Result<i32, Stop>
        ensures { Does (λ n. n) result self.new.rest.now (priority_at self.old.rest.now) }
    {
        let n = self.number(4, 0, 4_294_967_295)?;
        Ok((n as u32).cast_signed())
    }

    /// A text of `len` bytes that none of these counts has.
    #[tactic(auto, using(crate::proofs::LoopLaws::any_list), unfolding(crate::specs::Grammar::other_text))]
    fn other_str(&mut self, before: &[Counted], len: usize) -> Result<&'a str, Stop>
        requires { 1 ≤ len }
        ensures { Does (λ t. t.now) result self.new.rest.now (other_text (map (λ c. c.list) before.now) len self.old.rest.now) }
    {
        let start = self.rest;
        let text = self.str(len)?;
        if is_counted(before, text) {
            self.rest = &start[len - 1..];
            return Err(Stop::Refused);
        }
        Ok(text)
    }

    #[tactic(auto, unfolding(crate::specs::Grammar::row_at))]
    pub fn row(&mut self) -> Result<JobRow, Stop>
        ensures { Does (λ r. r) result self.new.rest.now (row_at self.old.rest.now) }
    {
        let id = self.id()?;
        let class = self.name()?;
        let queue = self.name()?;
        let priority = self.priority()?;
        let active_id = self.name()?;
        let envelope = self.envelope()?;
        let executions = self.number(2, 0, 65_535)?;
        let counts = self.counts()?;
        let limited = self.option_limited()?;
        Ok(JobRow {
            id,
            class,
            queue,
            priority,
            active_id,
            envelope,
            executions: executions as u32,
            counts,
            limited,
        })
    }

    #[tactic(auto, unfolding(crate::specs::Grammar::counted_at, crate::specs::Grammar::sized_at))]
    fn counted(&mut self, before: &[Counted]) -> Result<Counted, Stop>
        ensures { Does (λ c. c) result self.new.rest.now (counted_at (map (λ c. c.list) before.now) self.old.rest.now) }
    {
        let len = self.number(2, 1, 1024)?;
        let text = self.other_str(before, len as usize)?;
        let list = Text::read(self.alloc, text)?;
        let count = self.number(2, 0, 65_535)?;
        Ok(Counted {
            list,
            count: count as u32,
        })
    }

    fn counts_of(&mut self, len: u64) -> Result<Vec<Counted>, Stop>
        ensures { Does (λ v. v.items) result self.new.rest.now (counts_after [] len self.old.rest.now) }
    {
        let mut counts = Vec::new(self.alloc);
        for _ in 0..len {
            let counted = self.counted(&counts)?;
            counts.push(counted)?;
        }
        Ok(counts)
    }

    #[tactic(auto, unfolding(crate::specs::Grammar::sized_at))]
    fn counts(&mut self) -> Result<List<Counted>, Stop>
        ensures { Does (λ l. l) result self.new.rest.now (counts_at self.old.rest.now) }
    {
        let len = self.number(1, 0, 32)?;
        Ok(List::of(self.counts_of(len)?))
    }

    #[tactic(auto, unfolding(crate::specs::Grammar::counters_at))]
    fn counters(&mut self) -> Result<Counters, Stop>
        ensures { Does (λ c. c) result self.new.rest.now (counters_at self.old.rest.now) }
    {
        let executions = self.number(2, 0, 65_535)?;
        let counts = self.counts()?;
        Ok(Counters {
            executions: executions as u32,
            counts,
        })
    }

    #[tactic(auto, unfolding(crate::specs::Grammar::option_at))]
    pub fn option_counters(&mut self) -> Result<Option<Counters>, Stop>
        ensures { Does (λ c. c) result self.new.rest.now (option_at counters_at self.old.rest.now) }
    {
        if self.flag()? {
            Ok(Some(self.counters()?))
        } else {
            Ok(None)
        }
    }
}

/// Does one of the counts have this list?
fn is_counted(counts: &[Counted], text: &str) -> bool
    ensures { result ≡ list_any (λ c. bytes_eq c.list text.now) counts.now }
{
    counts
        .iter()
        .any(|counted| counted.list.as_bytes() == text.as_bytes())
}
