ghost use Rattle.std.specs.Prelude.{◌≡◌, ◌<◌, ◌≤◌, length, option_map, All};
ghost use Rattle.std.specs.Option.{ForSome};
ghost use Rattle.queue_config.specs.Ranges.{IsConfig, IsErrorKeys, IsRule, IsRuleAct};
ghost use Rattle.queue_config.specs.Limits.{find_class};
ghost use Rattle.queue_config.specs.Retry as spec;

use crate::errors::is_kind_of;
use crate::{Config, ErrorKeys, Index, Rule, RuleAct};
use job_states::{Counted, Name, Text};

/// What becomes of a job that raised an error.
#[derive(Clone, Copy)]
pub enum Act {
    Fail,
    Discard,
    /// It is tried again after a wait in microseconds.
    Retry { wait: u64 },
}

/// What the rules of a class say of an error.
#[derive(Clone, Copy)]
pub struct Decision {
    /// The place of the rule.
    pub rule: Option<u32>,
    /// How often the errors of a rule that retries came, this one included, at most 65535; else 0.
    pub count: u32,
    pub act: Act,
}

/// How many microseconds a second has.
const SECOND: u64 = 1_000_000;

/// The longest wait, in seconds.
const MAX_WAIT: u64 = 31_536_000;

/// The last rule that fits the error, and its place.
fn last_fitting<'r>(
    errors: &Index<ErrorKeys>,
    rules: &'r [Rule],
    error: &Name,
) -> Option<(usize, &'r Rule)>
    requires errors { All IsErrorKeys errors.now }
    requires count { length errors.now ≤ 1024 }
    requires rules { All IsRule rules.now }
    ensures last { option_map (λ at. (at.0, at.1.now)) result ≡ spec.last_from (spec.fits errors.now error.now) 0 rules.now }
    ensures place { ForSome result (λ at. at.0 < length rules.now) }
    ensures rule { ForSome result (λ at. IsRule at.1.now) }
{
    let mut last = None;
    for (i, rule) in rules.iter().enumerate() {
        if is_kind_of(errors, &rule.list, error) {
            last = Some((i, rule));
        }
    }
    last
}

/// How often the errors of a list came before.
fn kept_count(counts: &[Counted], list: &Text) -> u32
    ensures { result ≡ spec.kept_count counts.now list.now }
{
    for counted in counts {
        if counted.list == *list {
            return counted.count;
        }
    }
    0
}

/// The wait in seconds.
fn wait_of(wait: Option<u64>, count: u32) -> u64
    requires { ForSome wait (λ n. n ≤ 31_536_000) }
    ensures same { result ≡ spec.wait_of wait count }
    ensures most { result ≤ 31_536_000 }
{
    match wait {
        Some(seconds) => seconds,
        None => u64::from(count)
            .saturating_pow(4)
            .saturating_add(2)
            .min(MAX_WAIT),
    }
}

fn by_act(place: u32, act: &RuleAct, count: u32) -> Decision
    requires { IsRuleAct act.now }
    ensures { result ≡ spec.by_act place act.now count }
{
    match *act {
        RuleAct::Discard => Decision {
            rule: Some(place),
            count: 0,
            act: Act::Discard,
        },
        RuleAct::Retry { wait, attempts } => Decision {
            rule: Some(place),
            count,
            act: if attempts.is_none_or(|attempts| count < attempts) {
                Act::Retry {
                    wait: wait_of(wait, count) * SECOND,
                }
            } else {
                Act::Fail
            },
        },
    }
}

impl Config {
    /// The rules of a class; one that isn't declared has none.
    fn rules(&self, class: &Name) -> &[Rule]
        requires { IsConfig self.now }
        ensures same { result.now ≡ spec.rules_in (find_class class.now self.now.classes) }
        ensures rules { All IsRule result.now }
        ensures count { length result.now ≤ 16 }
    {
        match self.class(class) {
            None => &[],
            Some(class) => class.rules.as_slice(),
        }
    }

    /// What becomes of a job of this class that raised the error, after these counts. It takes no memory.
    pub fn decide(&self, class: &Name, error: &Name, counts: &[Counted]) -> Decision
        requires { IsConfig self.now }
        ensures { result ≡ spec.decision_of self.now class.now error.now counts.now }
    {
        match last_fitting(&self.errors, self.rules(class), error) {
            None => Decision {
                rule: None,
                count: 0,
                act: Act::Fail,
            },
            Some((place, rule)) => {
                let count = kept_count(counts, rule.list.text())
                    .saturating_add(1)
                    .min(65_535);
                by_act(place as u32, &rule.act, count)
            }
        }
    }
}
