ghost use Rattle.std.specs.Prelude.{◌≡◌, ◌++◌, codes, Some, IfErr, IfOk, IsTrue, option_map, option_copied};
ghost use Rattle.std.specs.Fmt.{signed_decimal};
ghost use Rattle.std.specs.Option.{ForSome};
ghost use Rattle.job_states.specs.Judged.{Gives, GivesAs};
ghost use Rattle.job_states.specs.Length.{IsName};
ghost use Rattle.job_states.specs.Ranges.{is_limited};
ghost use Rattle.queue_config.specs.Limits as spec;
ghost use Rattle.queue_config.specs.Limits.{find_class};
ghost use Rattle.queue_config.specs.Named.{find_named};
ghost use Rattle.queue_config.specs.Ranges.{IsConfig, IsKeyFrom, IsLimit};

use crate::{Class, Config, KeyFrom, Limit, Task};
use job_states::{Arg, Limited, Name, NoMemory, Text};
use std::alloc::{AllocError, Global};
use thiserror::Error;

/// Why a job has no concurrency key.
#[derive(Clone, Copy, Debug, PartialEq, Eq, Error)]
pub enum KeyFault {
    /// Its class takes the key from an argument that is no text of 1 to 128 bytes, no whole number and not null.
    #[error("the argument can't be a key")]
    Refused,
    /// There was no memory.
    #[error("out of memory")]
    NoMemory,
}

impl From<NoMemory> for KeyFault {
    ghost use Rattle.queue_config.specs.declared.limited.KeyFault.TheVariants as fault;

    ghost from_gives = { λ _ e. e ≡ fault.NoMemory };

    fn from(_: NoMemory) -> Self {
        KeyFault::NoMemory
    }
}

impl From<AllocError> for KeyFault {
    ghost use Rattle.queue_config.specs.declared.limited.KeyFault.TheVariants as fault;

    ghost from_gives = { λ _ e. e ≡ fault.NoMemory };

    fn from(_: AllocError) -> Self {
        KeyFault::NoMemory
    }
}

/// How many microseconds a second has.
const SECOND: u64 = 1_000_000;

fn key_of_arg(alloc: Global, arg: Option<&Arg>) -> Result<Option<Text>, KeyFault>
    ensures given { Gives KeyFault.NoMemory result (spec.key_of_arg (option_map (λ a. a.now) arg.entry)) }
    ensures name { IfOk result (λ key. ForSome key IsName) }
{
    match arg {
        None | Some(Arg::Null) => Ok(None),
        Some(Arg::Text(text)) if !text.is_empty() && text.len() <= Name::MAX_LEN => {
            Ok(Some(Text::read(alloc, text.as_str())?))
        }
        Some(Arg::Whole(n)) => Ok(Some(decimal(alloc, *n)?)),
        Some(Arg::Text(_) | Arg::Other) => Err(KeyFault::Refused),
    }
}

fn decimal(alloc: Global, n: i128) -> Result<Text, NoMemory>
    ensures text { IfOk result (λ text. text ≡ signed_decimal n) }
    ensures name { IfOk result IsName }
{
    Ok(Text::of(n.to_string(alloc)?))
}

fn key_of(alloc: Global, from: &KeyFrom, args: &[Arg]) -> Result<Option<Text>, KeyFault>
    requires { IsKeyFrom from.now }
    ensures given { Gives KeyFault.NoMemory result (spec.key_of from.now args.now) }
    ensures name { IfOk result (λ key. ForSome key IsName) }
{
    match from {
        KeyFrom::Fixed(text) => Ok(Some(Text::read(alloc, text.as_str())?)),
        KeyFrom::Argument(n) => key_of_arg(alloc, args.get(*n as usize)),
    }
}

fn limited_by(alloc: Global, limit: &Limit, args: &[Arg]) -> Result<Option<Limited>, KeyFault>
    requires { IsLimit limit.now }
    ensures given { Gives KeyFault.NoMemory result (spec.limited_by (Some limit.now) args.now) }
    ensures range { IfOk result (λ limited. IsTrue (is_limited limited)) }
{
    match key_of(alloc, &limit.key, args)? {
        None => Ok(None),
        Some(text) => Ok(Some(Limited {
            key: written(alloc, limit.group.as_str(), text.as_str())?,
            to: limit.to,
            duration: limit.duration * SECOND,
            discard: limit.discard,
        })),
    }
}

fn written(alloc: Global, group: &str, text: &str) -> Result<Text, KeyFault>
    ensures given { IfOk result (λ key. key ≡ group.now ++ (codes "/" ++ text.now)) }
    ensures memory { IfErr result (λ fault. fault ≡ KeyFault.NoMemory) }
{
    Ok(Text::of(format!(in alloc; "{group}/{text}")?))
}

impl Config {
    /// The class of this name.
    pub fn class(&self, name: &Name) -> Option<&Class>
        ensures { option_copied result ≡ find_class name.now self.now.classes }
    {
        self.classes.find(name)
    }

    /// The task of this key.
    pub fn task(&self, key: &Name) -> Option<&Task>
        ensures { option_copied result ≡ find_named (λ task. task.key) key.now self.now.tasks }
    {
        self.tasks.find(key)
    }

    /// The concurrency limit on a job of this class with these arguments, if there is one.
    pub fn limited(
        &self,
        alloc: Global,
        class: &Name,
        args: &[Arg],
    ) -> Result<Option<Limited>, KeyFault>
        requires { IsConfig self.now }
        ensures given { Gives KeyFault.NoMemory result (spec.limited_of self.now class.now args.now) }
        ensures range { IfOk result (λ limited. IsTrue (is_limited limited)) }
    {
        match self.class(class) {
            None => Ok(None),
            Some(class) => match &class.limit {
                None => Ok(None),
                Some(limit) => limited_by(alloc, limit, args),
            },
        }
    }
}
