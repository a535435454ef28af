//! Names and texts by the words that they are read from.

ghost use Rattle.std.specs.Prelude.{◌≡◌};
ghost use Rattle.job_states.specs.Length.{IsName};

use job_states::{Name, Text};
use std::alloc::Global;
use std::process::Abort;

pub(crate) fn name(rt: &impl Abort, alloc: Global, words: &str) -> Name
    ensures same { result ≡ words.now }
    ensures name { IsName result }
{
    Name::read(alloc, words).expect(rt, words)
}

pub(crate) fn text(rt: &impl Abort, alloc: Global, words: &str) -> Text {
    Text::read(alloc, words).expect(rt, "memory")
}
