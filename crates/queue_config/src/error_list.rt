ghost use Rattle.std.specs.Prelude.{◌≡◌, ◌++◌, List as Seq, ℕ, string_bytes, OnOk, IfOk};
ghost use Rattle.std.specs.List.{list_any};
ghost use Rattle.job_states.specs.Texts.{is_among};
ghost use Rattle.queue_config.specs.ListText.{joined};

use job_states::{List, NoMemory, Text};
use std::alloc::Global;
use std::marker::Model;

/// The names of a rule's errors, and their text, by which retries are counted. A contract sees the names.
#[derive(Drop)]
pub struct ErrorList {
    names: List<Text>,
    text: Text,
}

impl Model for ErrorList {
    ghost use Rattle.std.specs.Prelude.{◌≡◌, ℕ, List};
    ghost use Rattle.queue_config.specs.ListText.{list_text};

    ghost Value = { List (List ℕ) };

    ghost view = { λ l. l.names };

    ghost invariant = { λ l. l.text ≡ list_text l.names };
}

impl ErrorList {
    ghost use Rattle.queue_config.specs.ListText.{list_text};

    /// The list of these names.
    pub(crate) fn of(alloc: Global, names: List<Text>) -> Result<Self, NoMemory>
        ensures { IfOk result (λ list. list ≡ names) }
    {
        let joined = joined(alloc, names.as_slice())?;
        let text = Text::of(format!(in alloc; "[{joined}]")?);
        Ok(ErrorList { names, text })
    }

    /// The names.
    pub fn as_slice(&self) -> &[Text]
        ensures { result.now ≡ self.now }
    {
        self.names.as_slice()
    }

    /// The text, as `[A, B]`.
    pub fn text(&self) -> &Text
        ensures { result.now ≡ list_text self.now }
    {
        &self.text
    }
}

/// The names with a comma and a space between two.
fn joined(alloc: Global, names: &[Text]) -> Result<String, NoMemory>
    ensures { IfOk result (λ text. string_bytes text ≡ joined names.now) }
{
    let mut text = String::new(alloc);
    if let Some((first, others)) = names.split_first() {
        text.push_str(first.as_str())?;
        for name in others {
            text.push_str(", ")?;
            text.push_str(name.as_str())?;
        }
    }
    Ok(text)
}

/// Is the error one of these names?
pub(crate) fn is_among(names: &[Text], error: &str) -> bool
    ensures { result ≡ is_among names.now error.now }
{
    names.iter().any(|name| name.as_str() == error)
}
