ghost use Rattle.std.specs.Prelude.{◌≡◌, IfOk};
ghost use Rattle.toml_members.specs.Key as spec;

use job_states::{NoMemory, Text};
use std::alloc::Global;
use std::fmt;
use std::marker::Model;

/// The key that a refusal is about, as `classes[0].name`. A contract sees its bytes.
#[derive(Debug, Drop)]
pub struct Key {
    text: KeyText,
}

#[derive(Debug, Drop)]
enum KeyText {
    Fixed(&'static str),
    Made(Text),
}

impl Model for Key {
    ghost use Rattle.std.specs.Prelude.{ℕ, List};

    ghost Value = { List ℕ };

    ghost use Rattle.toml_members.specs.KeyText.{bytes_of};

    ghost view = { λ k. bytes_of k.text };
}

impl Key {
    /// A key that takes no memory.
    pub fn fixed(text: &'static str) -> Self
        ensures { result ≡ text.now }
    {
        Key {
            text: KeyText::Fixed(text),
        }
    }

    /// The key with the same bytes.
    pub fn read(alloc: Global, text: &str) -> Result<Self, NoMemory>
        ensures { IfOk result (λ key. key ≡ text.now) }
    {
        Ok(Key {
            text: KeyText::Made(Text::read(alloc, text)?),
        })
    }

    /// A key of a table, as `jobs.kept_max`. At the top, whose place is the empty text, it is the key alone.
    pub fn in_table(alloc: Global, table: &str, key: &str) -> Result<Self, NoMemory>
        ensures { IfOk result (λ text. text ≡ spec.key_in table.now key.now) }
    {
        if table.is_empty() {
            return Key::read(alloc, key);
        }
        let text = Text::of(format!(in alloc; "{table}.{key}")?);
        Ok(Key {
            text: KeyText::Made(text),
        })
    }

    /// An element of an array, as `classes[0]`.
    pub fn element(alloc: Global, array: &str, index: usize) -> Result<Self, NoMemory>
        ensures { IfOk result (λ text. text ≡ spec.element_of array.now index) }
    {
        let text = Text::of(format!(in alloc; "{array}[{index}]")?);
        Ok(Key {
            text: KeyText::Made(text),
        })
    }

    /// The key as a `str`.
    pub fn as_str(&self) -> &str
        ensures { result.now ≡ self.now }
    {
        match &self.text {
            KeyText::Fixed(text) => *text,
            KeyText::Made(text) => text.as_str(),
        }
    }
}

impl fmt::Display for Key {
    fn fmt<W: fmt::Write>(&self, f: &mut fmt::Formatter<W>) -> fmt::Result {
        f.write_str(self.as_str())
    }
}
