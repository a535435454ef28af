//! Room for texts, made ahead: writing a text into it takes no memory.
ghost use Rattle.std.specs.Prelude.{◌≡◌, ◌+◌, ◌≤◌, [], length, string_bytes, string_capacity, OnOk, OnErr};

use job_states::{NoMemory, Text};
use std::alloc::Global;
use std::marker::Model;

/// The greatest length in bytes of a key, and so of each text that is written here.
const ROOM: usize = 257;

#[derive(Drop)]
struct Blank {
    text: String,
    ghost is_empty: { string_bytes text ≡ [] },
    ghost has_room: { 257 ≤ string_capacity text },
}

/// Texts to come. A contract sees how many.
#[derive(Drop)]
pub struct Blanks {
    blanks: Vec<Blank>,
}

impl Model for Blanks {
    ghost use Rattle.std.specs.Prelude.{ℕ, vec_len};

    ghost Value = { ℕ };

    ghost view = { λ b. vec_len b.blanks };
}

impl Blanks {
    /// None.
    pub fn new(alloc: Global) -> Self
        ensures { result ≡ 0 }
    {
        Blanks {
            blanks: Vec::new(alloc),
        }
    }

    /// Where their memory is from.
    pub fn allocator(&self) -> Global {
        *self.blanks.allocator()
    }

    /// Makes room for so many texts in all.
    pub fn reserve(&mut self, all: usize) -> Result<(), NoMemory>
        ensures room { OnOk result (all ≤ self.new) }
        ensures kept { self.old ≤ self.new }
    {
        while self.len() < all {
            self.add()?;
        }
        Ok(())
    }

    fn len(&self) -> usize
        ensures { result ≡ self.now }
    {
        self.blanks.len()
    }

    // Makes room for one text more.
    fn add(&mut self) -> Result<(), NoMemory>
        ensures ok { OnOk result (self.new ≡ self.old + 1) }
        ensures err { OnErr result (self.new ≡ self.old) }
    {
        let text = String::with_capacity(*self.blanks.allocator(), ROOM)?;
        match self.blanks.push(Blank { text }) {
            Ok(()) => Ok(()),
            Err(_) => Err(NoMemory),
        }
    }

    /// Writes a text into one of them. It takes no memory.
    pub fn write(&mut self, text: &Text) -> Text
        requires some { 1 ≤ self.old }
        requires short { length text.now ≤ 257 }
        ensures same { result ≡ text.now }
        ensures used { self.new + 1 ≡ self.old }
    {
        match self.blanks.pop() {
            None => unreachable!(),
            Some(blank) => written(blank, text),
        }
    }
}

fn written(blank: Blank, text: &Text) -> Text
    requires { length text.now ≤ 257 }
    ensures { result ≡ text.now }
{
    let Blank { text: mut room } = blank;
    match room.push_str(text.as_str()) {
        Ok(()) => Text::of(room),
        Err(_) => unreachable!(),
    }
}
