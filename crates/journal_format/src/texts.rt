//! Names, texts and envelopes.

ghost use Rattle.std.specs.Prelude.{◌≡◌, ◌≤◌, ◌<◌, ◌^◌, ◌++◌, length, MatchOption, Err, IfOk};
ghost use Rattle.std.specs.Str.{IsUtf8};
ghost use Rattle.journal_format.specs.Utf8.{text_of};
ghost use Rattle.journal_format.specs.Grammar.{text_at, name_at};
ghost use Rattle.journal_format.specs.Reads.{Does, HasNoText};

use crate::reader::{Reader, Stop, first};
use crate::utf8::Owed;
use job_states::{Bytes, Name, Text};

/// The text in the first `len` bytes, and the bytes after it.
fn first_text(bytes: &[u8], len: usize) -> Option<(&str, &[u8])>
    ensures { MatchOption result (HasNoText len bytes.now) (λ p. (bytes.now ≡ p.0.now ++ p.1.now) × (length p.0.now ≡ len) × IsUtf8 p.0.now) }
{
    let (head, rest) = bytes.split_at_checked(len)?;
    let text = str::from_utf8(head).ok()?;
    Some((text, rest))
}

impl<'a> Reader<'a> {
    /// Goes on to the first byte that no text of `len` bytes continues.
    fn stop_in_text(&mut self, len: usize)
        requires { HasNoText len self.old.rest.now }
        ensures { text_of len self.old.rest.now ≡ Err self.new.rest.now }
    {
        let mut owed = Owed::nothing();
        for done in 0..len {
            let Some((byte, rest)) = first(self.rest) else {
                return;
            };
            let Some(next) = owed.after(byte) else {
                return;
            };
            if len - 1 - done < next.left as usize {
                return;
            }
            owed = next;
            self.rest = rest;
        }
    }

    /// A text of `len` bytes.
    pub fn str(&mut self, len: usize) -> Result<&'a str, Stop>
        ensures reads { Does (λ t. t.now) result self.new.rest.now (text_of len self.old.rest.now) }
        ensures within { IfOk result (λ _. len ≤ length self.old.rest.now) }
    {
        match first_text(self.rest, len) {
            Some((text, rest)) => {
                self.rest = rest;
                Ok(text)
            }
            None => {
                self.stop_in_text(len);
                Err(Stop::Refused)
            }
        }
    }

    /// A length of `width` bytes from `least` to `most`, and a text of that length.
    #[tactic(auto, unfolding(crate::specs::Grammar::sized_at))]
    fn sized_str(&mut self, width: usize, least: u64, most: u64) -> Result<&'a str, Stop>
        requires width { width ≤ 8 }
        requires order { least ≤ most }
        requires most { most < 256 ^ width }
        ensures { Does (λ t. t.now) result self.new.rest.now (text_at width least most self.old.rest.now) }
    {
        let len = self.number(width, least, most)?;
        self.str(len as usize)
    }

    pub fn name(&mut self) -> Result<Name, Stop>
        ensures { Does (λ n. n) result self.new.rest.now (name_at self.old.rest.now) }
    {
        let text = self.sized_str(1, 1, 128)?;
        // The length is that of a name, so that only memory can be missing.
        match Name::read(self.alloc, text) {
            Ok(name) => Ok(name),
            Err(_) => Err(Stop::NoMemory),
        }
    }

    pub fn text(&mut self, least: u64, most: u64) -> Result<Text, Stop>
        requires order { least ≤ most }
        requires most { most < 65_536 }
        ensures { Does (λ t. t) result self.new.rest.now (text_at 2 least most self.old.rest.now) }
    {
        let text = self.sized_str(2, least, most)?;
        Ok(Text::read(self.alloc, text)?)
    }

    pub fn envelope(&mut self) -> Result<Bytes, Stop>
        ensures { Does (λ b. b) result self.new.rest.now (text_at 2 0 8192 self.old.rest.now) }
    {
        let text = self.sized_str(2, 0, 8192)?;
        Ok(Bytes::read(self.alloc, text.as_bytes())?)
    }
}
