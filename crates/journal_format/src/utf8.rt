//! UTF-8 byte by byte (Unicode, table 3-7), for the place of the first byte that no text continues.

ghost use Rattle.std.specs.Prelude.{◌≡◌};
ghost use Rattle.std.specs.Str.Lossy.{second_byte_min, second_byte_max};
ghost use Rattle.journal_format.specs.Utf8.{nothing_owed, after_first, after_byte};

/// What a text owes after some bytes of it.
#[derive(Clone, Copy)]
pub struct Owed {
    /// How many bytes of the character are still to come.
    pub left: u8,
    /// The least and the greatest byte that may come next.
    pub low: u8,
    pub high: u8,
}

impl Owed {
    /// Between two characters.
    pub fn nothing() -> Owed
        ensures { result ≡ nothing_owed }
    {
        Owed {
            left: 0,
            low: 0x80,
            high: 0xBF,
        }
    }

    /// What is owed after the next byte, where it may come next.
    pub fn after(self, byte: u8) -> Option<Owed>
        ensures { result ≡ after_byte self.left self.low self.high byte }
    {
        if self.left == 0 {
            return after_first(byte);
        }
        if byte < self.low || self.high < byte {
            return None;
        }
        Some(Owed {
            left: self.left - 1,
            low: 0x80,
            high: 0xBF,
        })
    }
}

fn after_first(byte: u8) -> Option<Owed>
    ensures { result ≡ after_first byte }
{
    let low = second_min(byte);
    let high = second_max(byte);
    if byte < 0x80 {
        Some(Owed {
            left: 0,
            low: 0x80,
            high: 0xBF,
        })
    } else if byte < 0xC2 {
        None
    } else if byte < 0xE0 {
        Some(Owed {
            left: 1,
            low: 0x80,
            high: 0xBF,
        })
    } else if byte < 0xF0 {
        Some(Owed { left: 2, low, high })
    } else if byte < 0xF5 {
        Some(Owed { left: 3, low, high })
    } else {
        None
    }
}

fn second_min(first: u8) -> u8
    ensures { result ≡ second_byte_min first }
{
    if first == 0xE0 {
        0xA0
    } else if first == 0xF0 {
        0x90
    } else {
        0x80
    }
}

fn second_max(first: u8) -> u8
    ensures { result ≡ second_byte_max first }
{
    if first == 0xED {
        0x9F
    } else if first == 0xF4 {
        0x8F
    } else {
        0xBF
    }
}
