//! What the first bytes of a file say of it, where it may be shorter than a header.
ghost use Rattle.std.specs.Prelude.{◌≡◌, ℕ, List, length, take, min};
ghost use Rattle.journal_keeper.specs.Files.{IsFileOf};

use journal_format::{Heading, read_header};

/// What a file says of itself whose first `n` bytes, up to sixteen, are the first ones of `head`.
pub(crate) fn heading_of(head: &[u8; 16], n: usize) -> Heading
    ensures { (file : List ℕ) → n ≡ min (length file) 16 → take n head.now ≡ take n file → IsFileOf file result }
{
    if n <= 1 || head[0] == 0 {
        return Heading::Idle;
    }
    if n == 16 {
        return read_header(head);
    }
    if n < 12 {
        return Heading::Foreign;
    }
    // A version may stand there without a whole header.
    match read_header(head) {
        Heading::Version { n: version } => Heading::Version { n: version },
        Heading::Live { .. } => Heading::Foreign,
        Heading::Idle => Heading::Foreign,
        Heading::Foreign => Heading::Foreign,
    }
}
