//! The sixteen bytes at the start of a journal's file.

ghost use Rattle.std.specs.Prelude.{◌≡◌, ℕ, ◌<◌, MatchOption};
ghost use Rattle.journal_format.specs.Header as spec;
ghost use Rattle.journal_format.specs.Header.{EndsAsHeader, IsNoHeader, IsVersion, IsHeading};

/// What the first sixteen bytes say of their file.
#[derive(Clone, Copy)]
pub enum Heading {
    /// They are a header, and this is its turn.
    Live { turn: u8 },
    /// The file is not in use: its first byte is 0, or it alone isn't that of a header.
    Idle,
    /// A journal of another version.
    Version { n: u32 },
    /// No journal.
    Foreign,
}

/// The header of a file: `SQJRNAL` and a line feed, the version 1, the turn.
pub fn header(turn: u8) -> [u8; 16]
    requires { turn < 3 }
    ensures { result ≡ spec.header turn }
{
    [
        0x53, 0x51, 0x4A, 0x52, 0x4E, 0x41, 0x4C, 0x0A, 0, 0, 0, 1, 0, 0, 0, turn,
    ]
}

/// The turn of the header that has the same bytes after the first one.
fn turn_of(bytes: &[u8; 16]) -> Option<u8>
    ensures { MatchOption result (IsNoHeader bytes.now) (EndsAsHeader bytes.now) }
{
    let turn = bytes[15];
    if turn > 2 {
        return None;
    }
    let live = header(turn);
    if bytes[1..] == live[1..] {
        Some(turn)
    } else {
        None
    }
}

/// The version, where it is another than 1.
fn other_version(bytes: &[u8; 16]) -> Option<u32>
    ensures { MatchOption result ((n : ℕ) → IsVersion n bytes.now → ⊥) (λ n. IsVersion n bytes.now) }
{
    let live = header(0);
    if bytes[..8] != live[..8] {
        return None;
    }
    let n = u32::from_be_bytes([bytes[8], bytes[9], bytes[10], bytes[11]]);
    if n == 1 { None } else { Some(n) }
}

/// What the first sixteen bytes of a file say of it.
pub fn read_header(bytes: &[u8; 16]) -> Heading
    ensures { IsHeading bytes.now result }
{
    if bytes[0] == 0 {
        return Heading::Idle;
    }
    if let Some(turn) = turn_of(bytes) {
        return if bytes[0] == 0x53 {
            Heading::Live { turn }
        } else {
            Heading::Idle
        };
    }
    match other_version(bytes) {
        Some(n) => Heading::Version { n },
        None => Heading::Foreign,
    }
}
