//! What a crash leaves of a file where it may leave one thing or another.
ghost use Rattle.std.specs.Prelude.{◌≡◌};

#[derive(Clone, Copy)]
pub(crate) enum Choice {
    /// What the last sync left.
    Synced,
    /// What a read gives.
    Read,
    /// So many bytes, of which those that are uncertain are these.
    Mixed {
        length: Length,
        bytes: Bytes,
        seed: u64,
    },
}

#[derive(Clone, Copy)]
pub(crate) enum Length {
    Synced,
    Read,
    Shortest,
    Greatest,
    /// Up to a place within the last range that was written. The seed moves it.
    Torn,
}

#[derive(Clone, Copy)]
pub(crate) enum Bytes {
    Synced,
    Read,
    /// As read before a place within the last range, and as synced after it. The seed moves it.
    ReadBefore,
    ReadAfter,
    /// Each bit is other than it is read.
    Other,
    /// All the same.
    All(u8),
    /// For each range as read or as synced, by a bit of the seed.
    EachRange,
}

const LENGTHS: u64 = 5;

const CHOICES: u64 = LENGTHS * 9;

/// The choices for file 0 and file 1. The first eight picks are those that matter most.
pub(crate) fn choices_of(pick: u64) -> (Choice, Choice)
    ensures synced { pick ≡ 0 → result ≡ (Choice.Synced, Choice.Synced) }
    ensures read { pick ≡ 1 → result ≡ (Choice.Read, Choice.Read) }
{
    match pick {
        0 => (Choice::Synced, Choice::Synced),
        1 => (Choice::Read, Choice::Read),
        2 => (Choice::Read, Choice::Synced),
        3 => (Choice::Synced, Choice::Read),
        4 => both(mixed(Length::Read, Bytes::ReadBefore, 0)),
        5 => both(mixed(Length::Read, Bytes::ReadAfter, 0)),
        6 => both(mixed(Length::Shortest, Bytes::Other, 0)),
        7 => both(mixed(Length::Greatest, Bytes::Other, 0)),
        _ => {
            let rest = pick - 8;
            let seed = rest / (CHOICES * CHOICES);
            (
                choice_at(rest % CHOICES, seed),
                choice_at(rest / CHOICES % CHOICES, seed),
            )
        }
    }
}

fn both(choice: Choice) -> (Choice, Choice) {
    (choice, choice)
}

fn mixed(length: Length, bytes: Bytes, seed: u64) -> Choice {
    Choice::Mixed {
        length,
        bytes,
        seed,
    }
}

fn choice_at(number: u64, seed: u64) -> Choice {
    let length = match number % LENGTHS {
        0 => Length::Synced,
        1 => Length::Read,
        2 => Length::Shortest,
        3 => Length::Greatest,
        _ => Length::Torn,
    };
    let bytes = match number / LENGTHS {
        0 => Bytes::Synced,
        1 => Bytes::Read,
        2 => Bytes::ReadBefore,
        3 => Bytes::ReadAfter,
        4 => Bytes::Other,
        5 => Bytes::All(b'R'),
        6 => Bytes::All(b'S'),
        7 => Bytes::All(0),
        _ => Bytes::EachRange,
    };
    mixed(length, bytes, seed)
}
