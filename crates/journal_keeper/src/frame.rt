//! What stands before a payload: the gate, and the payload's length.
ghost use Rattle.std.specs.Prelude.{◌≡◌, ◌≤◌, ℕ, List, length, take, min};
ghost use Rattle.journal_keeper.specs.Reading.{IsFrame};

use crate::gate::OPEN;

/// The greatest length of a payload.
const MAX_PAYLOAD: u32 = 16_777_216;

/// What stands at a gate.
#[derive(Clone, Copy)]
pub(crate) enum Frame {
    /// The gate is closed.
    Closed,
    /// After an open gate stands no length of a payload.
    Broken,
    /// After an open gate stands the length of a payload.
    Open(usize),
}

/// What stands at the gate that the bytes ahead begin with. They are all that follow, or at least five.
pub(crate) fn frame_of(ahead: &[u8]) -> Frame
    ensures { (text : List ℕ) → ahead.now ≡ take (length ahead.now) text → min 5 (length text) ≤ length ahead.now → IsFrame text result }
{
    if ahead.first() != Some(&OPEN) {
        return Frame::Closed;
    }
    if ahead.len() < 5 {
        return Frame::Broken;
    }
    let n = u32::from_be_bytes([ahead[1], ahead[2], ahead[3], ahead[4]]);
    if n == 0 || n > MAX_PAYLOAD {
        return Frame::Broken;
    }
    Frame::Open(n as usize)
}
