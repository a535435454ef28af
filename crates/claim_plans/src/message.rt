//! What is kept of an error's message.
ghost use Rattle.std.specs.Prelude.{◌≡◌, IfOk, IsTrue};
ghost use Rattle.job_states.specs.Ranges.{is_message};
ghost use Rattle.plan_model.specs.JobCommands as model;

use job_states::{NoMemory, Text};
use std::alloc::Global;

/// The greatest length of a message that is kept, in bytes.
const MOST: usize = 1024;

/// The whole characters of the message's first 1024 bytes.
pub fn message_of(alloc: Global, message: Text) -> Result<Text, NoMemory>
    ensures same { IfOk result (λ kept. kept ≡ model.message_of message) }
    ensures short { IfOk result (λ kept. IsTrue (is_message kept)) }
{
    if message.len() <= MOST {
        return Ok(message);
    }
    let text = message.as_str();
    Text::read(alloc, &text[..text.floor_char_boundary(MOST)])
}
