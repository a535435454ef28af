//! The settings of a run, read from their source.
ghost use Rattle.std.specs.Prelude.{IfOk, IfErr};
ghost use Rattle.queue_config.specs.Ranges.{IsConfig};
ghost use Rattle.queue_cli.specs.Settings.{TakesPrefix, HasSettings, LacksSettings};

use crate::End;
use queue_config::{Config, SettingsFault};
use sq_outside::{Failed, Source};
use std::alloc::Global;

// How much is read at a time.
const CHUNK: usize = 8192;

/// Reads the settings, or answers how a run ends that has none.
pub(crate) fn read_settings<S: Source>(alloc: Global, source: &mut S) -> Result<Config, End>
    ensures settings { IfOk result (HasSettings (S.source_state source.old) (S.source_state source.new)) }
    ensures ranges { IfOk result IsConfig }
    ensures cause { IfErr result (LacksSettings (S.source_state source.old) (S.source_state source.new)) }
{
    let text = read_prefix(alloc, source, Config::MAX_LEN + 1)?;
    match Config::read(alloc, &text) {
        Ok(settings) => Ok(settings),
        Err(SettingsFault::Refused { number, key }) => Err(End::BadSettings { number, key }),
        Err(SettingsFault::NoMemory) => Err(End::NoMemory),
    }
}

// The bytes of the source to its end, or the first `most` of them.
fn read_prefix<S: Source>(alloc: Global, source: &mut S, most: usize) -> Result<Vec<u8>, End>
    ensures prefix { IfOk result (λ bytes. TakesPrefix most (S.source_state source.old).left (S.source_state source.new).left bytes.items) }
    ensures cause { IfErr result (LacksSettings (S.source_state source.old) (S.source_state source.new)) }
{
    let mut bytes = Vec::new(alloc);
    let mut chunk = [0; CHUNK];
    while bytes.len() < most {
        let room = CHUNK.min(most - bytes.len());
        let n = match source.read(&mut chunk[..room]) {
            Ok(n) => n,
            Err(Failed) => return Err(End::ReadFault),
        };
        if n == 0 {
            return Ok(bytes);
        }
        if bytes.extend_from_slice(&chunk[..n]).is_err() {
            return Err(End::NoMemory);
        }
    }
    Ok(bytes)
}
