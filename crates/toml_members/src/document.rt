ghost use Rattle.toml.specs.View.{table_view};
ghost use Rattle.job_states.specs.Judged.{GivesAs};
ghost use Rattle.toml_members.specs.Document as spec;

use crate::{Key, SettingsFault};
use std::alloc::Global;
use toml::Table;

/// The table of a TOML document.
pub fn document_of(alloc: Global, text: &[u8]) -> Result<Table, SettingsFault>
    ensures { GivesAs SettingsFault.NoMemory table_view result (spec.document_of text.now) }
{
    match toml::table_from_slice(alloc, text) {
        Ok(table) => Ok(table),
        Err(e) => {
            if e.is_memory() {
                Err(SettingsFault::NoMemory)
            } else {
                Err(SettingsFault::Refused {
                    number: SettingsFault::NO_DOCUMENT,
                    key: Key::fixed("document"),
                })
            }
        }
    }
}
