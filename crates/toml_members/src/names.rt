ghost use Rattle.std.specs.Prelude.{◌≡◌, ◌≤◌, [], List as Seq, ℕ, length, All, IfOk, Some};
ghost use Rattle.std.specs.List.{list_all};
ghost use Rattle.toml.specs.View.{view};
ghost use Rattle.job_states.specs.Judged.{Gives};
ghost use Rattle.job_states.specs.Length.{IsName, is_name};
ghost use Rattle.toml_members.specs.Key as written;
ghost use Rattle.toml_members.specs.Kind as spec;

use crate::array::sized;
use crate::{Element, Key, SettingsFault, array_of, items_in, refused, text_in};
use job_states::{List, Name, Text};
use std::alloc::Global;
use toml::Value;

/// A text of an array whose elements are refused at its own key, which is the context.
impl Element<Key> for Text {
    ghost judged = { spec.text_of_array };

    ghost holds = { λ _ _. Unit {0} };

    fn read(
        alloc: Global,
        array: &Key,
        _before: &[Self],
        _place: &str,
        value: &Value,
    ) -> Result<Self, SettingsFault> {
        Ok(Text::read(alloc, text_in(alloc, "", array.as_str(), value)?)?)
    }
}

fn is_name(text: &Text) -> bool
    ensures { result ≡ is_name text.now }
{
    !text.is_empty() && text.len() <= Name::MAX_LEN
}

fn are_names(texts: &[Text]) -> bool
    ensures { result ≡ list_all is_name texts.now }
{
    texts.iter().all(is_name)
}

/// An array of 1 to so many texts of 1 to 128 bytes each, whose elements are refused at its own key.
#[tactic(auto, unfolding(crate::specs::Kind::names_in))]
pub fn names_in(
    alloc: Global,
    place: &str,
    key: &str,
    most: usize,
    value: &Value,
) -> Result<List<Text>, SettingsFault>
    ensures given { Gives SettingsFault.NoMemory result (spec.names_in (written.key_in place.now key.now) most (view value.now)) }
    ensures names { IfOk result (All IsName) }
    ensures least { IfOk result (λ names. 1 ≤ length names) }
    ensures most { IfOk result (λ names. length names ≤ most) }
{
    let items = sized(
        alloc,
        place,
        key,
        1,
        most,
        items_in(alloc, place, key, value)?,
    )?;
    let array = Key::in_table(alloc, place, key)?;
    let texts = array_of(alloc, &array, place, key, items)?;
    if are_names(texts.as_slice()) {
        return Ok(texts);
    }
    refused(alloc, SettingsFault::NOT_ALLOWED, place, key)
}
