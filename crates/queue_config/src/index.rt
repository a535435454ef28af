ghost use Rattle.std.specs.Prelude.{◌≡◌, List as Seq, ℕ, if◌then◌else◌, option_copied, slice_get, Some, None, IfOk};
ghost use Rattle.std.specs.HashMap.{get};
ghost use Rattle.std.specs.Option.{is_some, option_or};
ghost use Rattle.std.specs.Str.{bytes_eq};

use job_states::{Copied, List, Name, NoMemory};
use std::alloc::Global;
use std::collections::HashMap;
use std::marker::Model;

/// What has a name.
pub trait HasName: Drop {
    /// Its name's bytes.
    ghost name_of: { Self → Seq ℕ };

    /// Its name.
    fn name(&self) -> &Name
        ensures { result.now ≡ name_of self.now };
}

/// A list whose elements are found by their names. A contract sees the list.
#[derive(Drop)]
pub struct Index<X: HasName> {
    list: List<X>,
    // of the first element of each name
    places: HashMap<Name, usize>,
    // the first element whose name stands before it
    repeat: Option<usize>,
}

impl<X: HasName> Model for Index<X> {
    ghost use Rattle.std.specs.Prelude.{List as Seq};
    ghost use Rattle.std.specs.Coded.{coded_list};
    ghost use Rattle.queue_config.specs.Index.{IsIndex};

    ghost Value = { Seq X };

    ghost coded = { coded_list X.code };

    ghost view = { λ i. i.list };

    ghost invariant = { λ i. IsIndex X.name_of i.list i.places i.repeat };
}

impl<X: HasName> Index<X> {
    ghost use Rattle.queue_config.specs.Named.{find_named, first_repeat};

    /// The elements of a list, in its order.
    pub(crate) fn of(alloc: Global, list: List<X>) -> Result<Self, NoMemory>
        ensures { IfOk result (λ index. index ≡ list) }
    {
        let mut places = HashMap::new(alloc);
        let mut repeat = None;
        for (i, x) in list.as_slice().iter().enumerate() {
            let is_there = note(&mut places, x.name(), i)?;
            repeat = first_of(repeat, is_there, i);
        }
        Ok(Index {
            list,
            places,
            repeat,
        })
    }

    /// The element of this name: the first one.
    pub fn find(&self, name: &Name) -> Option<&X>
        ensures { option_copied result ≡ find_named X.name_of name.now self.now }
    {
        let place = self.places.get(name)?;
        element_at(self.list.as_slice(), *place)
    }

    /// The place of the first element whose name stands before it.
    pub(crate) fn first_repeat(&self) -> Option<usize>
        ensures { result ≡ first_repeat X.name_of self.now }
    {
        self.repeat
    }

    /// The elements in their order.
    pub fn as_slice(&self) -> &[X]
        ensures { result.now ≡ self.now }
    {
        self.list.as_slice()
    }
}

/// Notes the place of a name, unless one is noted. Was one?
fn note(places: &mut HashMap<Name, usize>, name: &Name, place: usize) -> Result<bool, NoMemory>
    ensures { IfOk result (λ is_there. (is_there ≡ is_some (get bytes_eq places.old name.now))
        × ((key : Seq ℕ) → get bytes_eq places.new key
        ≡ option_or (get bytes_eq places.old key) (if bytes_eq name.now key then Some place else None))) }
{
    if places.get(name).is_some() {
        return Ok(true);
    }
    places.insert(name.copy()?, place)?;
    Ok(false)
}

fn first_of(found: Option<usize>, takes: bool, place: usize) -> Option<usize>
    ensures { result ≡ option_or found (if takes then Some place else None) }
{
    match found {
        Some(earlier) => Some(earlier),
        None if takes => Some(place),
        None => None,
    }
}

fn element_at<X>(list: &[X], place: usize) -> Option<&X>
    ensures { option_copied result ≡ slice_get list.now place }
{
    list.get(place)
}
