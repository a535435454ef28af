//! What comes next in an order, found by passing over what there is.
ghost use Rattle.std.specs.Prelude.{◌≡◌, ◌&&◌, List, Option, Some, Contains};
ghost use Rattle.std.specs.Iterator.{Drains, IsFinite};
ghost use Rattle.exec_tables.specs.Next.{IsNext, is_above, is_better};

/// The least of these places that is above `past`, or the least of all where that is none.
pub fn least_above<X: Ord + Drop, I: Iterator<Item = Option<X>> + Drop>(
    places: I,
    past: Option<X>,
) -> Option<X>
    requires can { I.can_next places }
    requires ends { IsFinite (I.remaining places) }
    ensures { (xs : List (Option X)) × Drains I.next_gives places xs × IsNext X.cmp (λ x. Contains xs (Some x)) past result }
{
    let mut least = None;
    for listed in places {
        let Some(place) = listed else {
            continue;
        };
        if comes_first(&past, &least, &place) {
            least = Some(place);
        }
    }
    least
}

// Is the place above `past`, and before the least one so far?
fn comes_first<X: Ord>(past: &Option<X>, least: &Option<X>, place: &X) -> bool
    ensures { result ≡ (is_above X.cmp past.now place.now && is_better X.cmp least.now place.now) }
{
    is_above(past, place) && is_better(least, place)
}

fn is_above<X: Ord>(past: &Option<X>, place: &X) -> bool
    ensures { result ≡ is_above X.cmp past.now place.now }
{
    match past {
        None => true,
        Some(past) => past.cmp(place).is_lt(),
    }
}

fn is_better<X: Ord>(least: &Option<X>, place: &X) -> bool
    ensures { result ≡ is_better X.cmp least.now place.now }
{
    match least {
        None => true,
        Some(least) => place.cmp(least).is_lt(),
    }
}
