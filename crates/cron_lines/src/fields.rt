ghost use Rattle.std.specs.Prelude.{◌≡◌, ◌<◌, ◌≤◌, ◌+◌, ◌==◌, ◌∷◌, [], length, option_map, IfSome, MatchOption};
ghost use Rattle.std.specs.List.{position, slice_split};
ghost use Rattle.std.specs.Str.{str_eq_ignore_ascii_case};
ghost use Rattle.cron_lines.specs.Field.{number_of, digit_of, cut, place_from};
ghost use Rattle.cron_lines.specs.Spelling.{FieldsAreSpelled, FieldsHoldItems, ItemsAreSpelled};

use crate::values::Values;

const MONTHS: [[u8; 3]; 12] = [
    *b"jan", *b"feb", *b"mar", *b"apr", *b"may", *b"jun", *b"jul", *b"aug", *b"sep", *b"oct",
    *b"nov", *b"dec",
];

const WEEKDAYS: [[u8; 3]; 7] = [
    *b"sun", *b"mon", *b"tue", *b"wed", *b"thu", *b"fri", *b"sat",
];

/// Which field of a cron line.
#[derive(Clone, Copy)]
pub(crate) enum FieldKind {
    Minute,
    Hour,
    Day,
    Month,
    Weekday,
}

/// Every `step`-th value from `first` to `last`.
#[derive(Clone, Copy)]
pub(crate) struct Item {
    pub first: u8,
    pub last: u8,
    pub step: u8,
}

/// A field of a cron line.
#[derive(Drop)]
pub struct Field {
    pub values: Values,
    /// Is it written without a leading `*`?
    pub restricted: bool,
}

impl FieldKind {
    ghost use Rattle.cron_lines.specs.Field.{least, greatest, all_of, name_of, value_of, range_of, item_of, field_of};

    /// The numbers that may be written: the least and the greatest.
    fn bounds(self) -> (u8, u8)
        ensures least { result.0 ≡ least self }
        ensures greatest { result.1 ≡ greatest self }
        ensures small { result.1 ≤ 59 }
    {
        match self {
            FieldKind::Minute => (0, 59),
            FieldKind::Hour => (0, 23),
            FieldKind::Day => (1, 31),
            FieldKind::Month => (1, 12),
            FieldKind::Weekday => (0, 7),
        }
    }

    /// What `*` stands for.
    pub(crate) fn all(self) -> Item
        ensures { result ≡ all_of self }
    {
        let (first, greatest) = self.bounds();
        let last = match self {
            FieldKind::Weekday => 6,
            _ => greatest,
        };
        Item {
            first,
            last,
            step: 1,
        }
    }

    /// A name's value.
    fn name(self, text: &[u8]) -> Option<u8>
        ensures { result ≡ name_of self text.now }
    {
        match self {
            FieldKind::Month => place(&MONTHS, text, 1),
            FieldKind::Weekday => place(&WEEKDAYS, text, 0),
            _ => None,
        }
    }

    /// The value that a number or a name stands for.
    fn value(self, text: &[u8]) -> Option<u8>
        ensures { result ≡ value_of self text.now }
    {
        let Some(value) = number(text) else {
            return self.name(text);
        };
        let (least, greatest) = self.bounds();
        (least <= value && value <= greatest).then_some(value)
    }

    /// `*` or `A-B`.
    #[tactic(auto, unfolding(crate::specs::Field::range_of))]
    fn range(self, text: &[u8]) -> Option<Item>
        ensures value { result ≡ range_of self text.now }
        ensures stepping { IfSome result (λ item. 1 ≤ item.step) }
    {
        if text == b"*".as_slice() {
            return Some(self.all());
        }
        let (first, last) = cut(text, b'-')?;
        let first = self.value(first)?;
        let last = self.value(last)?;
        (first <= last).then_some(Item {
            first,
            last,
            step: 1,
        })
    }

    /// `*`, `*/N`, `A`, `A-B` or `A-B/N`.
    #[tactic(auto, unfolding(crate::specs::Field::item_of))]
    fn item(self, text: &[u8]) -> Option<Item>
        ensures value { result ≡ item_of self text.now }
        ensures stepping { IfSome result (λ item. 1 ≤ item.step) }
    {
        if let Some((range, step)) = cut(text, b'/') {
            let range = self.range(range)?;
            let step = number(step)?;
            return (step >= 1).then_some(Item { step, ..range });
        }
        if let Some(range) = self.range(text) {
            return Some(range);
        }
        let value = self.value(text)?;
        Some(Item {
            first: value,
            last: value,
            step: 1,
        })
    }
}

impl Item {
    ghost use Rattle.cron_lines.specs.Field.{holds};

    /// Is the value one of its values?
    pub(crate) fn holds(self, value: u8) -> bool
        requires { 1 ≤ self.step }
        ensures { result ≡ holds self value }
    {
        self.first <= value && value <= self.last && (value - self.first) % self.step == 0
    }
}

impl Field {
    ghost use Rattle.cron_lines.specs.Field.{field_of, field_with};

    /// The field of one item.
    pub(crate) fn of(item: Item, restricted: bool) -> Field
        requires { 1 ≤ item.step }
        ensures { result ≡ field_with restricted (item ∷ []) }
    {
        Field {
            values: Values::none().with(item),
            restricted,
        }
    }

    /// Items separated by commas.
    #[tactic(auto, unfolding(crate::specs::Field::field_of))]
    pub(crate) fn parse(kind: FieldKind, text: &[u8]) -> Option<Field>
        ensures { result ≡ field_of kind text.now }
    {
        let mut values = Values::none();
        let mut left = text;
        while let Some((part, rest)) = cut(left, b',') {
            values = values.with(kind.item(part)?);
            left = rest;
        }
        Some(Field {
            values: values.with(kind.item(left)?),
            restricted: !text.starts_with(b"*"),
        })
    }
}

fn digit(byte: u8) -> Option<u8>
    ensures value { result ≡ digit_of byte }
    ensures small { IfSome result (λ n. n ≤ 9) }
{
    match byte {
        b'0'..=b'9' => Some(byte - b'0'),
        _ => None,
    }
}

/// The number that one or two digits spell.
pub(crate) fn number(text: &[u8]) -> Option<u8>
    ensures { result ≡ number_of text.now }
{
    match text {
        [ones] => digit(*ones),
        [tens, ones] => Some(10 * digit(*tens)? + digit(*ones)?),
        _ => None,
    }
}

/// The place of the first such byte.
fn find(text: &[u8], mark: u8) -> Option<usize>
    ensures { result ≡ position (λ b. b == mark) text.now }
{
    text.iter().position(|byte| *byte == mark)
}

/// What stands before the first such byte, and what stands after it.
fn cut(text: &[u8], mark: u8) -> Option<(&[u8], &[u8])>
    ensures value { option_map (λ parts. (parts.0.now, parts.1.now)) result ≡ cut mark text.now }
    ensures parts { MatchOption result
        (slice_split (λ b. b == mark) text.now ≡ text.now ∷ [])
        (λ parts. slice_split (λ b. b == mark) text.now
        ≡ parts.0.now ∷ slice_split (λ b. b == mark) parts.1.now) }
    ensures shorter { IfSome result (λ parts. length parts.1.now < length text.now) }
{
    let at = find(text, mark)?;
    Some((&text[..at], &text[at + 1..]))
}

fn is_name(text: &[u8], name: &[u8]) -> bool
    ensures { result ≡ str_eq_ignore_ascii_case text.now name.now }
{
    text.eq_ignore_ascii_case(name)
}

/// The number of a name in a list whose first has the number `first`, in either case.
fn place(names: &[[u8; 3]], text: &[u8], first: u8) -> Option<u8>
    requires { first + length names.now < 256 }
    ensures { result ≡ place_from first names.now text.now }
{
    for (at, name) in names.iter().enumerate() {
        if is_name(text, name) {
            return Some(first + at as u8);
        }
    }
    None
}

/// A field's items are read just as they are spelled: `*`, `*/N`, `A`, `A-B` or `A-B/N`.
pub fn items_are_spelled()
    ensures { ItemsAreSpelled }
{}

/// Fields are read just as they are spelled: items separated by commas.
pub fn fields_are_spelled()
    ensures { FieldsAreSpelled }
{}

/// A field has the values that its items have.
pub fn fields_hold_items()
    ensures { FieldsHoldItems }
{}
