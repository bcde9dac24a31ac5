//! The fields of a line, which are separated by spaces.
ghost use Rattle.std.specs.Prelude.{◌≡◌, ◌≤◌, [], ◌∷◌, MatchOption, IfSome, option_map, take};
ghost use Rattle.pagetab_engine.specs.Fields.{at_most_four, behind_size, fields_of, name_in, name_text, number_in, numbers_in, parts, short_parts, size_first, size_in};

use text::parse_number;

/// The maximum number of numbers in a line.
const MOST_NUMBERS: usize = 4;

/// The first field of a line, which says what the line means.
#[derive(Clone, Copy)]
pub enum Name {
    /// `word`.
    Word,
    /// `free`.
    Free,
    /// `translate`.
    Translate,
    /// `addr`.
    Addr,
    /// `walk`.
    Walk,
    /// `show`.
    Show,
    /// `pool`.
    Pool,
    /// `map`.
    Map,
    /// `map-with`.
    MapWith,
    /// `identity`.
    Identity,
    /// `unmap`.
    Unmap,
    /// `update`.
    Update,
    /// `p5`.
    P5,
    /// `p4`.
    P4,
    /// `p3`.
    P3,
    /// `p2`.
    P2,
    /// `translate-page`.
    TranslatePage,
    /// `cleanup`.
    CleanUp,
    /// `cleanup-range`.
    CleanUpRange,
}

impl Name {
    /// All names.
    const ALL: [Name; 19] = [
        Name::Word,
        Name::Free,
        Name::Translate,
        Name::Addr,
        Name::Walk,
        Name::Show,
        Name::Pool,
        Name::Map,
        Name::MapWith,
        Name::Identity,
        Name::Unmap,
        Name::Update,
        Name::P5,
        Name::P4,
        Name::P3,
        Name::P2,
        Name::TranslatePage,
        Name::CleanUp,
        Name::CleanUpRange,
    ];

    /// Returns the name as it is written in a line.
    fn text(self) -> &'static str
        ensures { result.now ≡ name_text self }
    {
        match self {
            Name::Word => "word",
            Name::Free => "free",
            Name::Translate => "translate",
            Name::Addr => "addr",
            Name::Walk => "walk",
            Name::Show => "show",
            Name::Pool => "pool",
            Name::Map => "map",
            Name::MapWith => "map-with",
            Name::Identity => "identity",
            Name::Unmap => "unmap",
            Name::Update => "update",
            Name::P5 => "p5",
            Name::P4 => "p4",
            Name::P3 => "p3",
            Name::P2 => "p2",
            Name::TranslatePage => "translate-page",
            Name::CleanUp => "cleanup",
            Name::CleanUpRange => "cleanup-range",
        }
    }

    /// Parses a name.
    fn parse(field: &str) -> Option<Name>
        ensures { result ≡ name_in field.now }
    {
        for name in Name::ALL {
            if name.text() == field {
                return Some(name);
            }
        }
        None
    }
}

/// The size of a page, as it is written in a line.
#[derive(Clone, Copy)]
pub enum Size {
    /// `4KiB`.
    Size4KiB,
    /// `2MiB`.
    Size2MiB,
    /// `1GiB`.
    Size1GiB,
}

impl Size {
    /// Parses SIZE.
    fn parse(field: &str) -> Option<Size>
        ensures { result ≡ size_in field.now }
    {
        match field.as_bytes() {
            b"4KiB" => Some(Size::Size4KiB),
            b"2MiB" => Some(Size::Size2MiB),
            b"1GiB" => Some(Size::Size1GiB),
            _ => None,
        }
    }
}

/// The contents of a line: a name, then SIZE if the line is about a page of a size, then numbers.
#[derive(Drop)]
pub struct Fields {
    /// The name.
    pub name: Name,
    /// SIZE, if the second field is a size.
    pub size: Option<Size>,
    numbers: [u64; MOST_NUMBERS],
    count: usize,
    ghost few: { count ≤ 4 },
}

impl Fields {
    /// Parses a line. Returns `None` if and only if it has no name, a field that is no number, or more numbers than
    /// any statement has.
    pub fn parse(line: &str) -> Option<Fields>
        ensures { option_map (λ fields. parts fields.name fields.size (take fields.count fields.numbers))
            result ≡ short_parts (fields_of line.now) }
    {
        let mut rest = Rest { text: line };
        let name = Name::parse(rest.next_field()?)?;
        let size = rest.next_size();
        let mut numbers = [0; MOST_NUMBERS];
        let count = rest.read_numbers(&mut numbers)?;
        Some(Fields {
            name,
            size,
            numbers,
            count,
        })
    }

    /// Returns the numbers.
    pub fn numbers(&self) -> &[u64]
        ensures { result.now ≡ take self.now.count self.now.numbers }
    {
        &self.numbers[..self.count]
    }
}

/// The fields of a line that are not parsed yet.
#[derive(Drop)]
struct Rest<'a> {
    text: &'a str,
}

impl<'a> Rest<'a> {
    /// Returns the next field, or `None` if only spaces are left.
    fn next_field(&mut self) -> Option<&'a str>
        ensures { MatchOption result (fields_of self.old.text.now ≡ [])
            (λ field. fields_of self.old.text.now ≡ field.now ∷ fields_of self.new.text.now) }
    {
        let text = self.text.trim_start_matches(' ');
        self.text = "";
        if text.is_empty() {
            return None;
        }
        let Some((field, rest)) = text.split_once(' ') else {
            return Some(text);
        };
        self.text = rest;
        Some(field)
    }

    /// Parses SIZE, and leaves the next field if it is no size.
    fn next_size(&mut self) -> Option<Size>
        ensures size { result ≡ size_first (fields_of self.old.text.now) }
        ensures rest { fields_of self.new.text.now ≡ behind_size result (fields_of self.old.text.now) }
    {
        let mut ahead = Rest { text: self.text };
        let size = Size::parse(ahead.next_field()?)?;
        self.text = ahead.text;
        Some(size)
    }

    /// Parses all remaining fields as numbers, and returns how many there are.
    fn read_numbers(&mut self, numbers: &mut [u64; MOST_NUMBERS]) -> Option<usize>
        ensures few { IfSome result (λ count. count ≤ 4) }
        ensures numbers { option_map (λ count. take count numbers.new) result
            ≡ at_most_four (numbers_in (fields_of self.old.text.now)) }
    {
        for (count, number) in numbers.iter_mut().enumerate() {
            match self.next_field() {
                Some(field) => *number = read_number(field)?,
                None => return Some(count),
            }
        }
        match self.next_field() {
            Some(_) => None,
            None => Some(MOST_NUMBERS),
        }
    }
}

/// Parses a number, as [`parse_number`] does.
pub fn read_number(text: &str) -> Option<u64>
    ensures { result ≡ number_in text.now }
{
    parse_number(text)
}
