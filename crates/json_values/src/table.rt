// A numbered table of values: the children of a container stand together, below the container itself.
ghost use Rattle.std.specs.Prelude.{◌≡◌, [], ◌∷◌};
ghost use Rattle.fixed.specs.Room.{extended};
ghost use Rattle.json_values.specs.Laws.{MeaningsStay};
ghost use Rattle.json_values.specs.Meaning.{bool_of, children, list_of, map_of, part_in, placed, span_of};

use super::parts::Part;
use fixed::list::FixedList;
use fixed::refusal::Full;

// The children of a container: so many entries from the first on.
#[derive(Clone, Copy, PartialEq, Eq, Debug, Default)]
pub struct Span {
    pub first: usize,
    pub count: usize,
}

impl Span {
    // The entries of this span. What passes the end of the table is left out.
    pub fn of(self, entries: &[Entry]) -> &[Entry]
        ensures { result.now ≡ children entries.now self }
    {
        let rest = &entries[self.first.min(entries.len())..];
        &rest[..self.count.min(rest.len())]
    }
}

#[derive(Clone, Copy, PartialEq, Eq, Debug, Default)]
pub enum Cell {
    #[default]
    Null,
    Bool(bool),
    Int(i64),
    Uint(u64),
    Text(Part),
    List(Span),
    Map(Span),
}

impl Cell {
    pub fn as_bool(self) -> Option<bool>
        ensures { result ≡ bool_of self }
    {
        match self {
            Cell::Bool(b) => Some(b),
            _ => None,
        }
    }

    pub fn as_text(self) -> Option<Part>
        ensures { result ≡ part_in self }
    {
        match self {
            Cell::Text(part) => Some(part),
            _ => None,
        }
    }

    // The items of a list.
    pub fn as_list(self) -> Option<Span>
        ensures { result ≡ list_of self }
    {
        match self {
            Cell::List(items) => Some(items),
            _ => None,
        }
    }

    // The members of a map.
    pub fn as_map(self) -> Option<Span>
        ensures { result ≡ map_of self }
    {
        match self {
            Cell::Map(members) => Some(members),
            _ => None,
        }
    }

    // The children of a list or a map.
    pub fn children(self) -> Option<Span>
        ensures { result ≡ span_of self }
    {
        match self {
            Cell::List(span) | Cell::Map(span) => Some(span),
            _ => None,
        }
    }
}

// A value, with its key where it is a map's member, and the place of its first byte in the text it was read from.
#[derive(Clone, Copy, PartialEq, Eq, Debug, Default)]
pub struct Entry {
    pub key: Part,
    pub place: usize,
    pub cell: Cell,
}

// The entries of a table.
pub const ENTRIES: usize = 8192;

pub type Table = FixedList<Entry, ENTRIES>;

// Adds an entry, and answers its number. What stands below it keeps its meaning.
#[tactic(auto, using(crate::proofs::Rows::meanings_stay))]
pub fn add_entry(table: &mut Table, entry: Entry) -> Result<usize, Full>
    ensures answer { result ≡ placed 8192 table.old }
    ensures table { table.new ≡ extended 8192 table.old (entry ∷ []) }
    ensures stays { MeaningsStay }
{
    let number = table.len();
    table.push(entry)?;
    Ok(number)
}
