// A schema's values, by the numbers of their entries.
ghost use Rattle.std.specs.Prelude.{◌≡◌, ◌+◌, ◌^◌, ◌<◌, IfSome, find, slice_index_or};
ghost use Rattle.json_values.specs.Meaning.{no_entry};
ghost use Rattle.schema.specs.Entries.{EndsBy, below as lower, cell_in, elements_at, key_in, members_at, numbers_in, place_in};
ghost use Rattle.schema.specs.Laws.{PartsMean};
ghost use Rattle.std.specs.Str.{bytes_eq};

use json_values::table::{Cell, Entry, Span};

// The entries of a table, and the text that their keys and texts are parts of.
#[derive(Clone, Copy)]
pub struct Document<'a> {
    pub text: &'a [u8],
    pub entries: &'a [Entry],
}

// The part of a span that lies below i: children stand below their container.
fn below(span: Span, i: usize) -> Span
    ensures { result ≡ lower i span }
{
    let first = span.first.min(i);
    let end = span.first.saturating_add(span.count).min(i);
    Span {
        first,
        count: end - first,
    }
}

impl<'a> Document<'a> {
    // The entry i; beyond the table stands nothing.
    fn entry(self, i: usize) -> Entry
        ensures { result ≡ slice_index_or self.entry.entries.now i no_entry }
    {
        self.entries.get(i).copied().unwrap_or_default()
    }

    // What the entry i holds.
    pub fn cell(self, i: usize) -> Cell
        ensures { result ≡ cell_in self.entry.entries.now i }
    {
        self.entry(i).cell
    }

    // The place of the first byte of the entry i.
    pub fn place(self, i: usize) -> usize
        ensures { result ≡ place_in self.entry.entries.now i }
    {
        self.entry(i).place
    }

    // The key of the entry i.
    fn key(self, i: usize) -> &'a [u8]
        ensures { result.now ≡ key_in self.entry.text.now self.entry.entries.now i }
    {
        self.entry(i).key.of(self.text)
    }

    // The members of the object i.
    #[tactic(auto, using(crate::proofs::Below::members_below))]
    pub fn members(self, i: usize) -> Option<Span>
        ensures value { result ≡ members_at self.entry.entries.now i }
        ensures within { IfSome result (EndsBy i) }
    {
        self.cell(i).as_map().map(|span| below(span, i))
    }

    // The items of the array i.
    #[tactic(auto, using(crate::proofs::Below::elements_below))]
    pub fn elements(self, i: usize) -> Option<Span>
        ensures value { result ≡ elements_at self.entry.entries.now i }
        ensures within { IfSome result (EndsBy i) }
    {
        self.cell(i).as_list().map(|span| below(span, i))
    }

    // The first entry of a span that has the key.
    pub(crate) fn seek(self, span: Span, key: &[u8]) -> Option<usize>
        requires { span.first + span.count < 2 ^ 64 }
        ensures { result ≡ find (λ k. bytes_eq (key_in self.entry.text.now self.entry.entries.now k) key.now) (numbers_in span) }
    {
        (span.first..span.first + span.count).find(|&k| self.key(k) == key)
    }

    // The schema that is the entry i.
    pub fn schema(self, i: usize) -> SchemaAt<'a>
        ensures means { PartsMean self.entry.text.now self.entry.entries.now i }
        ensures value { result ≡ record { doc = self.entry; at = i } }
    {
        SchemaAt { doc: self, at: i }
    }
}

// A schema of a document, by the number of its entry.
#[derive(Clone, Copy)]
pub struct SchemaAt<'a> {
    pub doc: Document<'a>,
    pub at: usize,
}
