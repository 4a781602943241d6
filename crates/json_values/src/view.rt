// What stands in a table, over the stores that hold its texts.
ghost use Rattle.std.specs.Prelude.{◌≡◌, take};
ghost use Rattle.std.specs.List.{slice_get};
ghost use Rattle.json_values.specs.Laws.{OrderedAscend};
ghost use Rattle.json_values.specs.Meaning.{Finds, part_of};
ghost use Rattle.json_values.specs.Texts.{texts_of};

use super::parts::Part;
use super::stores::Stores;
use super::table::{Entry, Span};
use order::compare_bytes;
use std::cmp::Ordering;

// The entries of a table, and the stores that hold their texts.
#[derive(Clone, Copy)]
pub struct View<'a> {
    pub stores: Stores<'a>,
    pub entries: &'a [Entry],
}

impl<'a> View<'a> {
    pub fn text(self, part: Part) -> &'a [u8]
        ensures { result.now ≡ part_of (texts_of self.entry.stores) part }
    {
        self.stores.text(part)
    }

    // The entry with the number k.
    pub fn entry(self, k: usize) -> Option<Entry>
        ensures { result ≡ slice_get self.entry.entries.now k }
    {
        self.entries.get(k).copied()
    }

    // What stands below the entry with the number k, or all where there is none: its children are there.
    pub fn below(self, k: usize) -> View<'a>
        ensures stores { result.stores ≡ self.entry.stores }
        ensures entries { result.entries.now ≡ take k self.entry.entries.now }
    {
        let entries = &self.entries[..k.min(self.entries.len())];
        View { entries, ..self }
    }

    // The number of the member of `span` that has the key, by halves: members stand in ascending order of their keys,
    // as they do where the map is ordered. It ends at the first key that is equal, which `binary_search_by` does not.
    #[tactic(auto, using(crate::proofs::Entries::ascends))]
    pub fn member(self, span: Span, key: &[u8]) -> Option<usize>
        ensures found { Finds (texts_of self.entry.stores) self.entry.entries.now span key.now result }
        ensures ordered { OrderedAscend }
    {
        let members = span.of(self.entries);
        let mut low = 0;
        let mut high = members.len();
        while low < high {
            let middle = low + (high - low) / 2;
            match compare_bytes(self.text(members[middle].key), key) {
                Ordering::Less => low = middle + 1,
                Ordering::Equal => return Some(span.first + middle),
                Ordering::Greater => high = middle,
            }
        }
        None
    }
}
