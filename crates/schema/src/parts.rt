// The parts of a schema, each by its key.
ghost use Rattle.std.specs.Prelude.{◌≡◌, ◌<◌, IfSome, codes, unwrap_or};
ghost use Rattle.schema.specs.Entries.{EndsBy, alone, additional_at, cell_under, elements_under, flag_at, format_at, is_map_at, links_at, part_at, rules_at, targets_at, text_at};
ghost use Rattle.schema.specs.Laws.{PartsMean};

use super::document::SchemaAt;
use super::format::SchemaFormat;
use super::group::Group;
use json_values::parts::Part;
use json_values::table::{Cell, Span};

// The span of one entry.
fn alone(first: usize) -> Span
    ensures { result ≡ alone first }
{
    Span { first, count: 1 }
}

impl SchemaAt<'_> {
    // The part of the schema under a key: the first of its members that has the key.
    #[tactic(auto, using(crate::proofs::Below::members_below, crate::proofs::Below::parts_below), unfolding(crate::specs::Entries::part_at))]
    pub fn part(self, key: &[u8]) -> Option<usize>
        ensures value { result ≡ part_at self.entry.doc.text.now self.entry.doc.entries.now key.now self.entry.at }
        ensures within { IfSome result (λ k. k < self.entry.at) }
        ensures means { PartsMean self.entry.doc.text.now self.entry.doc.entries.now self.entry.at }
    {
        let members = self.doc.members(self.at)?;
        self.doc.seek(members, key)
    }

    // What stands under a key.
    pub(crate) fn cell_under(self, key: &[u8]) -> Option<Cell>
        ensures { result ≡ cell_under self.entry.doc.text.now self.entry.doc.entries.now key.now self.entry.at }
    {
        Some(self.doc.cell(self.part(key)?))
    }

    // Whether a flag is set: by a literal `true` alone.
    pub fn flag(self, key: &[u8]) -> bool
        ensures { result ≡ flag_at self.entry.doc.text.now self.entry.doc.entries.now key.now self.entry.at }
    {
        self.cell_under(key)
            .and_then(Cell::as_bool)
            .unwrap_or(false)
    }

    // Whether additional properties are taken: the key is there, and not `false`.
    #[tactic(auto, unfolding(crate::specs::Entries::part_at))]
    pub fn is_map(self) -> bool
        ensures { result ≡ is_map_at self.entry.doc.text.now self.entry.doc.entries.now self.entry.at }
    {
        self.cell_under(b"additionalProperties")
            .is_some_and(|cell| cell.as_bool().unwrap_or(true))
    }

    // The text under a key.
    pub fn text_at(self, key: &[u8]) -> Option<Part>
        ensures { result ≡ text_at self.entry.doc.text.now self.entry.doc.entries.now key.now self.entry.at }
    {
        self.cell_under(key)?.as_text()
    }

    // The format of texts under the schema.
    pub fn format(self) -> SchemaFormat
        ensures { result ≡ format_at self.entry.doc.text.now self.entry.doc.entries.now self.entry.at }
    {
        if self.flag(b"x-kubernetes-int-or-string") {
            return SchemaFormat::IntOrString;
        }
        self.text_at(b"format").map_or(
            SchemaFormat::None,
            |name| SchemaFormat::named(name.of(self.doc.text)),
        )
    }

    // The items of the array under a key.
    fn elements_under(self, key: &[u8]) -> Option<Span>
        ensures { result ≡ elements_under self.entry.doc.text.now self.entry.doc.entries.now key.now self.entry.at }
    {
        self.doc.elements(self.part(key)?)
    }

    // The schema that additional properties have, if an object stands there.
    fn additional(self) -> Option<usize>
        ensures { result ≡ additional_at self.entry.doc.text.now self.entry.doc.entries.now self.entry.at }
    {
        let k = self.part(b"additionalProperties")?;
        self.doc.members(k).map(|_| k)
    }

    // The entries that a group of links leads to, if what is under its key has entries.
    fn links(self, group: Group) -> Option<Span>
        ensures { result ≡ links_at self.entry.doc.text.now self.entry.doc.entries.now group self.entry.at }
    {
        match group {
            Group::Properties => self.doc.members(self.part(b"properties")?),
            Group::Items => self.part(b"items").map(alone),
            Group::Additional => self.additional().map(alone),
            Group::AllOf => self.elements_under(b"allOf"),
            Group::OneOf => self.elements_under(b"oneOf"),
            Group::AnyOf => self.elements_under(b"anyOf"),
        }
    }

    // The entries that a group of links leads to.
    pub fn targets(self, group: Group) -> Span
        ensures value { result ≡ targets_at self.entry.doc.text.now self.entry.doc.entries.now group self.entry.at }
        ensures within { EndsBy self.entry.at result }
    {
        self.links(group).unwrap_or_default()
    }

    // The entries of the rules of the schema.
    pub fn rules(self) -> Span
        ensures value { result ≡ rules_at self.entry.doc.text.now self.entry.doc.entries.now self.entry.at }
        ensures within { EndsBy self.entry.at result }
    {
        self.elements_under(b"x-kubernetes-validations")
            .unwrap_or_default()
    }
}
