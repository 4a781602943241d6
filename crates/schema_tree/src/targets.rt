// Where the links of a node lead to.
ghost use Rattle.std.specs.Prelude.{◌≡◌, ◌^◌, ◌<◌};
ghost use Rattle.schema.specs.Entries.{EndsBy};
ghost use Rattle.schema.specs.declared.group.Group.{Group};
ghost use Rattle.schema_tree.specs.Nodes.{links_before, read_targets, target};

use json_values::table::Span;
use schema::document::SchemaAt;
use schema::group::{Group, ORDER};

// The entries of a schema's table that links lead to, by group.
#[derive(Clone, Copy, PartialEq, Eq, Debug, Default)]
pub struct Targets {
    pub properties: Span,
    pub items: Span,
    pub additional: Span,
    pub all_of: Span,
    pub one_of: Span,
    pub any_of: Span,
}

impl Targets {
    // Those of a schema.
    pub fn read(schema: SchemaAt<'_>) -> Targets
        ensures value { result ≡ read_targets schema.entry.doc.text.now schema.entry.doc.entries.now schema.entry.at }
        ensures within { (g : Group) → EndsBy schema.entry.at (target result g) }
    {
        Targets {
            properties: schema.targets(Group::Properties),
            items: schema.targets(Group::Items),
            additional: schema.targets(Group::Additional),
            all_of: schema.targets(Group::AllOf),
            one_of: schema.targets(Group::OneOf),
            any_of: schema.targets(Group::AnyOf),
        }
    }

    pub fn of(self, group: Group) -> Span
        ensures { result ≡ target self group }
    {
        match group {
            Group::Properties => self.properties,
            Group::Items => self.items,
            Group::Additional => self.additional,
            Group::AllOf => self.all_of,
            Group::OneOf => self.one_of,
            Group::AnyOf => self.any_of,
        }
    }

    // How many links come before those of a group. Any node may be asked for it, so the sum has 128 bits.
    // A loop, since for the `sum` of a chain the proof of its bound did not close.
    pub(crate) fn links_before(self, group: Group) -> u128
        ensures value { result ≡ links_before self group }
        ensures small { result < 2 ^ 70 }
    {
        let mut before: u128 = 0;
        for other in ORDER {
            if other == group {
                break;
            }
            before += self.of(other).count as u128;
        }
        before
    }
}
