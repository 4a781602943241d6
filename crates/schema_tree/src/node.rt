// A node of a schema, and a rule of it.
ghost use Rattle.std.specs.Prelude.{◌≡◌};
ghost use Rattle.schema_tree.specs.Nodes.{read_node, unread_node};

use super::targets::Targets;
use json_values::table::Span;
use schema::document::SchemaAt;
use schema::format::SchemaFormat;
use schema::rule::{InvalidRule, Rule};

// A rule with the place of its first byte.
#[derive(Clone, Copy, PartialEq, Eq, Debug)]
pub struct RuleEntry {
    pub place: usize,
    pub rule: Result<Rule, InvalidRule>,
}

#[derive(Clone, Copy, PartialEq, Eq, Debug, Default)]
pub struct Node {
    // Its number in loading order.
    pub number: usize,
    // The entry of the schema.
    pub entry: usize,
    pub targets: Targets,
    // Where the nodes that its links lead to begin, in the order of the links.
    pub links: usize,
    // Its rules among all rules.
    pub rules: Span,
    pub is_map: bool,
    pub nullable: bool,
    pub preserve_unknown_fields: bool,
    pub embedded_resource: bool,
    pub format: SchemaFormat,
    // The entry of its default.
    pub default: Option<usize>,
}

impl Node {
    // The node of a schema.
    pub fn read(schema: SchemaAt<'_>, number: usize, rules: Span, links: usize) -> Node
        ensures { result ≡ read_node schema.entry.doc.text.now schema.entry.doc.entries.now schema.entry.at number rules links }
    {
        Node {
            number,
            entry: schema.at,
            targets: Targets::read(schema),
            links,
            rules,
            is_map: schema.is_map(),
            nullable: schema.flag(b"nullable"),
            preserve_unknown_fields: schema.flag(b"x-kubernetes-preserve-unknown-fields"),
            embedded_resource: schema.flag(b"x-kubernetes-embedded-resource"),
            format: schema.format(),
            default: schema.part(b"default"),
        }
    }

    // A node in which nothing is read.
    pub fn unread(entry: usize, number: usize) -> Node
        ensures { result ≡ unread_node entry number }
    {
        Node {
            number,
            entry,
            ..Node::default()
        }
    }
}
