// A line for each rule that is not executed: where its node is in the schema, the rule, and why.
use compilation::validation::CompilationError;
use compiled_schema::CompiledSchema;
use json_values::parts::Part;
use json_writer::push_quoted;
use schema::group::{Group, ORDER};
use schema_tree::LEVELS;
use schema_tree::node::{Node, RuleEntry};
use std::alloc::{AllocError, Global};

// A walk over the nodes of a schema.
#[derive(Drop)]
struct Complaints<'a> {
    heap: Global,
    schema: &'a CompiledSchema,
    // The keys and indexes from the root to the node; nothing at the root.
    path: Vec<u8>,
    lines: &'a mut Vec<u8>,
}

// The key of a schema under which a group of links stands.
fn key_of(group: Group) -> &'static [u8] {
    match group {
        Group::Properties => b"properties",
        Group::Items => b"items",
        Group::Additional => b"additionalProperties",
        Group::AllOf => b"allOf",
        Group::OneOf => b"oneOf",
        Group::AnyOf => b"anyOf",
    }
}

impl Complaints<'_> {
    fn push_key(&mut self, key: &[u8]) -> Result<(), AllocError> {
        if !self.path.is_empty() {
            self.path.push(b'.')?;
        }
        self.path.extend_from_slice(key)?;
        Ok(())
    }

    // The key of the property to which the link with that index leads.
    fn push_property(&mut self, node: &Node, index: usize) -> Result<(), AllocError> {
        let doc = self.schema.document();
        let entry = node.targets.properties.first.saturating_add(index);
        if let Some(property) = doc.entries.get(entry) {
            self.push_key(property.key.of(doc.text))?;
        }
        Ok(())
    }

    // The link with that index of a group.
    fn push_link(&mut self, node: &Node, group: Group, index: usize) -> Result<(), AllocError> {
        self.push_key(key_of(group))?;
        match group {
            Group::Properties => self.push_property(node, index),
            Group::Items | Group::Additional => Ok(()),
            Group::AllOf | Group::OneOf | Group::AnyOf => {
                let digits = format!(in self.heap; "[{index}]")?;
                self.path.extend_from_slice(digits.as_bytes())
            }
        }
    }

    fn push_quoted_part(&mut self, part: Option<Part>) -> Result<(), AllocError> {
        if let Some(part) = part {
            self.lines.push(b' ')?;
            push_quoted(part.of(self.schema.document().text), self.lines)?;
        }
        Ok(())
    }

    // The line of a rule that is not executed.
    fn push_line(&mut self, entry: &RuleEntry, error: &CompilationError) -> Result<(), AllocError> {
        let rule = entry.rule.ok();
        if self.path.is_empty() {
            self.lines.extend_from_slice(b"root")?;
        }
        self.lines.extend_from_slice(&self.path)?;
        self.lines.extend_from_slice(b": rule")?;
        self.push_quoted_part(rule.map(|rule| rule.rule))?;
        match error {
            CompilationError::InvalidRule => {
                self.lines.extend_from_slice(b": invalid rule definition")?
            }
            CompilationError::Parse(why) => {
                self.lines.extend_from_slice(b": ")?;
                self.lines.extend_from_slice(why.as_bytes())?;
            }
            CompilationError::MessageExpressionParse(why) => {
                self.lines.extend_from_slice(b": message expression")?;
                self.push_quoted_part(rule.and_then(|rule| rule.message_expression))?;
                self.lines.extend_from_slice(b": ")?;
                self.lines.extend_from_slice(why.as_bytes())?;
            }
        }
        self.lines.push(b'\n')?;
        Ok(())
    }

    // The rules of a node. Both lists are cut to begin at its first rule: `skip` would go through all that come before.
    fn push_rules(&mut self, node: &Node) -> Result<(), AllocError> {
        let first = node.rules.first;
        let rules = self.schema.tree().rules().get(first..).unwrap_or_default();
        let validations = self.schema.validations().get(first..).unwrap_or_default();
        for (entry, validation) in rules.iter().zip(validations).take(node.rules.count) {
            if let Err(error) = validation {
                self.push_line(entry, error)?;
            }
        }
        Ok(())
    }

    // A node and all that its links lead to, of which so many levels are gone through: that bounds the recursion.
    #[cycle(push_nodes)]
    fn push_node(&mut self, node: &Node, levels: usize) -> Result<(), AllocError> {
        self.push_rules(node)?;
        if levels > 0 {
            for group in ORDER {
                self.push_group(node, group, levels - 1)?;
            }
        }
        Ok(())
    }

    #[cycle(push_nodes)]
    fn push_group(&mut self, node: &Node, group: Group, levels: usize) -> Result<(), AllocError> {
        let len = self.path.len();
        for (index, next) in self.schema.tree().linked(*node, group).iter().enumerate() {
            self.push_link(node, group, index)?;
            self.push_node(next, levels)?;
            self.path.truncate(len);
        }
        Ok(())
    }
}

// Appends a line for each rule that is invalid or ill, in loading order.
pub fn push_complaints(
    heap: Global,
    schema: &CompiledSchema,
    out: &mut Vec<u8>,
) -> Result<(), AllocError> {
    let Some(node) = schema
        .root()
        .and_then(|root| schema.tree().nodes().get(root))
    else {
        return Ok(());
    };
    let mut complaints = Complaints {
        heap,
        schema,
        path: Vec::new(heap),
        lines: out,
    };
    complaints.push_node(node, LEVELS)
}
