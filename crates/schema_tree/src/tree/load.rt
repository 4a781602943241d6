// Loads a schema: a node before its rules, and these before what its links lead to.
ghost use Rattle.std.specs.Prelude.{◌≡◌, ◌+◌, ◌≤◌, [], ◌∷◌, ◌++◌, map, length, take, drop, IfOk, OnOk};
ghost use Rattle.schema.specs.Entries.{linked_at, numbers_in, place_in, rules_at, targets_at};
ghost use Rattle.schema_tree.specs.Builds.{Built, HasRoom, Takes, Waits};
ghost use Rattle.schema_tree.specs.Steps.{node, rule, rule_entry, rule_steps, steps};
ghost use Rattle.std.specs.List.{flat_map};
ghost use Rattle.std.specs.Result.{result_err};

use super::{NODES, SchemaTree};
use crate::fault::TreeFault;
use crate::node::{Node, RuleEntry};
use json_values::table::Span;
use schema::document::SchemaAt;
use schema::group::{Group, ORDER};

impl SchemaTree {
    // A node begins, at a place of the text: its number.
    #[tactic(auto, unfolding(crate::specs::Steps::taken))]
    fn begin(&mut self, place: usize) -> Result<usize, TreeFault>
        ensures taken { Takes (node place ∷ []) self.old self.new (result_err result) }
        ensures stays { self.new ≡ record self.old { count = self.new.count } }
        ensures number { IfOk result (λ n. (n ≡ self.old.count) × (self.new.count ≡ self.old.count + 1)) }
        ensures room { OnOk result (HasRoom self.new) }
    {
        let number = self.count;
        if number == NODES {
            return Err(TreeFault::TreeFull(place));
        }
        self.count = number + 1;
        Ok(number)
    }

    #[tactic(auto, unfolding(crate::specs::Steps::taken))]
    fn add_rule(&mut self, entry: RuleEntry) -> Result<(), TreeFault>
        ensures taken { Takes (rule entry ∷ []) self.old self.new (result_err result) }
        ensures stays { self.new ≡ record self.old { rules = self.new.rules } }
        ensures rules { OnOk result (self.new.rules ≡ self.old.rules ++ entry ∷ []) }
    {
        self.rules
            .push(entry)
            .map_err(|_| TreeFault::RulesFull(entry.place))
    }

    // The rules of a schema: where they stand among all rules.
    fn load_rules(&mut self, schema: SchemaAt<'_>) -> Result<Span, TreeFault>
        ensures taken { Takes (rule_steps schema.entry.doc.text.now schema.entry.doc.entries.now (numbers_in (rules_at schema.entry.doc.text.now schema.entry.doc.entries.now schema.entry.at))) self.old self.new (result_err result) }
        ensures stays { self.new ≡ record self.old { rules = self.new.rules } }
        ensures rules { IfOk result (λ sp. (sp ≡ record { first = length self.old.rules; count = (rules_at schema.entry.doc.text.now schema.entry.doc.entries.now schema.entry.at).count }) × (self.new.rules ≡ self.old.rules ++ map (rule_entry schema.entry.doc.text.now schema.entry.doc.entries.now) (numbers_in (rules_at schema.entry.doc.text.now schema.entry.doc.entries.now schema.entry.at)))) }
    {
        let span = schema.rules();
        let first = self.rules.len();
        // A span's numbers are spelled out: only those of a schema are known to end within a `usize`.
        for k in span.first..span.first + span.count {
            self.add_rule(RuleEntry {
                place: schema.doc.place(k),
                rule: schema.doc.schema(k).rule(),
            })?;
        }
        Ok(Span {
            first,
            count: span.count,
        })
    }

    // The nodes that wait from `mark` on go into the table: where they begin there.
    fn settle(&mut self, mark: usize) -> usize
        requires { mark ≤ length self.old.pending }
        ensures first { result ≡ length self.old.nodes }
        ensures moved { self.new ≡ record self.old { nodes = self.old.nodes ++ drop mark self.old.pending; pending = take mark self.old.pending } }
    {
        let first = self.nodes.len();
        let _ = self
            .nodes
            .extend_from_slice(&self.pending.as_slice()[mark..]);
        self.pending.truncate(mark);
        first
    }
}

// Each function here loads one level less than the one that it is called for, so that the levels bound the recursion.
impl SchemaTree {
    // A schema, of which so many levels are read.
    #[cycle(load_group_load_links_load_node)]
    pub(super) fn load_node(
        &mut self,
        schema: SchemaAt<'_>,
        levels: usize,
    ) -> Result<Node, TreeFault>
        ensures taken { Takes (steps levels schema.entry.doc.text.now schema.entry.doc.entries.now schema.entry.at) self.old self.new (result_err result) }
        ensures pending { OnOk result (self.new.pending ≡ self.old.pending) }
        ensures room { OnOk result (HasRoom self.new) }
        ensures built { IfOk result (λ row. Built levels schema.entry.doc.text.now schema.entry.doc.entries.now self.old self.new (schema.entry.at ∷ []) (row ∷ [])) }
    {
        let number = self.begin(schema.doc.place(schema.at))?;
        if levels == 0 {
            return Ok(Node::unread(schema.at, number));
        }
        let rules = self.load_rules(schema)?;
        let mark = self.pending.len();
        self.load_links(schema, levels - 1)?;
        let links = self.settle(mark);
        Ok(Node::read(schema, number, rules, links))
    }

    // What the links of a schema lead to, group by group; the nodes wait.
    #[cycle(load_group_load_links_load_node)]
    fn load_links(&mut self, schema: SchemaAt<'_>, levels: usize) -> Result<(), TreeFault>
        ensures taken { Takes (flat_map (steps levels schema.entry.doc.text.now schema.entry.doc.entries.now) (linked_at schema.entry.doc.text.now schema.entry.doc.entries.now schema.entry.at)) self.old self.new (result_err result) }
        ensures built { OnOk result (Waits levels schema.entry.doc.text.now schema.entry.doc.entries.now self.old self.new (linked_at schema.entry.doc.text.now schema.entry.doc.entries.now schema.entry.at)) }
    {
        for group in ORDER {
            self.load_group(schema, group, levels)?;
        }
        Ok(())
    }

    // The schemas that a group of links leads to; their nodes wait.
    #[cycle(load_group_load_links_load_node)]
    fn load_group(
        &mut self,
        schema: SchemaAt<'_>,
        group: Group,
        levels: usize,
    ) -> Result<(), TreeFault>
        ensures taken { Takes (flat_map (steps levels schema.entry.doc.text.now schema.entry.doc.entries.now) (numbers_in (targets_at schema.entry.doc.text.now schema.entry.doc.entries.now group schema.entry.at))) self.old self.new (result_err result) }
        ensures built { OnOk result (Waits levels schema.entry.doc.text.now schema.entry.doc.entries.now self.old self.new (numbers_in (targets_at schema.entry.doc.text.now schema.entry.doc.entries.now group schema.entry.at))) }
    {
        let span = schema.targets(group);
        // Its numbers are spelled out, as those of the rules.
        for i in span.first..span.first + span.count {
            let node = self.load_node(schema.doc.schema(i), levels)?;
            let _ = self.pending.push(node);
        }
        Ok(())
    }
}
