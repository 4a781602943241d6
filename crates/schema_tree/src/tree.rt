// A schema in tables: its nodes and its rules.
ghost use Rattle.std.specs.Prelude.{◌≡◌, ◌≤◌, [], length, IfOk, MatchResult};
ghost use Rattle.schema.specs.Entries.{value_in};
ghost use Rattle.schema_tree.specs.Builds.{progress, tables};
ghost use Rattle.schema_tree.specs.Loads.{Loaded, unloaded};
ghost use Rattle.schema_tree.specs.Nodes.{group_nodes};
ghost use Rattle.schema_tree.specs.Stands.{GroupPartsStand, GroupsStand};
ghost use Rattle.schema_tree.specs.Steps.{steps, taken};
ghost use Rattle.std.specs.Result.{result_err};

mod load;

use super::fault::TreeFault;
use super::node::{Node, RuleEntry};
use fixed::list::FixedList;
use schema::document::Document;
use schema::group::Group;
use std::alloc::{AllocError, Global};
use std::marker::Model;

// The most nodes.
pub const NODES: usize = 512;

// The most rules.
pub const RULES: usize = 256;

// So many levels of a schema are read: 64 links lead to the last of them.
pub const LEVELS: usize = 65;

// Nodes stand in the table once all that they link to does, those that one node links to beside each other; until
// then they wait. `count` is how many nodes have begun.
#[derive(Drop)]
pub struct SchemaTree {
    nodes: FixedList<Node, NODES>,
    pending: FixedList<Node, NODES>,
    rules: FixedList<RuleEntry, RULES>,
    count: usize,
}

impl Model for SchemaTree {
    ghost use Rattle.std.specs.Prelude.{◌+◌, ◌≤◌, length};
    ghost use Rattle.schema_tree.specs.Tree.{Tree};

    ghost Value = { Tree };

    ghost view = { λ s. record { nodes = s.nodes; pending = s.pending; rules = s.rules; count = s.count } };

    ghost invariant = { λ s. (s.count ≤ 512) × (length s.nodes + length s.pending ≤ s.count) };
}

impl SchemaTree {
    // Takes all its memory.
    pub fn new(heap: Global) -> Result<SchemaTree, AllocError>
        ensures progress { IfOk result (λ x. progress x ≡ unloaded) }
        ensures tables { IfOk result (λ x. tables x ≡ record { nodes = []; rules = [] }) }
    {
        Ok(SchemaTree {
            nodes: FixedList::new(heap)?,
            pending: FixedList::new(heap)?,
            rules: FixedList::new(heap)?,
            count: 0,
        })
    }

    // Forgets the nodes; the rules stay.
    fn forget_nodes(&mut self)
        ensures { self.new ≡ record self.old { nodes = []; pending = [] } }
    {
        self.nodes.clear();
        self.pending.clear();
    }

    // Forgets what was loaded.
    pub fn clear(&mut self)
        ensures tables { tables self.new ≡ record { nodes = []; rules = [] } }
        ensures progress { progress self.new ≡ unloaded }
    {
        self.forget_nodes();
        self.rules.clear();
        self.count = 0;
    }

    // Loads the schema `root` in place of what was loaded, and answers where its root is. Where it is refused
    // there is no node, and the rules are those that came before the fault.
    pub fn load(&mut self, doc: Document<'_>, root: usize) -> Result<usize, TreeFault>
        ensures taken { (progress self.new, result_err result) ≡ taken (steps 65 doc.entry.text.now doc.entry.entries.now root) unloaded }
        ensures loaded { MatchResult result (λ at. Loaded doc.entry.text.now doc.entry.entries.now (tables self.new) at (value_in doc.entry.text.now doc.entry.entries.now root)) (λ _. self.new.nodes ≡ []) }
    {
        self.clear();
        match self.load_node(doc.schema(root), LEVELS) {
            Ok(node) => {
                let at = self.nodes.len();
                let _ = self.nodes.push(node);
                Ok(at)
            }
            Err(fault) => {
                self.forget_nodes();
                Err(fault)
            }
        }
    }

    // The nodes: those that the links of one node lead to beside each other, and the root last.
    pub fn nodes(&self) -> &[Node]
        ensures value { result.now ≡ self.now.nodes }
        ensures few { length result.now ≤ 512 }
    {
        self.nodes.as_slice()
    }

    // The nodes that the links of a group lead to, in the order of the links.
    pub fn linked(&self, node: Node, group: Group) -> &[Node]
        ensures value { result.now ≡ group_nodes self.now.nodes node group }
        ensures stand { GroupsStand }
        ensures parts { GroupPartsStand }
    {
        let nodes = self.nodes.as_slice();
        let first = node.links as u128 + node.targets.links_before(group);
        let rest = &nodes[first.min(nodes.len() as u128) as usize..];
        &rest[..node.targets.of(group).count.min(rest.len())]
    }

    // The rules, in loading order.
    pub fn rules(&self) -> &[RuleEntry]
        ensures value { result.now ≡ self.now.rules }
        ensures few { length result.now ≤ 256 }
    {
        self.rules.as_slice()
    }
}
