// A compiled schema, in memory that is taken once, and how it is loaded from its text.
ghost use Rattle.std.specs.Prelude.{◌≡◌, ◌⊎◌, map, IfOk, MatchResult};
ghost use Rattle.compilation.specs.Compiled.{fate_of};
ghost use Rattle.compiled_schema.specs.Holds.{nothing, rooted};
ghost use Rattle.compiled_schema.specs.Loads.{Loads, TakenIn, Unloaded, Unread};
ghost use Rattle.schema_tree.specs.Builds.{tables};

use super::fault::Fault;
use compilation::validation::Validation;
use compilation::{Validations, compile_schema};
use fixed::list::FixedList;
use json_reader::Reader;
use json_values::parts::Source;
use json_values::store::Store;
use json_values::table::Table;
use rule_host::host::RuleHost;
use schema::document::Document;
use schema_tree::SchemaTree;
use std::alloc::{AllocError, Global};
use std::marker::Model;

// The texts and values of a schema, its nodes and rules, the compiled rules, and where the root is among the nodes; no
// root where no schema is loaded.
#[derive(Drop)]
pub struct CompiledSchema {
    store: Store,
    table: Table,
    tree: SchemaTree,
    validations: Validations,
    root: Option<usize>,
}

impl Model for CompiledSchema {
    ghost use Rattle.std.specs.Prelude.{map};
    ghost use Rattle.compilation.specs.Compiled.{fate_of};
    ghost use Rattle.compiled_schema.specs.Holds.{Held};
    ghost use Rattle.schema_tree.specs.Builds.{tables};

    ghost Value = { Held };

    ghost view = { λ s. record { text = s.store; entries = s.table; tables = tables s.tree; fates = map fate_of s.validations; root = s.root } };
}

impl CompiledSchema {
    // Takes all its memory.
    pub fn new(heap: Global) -> Result<CompiledSchema, AllocError>
        ensures { IfOk result (λ x. x ≡ nothing) }
    {
        Ok(CompiledSchema {
            store: Store::new(heap)?,
            table: FixedList::new(heap)?,
            tree: SchemaTree::new(heap)?,
            validations: FixedList::new(heap)?,
            root: None,
        })
    }

    // Forgets the schema.
    pub fn clear(&mut self)
        ensures { self.new ≡ nothing }
    {
        self.store.clear();
        self.table.clear();
        self.tree.clear();
        self.validations.clear();
        self.root = None;
    }

    // Reads a text into the empty store and table, and compiles it: where the root is among the nodes.
    fn read_and_compile<H: RuleHost>(
        &mut self,
        reader: &mut Reader,
        host: &mut H,
        text: &[u8],
    ) -> Result<usize, Fault>
        requires { self.old ≡ nothing }
        ensures kept { H.meaning host.new ≡ H.meaning host.old }
        ensures law { MatchResult result (λ at. TakenIn (H.meaning host.old) (H.accepted host.old) text.now (rooted at self.new) (H.accepted host.new)) (λ f. Unread (H.accepted host.old) text.now f (H.accepted host.new) ⊎ Unloaded (H.meaning host.old) (H.accepted host.old) text.now f (H.accepted host.new)) }
    {
        let entry = reader.read(text, Source::Schema, &mut self.store, &mut self.table)?;
        let doc = Document {
            text: self.store.text(),
            entries: self.table.as_slice(),
        };
        let root = compile_schema(host, doc, entry, &mut self.tree, &mut self.validations)?;
        Ok(root)
    }

    // Loads a schema text with a host, in place of the schema that was loaded. Where it is refused, no schema is
    // loaded, and the host keeps what it accepted.
    pub fn load<H: RuleHost>(
        &mut self,
        reader: &mut Reader,
        host: &mut H,
        text: &[u8],
    ) -> Result<(), Fault>
        ensures kept { H.meaning host.new ≡ H.meaning host.old }
        ensures law { Loads (H.meaning host.old) (H.accepted host.old) text.now result self.new (H.accepted host.new) }
    {
        self.clear();
        match self.read_and_compile(reader, host, text) {
            Ok(root) => {
                self.root = Some(root);
                Ok(())
            }
            Err(fault) => {
                self.clear();
                Err(fault)
            }
        }
    }

    // The values of the schema, and the text of their keys and texts.
    pub fn document(&self) -> Document<'_>
        ensures text { result.text.now ≡ self.now.text }
        ensures entries { result.entries.now ≡ self.now.entries }
    {
        Document {
            text: self.store.text(),
            entries: self.table.as_slice(),
        }
    }

    pub fn tree(&self) -> &SchemaTree
        ensures { tables result.now ≡ self.now.tables }
    {
        &self.tree
    }

    // What became of the rules, in loading order.
    pub fn validations(&self) -> &[Validation]
        ensures { map fate_of result.now ≡ self.now.fates }
    {
        self.validations.as_slice()
    }

    // Where the root is among the nodes.
    pub fn root(&self) -> Option<usize>
        ensures { result ≡ self.now.root }
    {
        self.root
    }
}
