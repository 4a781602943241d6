// A schema loaded and its rules compiled.
ghost use Rattle.std.specs.Prelude.{◌≡◌, [], map, IfOk, OnOk};
ghost use Rattle.compilation.specs.Compiled.{fate_of};
ghost use Rattle.compilation.specs.Fates.{AllNamed};
ghost use Rattle.compilation.specs.Loading.{loading};
ghost use Rattle.schema.specs.Entries.{value_in};
ghost use Rattle.schema.specs.Laws.{rule_said};
ghost use Rattle.schema_tree.specs.Builds.{progress, tables};
ghost use Rattle.schema_tree.specs.Loads.{Loaded, unloaded};
ghost use Rattle.schema_tree.specs.Steps.{steps, taken};
ghost use Rattle.std.specs.Result.{result_err};

use super::fault::LoadFault;
use super::rules::{Validations, compile_rules};
use rule_host::host::RuleHost;
use schema::document::Document;
use schema_tree::SchemaTree;

// Loads the schema `root` of a document and compiles its rules, in place of what was loaded before: the answer is where
// the root is among the nodes. A fault of the host's list comes before one of the tables behind it, since the rules
// that were loaded come before that fault. A tree and validations travel together only from here into a compiled schema.
pub fn compile_schema<H: RuleHost>(
    host: &mut H,
    doc: Document<'_>,
    root: usize,
    tree: &mut SchemaTree,
    validations: &mut Validations,
) -> Result<usize, LoadFault>
    ensures kept { H.meaning host.new ≡ H.meaning host.old }
    ensures loading { record { fates = map fate_of validations.new; accepted = H.accepted host.new; fault = result_err result } ≡ loading (H.meaning host.old) doc.entry.text.now (steps 65 doc.entry.text.now doc.entry.entries.now root) 0 [] (H.accepted host.old) }
    ensures tree { progress tree.new ≡ (taken (steps 65 doc.entry.text.now doc.entry.entries.now root) unloaded).0 }
    ensures loaded { IfOk result (λ at. Loaded doc.entry.text.now doc.entry.entries.now (tables tree.new) at (value_in doc.entry.text.now doc.entry.entries.now root)) }
    ensures named { OnOk result (AllNamed (H.accepted host.new) (map (λ x. rule_said doc.entry.text.now x.rule) (tables tree.new).rules) (map fate_of validations.new)) }
{
    let loaded = tree.load(doc, root);
    let compiled = compile_rules(host, doc.text, tree.rules(), validations);
    compiled?;
    let root = loaded?;
    Ok(root)
}
