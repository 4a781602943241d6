// Rules read from the entries of a schema.
ghost use Rattle.std.specs.Prelude.{◌≡◌, Option};
ghost use Rattle.json_values.specs.Meaning.{bool_of, part_in};
ghost use Rattle.json_values.specs.declared.table.Cell.{Cell};
ghost use Rattle.schema.specs.Entries.{cell_under};
ghost use Rattle.schema.specs.RuleEntries.{free_cell, needed_part, rule_at};

use super::document::SchemaAt;
use super::rule::{InvalidRule, Rule};
use json_values::parts::Part;
use json_values::table::Cell;

impl SchemaAt<'_> {
    // The text under a key, which has to be there.
    fn needed_text(self, key: &[u8]) -> Result<Part, InvalidRule>
        ensures { result ≡ needed_part (cell_under self.entry.doc.text.now self.entry.doc.entries.now key.now self.entry.at) }
    {
        self.text_at(key).ok_or(InvalidRule)
    }

    // What stands under a key, as `read` takes it; null counts as absent.
    fn free<T, F: Fn(Cell) -> Option<T>>(
        self,
        key: &[u8],
        read: F,
    ) -> Result<Option<T>, InvalidRule>
        requires { F.IsAlwaysCallable read }
        ensures { (f : Cell → Option T) → ((c : Cell) (r : Option T) → F.post read c r → r ≡ f c) → result ≡ free_cell f (cell_under self.entry.doc.text.now self.entry.doc.entries.now key.now self.entry.at) }
    {
        match self.cell_under(key) {
            None | Some(Cell::Null) => Ok(None),
            Some(cell) => read(cell).map(Some).ok_or(InvalidRule),
        }
    }

    fn free_text(self, key: &[u8]) -> Result<Option<Part>, InvalidRule>
        ensures { result ≡ free_cell part_in (cell_under self.entry.doc.text.now self.entry.doc.entries.now key.now self.entry.at) }
    {
        self.free(key, Cell::as_text)
    }

    fn free_bool(self, key: &[u8]) -> Result<Option<bool>, InvalidRule>
        ensures { result ≡ free_cell bool_of (cell_under self.entry.doc.text.now self.entry.doc.entries.now key.now self.entry.at) }
    {
        self.free(key, Cell::as_bool)
    }

    // The schema as a rule. What is not an object has no `rule`, so it is invalid.
    pub fn rule(self) -> Result<Rule, InvalidRule>
        ensures { result ≡ rule_at self.entry.doc.text.now self.entry.doc.entries.now self.entry.at }
    {
        Ok(Rule {
            rule: self.needed_text(b"rule")?,
            message: self.free_text(b"message")?,
            message_expression: self.free_text(b"messageExpression")?,
            reason: self.free_text(b"reason")?,
            field_path: self.free_text(b"fieldPath")?,
            optional_old_self: self.free_bool(b"optionalOldSelf")?,
        })
    }
}
