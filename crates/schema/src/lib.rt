// The parts of a schema that stands in a table of JSON values: flags, format, links to other schemas, and rules.
#![tactic(auto)]

pub mod document;
pub mod format;
pub mod group;
mod parts;
pub mod rule;
mod rule_entries;
