// A schema loaded into a table of nodes and a table of rules, in the order in which places are visited.
#![tactic(auto)]

pub mod fault;
pub mod node;
pub mod targets;
mod tree;

pub use tree::{LEVELS, NODES, RULES, SchemaTree};
