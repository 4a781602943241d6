// A schema from its text to its tables.
#![tactic(auto)]

mod compiled;
pub mod fault;

pub use compiled::CompiledSchema;
