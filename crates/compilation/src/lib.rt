// Schemas compiled: their rules given to a rule host.
#![tactic(auto)]

mod compile;
pub mod fault;
mod loading;
mod rules;
pub mod validation;

pub use compile::compile_rule;
pub use loading::compile_schema;
pub use rules::{RULES, Validations};
