// The syntax of short rules: comparisons joined by `&&`.
#![tactic(auto)]

mod mention;
mod operand;
mod path;
mod read;
pub mod rule;
mod word;

pub use mention::mentions;
pub use path::first_name;
pub use read::parse;
pub use rule::{Comparison, Operand, Operator, Refused, Slice, Span};

#[cfg(test)]
mod tests;
