// JSON values written as compact text.
#![tactic(auto)]

mod strings;
mod values;

pub use strings::push_quoted;
pub use values::{push_compact, writing_stands};

#[cfg(test)]
mod tests;
