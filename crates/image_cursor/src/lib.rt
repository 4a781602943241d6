// Reads images of typed values where they lie, and checks that bytes are a scope.
#![tactic(auto)]

mod check;
pub mod cursor;
pub mod head;
mod members;
pub mod scope;
mod skip;
mod tail;

pub use cursor::Cursor;
pub use head::{Head, Part};
pub use scope::{OldPlace, ScopeParts, read_scope};

#[cfg(test)]
mod tests;
