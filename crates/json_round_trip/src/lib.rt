// JSON values written as compact text and read back.
#![tactic(auto)]

mod copying;
mod laws;

pub use copying::{CopyError, copy_value};
pub use laws::round_trip_stands;

#[cfg(test)]
mod tests;
