// The order of byte strings, and a stable sort of numbers under any ranking.
#![tactic(auto)]

pub mod bytes;
pub mod sort;

pub use bytes::compare_bytes;
pub use sort::{Ranking, ScratchShort, sort_numbers};

#[cfg(test)]
mod tests;
