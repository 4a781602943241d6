// Durations as Go writes them, read without floating point.
#![tactic(auto)]

pub mod duration;

pub use duration::parse_go_duration;

#[cfg(test)]
mod tests;
