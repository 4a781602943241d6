// Reads JSON texts into stores and tables.
#![tactic(auto)]

mod bench;
mod builder;
pub mod fault;
mod reader;
mod sift;

pub use reader::{Reader, reading_orders};

#[cfg(test)]
mod tests;
