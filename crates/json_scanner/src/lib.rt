// Scans a JSON text (RFC 8259, in UTF-8) a byte at a time. It asks for no memory, and builds nothing:
// each byte answers with an act for whoever builds the value.
#![tactic(auto)]

mod check;
pub mod modes;
mod moves;
mod number;
mod scanner;
mod stack;
mod text;

pub use check::check_text;
pub use scanner::Scanner;

#[cfg(test)]
mod tests;
