// Base64 as RFC 4648 section 4 has it, decoded exactly.
#![tactic(auto)]

pub mod base64;

pub use base64::{DecodeError, decode, decoded_len};

#[cfg(test)]
mod tests;
