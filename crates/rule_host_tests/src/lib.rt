// Examples of rule hosts, and a layer over any host.
#![tactic(auto)]

pub mod counting;
#[cfg(test)]
mod tests;
