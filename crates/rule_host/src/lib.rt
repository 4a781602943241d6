// Rule hosts: what compiles expressions to numbered programs and executes them on images.
#![tactic(auto)]

pub mod again;
pub mod answer;
pub mod answer_book;
mod book;
pub mod host;
pub mod maker;
pub mod row;
