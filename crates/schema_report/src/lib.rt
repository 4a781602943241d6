// What a person is told of a schema that was loaded.
#![tactic(auto)]

mod complaints;
mod summary;

pub use complaints::push_complaints;
pub use summary::{Summary, push_summary, summarize};
