// Images of typed values: their commands, and how they are written.
#![tactic(auto)]

pub mod command;
pub mod write;

pub use command::{Command, UnknownCommand};
pub use write::{
    begin_list, begin_map, begin_old, begin_self, begin_some, write_bool, write_bytes,
    write_duration, write_empty, write_int, write_null, write_text, write_uint,
};

#[cfg(test)]
mod tests;
