// How a field's name is written as an identifier of a rule.
#![tactic(auto)]

ghost use Rattle.escaping.specs.Laws.{NoCollision, WorkedNames};

mod compare;
mod escape;
mod piece;
mod words;

pub use compare::compare_escaped;
pub use escape::{escape_field_name, escaped_len};
pub use words::is_reserved;

// What holds of all names that are escaped: no two share an escape, and the worked names are as written.
pub fn escaping_stands()
    ensures no_collision { NoCollision }
    ensures worked { WorkedNames }
{}

#[cfg(test)]
mod tests;
