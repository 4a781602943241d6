// The rules of a schema as they are written.
use json_values::parts::Part;

// A rule: its texts are parts of the schema's text, and an absent text is told from an empty one.
#[derive(Clone, Copy, PartialEq, Eq, Debug)]
pub struct Rule {
    pub rule: Part,
    pub message: Option<Part>,
    pub message_expression: Option<Part>,
    pub reason: Option<Part>,
    pub field_path: Option<Part>,
    pub optional_old_self: Option<bool>,
}

// Something of another kind stands where a rule has a text or a truth value.
#[derive(Clone, Copy, PartialEq, Eq, Debug)]
pub struct InvalidRule;
