// A rule once it is compiled.
use fixed::text::BoundedText;

// A rule that the host has taken.
#[derive(Clone, Copy, PartialEq, Eq, Debug)]
pub struct CompilationResult {
    pub program: usize,
    // Whether the rule mentions `oldSelf`.
    pub is_transition_rule: bool,
    pub message_program: Option<usize>,
}

// Why a rule is not executed.
#[derive(Clone, Copy, PartialEq, Eq, Debug)]
pub enum CompilationError {
    // The host takes the rule for ill, and says why.
    Parse(BoundedText),
    // The rule is well, and its message expression is ill.
    MessageExpressionParse(BoundedText),
    // Its definition in the schema is no rule.
    InvalidRule,
}

pub type Validation = Result<CompilationResult, CompilationError>;
