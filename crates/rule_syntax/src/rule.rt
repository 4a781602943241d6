// What a rule is made of.
pub use fixed::slice::Slice;

#[derive(Clone, Copy, PartialEq, Eq, Debug)]
pub enum Operator {
    Eq,
    Ne,
    Lt,
    Le,
    Gt,
    Ge,
}

// A path is a part of the expression's bytes.
#[derive(Clone, Copy, PartialEq, Eq, Debug)]
pub enum Operand {
    Int(i64),
    Bool(bool),
    Null,
    Path(Slice),
}

#[derive(Clone, Copy, PartialEq, Eq, Debug)]
pub struct Comparison {
    pub left: Operand,
    pub operator: Operator,
    pub right: Operand,
}

// The comparisons of one rule among those of a table.
// It is no `Slice`: that one counts bytes, and as one type a place in a text could pass for a place in a table.
#[derive(Clone, Copy, PartialEq, Eq, Debug)]
pub struct Span {
    pub start: usize,
    pub len: usize,
}

#[derive(Clone, Copy, PartialEq, Eq, Debug)]
pub enum Refused {
    // The text is no rule.
    Syntax,
    // The text is a rule, and the table has no room for its comparisons.
    Full,
}
