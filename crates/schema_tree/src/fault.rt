// Why a schema is not loaded.

// There is no room for a node or a rule: the place is that of its first byte.
#[derive(Clone, Copy, PartialEq, Eq, Debug)]
pub enum TreeFault {
    TreeFull(usize),
    RulesFull(usize),
}
