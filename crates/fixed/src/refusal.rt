// Why something was not done.

// There is no room for so much more.
#[derive(Clone, Copy, PartialEq, Eq, Debug)]
pub struct Full;

// Nothing stands at that index.
#[derive(Clone, Copy, PartialEq, Eq, Debug)]
pub struct Outside;
