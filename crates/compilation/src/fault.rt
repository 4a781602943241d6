// Why a schema is not loaded.
ghost use Rattle.std.specs.Prelude.{◌≡◌};
ghost use Rattle.compilation.specs.Widened.{host_full, widen};

use schema_tree::fault::TreeFault;

// The host's list has no room for a rule: the place is that of the rule's first byte.
#[derive(Clone, Copy, PartialEq, Eq, Debug)]
pub struct HostFull {
    pub place: usize,
}

// There is no room for a node, for a rule, or in the host's list: the place is that of the node's or the rule's first
// byte.
#[derive(Clone, Copy, PartialEq, Eq, Debug)]
pub enum LoadFault {
    TreeFull(usize),
    RulesFull(usize),
    ProgramsFull(usize),
}

impl From<TreeFault> for LoadFault {
    ghost from_gives = { λ e r. r ≡ widen e };

    fn from(fault: TreeFault) -> LoadFault {
        match fault {
            TreeFault::TreeFull(place) => LoadFault::TreeFull(place),
            TreeFault::RulesFull(place) => LoadFault::RulesFull(place),
        }
    }
}

impl From<HostFull> for LoadFault {
    ghost from_gives = { λ e r. r ≡ host_full e };

    fn from(full: HostFull) -> LoadFault {
        LoadFault::ProgramsFull(full.place)
    }
}
