//! Why a node can't be planned.
use block_tree::TreeFault;
use std::alloc::AllocError;
use thiserror::Error;
use vol_numbers::BlockNo;

/// Why a node can't be planned. `Short`: too few blocks are free to be sure that the plan fits.
#[derive(Clone, Copy, Debug, PartialEq, Eq, Error)]
pub enum NodeFault {
    #[error("the disk failed")]
    ReadFault,
    #[error("block {0} is no index block")]
    Damaged(BlockNo),
    #[error("out of memory")]
    OutOfMemory,
    #[error("too few blocks are free")]
    Short,
}

impl From<TreeFault> for NodeFault {
    ghost use Rattle.std.specs.Prelude.{◌≡◌};
    ghost use Rattle.node_plan.specs.Faults.{as_node_fault};

    ghost from_gives = { λ tree fault. fault ≡ as_node_fault tree };

    fn from(fault: TreeFault) -> NodeFault {
        match fault {
            TreeFault::Device => NodeFault::ReadFault,
            TreeFault::Damaged(block) => NodeFault::Damaged(block),
            TreeFault::OutOfMemory => NodeFault::OutOfMemory,
        }
    }
}

impl From<AllocError> for NodeFault {
    ghost use Rattle.std.specs.Prelude.{◌≡◌};
    ghost use Rattle.node_plan.specs.declared.fault.NodeFault.TheVariants.{OutOfMemory};

    ghost from_gives = { λ _ fault. fault ≡ OutOfMemory };

    fn from(_: AllocError) -> NodeFault {
        NodeFault::OutOfMemory
    }
}
