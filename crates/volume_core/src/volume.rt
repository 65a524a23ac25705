//! A volume over a disk.
ghost use Rattle.std.specs.Prelude.{◌≡◌};

use node_table::NodeTable;
use point_plan::PointState;
use std::marker::Model;

/// What a volume has in memory: the last point and what was staged since, the nodes as they are now, how many blocks the commands since the
/// point may cost, how many blocks are free, and whether a write or a sync has failed.
#[derive(Drop)]
pub struct Volume {
    pub(crate) state: PointState,
    pub(crate) nodes: NodeTable,
    pub(crate) pending: u32,
    pub(crate) free: u32,
    pub(crate) is_failed: bool,
}

impl Model for Volume {
    ghost use Rattle.volume_core.specs.Memory.{Memory};

    ghost Value = { Memory };

    ghost view = { λ v. record { state = v.state; nodes = v.nodes; pending = v.pending; free = v.free; is_failed = v.is_failed } };
}

impl Volume {
    /// How many blocks of the area are free.
    pub fn free(&self) -> u32
        ensures { result ≡ self.now.free }
    {
        self.free
    }

    /// Whether a write or a sync of an earlier call has failed. Then no command is done any more.
    pub fn is_failed(&self) -> bool
        ensures { result ≡ self.now.is_failed }
    {
        self.is_failed
    }
}
