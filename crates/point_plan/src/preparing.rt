//! What memory is given that may fail: the new directories and the inodes of after a point. A failure gives back all.
ghost use Rattle.std.specs.Prelude.{◌≡◌, ◌<◌, ◌≤◌, ◌+◌, ◌^◌, ℕ, true, IfOk, OnOk, OnErr, IsErrOf, length, is_some};
ghost use Rattle.vol_numbers.specs.Geometry.{layout_of};
ghost use Rattle.held_list.specs.Held.{slots_at};
ghost use Rattle.inode_file.specs.Counting.{used_positions};
ghost use Rattle.point_plan.specs.Directories.{finished, slots_after, slots_then};
ghost use Rattle.point_plan.specs.Gathered.{IsGathered};
ghost use Rattle.point_plan.specs.NoRoom.{HasNoRoom};
ghost use Rattle.point_plan.specs.Nodes.{planned_of};
ghost use Rattle.point_plan.specs.PutTogether.{AreInodesRenewed};
ghost use Rattle.point_plan.specs.State.{IsOfSize};
ghost use Rattle.point_plan.specs.declared.renewing.RenewFault.TheVariants.{Short};

use crate::PointState;
use crate::directories::{add_directories, build_directories, take_back};
use crate::gathering::Gathered;
use crate::renewing::{RenewFault, Room, renew_inodes};
use block_tree::Rewritten;
use held_list::HeldList;
use std::alloc::Global;

/// What was prepared: the new directories that are not in the list yet, and the inode blocks.
pub(crate) struct Prepared {
    pub fresh: HeldList,
    pub rewritten: Rewritten,
}

/// Gives memory the inodes of after a point, and the directories that are new. All memory that is wanting is wanting here.
pub(crate) fn prepare(
    alloc: Global,
    state: &mut PointState,
    gathered: &mut Gathered,
    room: &Room,
) -> Result<Prepared, RenewFault>
    requires size { IsOfSize (layout_of state.old.geometry).blocks state.old }
    requires gathered { IsGathered state.old gathered.old }
    requires need { room.now.need < 2 ^ 63 }
    ensures inodes { IfOk result (λ p. AreInodesRenewed state.old state.new.inodes gathered.old p.rewritten) }
    ensures index { IfOk result (λ p. p.rewritten.root.ptr ≡ state.new.inodes.index) }
    ensures there { IfOk result (λ p. (n : ℕ) → is_some (slots_at p.fresh n) ≡ true → is_some (slots_at state.new.directories n) ≡ true) }
    // Once they are finished, each planned directory has its slots of now.
    ensures directories { IfOk result (λ p. (n : ℕ) → finished (planned_of gathered.old.nodes n) (slots_at p.fresh n) (slots_at state.new.directories n)
        ≡ slots_after (slots_then state.old.directories state.old.dirty.overlay) (planned_of gathered.old.nodes n) (slots_at state.old.directories n)) }
    ensures rest { OnOk result (state.new ≡ record state.old { inodes = state.new.inodes; directories = state.new.directories }) }
    ensures rest_gathered { OnOk result (gathered.new ≡ record gathered.old { left = gathered.new.left }) }
    ensures room { OnOk result (room.now.need + used_positions state.new.inodes.inodes ≤ room.now.have) }
    ensures short { IsErrOf result Short → HasNoRoom state.old.inodes.inodes gathered.old.nodes room.now.have room.now.need (length gathered.old.left) }
    ensures unchanged { OnErr result (state.new ≡ state.old) }
{
    let nodes = gathered.nodes.as_slice();
    let mut fresh = build_directories(alloc, &state.directories, &state.dirty, nodes)?;
    add_directories(&mut state.directories, &mut fresh, nodes)?;
    match renew_inodes(&mut state.inodes, nodes, room, &mut gathered.left) {
        Ok(rewritten) => Ok(Prepared { fresh, rewritten }),
        Err(fault) => {
            take_back(&mut state.directories, &fresh, nodes);
            let _ = state.directories.as_slice();
            Err(fault)
        }
    }
}
