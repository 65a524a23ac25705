//! The new inodes of changed nodes, and where they are to stand.
ghost use Rattle.std.specs.Prelude.{◌≡◌, ◌<◌, ◌≤◌, ◌+◌, ◌++◌, ◌^◌, ℕ, false, All, length, slice_index, IfOk, OnOk, OnErr, IsErrOf, IsTrue};
ghost use Rattle.vol_numbers.specs.Layout.{Layout};
ghost use Rattle.block_format.specs.Index.{IsPointer};
ghost use Rattle.block_format.specs.Inode.{inode_shape};
ghost use Rattle.block_tree.specs.Notes.{Stand, page_blocks};
ghost use Rattle.block_tree.specs.Tree.{Blocks};
ghost use Rattle.inode_file.specs.Counting.{used_positions};
ghost use Rattle.inode_file.specs.Inodes.{inode_of, IsTable, Stands};
ghost use Rattle.inode_file.specs.Loading.{IsWhole, IsWithin};
ghost use Rattle.inode_file.specs.Rewriting.{has_nodes, table_pointers};
ghost use Rattle.place_words.specs.Different.{times};
ghost use Rattle.point_plan.specs.Nodes.{Ascend, HadInodes, inode_or, was_or, planned_of};
ghost use Rattle.point_plan.specs.NoRoom.{HasNoRoom};
ghost use Rattle.point_plan.specs.declared.planned_node.PlannedNode.{PlannedNode as NodeOf};
ghost use Rattle.point_plan.specs.declared.renewing.RenewFault.TheVariants.{Short};

use crate::PlannedNode;
use block_tree::Rewritten;
use inode_file::InodeFile;
use run_allocator::FreeMap;
use std::alloc::AllocError;

/// Why the inodes aren't planned.
#[derive(Clone, Copy, Debug, PartialEq, Eq)]
pub(crate) enum RenewFault {
    OutOfMemory,
    /// There are too few free blocks.
    Short,
}

impl From<AllocError> for RenewFault {
    ghost use Rattle.std.specs.Prelude.{◌≡◌};
    ghost use Rattle.point_plan.specs.declared.renewing.RenewFault.TheVariants.{OutOfMemory};

    ghost from_gives = { λ _ fault. fault ≡ OutOfMemory };

    fn from(_: AllocError) -> RenewFault {
        RenewFault::OutOfMemory
    }
}

/// How many blocks there may be, and how many are needed besides the inode blocks of after.
#[derive(Drop)]
pub(crate) struct Room {
    pub have: u64,
    pub need: u64,
}

/// Gives each changed node its new inode, and plans the inode blocks and the inode index. A failure leaves the inodes as they were.
pub(crate) fn renew_inodes(
    inodes: &mut InodeFile,
    nodes: &[PlannedNode],
    room: &Room,
    free: &mut FreeMap,
) -> Result<Rewritten, RenewFault>
    requires need { room.now.need < 2 ^ 63 }
    requires whole { IsTable inodes.old }
    requires ascend { Ascend 1 nodes.now }
    requires shapes { All (λ (p : NodeOf). IsTrue (inode_shape p.is)) nodes.now }
    requires were_shapes { All (λ (p : NodeOf). IsTrue (inode_shape p.was)) nodes.now }
    requires had { HadInodes inodes.old.inodes nodes.now }
    ensures inodes { OnOk result ((n : ℕ) → inode_of inodes.new.inodes n ≡ inode_or (planned_of nodes.now n) (inode_of inodes.old.inodes n)) }
    ensures stored { IfOk result (λ w. (after : Blocks) → Stand w.pages after → Stands after inodes.old → Stands after inodes.new) }
    ensures settled { OnOk result (inodes.new.inodes ≡ inodes.new.stored) }
    ensures pointers { IfOk result (λ w. (b : ℕ) → times b (table_pointers inodes.old) + times b w.added ≡ times b (table_pointers inodes.new) + times b w.dropped) }
    ensures added { IfOk result (λ w. w.added ≡ page_blocks w.pages) }
    ensures taken { IfOk result (λ w. page_blocks w.pages ++ free.new ≡ free.old) }
    ensures index { IfOk result (λ w. w.root.ptr ≡ inodes.new.index) }
    ensures whole { OnOk result (IsTable inodes.new) }
    // There is an inode block only where one of its numbers is a node's.
    ensures some { OnOk result ((k : ℕ) → k < 1024 → has_nodes inodes.new k ≡ false → slice_index inodes.new.pointers k ≡ 0) }
    // Where the free blocks and the new inodes lead into the area, so do all inodes.
    ensures within { OnOk result ((g : Layout) → IsWithin g inodes.old → All (IsPointer g) free.old → All (λ (p : NodeOf). IsWhole g p.is) nodes.now → IsWithin g inodes.new) }
    ensures room { OnOk result (room.now.need + used_positions inodes.new.inodes ≤ room.now.have) }
    // With the new inodes there is no room, or there are no more blocks than inode blocks.
    ensures short { IsErrOf result Short → HasNoRoom inodes.old.inodes nodes.now room.now.have room.now.need (length free.old) }
    ensures unchanged { OnErr result (inodes.new ≡ inodes.old) }
    ensures free_unchanged { OnErr result (free.new ≡ free.old) }
{
    set_new(inodes, nodes);
    let blocks = inodes.used_blocks();
    if room.have < room.need + u64::from(blocks) || free.free() <= blocks {
        set_old(inodes, nodes);
        return Err(RenewFault::Short);
    }
    match inodes.rewrite(free) {
        Ok(rewritten) => Ok(rewritten),
        Err(AllocError) => {
            set_old(inodes, nodes);
            Err(RenewFault::OutOfMemory)
        }
    }
}

/// Gives each changed node its new inode.
fn set_new(inodes: &mut InodeFile, nodes: &[PlannedNode])
    requires whole { IsTable inodes.old }
    requires ascend { Ascend 1 nodes.now }
    requires shapes { All (λ (p : NodeOf). IsTrue (inode_shape p.is)) nodes.now }
    ensures set { (n : ℕ) → inode_of inodes.new.inodes n ≡ inode_or (planned_of nodes.now n) (inode_of inodes.old.inodes n) }
    ensures whole { IsTable inodes.new }
    ensures rest { inodes.new ≡ record inodes.old { inodes = inodes.new.inodes } }
{
    for node in nodes {
        inodes.set(node.number, node.is);
    }
}

/// Gives each changed node the inode that it had.
fn set_old(inodes: &mut InodeFile, nodes: &[PlannedNode])
    requires whole { IsTable inodes.old }
    requires ascend { Ascend 1 nodes.now }
    requires shapes { All (λ (p : NodeOf). IsTrue (inode_shape p.was)) nodes.now }
    ensures set { (n : ℕ) → inode_of inodes.new.inodes n ≡ was_or (planned_of nodes.now n) (inode_of inodes.old.inodes n) }
    ensures whole { IsTable inodes.new }
    ensures rest { inodes.new ≡ record inodes.old { inodes = inodes.new.inodes } }
{
    for node in nodes {
        inodes.set(node.number, node.was);
    }
}
