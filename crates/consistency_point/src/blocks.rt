//! Writes all blocks of a plan but for the counts and the root. Nothing is synced here.
ghost use Rattle.std.specs.Prelude.{◌≡◌, ◌≢◌, ◌<◌, ◌≤◌, [], All, OnOk, OnErr, IsTrue};
ghost use Rattle.vol_numbers.specs.Cause.{HasCause};
ghost use Rattle.vol_numbers.specs.declared.runs.Page.{Page as PageOf};
ghost use Rattle.disk_model.specs.Past.{Adds};
ghost use Rattle.block_tree.specs.Notes.{Stand, page_blocks};
ghost use Rattle.block_tree.specs.Tree.{blocks_in};
ghost use Rattle.count_pairs.specs.Writing.{ChangesOnly};
ghost use Rattle.place_words.specs.Different.{Distinct};
ghost use Rattle.point_plan.specs.Carries.{LineStands};
ghost use Rattle.point_plan.specs.Planning.{IsLineWithin, IsPlanWithin, blocks_written};
ghost use Rattle.point_plan.specs.declared.planned_node.PlannedNode.{PlannedNode as NodeOf};
ghost use Rattle.consistency_point.specs.Writing.{IsOneOf, IsPageOf, PlanStands, blocks_of_lines, blocks_of_nodes};

use crate::writing::{write_line, write_pages};
use dirty_store::DirtyStore;
use disk_model::{Disk, DiskFault};
use point_plan::{Plan, PlannedNode};
use tree_model::Line;

/// Writes the pages of nodes and of inodes, and the staged blocks of all lines. No other block changes, at no moment and after no failure.
pub(crate) fn write_blocks<D: Disk>(
    disk: &mut D,
    dirty: &DirtyStore,
    plan: &Plan,
) -> Result<(), DiskFault>
    requires within { IsPlanWithin (D.fixed disk.old).size plan.now }
    requires few { (D.fixed disk.old).size ≤ 65536 }
    ensures stand { OnOk result (IsTrue D.tells → Distinct (blocks_written plan.now) → PlanStands dirty.now.overlay plan.now (blocks_in (D.state disk.new).contents)) }
    ensures changes { IsTrue D.tells → ChangesOnly (IsOneOf (blocks_written plan.now)) (D.state disk.old) (D.state disk.new) }
    ensures during { IsTrue D.tells → Adds (D.past disk.old) (D.past disk.new) (ChangesOnly (IsOneOf (blocks_written plan.now)) (D.state disk.old)) }
    ensures unsynced { OnErr result (IsTrue D.tells → (D.state disk.new).unsynced ≢ []) }
    ensures fixed { D.fixed disk.new ≡ D.fixed disk.old }
    ensures given { D.given disk.new ≡ D.given disk.old }
    ensures cause { HasCause (D.faults disk.old) (D.faults disk.new) result }
{
    write_nodes(disk, plan.nodes.as_slice())?;
    write_inode_pages(disk, plan)?;
    write_lines(disk, dirty, plan.report.lines.as_slice())
}

/// Writes the inode blocks and the inode index.
fn write_inode_pages<D: Disk>(disk: &mut D, plan: &Plan) -> Result<(), DiskFault>
    requires within { All (λ (p : PageOf). p.at < (D.fixed disk.old).size) plan.now.inode_pages }
    ensures stand { OnOk result (IsTrue D.tells → Distinct (page_blocks plan.now.inode_pages) → Stand plan.now.inode_pages (blocks_in (D.state disk.new).contents)) }
    ensures changes { IsTrue D.tells → ChangesOnly (IsPageOf plan.now.inode_pages) (D.state disk.old) (D.state disk.new) }
    ensures during { IsTrue D.tells → Adds (D.past disk.old) (D.past disk.new) (ChangesOnly (IsPageOf plan.now.inode_pages) (D.state disk.old)) }
    ensures unsynced { OnErr result (IsTrue D.tells → (D.state disk.new).unsynced ≢ []) }
    ensures fixed { D.fixed disk.new ≡ D.fixed disk.old }
    ensures given { D.given disk.new ≡ D.given disk.old }
    ensures cause { HasCause (D.faults disk.old) (D.faults disk.new) result }
{
    write_pages(disk, plan.inode_pages.as_slice())
}

/// Writes the pages of all nodes.
fn write_nodes<D: Disk>(disk: &mut D, nodes: &[PlannedNode]) -> Result<(), DiskFault>
    requires within { All (λ b. b < (D.fixed disk.old).size) (blocks_of_nodes nodes.now) }
    ensures stand { OnOk result (IsTrue D.tells → Distinct (blocks_of_nodes nodes.now) → All (λ (p : NodeOf). Stand p.pages (blocks_in (D.state disk.new).contents)) nodes.now) }
    ensures changes { IsTrue D.tells → ChangesOnly (IsOneOf (blocks_of_nodes nodes.now)) (D.state disk.old) (D.state disk.new) }
    ensures during { IsTrue D.tells → Adds (D.past disk.old) (D.past disk.new) (ChangesOnly (IsOneOf (blocks_of_nodes nodes.now)) (D.state disk.old)) }
    ensures unsynced { OnErr result (IsTrue D.tells → (D.state disk.new).unsynced ≢ []) }
    ensures fixed { D.fixed disk.new ≡ D.fixed disk.old }
    ensures given { D.given disk.new ≡ D.given disk.old }
    ensures cause { HasCause (D.faults disk.old) (D.faults disk.new) result }
{
    for node in nodes {
        write_pages(disk, node.pages.as_slice())?;
    }
    Ok(())
}

/// Writes the staged blocks of all lines.
fn write_lines<D: Disk>(disk: &mut D, dirty: &DirtyStore, lines: &[Line]) -> Result<(), DiskFault>
    requires within { All (IsLineWithin (D.fixed disk.old).size) lines.now }
    requires few { (D.fixed disk.old).size ≤ 65536 }
    ensures stand { OnOk result (IsTrue D.tells → Distinct (blocks_of_lines lines.now) → All (LineStands dirty.now.overlay (blocks_in (D.state disk.new).contents)) lines.now) }
    ensures changes { IsTrue D.tells → ChangesOnly (IsOneOf (blocks_of_lines lines.now)) (D.state disk.old) (D.state disk.new) }
    ensures during { IsTrue D.tells → Adds (D.past disk.old) (D.past disk.new) (ChangesOnly (IsOneOf (blocks_of_lines lines.now)) (D.state disk.old)) }
    ensures unsynced { OnErr result (IsTrue D.tells → (D.state disk.new).unsynced ≢ []) }
    ensures fixed { D.fixed disk.new ≡ D.fixed disk.old }
    ensures given { D.given disk.new ≡ D.given disk.old }
    ensures cause { HasCause (D.faults disk.old) (D.faults disk.new) result }
{
    for line in lines {
        write_line(disk, dirty, *line)?;
    }
    Ok(())
}
