//! The inode index.
ghost use Rattle.std.specs.Prelude.{◌≡◌, ◌≤◌, ◌<◌, ◌+◌, ◌*◌, ◌∷◌, [], ℕ, true, OnOk, IfOk, IsTrue, length, slice_index};
ghost use Rattle.vol_numbers.specs.Geometry.{layout_of};
ghost use Rattle.vol_numbers.specs.Layout.{count_blocks};
ghost use Rattle.disk_model.specs.Past.{Adds};
ghost use Rattle.block_format.specs.Index.{IsPointer};
ghost use Rattle.block_tree.specs.Tree.{blocks_in, index_at};
ghost use Rattle.image_model.specs.Met.{index};
ghost use Rattle.image_model.specs.Walk.{met_at, entries_met};
ghost use Rattle.image_walk.specs.Cause.{HasWalkCause, IsNoDevice};
ghost use Rattle.image_walk.specs.Going.{Walks};
ghost use Rattle.image_walk.specs.Reads.{metadata_count, pointer_count};

use crate::reading::read_pointers;
use crate::{Marks, WalkFault};
use disk_model::Disk;
use image_model::Finding;
use vol_numbers::{BlockNo, Geometry};

/// The inode index and its entries, which it gives.
pub(crate) fn walk_index<D: Disk>(
    disk: &mut D,
    g: &Geometry,
    at: BlockNo,
    marks: &mut Marks,
) -> Result<[BlockNo; 1024], WalkFault>
    requires size { (layout_of g.now).blocks ≡ (D.fixed disk.old).size }
    requires marks { length marks.old ≡ 1024 * count_blocks (layout_of g.now) }
    ensures walked { IsTrue D.tells → Walks (layout_of g.now) marks.old marks.new (index at ∷ entries_met (index_at (blocks_in (D.state disk.old).contents) at)) result }
    ensures entries { IfOk result (λ entries. IsTrue D.tells → index_at (blocks_in (D.state disk.old).contents) at ≡ entries) }
    ensures within { IfOk result (λ entries. (k : ℕ) → k < 1024 → IsPointer (layout_of g.now) (slice_index entries k)) }
    ensures marks { OnOk result (length marks.new ≡ length marks.old) }
    ensures same { IsTrue D.tells → D.state disk.new ≡ D.state disk.old }
    ensures moments { IsTrue D.tells → Adds (D.past disk.old) (D.past disk.new) (λ s. s ≡ D.state disk.old) }
    ensures fixed { D.fixed disk.new ≡ D.fixed disk.old }
    ensures reads { OnOk result ((D.given disk.new).count ≤ (D.given disk.old).count + 1) }
    ensures cause { HasWalkCause (D.faults disk.old) (D.faults disk.new) result }
{
    marks.meet_metadata(g, at)?;
    let entries = read_pointers(disk, g, at)?;
    meet_entries(marks, g, &entries)?;
    Ok(entries)
}

/// The pointers of the inode index.
fn meet_entries(marks: &mut Marks, g: &Geometry, entries: &[BlockNo]) -> Result<(), WalkFault>
    requires { length marks.old ≡ 1024 * count_blocks (layout_of g.now) }
    ensures walked { Walks (layout_of g.now) marks.old marks.new (entries_met entries.now) result }
    ensures cause { IsNoDevice result }
    ensures within { OnOk result ((k : ℕ) → k < length entries.now → IsPointer (layout_of g.now) (slice_index entries.now k)) }
{
    for entry in entries {
        meet_index(marks, g, true, *entry)?;
    }
    Ok(())
}

/// A pointer to an inode block or an index block, 0 where there is none. It has to be of a place that the node has.
pub(crate) fn meet_index(
    marks: &mut Marks,
    g: &Geometry,
    is_below: bool,
    ptr: BlockNo,
) -> Result<(), WalkFault>
    requires { length marks.old ≡ 1024 * count_blocks (layout_of g.now) }
    ensures walked { Walks (layout_of g.now) marks.old marks.new (met_at index is_below ptr) result }
    ensures counted { OnOk result (pointer_count (ptr ∷ []) ≤ metadata_count (met_at index is_below ptr)) }
    ensures cause { IsNoDevice result }
    ensures within { OnOk result (IsPointer (layout_of g.now) ptr) }
{
    if ptr == 0 {
        return Ok(());
    }
    if !is_below {
        return Err(WalkFault::Found(Finding::BadPointer(ptr)));
    }
    marks.meet_metadata(g, ptr)
}
