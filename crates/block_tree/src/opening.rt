//! Reads what of a tree is needed to rewrite it.
ghost use Rattle.std.specs.Prelude.{◌≡◌, ◌∷◌, true, All, IfOk, IsTrue, replicate, slice_index};
ghost use Rattle.vol_numbers.specs.Geometry.{layout_of};
ghost use Rattle.disk_model.specs.Past.{Adds};
ghost use Rattle.block_format.specs.Index.{IsPointer};
ghost use Rattle.place_words.specs.Different.{is_among};
ghost use Rattle.block_tree.specs.Tree.{blocks_in};
ghost use Rattle.block_tree.specs.Root.{tree_indexes, IsRoot};
ghost use Rattle.block_tree.specs.Parts.{SameEntries};
ghost use Rattle.block_tree.specs.Opened.{Opens, first_of};
ghost use Rattle.block_tree.specs.Causes.{HasLookCause, IsLookDamage, IfLookDamaged, IsBlockOf};

use crate::looking::{entries, no_pointers};
use crate::{LookFault, TreeRoot};
use block_format::Index;
use disk_model::Disk;
use vol_numbers::{BlockNo, Geometry};

/// The top index, its pointers, and all leaves. What isn't there is 0.
#[derive(Clone, Copy)]
pub(crate) struct Opened {
    pub(crate) top: BlockNo,
    pub(crate) was: Index,
    pub(crate) leaves: Index,
}

/// Opens a tree. It reads the top index alone.
pub(crate) fn open_tree<D: Disk>(
    disk: &mut D,
    g: &Geometry,
    root: &TreeRoot,
) -> Result<Opened, LookFault>
    requires size { (layout_of g.now).blocks ≡ (D.fixed disk.old).size }
    requires root { IsRoot (layout_of g.now) root.now }
    ensures opened { IfOk result (λ o. IsTrue D.tells → Opens (blocks_in (D.state disk.old).contents) root.now o.top o.was.ptrs o.leaves.ptrs (first_of (blocks_in (D.state disk.old).contents) root.now (slice_index o.leaves.ptrs 0))) }
    ensures leaves { IfOk result (λ o. All (IsPointer (layout_of g.now)) o.leaves.ptrs) }
    ensures top { IfOk result (λ o. IsPointer (layout_of g.now) o.top) }
    ensures hole { IfOk result (λ o. root.now.height ≡ 0 → slice_index o.leaves.ptrs 0 ≡ 0) }
    ensures damaged { IsLookDamage (layout_of g.now) D.tells (blocks_in (D.state disk.new).contents) (D.given disk.old) (D.given disk.new) result }
    ensures among { IfLookDamaged result (λ b. IsTrue D.tells → is_among (tree_indexes (blocks_in (D.state disk.old).contents) root.now) b ≡ true) }
    ensures same { IsTrue D.tells → D.state disk.new ≡ D.state disk.old }
    ensures moments { IsTrue D.tells → Adds (D.past disk.old) (D.past disk.new) (λ s. s ≡ D.state disk.old) }
    ensures fixed { D.fixed disk.new ≡ D.fixed disk.old }
    ensures cause { HasLookCause (D.faults disk.old) (D.faults disk.new) result }
{
    if root.height == 0 {
        return Ok(Opened {
            top: 0,
            was: no_pointers(),
            leaves: no_pointers(),
        });
    }
    if root.height == 1 {
        return Ok(Opened {
            top: 0,
            was: no_pointers(),
            leaves: one_pointer(root.ptr),
        });
    }
    let was = entries(disk, g, root.ptr)?;
    Ok(Opened {
        top: root.ptr,
        was,
        leaves: was,
    })
}

/// The pointers of the places of leaf 0, be there a leaf or not.
pub(crate) fn first_pointers<D: Disk>(
    disk: &mut D,
    g: &Geometry,
    root: &TreeRoot,
    leaf: BlockNo,
) -> Result<Index, LookFault>
    requires size { (layout_of g.now).blocks ≡ (D.fixed disk.old).size }
    requires root { IsPointer (layout_of g.now) root.now.ptr }
    requires leaf { IsPointer (layout_of g.now) leaf }
    ensures pointers { IfOk result (λ index. All (IsPointer (layout_of g.now)) index.ptrs) }
    ensures entries { IfOk result (λ index. IsTrue D.tells → SameEntries (first_of (blocks_in (D.state disk.old).contents) root.now leaf) index.ptrs) }
    ensures damaged { IsLookDamage (layout_of g.now) D.tells (blocks_in (D.state disk.new).contents) (D.given disk.old) (D.given disk.new) result }
    ensures read { IfLookDamaged result (IsBlockOf leaf) }
    ensures same { IsTrue D.tells → D.state disk.new ≡ D.state disk.old }
    ensures moments { IsTrue D.tells → Adds (D.past disk.old) (D.past disk.new) (λ s. s ≡ D.state disk.old) }
    ensures fixed { D.fixed disk.new ≡ D.fixed disk.old }
    ensures cause { HasLookCause (D.faults disk.old) (D.faults disk.new) result }
{
    if root.height == 0 {
        return Ok(one_pointer(root.ptr));
    }
    entries(disk, g, leaf)
}

/// One pointer, and none behind it.
pub(crate) fn one_pointer(ptr: BlockNo) -> Index
    ensures { result.ptrs ≡ ptr ∷ replicate 1023 0 }
{
    let mut index = no_pointers();
    index.ptrs[0] = ptr;
    index
}
