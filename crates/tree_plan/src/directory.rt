//! Plans a directory.
ghost use Rattle.std.specs.Prelude.{◌≡◌, ◌<◌, ◌≤◌, ◌+◌, ◌*◌, ◌++◌, ◌⊎◌, ℕ, All, length, List, IfOk, OnErr, IsTrue, Some, true, false};
ghost use Rattle.std.specs.Option.{option_copied};
ghost use Rattle.vol_numbers.specs.Geometry.{layout_of};
ghost use Rattle.vol_numbers.specs.declared.block.Block.{Block};
ghost use Rattle.vol_numbers.specs.declared.runs.Change.{Change as ChangeOf};
ghost use Rattle.disk_model.specs.Past.{Adds};
ghost use Rattle.place_words.specs.Different.{different, is_among, times};
ghost use Rattle.place_words.specs.Rising.{Rising, AllUnder};
ghost use Rattle.block_format.specs.Index.{IsPointer};
ghost use Rattle.block_format.specs.Inode.{blocks_of, inode_shape, pointer_of};
ghost use Rattle.block_format.specs.declared.inode.Inode.TheVariants.{Directory as DirectoryOf};
ghost use Rattle.block_tree.specs.Tree.{blocks_in, Blocks};
ghost use Rattle.block_tree.specs.Root.{IsRoot};
ghost use Rattle.block_tree.specs.Notes.{Stand, page_blocks, change_blocks};
ghost use Rattle.block_tree.specs.Pages.{LeadInto};
ghost use Rattle.block_tree.specs.Edit.{leaves_of};
ghost use Rattle.block_tree.specs.Causes.{HasTreeCause, IsTreeDamage, IfTreeDamaged};
ghost use Rattle.image_model.specs.Planned.{height_in};
ghost use Rattle.point_model.specs.Holding.{kind_of};
ghost use Rattle.point_model.specs.NodePlan.{TreeIsPlanned, PointersArePlanned, node_metas};
ghost use Rattle.point_model.specs.PointPlan.{NodeIsPlanned};
ghost use Rattle.volume_model.specs.Machine.{Machine};
ghost use Rattle.volume_model.specs.Places.{Places};
ghost use Rattle.tree_plan.specs.Trees.{root_of, IsFullTree, EndsAt, Carries, IsTop, IsOldIndex};
ghost use Rattle.tree_plan.specs.Pages.{slots_or_none, width_with, written_pages, SlotsFit, SpellsPage, AreSpelled, AreApart};
ghost use Rattle.tree_plan.specs.Directories.{HoldsDirectory};

use crate::TreePlan;
use crate::emptying::without_blocks;
use crate::pages::{width_now, written_pages};
use crate::root::{cut_within, root_of};
use crate::spelling::{Spelled, spell_pages};
use block_format::Inode;
use block_tree::{TreeFault, rewrite};
use dir_slots::Directory;
use dirty_store::DirtyStore;
use disk_model::Disk;
use run_allocator::FreeMap;
use std::alloc::{AllocError, Global};
use vol_numbers::{Fbn, Geometry, InoNo, Page, PageList};

/// Plans a directory from the slots that are left of the last point, none where it was no directory then or was cut to no block since, and from what
/// is staged of it. It writes nothing.
///
/// A page that was there stays, unless a staged slot of it differs from what it was. For the others the lowest free blocks are taken, by place, and then for the index blocks.
pub fn plan_directory<D: Disk>(
    alloc: Global,
    disk: &mut D,
    g: &Geometry,
    store: &DirtyStore,
    number: InoNo,
    was: &Inode,
    left: Option<&Directory>,
    free: &mut FreeMap,
) -> Result<TreePlan, TreeFault>
    requires volume { (layout_of g.now).blocks ≡ (D.fixed disk.old).size }
    requires was { IsRoot (layout_of g.now) (root_of was.now) }
    requires slots { SlotsFit store.now.overlay number }
    requires free { length (written_pages (slots_or_none (option_copied left)) store.now.overlay number) + 7 ≤ length free.old }
    ensures inode { IfOk result (λ p. p.inode ≡ DirectoryOf (width_with (slots_or_none (option_copied left.entry)) store.now.overlay number) (height_in p.inode) (pointer_of p.inode)) }
    ensures shape { IfOk result (λ p. IsTrue (inode_shape p.inode)) }
    // In each image in which the pages stand, and the old index blocks as they were, the number is planned, where the old image holds what is left.
    ensures planned { IfOk result (λ p. IsTrue D.tells → HoldsDirectory (D.state disk.old).contents store.now.overlay number was.now (slots_or_none (option_copied left.entry)) → (new : List Block) → Carries (D.state disk.old).contents new was.now p.pages → (m : Machine) (placed : Places)
        → NodeIsPlanned (D.state disk.old).contents new store.now.overlay m placed number p.inode p.added p.dropped (page_blocks p.pages)) }
    // In such an image its metadata is at least the pages.
    ensures at_most { IfOk result (λ p. IsTrue D.tells → (n : ℕ) (new : List Block) → Carries (D.state disk.old).contents new was.now p.pages → length (page_blocks p.pages) ≤ length (node_metas new n p.inode)) }
    // A top index is a page's or the old one.
    ensures top { IfOk result (λ p. IsTrue D.tells → height_in p.inode ≡ 2 → 0 < pointer_of p.inode → is_among (page_blocks p.pages) (pointer_of p.inode) ≡ false → IsTop was.now (pointer_of p.inode)) }
    // What comes leads to a page, and no more often.
    ensures used { IfOk result (λ p. (b : ℕ) → times b p.added ≤ times b (page_blocks p.pages)) }
    ensures taken { IfOk result (λ p. page_blocks p.pages ++ free.new ≡ free.old) }
    // Where the free blocks lead into the area, so does the inode.
    ensures begins { IfOk result (λ p. All (IsPointer (layout_of g.now)) free.old → IsRoot (layout_of g.now) (root_of p.inode)) }
    ensures unchanged { OnErr result (free.new ≡ free.old) }
    ensures damaged { IsTreeDamage (layout_of g.now) D.tells (blocks_in (D.state disk.new).contents) (D.given disk.old) (D.given disk.new) result }
    // A damaged block is one of the index blocks of the old tree.
    ensures among { IfTreeDamaged result (IsOldIndex D.tells (D.state disk.old).contents was.now) }
    ensures same { IsTrue D.tells → D.state disk.new ≡ D.state disk.old }
    ensures moments { IsTrue D.tells → Adds (D.past disk.old) (D.past disk.new) (λ s. s ≡ D.state disk.old) }
    ensures fixed { D.fixed disk.new ≡ D.fixed disk.old }
    ensures cause { HasTreeCause (D.faults disk.old) (D.faults disk.new) result }
{
    let width = width_now(left, store, number);
    if width == 0 {
        let is = Inode::Directory {
            width,
            height: 0,
            ptr: 0,
        };
        return without_blocks(alloc, disk, g, was, is);
    }
    plan_slots(alloc, disk, g, store, number, was, left, width, free)
}

/// Plans a directory of this many slots, at least one.
fn plan_slots<D: Disk>(
    alloc: Global,
    disk: &mut D,
    g: &Geometry,
    store: &DirtyStore,
    number: InoNo,
    was: &Inode,
    left: Option<&Directory>,
    width: u32,
    free: &mut FreeMap,
) -> Result<TreePlan, TreeFault>
    requires volume { (layout_of g.now).blocks ≡ (D.fixed disk.old).size }
    requires was { IsRoot (layout_of g.now) (root_of was.now) }
    requires slots { SlotsFit store.now.overlay number }
    requires width { width ≡ width_with (slots_or_none (option_copied left)) store.now.overlay number }
    requires wide { width ≤ 65534 }
    requires some { 1 ≤ width }
    requires free { length (written_pages (slots_or_none (option_copied left)) store.now.overlay number) + 7 ≤ length free.old }
    ensures inode { IfOk result (λ p. p.inode ≡ DirectoryOf (width_with (slots_or_none (option_copied left.entry)) store.now.overlay number) (height_in p.inode) (pointer_of p.inode)) }
    ensures shape { IfOk result (λ p. IsTrue (inode_shape p.inode)) }
    ensures planned { IfOk result (λ p. IsTrue D.tells → HoldsDirectory (D.state disk.old).contents store.now.overlay number was.now (slots_or_none (option_copied left.entry)) → (new : List Block) → Carries (D.state disk.old).contents new was.now p.pages → (m : Machine) (placed : Places)
        → NodeIsPlanned (D.state disk.old).contents new store.now.overlay m placed number p.inode p.added p.dropped (page_blocks p.pages)) }
    ensures at_most { IfOk result (λ p. IsTrue D.tells → (n : ℕ) (new : List Block) → Carries (D.state disk.old).contents new was.now p.pages → length (page_blocks p.pages) ≤ length (node_metas new n p.inode)) }
    ensures top { IfOk result (λ p. IsTrue D.tells → height_in p.inode ≡ 2 → 0 < pointer_of p.inode → is_among (page_blocks p.pages) (pointer_of p.inode) ≡ false → IsTop was.now (pointer_of p.inode)) }
    ensures used { IfOk result (λ p. (b : ℕ) → times b p.added ≤ times b (page_blocks p.pages)) }
    ensures taken { IfOk result (λ p. page_blocks p.pages ++ free.new ≡ free.old) }
    ensures begins { IfOk result (λ p. All (IsPointer (layout_of g.now)) free.old → IsRoot (layout_of g.now) (root_of p.inode)) }
    ensures unchanged { OnErr result (free.new ≡ free.old) }
    ensures damaged { IsTreeDamage (layout_of g.now) D.tells (blocks_in (D.state disk.new).contents) (D.given disk.old) (D.given disk.new) result }
    ensures among { IfTreeDamaged result (IsOldIndex D.tells (D.state disk.old).contents was.now) }
    ensures same { IsTrue D.tells → D.state disk.new ≡ D.state disk.old }
    ensures moments { IsTrue D.tells → Adds (D.past disk.old) (D.past disk.new) (λ s. s ≡ D.state disk.old) }
    ensures fixed { D.fixed disk.new ≡ D.fixed disk.old }
    ensures cause { HasTreeCause (D.faults disk.old) (D.faults disk.new) result }
{
    let mut rest = free.copy()?;
    let spelled = spell_written(alloc, left, store, number, &mut rest)?;
    let cut_to = store.cut_to(number);
    let plan = plan_pages(alloc, disk, g, was, cut_to, width, spelled, &mut rest)?;
    *free = rest;
    Ok(plan)
}

/// Spells the pages that are written.
fn spell_written(
    alloc: Global,
    left: Option<&Directory>,
    store: &DirtyStore,
    number: InoNo,
    free: &mut FreeMap,
) -> Result<Spelled, AllocError>
    requires slots { SlotsFit store.now.overlay number }
    requires wide { width_with (slots_or_none (option_copied left)) store.now.overlay number ≤ 65534 }
    requires free { length (written_pages (slots_or_none (option_copied left)) store.now.overlay number) ≤ length free.old }
    ensures spelled { IfOk result (λ s. AreSpelled (SpellsPage (slots_or_none (option_copied left.entry)) store.now.overlay number)
        (written_pages (slots_or_none (option_copied left.entry)) store.now.overlay number) s.pages.items s.changes) }
    ensures taken { IfOk result (λ s. page_blocks s.pages.items ++ free.new ≡ free.old) }
    ensures left { IfOk result (λ s. length free.old ≡ length (written_pages (slots_or_none (option_copied left.entry)) store.now.overlay number) + length free.new) }
    ensures apart { IfOk result (λ s. AreApart 4096 s.changes) }
    ensures within { IfOk result (λ s. All (λ (c : ChangeOf). c.place < blocks_of (256 * width_with (slots_or_none (option_copied left.entry)) store.now.overlay number)) s.changes) }
    ensures leads { IfOk result (λ s. change_blocks s.changes ≡ page_blocks s.pages.items) }
{
    let places = written_pages(alloc, left, store, number)?;
    let spelled = spell_pages(alloc, left, store, number, &places, free)?;
    Ok(spelled)
}

/// Plans the tree of a directory over pages that are written.
fn plan_pages<D: Disk>(
    alloc: Global,
    disk: &mut D,
    g: &Geometry,
    was: &Inode,
    cut_to: Fbn,
    width: u32,
    spelled: Spelled,
    free: &mut FreeMap,
) -> Result<TreePlan, TreeFault>
    requires volume { (layout_of g.now).blocks ≡ (D.fixed disk.old).size }
    requires was { IsRoot (layout_of g.now) (root_of was.now) }
    requires width { width ≤ 65534 }
    requires some { 1 ≤ width }
    requires changes { All (λ (c : ChangeOf). c.place < blocks_of (256 * width)) spelled.changes }
    requires apart { AreApart 4096 spelled.changes }
    requires leads { change_blocks spelled.changes ≡ page_blocks spelled.pages.items }
    requires free { 7 ≤ length free.old }
    ensures inode { IfOk result (λ p. p.inode ≡ DirectoryOf width (height_in p.inode) (pointer_of p.inode)) }
    ensures shape { IfOk result (λ p. IsTrue (inode_shape p.inode)) }
    ensures tree { IfOk result (λ p. IsTrue D.tells → EndsAt (D.state disk.old).contents was.now cut_to (blocks_of (256 * width)) → IsFullTree (D.state disk.old).contents was.now → (new : List Block) → Carries (D.state disk.old).contents new was.now p.pages
        → TreeIsPlanned (D.state disk.old).contents new was.now p.inode cut_to spelled.changes) }
    ensures pointers { IfOk result (λ p. IsTrue D.tells → ((kind_of was.now ≡ Some true) ⊎ (cut_to ≡ 0)) → (n : ℕ) (new : List Block) → Carries (D.state disk.old).contents new was.now p.pages
        → PointersArePlanned (D.state disk.old).contents new n was.now p.inode p.added p.dropped (page_blocks p.pages)) }
    ensures at_most { IfOk result (λ p. IsTrue D.tells → (n : ℕ) (new : List Block) → Carries (D.state disk.old).contents new was.now p.pages → length (page_blocks p.pages) ≤ length (node_metas new n p.inode)) }
    ensures top { IfOk result (λ p. IsTrue D.tells → height_in p.inode ≡ 2 → 0 < pointer_of p.inode → is_among (page_blocks p.pages) (pointer_of p.inode) ≡ false → IsTop was.now (pointer_of p.inode)) }
    ensures front { IfOk result (λ p. (read : Blocks) → Stand p.pages read → Stand spelled.pages.items read) }
    ensures used { IfOk result (λ p. (b : ℕ) → times b p.added ≤ times b (page_blocks p.pages)) }
    ensures taken { IfOk result (λ p. page_blocks p.pages ++ free.new ≡ page_blocks spelled.pages.items ++ free.old) }
    ensures begins { IfOk result (λ p. LeadInto (layout_of g.now) spelled.changes → All (IsPointer (layout_of g.now)) free.old → IsRoot (layout_of g.now) (root_of p.inode)) }
    ensures damaged { IsTreeDamage (layout_of g.now) D.tells (blocks_in (D.state disk.new).contents) (D.given disk.old) (D.given disk.new) result }
    ensures among { IfTreeDamaged result (IsOldIndex D.tells (D.state disk.old).contents was.now) }
    ensures same { IsTrue D.tells → D.state disk.new ≡ D.state disk.old }
    ensures moments { IsTrue D.tells → Adds (D.past disk.old) (D.past disk.new) (λ s. s ≡ D.state disk.old) }
    ensures fixed { D.fixed disk.new ≡ D.fixed disk.old }
    ensures cause { HasTreeCause (D.faults disk.old) (D.faults disk.new) result }
{
    let size = 256 * u64::from(width);
    let root = root_of(was);
    let cut = cut_within(cut_to, size);
    let made = rewrite(alloc, disk, g, &root, cut, &spelled.changes, size, free)?;
    let pages = joined(spelled.pages, made.pages)?;
    Ok(TreePlan {
        inode: Inode::Directory {
            width,
            height: made.root.height,
            ptr: made.root.ptr,
        },
        pages,
        added: made.added,
        dropped: made.dropped,
    })
}

/// Two lists of pages as one.
fn joined(mut first: Vec<Page>, rest: PageList) -> Result<PageList, AllocError>
    ensures { IfOk result (λ pages. pages ≡ first.items ++ rest) }
{
    let mut rest = rest.into_vec();
    first.append(&mut rest)?;
    Ok(PageList::from_vec(first))
}
