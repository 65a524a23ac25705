//! Counts the index blocks of a tree.
ghost use Rattle.std.specs.Prelude.{◌≡◌, ◌<◌, ◌≤◌, ◌↔◌, length, IfOk, IfSome, IfNone, IsTrue, true, false};
ghost use Rattle.vol_numbers.specs.Geometry.{layout_of};
ghost use Rattle.disk_model.specs.Past.{Adds};
ghost use Rattle.place_words.specs.Different.{is_among};
ghost use Rattle.block_format.specs.Index.{IsPointer};
ghost use Rattle.block_tree.specs.Tree.{Blocks, blocks_in, index_at, nonzero};
ghost use Rattle.block_tree.specs.Root.{IsRoot, tree_indexes};
ghost use Rattle.block_tree.specs.Notes.{Stand, page_blocks};
ghost use Rattle.block_tree.specs.Causes.{HasTreeCause, IsTreeDamage, IfTreeDamaged, IsBlockOf};
ghost use Rattle.tree_plan.specs.Trees.{HasTopIndex};

use block_format::{Index, counts_of_block, read_counts, read_index};
use block_tree::{TreeFault, TreeRoot};
use disk_model::{Disk, DiskFault};
use vol_numbers::{Block, BlockNo, Geometry, Page};

/// How many index blocks a tree on the disk has. Only a top index is read.
pub(crate) fn index_count<D: Disk>(
    disk: &mut D,
    g: &Geometry,
    root: &TreeRoot,
) -> Result<u32, TreeFault>
    requires volume { (layout_of g.now).blocks ≡ (D.fixed disk.old).size }
    requires root { IsRoot (layout_of g.now) root.now }
    ensures count { IfOk result (λ n. IsTrue D.tells → n ≡ length (tree_indexes (blocks_in (D.state disk.old).contents) root.now)) }
    ensures at_most { IfOk result (λ n. n ≤ 1025) }
    ensures damaged { IsTreeDamage (layout_of g.now) D.tells (blocks_in (D.state disk.new).contents) (D.given disk.old) (D.given disk.new) result }
    // A damaged block is one of the tree's index blocks.
    ensures among { IfTreeDamaged result (λ b. IsTrue D.tells → is_among (tree_indexes (blocks_in (D.state disk.old).contents) root.now) b ≡ true) }
    ensures same { IsTrue D.tells → D.state disk.new ≡ D.state disk.old }
    ensures moments { IsTrue D.tells → Adds (D.past disk.old) (D.past disk.new) (λ s. s ≡ D.state disk.old) }
    ensures fixed { D.fixed disk.new ≡ D.fixed disk.old }
    ensures cause { HasTreeCause (D.faults disk.old) (D.faults disk.new) result }
{
    if !has_top_index(root) {
        return Ok(low_count(root));
    }
    let index = top_index(disk, g, root.ptr)?;
    Ok(1 + pointers_in(&index.ptrs))
}

/// How many index blocks a tree has in each image in which these pages stand. Where no page is its top index, it has as many as before.
pub(crate) fn index_count_with(root: &TreeRoot, pages: &[Page], before: u32) -> u32
    requires height { root.now.height ≤ 2 }
    requires before { before ≤ 1025 }
    ensures count { (read : Blocks) → Stand pages.now read → (HasTopIndex root.now → is_among (page_blocks pages.now) root.now.ptr ≡ false → before ≡ length (tree_indexes read root.now))
        → result ≡ length (tree_indexes read root.now) }
    ensures at_most { result ≤ 1025 }
{
    if !has_top_index(root) {
        return low_count(root);
    }
    match pointers_at(pages, root.ptr) {
        Some(count) => 1 + count,
        None => before,
    }
}

/// Whether a tree has a top index.
fn has_top_index(root: &TreeRoot) -> bool
    requires { root.now.height ≤ 2 }
    ensures is { IsTrue result ↔ HasTopIndex root.now }
{
    root.height == 2 && root.ptr != 0
}

/// How many index blocks a tree has that has no top index.
fn low_count(root: &TreeRoot) -> u32
    requires height { root.now.height ≤ 2 }
    requires low { HasTopIndex root.now → ⊥ }
    ensures is { (read : Blocks) → result ≡ length (tree_indexes read root.now) }
    ensures at_most { result ≤ 1 }
{
    if root.height == 1 && root.ptr != 0 {
        1
    } else {
        0
    }
}

/// The pointers of a top index.
fn top_index<D: Disk>(disk: &mut D, g: &Geometry, at: BlockNo) -> Result<Index, TreeFault>
    requires volume { (layout_of g.now).blocks ≡ (D.fixed disk.old).size }
    requires at { IsPointer (layout_of g.now) at }
    requires some { 0 < at }
    ensures pointers { IfOk result (λ index. IsTrue D.tells → index_at (blocks_in (D.state disk.old).contents) at ≡ index.ptrs) }
    ensures damaged { IsTreeDamage (layout_of g.now) D.tells (blocks_in (D.state disk.new).contents) (D.given disk.old) (D.given disk.new) result }
    ensures read { IfTreeDamaged result (IsBlockOf at) }
    ensures same { IsTrue D.tells → D.state disk.new ≡ D.state disk.old }
    ensures moments { IsTrue D.tells → Adds (D.past disk.old) (D.past disk.new) (λ s. s ≡ D.state disk.old) }
    ensures fixed { D.fixed disk.new ≡ D.fixed disk.old }
    ensures cause { HasTreeCause (D.faults disk.old) (D.faults disk.new) result }
{
    let mut block = Block::zero();
    if let Err(DiskFault) = disk.read_block(at, &mut block) {
        return Err(TreeFault::Device);
    }
    match read_index(&block, g) {
        Some(index) => Ok(index),
        None => {
            // Each block spells numbers, so that this one has a number that is no pointer.
            counts_of_block(&block);
            Err(TreeFault::Damaged(at))
        }
    }
}

/// How many pointers the page of a block has, where there is one.
fn pointers_at(pages: &[Page], at: BlockNo) -> Option<u32>
    requires { 0 < at }
    ensures found { IfSome result (λ n. (read : Blocks) → Stand pages.now read → n ≡ length (nonzero (index_at read at))) }
    ensures at_most { IfSome result (λ n. n ≤ 1024) }
    ensures none { IfNone result (is_among (page_blocks pages.now) at ≡ false) }
{
    for page in pages {
        if page.at == at {
            return Some(pointers_in(&read_counts(&page.block)));
        }
    }
    None
}

/// How many of these lead to blocks.
fn pointers_in(ptrs: &[BlockNo]) -> u32
    requires { length ptrs.now ≤ 1024 }
    ensures is { result ≡ length (nonzero ptrs.now) }
    ensures at_most { result ≤ 1024 }
{
    let mut count = 0;
    for ptr in ptrs {
        if *ptr != 0 {
            count += 1;
        }
    }
    count
}
