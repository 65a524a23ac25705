//! The walk as a whole.
ghost use Rattle.std.specs.Prelude.{◌≡◌, ◌≤◌, ◌+◌, ◌*◌, ◌++◌, [], map, IfOk, IsOk, OnOk, IsTrue, length, replicate, true};
ghost use Rattle.vol_numbers.specs.Geometry.{layout_of};
ghost use Rattle.vol_numbers.specs.Layout.{count_blocks};
ghost use Rattle.disk_model.specs.Past.{Adds};
ghost use Rattle.block_tree.specs.Tree.{blocks_in};
ghost use Rattle.image_model.specs.Slots.{inode_of};
ghost use Rattle.image_model.specs.Walk.{is_directory, nodes_at, walk};
ghost use Rattle.image_walk.specs.Cause.{HasWalkCause};
ghost use Rattle.image_walk.specs.Kept.{all_lasts};
ghost use Rattle.image_walk.specs.Blocks.{AreOnDisk, NeverFall, blocks_held};
ghost use Rattle.image_walk.specs.Left.{AreWithin, HasOwners, HaveWidths, OfSeen, SeesEnds};
ghost use Rattle.image_walk.specs.Order.{InOrder, NodesRise};
ghost use Rattle.place_words.specs.Rising.{Rising};
ghost use Rattle.image_walk.specs.Marks.{Says, no_mark};
ghost use Rattle.image_walk.specs.Reads.{metadata_count};
ghost use Rattle.image_walk.specs.Trees.{PassesOver};
ghost use Rattle.image_walk.specs.Walked.{IsFinding};

use crate::index::walk_index;
use crate::inodes::walk_inodes;
use crate::reached::Reached;
use crate::root::walk_root;
use crate::trees::walk_trees;
use crate::{Marks, NodeBlockList, WalkFault};
use block_format::Inode;
use disk_model::Disk;
use std::alloc::{AllocError, Global};
use vol_numbers::{BlockNo, Geometry, InoNo, ItemList};

/// The used inodes with their numbers, in order.
pub type NodeList = ItemList<(InoNo, Inode)>;

/// What a walk that found nothing wrong has reached.
#[derive(Drop)]
pub struct Walked {
    pub nodes: NodeList,
    /// What leads to each block.
    pub marks: Marks,
    /// The blocks of directories.
    pub pages: NodeBlockList,
    /// Of each file, the block of its last place, where there is no hole.
    pub lasts: NodeBlockList,
}

/// A walk that goes on.
#[derive(Drop)]
struct Walking {
    nodes: Vec<(InoNo, Inode)>,
    reached: Reached,
}

/// Walks from an inode index over all metadata.
///
/// It ends with the first thing that is wrong. It reads each block of metadata once, but for those of directories, and no block of a file.
/// It takes memory for the marks, the nodes, the places of directories' blocks, and one block's number a file.
pub fn walk<D: Disk>(
    alloc: Global,
    disk: &mut D,
    g: &Geometry,
    at: BlockNo,
) -> Result<Walked, WalkFault>
    requires { (layout_of g.now).blocks ≡ (D.fixed disk.old).size }
    ensures found { IsTrue D.tells → IsFinding (layout_of g.now) (walk (blocks_in (D.state disk.old).contents) at) result }
    ensures nodes { IfOk result (λ w. IsTrue D.tells → w.nodes ≡ nodes_at (blocks_in (D.state disk.old).contents) at) }
    ensures marks { IfOk result (λ w. IsTrue D.tells → Says w.marks (walk (blocks_in (D.state disk.old).contents) at)) }
    ensures long { IfOk result (λ w. length w.marks ≡ 1024 * count_blocks (layout_of g.now)) }
    // Where the disk tells: what later phases look at is what is seen.
    ensures pages { IfOk result (λ w. IsTrue D.tells → OfSeen (blocks_in (D.state disk.old).contents) at (λ s. s.pages ≡ blocks_held (blocks_in (D.state disk.old).contents) w.pages)) }
    ensures owners { IsOk result → IsTrue D.tells → OfSeen (blocks_in (D.state disk.old).contents) at HasOwners }
    ensures ends { IfOk result (λ w. IsTrue D.tells → OfSeen (blocks_in (D.state disk.old).contents) at (SeesEnds (blocks_in (D.state disk.old).contents) w.lasts)) }
    // Where the disk tells: no more reads than blocks of metadata that are met, but for those of directories.
    ensures reads { OnOk result (IsTrue D.tells → (D.given disk.new).count ≤ (D.given disk.old).count + metadata_count (walk (blocks_in (D.state disk.old).contents) at)) }
    ensures few { OnOk result (IsTrue D.tells → metadata_count (walk (blocks_in (D.state disk.old).contents) at) ≤ (layout_of g.now).blocks) }

    // On every disk nodes and blocks come by number, sizes and widths are within their limits, number 1 is a directory, and blocks are on the disk.
    ensures numbers { IfOk result (λ w. Rising 1 (map (λ node. node.0) w.nodes)) }
    ensures within { IfOk result (λ w. AreWithin w.nodes) }
    ensures widths { IfOk result (λ w. HaveWidths w.nodes) }
    ensures root { IfOk result (λ w. is_directory (inode_of w.nodes 1) ≡ true) }
    ensures order { IfOk result (λ w. NeverFall w.pages × NeverFall w.lasts) }
    ensures on_disk { IfOk result (λ w. AreOnDisk (D.fixed disk.old).size w.pages × AreOnDisk (D.fixed disk.old).size w.lasts) }

    ensures same { IsTrue D.tells → D.state disk.new ≡ D.state disk.old }
    ensures moments { IsTrue D.tells → Adds (D.past disk.old) (D.past disk.new) (λ s. s ≡ D.state disk.old) }
    ensures fixed { D.fixed disk.new ≡ D.fixed disk.old }
    ensures cause { HasWalkCause (D.faults disk.old) (D.faults disk.new) result }
{
    let mut walking = Walking::new(alloc, g)?;
    walk_parts(disk, g, at, &mut walking)?;
    Ok(walking.end())
}

impl Walking {
    /// Nothing was reached.
    fn new(alloc: Global, g: &Geometry) -> Result<Walking, AllocError>
        ensures nodes { IfOk result (λ w. w.nodes.items ≡ []) }
        ensures marks { IfOk result (λ w. w.reached.marks ≡ replicate (1024 * count_blocks (layout_of g.now)) no_mark) }
        ensures pages { IfOk result (λ w. w.reached.pages.items ≡ []) }
        ensures lasts { IfOk result (λ w. w.reached.lasts.items ≡ []) }
    {
        let reached = Reached::new(alloc, g)?;
        Ok(Walking {
            nodes: Vec::new(alloc),
            reached,
        })
    }

    /// All was reached.
    fn end(self) -> Walked
        ensures nodes { result.nodes ≡ self.nodes.items }
        ensures marks { result.marks ≡ self.reached.marks }
        ensures pages { result.pages ≡ self.reached.pages.items }
        ensures lasts { result.lasts ≡ self.reached.lasts.items }
    {
        Walked {
            nodes: ItemList::from_vec(self.nodes),
            marks: self.reached.marks,
            pages: ItemList::from_vec(self.reached.pages),
            lasts: ItemList::from_vec(self.reached.lasts),
        }
    }
}

/// The parts of the walk in their order.
fn walk_parts<D: Disk>(
    disk: &mut D,
    g: &Geometry,
    at: BlockNo,
    walking: &mut Walking,
) -> Result<(), WalkFault>
    requires size { (layout_of g.now).blocks ≡ (D.fixed disk.old).size }
    requires marks { length walking.old.reached.marks ≡ 1024 * count_blocks (layout_of g.now) }
    requires nodes { walking.old.nodes.items ≡ [] }
    requires pages { walking.old.reached.pages.items ≡ [] }
    requires lasts { walking.old.reached.lasts.items ≡ [] }
    ensures walked { IsTrue D.tells → PassesOver (layout_of g.now) walking.old.reached walking.new.reached (walk (blocks_in (D.state disk.old).contents) at) (all_lasts (blocks_in (D.state disk.old).contents) (nodes_at (blocks_in (D.state disk.old).contents) at)) result }
    ensures nodes { OnOk result (IsTrue D.tells → walking.new.nodes.items ≡ nodes_at (blocks_in (D.state disk.old).contents) at) }
    ensures rise { OnOk result (NodesRise 0 65536 walking.new.nodes.items) }
    ensures root { OnOk result (is_directory (inode_of walking.new.nodes.items 1) ≡ true) }
    ensures order { OnOk result (InOrder (layout_of g.now).blocks [] walking.new.reached) }
    ensures long { OnOk result (length walking.new.reached.marks ≡ length walking.old.reached.marks) }
    ensures same { IsTrue D.tells → D.state disk.new ≡ D.state disk.old }
    ensures moments { IsTrue D.tells → Adds (D.past disk.old) (D.past disk.new) (λ s. s ≡ D.state disk.old) }
    ensures fixed { D.fixed disk.new ≡ D.fixed disk.old }
    ensures reads { OnOk result (IsTrue D.tells → (D.given disk.new).count ≤ (D.given disk.old).count + metadata_count (walk (blocks_in (D.state disk.old).contents) at)) }
    ensures cause { HasWalkCause (D.faults disk.old) (D.faults disk.new) result }
{
    let entries = walk_index(disk, g, at, &mut walking.reached.marks)?;
    walk_inodes(disk, g, &entries, &mut walking.nodes)?;
    walk_root(&walking.nodes)?;
    walk_trees(disk, g, &walking.nodes, &mut walking.reached)
}
