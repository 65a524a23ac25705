//! The inodes as a volume has them in memory, of those that a check has left.
ghost use Rattle.std.specs.Prelude.{◌≡◌, ℕ, ◌↔◌, IfOk, IsTrue, MatchOption, map};
ghost use Rattle.vol_numbers.specs.Geometry.{layout_of};
ghost use Rattle.disk_model.specs.Past.{Adds};
ghost use Rattle.block_format.specs.Index.{IsInArea};
ghost use Rattle.block_format.specs.Root.{root_of, HasGeometry};
ghost use Rattle.block_tree.specs.Tree.{blocks_in, index_at};
ghost use Rattle.fs_check.specs.Cause.{HasFsCause};
ghost use Rattle.image_walk.specs.Left.{AreWithin};
ghost use Rattle.inode_file.specs.Inodes.{IsTable};
ghost use Rattle.inode_file.specs.Loading.{IsWithin};
ghost use Rattle.place_words.specs.Rising.{Rising};
ghost use Rattle.volume_load.specs.Known.{AreSound, AreWhole, FindsNothing, HasInodes, IsOfImage, IsOutside, of_tree};

use crate::numbering::numbered;
use block_format::{Inode, RootBody};
use block_tree::TreeFault;
use disk_model::Disk;
use fs_check::CheckFault;
use image_model::Finding;
use inode_file::{InodeFile, is_whole, not_damaged};
use std::alloc::Global;
use vol_numbers::{BlockNo, Geometry, InoNo};

/// The inodes of all numbers, over the inode index of a root. Of the disk it reads that index alone.
///
/// The check has seen that the index and the inodes are within the rules. They are tested again here, where the memory is made of them.
pub(crate) fn known_inodes<D: Disk>(
    alloc: Global,
    disk: &mut D,
    body: &RootBody,
    nodes: &[(InoNo, Inode)],
) -> Result<InodeFile, CheckFault>
    requires size { (root_of body.now).layout.blocks ≡ (D.fixed disk.old).size }
    requires grammar { HasGeometry (root_of body.now) }
    requires rising { Rising 1 (map (λ node. node.0) nodes.now) }
    requires numbers { AreWithin nodes.now }
    // An image that stands for something, and that the nodes are of, has no finding.
    ensures found { IsTrue D.tells → IsOfImage (D.state disk.old).contents body.now nodes.now → FindsNothing result }
    ensures inodes { IfOk result (λ t. HasInodes nodes.now t.inodes) }
    ensures unchanged { IfOk result (λ t. t.inodes ≡ t.stored) }
    ensures pointers { IfOk result (λ t. IsTrue D.tells → index_at (blocks_in (D.state disk.old).contents) body.now.inode_index ≡ t.pointers) }
    ensures index { IfOk result (λ t. t.index ≡ body.now.inode_index) }
    ensures within { IfOk result (IsWithin (layout_of body.now.geometry)) }
    ensures whole { IfOk result IsTable }
    ensures same { IsTrue D.tells → D.state disk.new ≡ D.state disk.old }
    ensures moments { IsTrue D.tells → Adds (D.past disk.old) (D.past disk.new) (λ s. s ≡ D.state disk.old) }
    ensures fixed { D.fixed disk.new ≡ D.fixed disk.old }
    ensures cause { HasFsCause (D.faults disk.old) (D.faults disk.new) result }
{
    match wrong_with(body, nodes) {
        Some(finding) => return Err(CheckFault::Found(finding)),
        None => (),
    }
    let inodes = numbered(alloc, nodes)?;
    not_damaged();
    match InodeFile::of_inodes(alloc, disk, body.inode_index, &body.geometry, inodes) {
        Ok(file) => Ok(file),
        Err(fault) => Err(as_check_fault(fault)),
    }
}

/// What is wrong with an inode index and with inodes, if something is.
fn wrong_with(body: &RootBody, nodes: &[(InoNo, Inode)]) -> Option<Finding>
    ensures { MatchOption result (AreSound (layout_of body.now.geometry) body.now.inode_index nodes.now) (λ finding. ¬ AreSound (layout_of body.now.geometry) body.now.inode_index nodes.now) }
{
    if !is_in_area(body.inode_index, &body.geometry) {
        return Some(Finding::BadPointer(body.inode_index));
    }
    match outside(nodes, &body.geometry) {
        Some(number) => Some(Finding::BadInode(number)),
        None => None,
    }
}

/// Whether it is the number of a block of the area.
fn is_in_area(block: BlockNo, g: &Geometry) -> bool
    ensures { IsTrue result ↔ IsInArea (layout_of g.now) block }
{
    g.area_start() <= block && block < g.blocks()
}

/// The number of the first inode that is out of shape or points out of the area, if one is so.
fn outside(nodes: &[(InoNo, Inode)], g: &Geometry) -> Option<InoNo>
    ensures { MatchOption result (AreWhole (layout_of g.now) nodes.now) (IsOutside (layout_of g.now) nodes.now) }
{
    for node in nodes {
        if !is_whole(&node.1, g) {
            return Some(node.0);
        }
    }
    None
}

/// A damaged inode index is one to which no pointer may lead.
fn as_check_fault(fault: TreeFault) -> CheckFault
    ensures { result ≡ of_tree fault }
{
    match fault {
        TreeFault::Device => CheckFault::Device,
        TreeFault::Damaged(block) => CheckFault::Found(Finding::BadPointer(block)),
        TreeFault::OutOfMemory => CheckFault::OutOfMemory,
    }
}
