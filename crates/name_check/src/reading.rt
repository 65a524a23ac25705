//! Reads blocks that are on the disk.
ghost use Rattle.std.specs.Prelude.{◌≡◌, ◌≤◌, ◌<◌, ◌+◌, IfOk, ◌++◌, ◌∷◌, [], IfErr, OnOk, IsTrue, length};
ghost use Rattle.vol_numbers.specs.Cause.{HasCause};
ghost use Rattle.disk_model.specs.Past.{Adds};
ghost use Rattle.block_tree.specs.Tree.{blocks_in};
ghost use Rattle.image_walk.specs.Blocks.{AreOnDisk};
ghost use Rattle.name_check.specs.Cause.{HasNameCause, IsNoFinding};
ghost use Rattle.name_check.specs.Directories.{HaveBytes};

use crate::NameFault;
use disk_model::{Disk, DiskFault};
use image_walk::NodeBlock;
use std::alloc::{AllocError, Global};
use vol_numbers::{Block, BlockNo, Page, PageList};

/// A block of the disk.
pub(crate) fn read_block<D: Disk>(disk: &mut D, at: BlockNo) -> Result<Block, DiskFault>
    requires { at < (D.fixed disk.old).size }
    ensures bytes { IfOk result (λ block. IsTrue D.tells → blocks_in (D.state disk.old).contents at ≡ block.bytes) }
    ensures reads { OnOk result ((D.given disk.new).count ≤ (D.given disk.old).count + 1) }
    ensures same { IsTrue D.tells → D.state disk.new ≡ D.state disk.old }
    ensures moments { IsTrue D.tells → Adds (D.past disk.old) (D.past disk.new) (λ s. s ≡ D.state disk.old) }
    ensures fixed { D.fixed disk.new ≡ D.fixed disk.old }
    ensures cause { HasCause (D.faults disk.old) (D.faults disk.new) result }
{
    let mut block = Block::zero();
    disk.read_block(at, &mut block)?;
    Ok(block)
}

/// The blocks of a directory, in their order. Each is read once.
pub(crate) fn read_pages<D: Disk>(
    alloc: Global,
    disk: &mut D,
    own: &[NodeBlock],
) -> Result<PageList, NameFault>
    requires { AreOnDisk (D.fixed disk.old).size own.now }
    ensures count { IfOk result (λ pages. length pages ≡ length own.now) }
    ensures bytes { IfOk result (λ pages. IsTrue D.tells → HaveBytes (blocks_in (D.state disk.old).contents) own.now pages) }
    ensures no_finding { IfErr result (λ fault. IsNoFinding fault) }
    ensures reads { OnOk result ((D.given disk.new).count ≤ (D.given disk.old).count + length own.now) }
    ensures same { IsTrue D.tells → D.state disk.new ≡ D.state disk.old }
    ensures moments { IsTrue D.tells → Adds (D.past disk.old) (D.past disk.new) (λ s. s ≡ D.state disk.old) }
    ensures fixed { D.fixed disk.new ≡ D.fixed disk.old }
    ensures cause { HasNameCause (D.faults disk.old) (D.faults disk.new) result }
{
    let mut pages = Vec::with_capacity(alloc, own.len())?;
    for there in own {
        let block = read_block(disk, there.block)?;
        push(&mut pages, there.block, block)?;
    }
    Ok(PageList::from_vec(pages))
}

/// Puts a block behind the others.
fn push(pages: &mut Vec<Page>, at: BlockNo, block: Block) -> Result<(), AllocError>
    ensures { OnOk result (pages.new.items ≡ pages.old.items ++ record { at = at; block = block } ∷ []) }
{
    pages.push(Page { at, block })?;
    Ok(())
}
