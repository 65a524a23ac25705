//! Bytes behind the size of a file.
ghost use Rattle.std.specs.Prelude.{◌≡◌, ◌<◌, ◌≤◌, length, ◌==◌, ◌+◌, ◌-◌, ◌*◌, ◌∷◌, [], ℕ, Some, not, map, take, drop, IfOk, OnOk, IsTrue, option_map};
ghost use Rattle.std.specs.List.{list_all};
ghost use Rattle.vol_numbers.specs.Cause.{HasCause};
ghost use Rattle.disk_model.specs.Past.{Adds};
ghost use Rattle.block_format.specs.Inode.{blocks_of};
ghost use Rattle.block_tree.specs.Tree.{blocks_in};
ghost use Rattle.image_model.specs.Nodes.{tail_finding, has_tail};
ghost use Rattle.image_model.specs.Seen.{Seen};
ghost use Rattle.image_model.specs.declared.finding.Finding.TheVariants.{BadTail};
ghost use Rattle.image_walk.specs.Blocks.{NeverFall, AreOnDisk};
ghost use Rattle.image_walk.specs.Left.{SeesEnds};
ghost use Rattle.image_walk.specs.Reads.{file_count};
ghost use Rattle.name_check.specs.Tails.{has_tail_in, node_has_tail};

use crate::blocks::block_at;
use crate::reading::read_block;
use block_format::Inode;
use disk_model::{Disk, DiskFault};
use image_walk::NodeBlock;
use vol_numbers::{Block, BlockNo, InoNo};

/// The first of the nodes that is a file with a byte past its size that isn't 0. Each last block is read once.
pub fn tails<D: Disk>(
    disk: &mut D,
    nodes: &[(InoNo, Inode)],
    last_blocks: &[NodeBlock],
) -> Result<Option<InoNo>, DiskFault>
    requires order { NeverFall last_blocks.now }
    requires size { AreOnDisk (D.fixed disk.old).size last_blocks.now }
    ensures found { IfOk result (λ found. IsTrue D.tells → (s : Seen) → s.nodes ≡ nodes.now → SeesEnds (blocks_in (D.state disk.old).contents) last_blocks.now s
        → option_map (λ n. BadTail n) found ≡ tail_finding s) }
    ensures reads { OnOk result ((D.given disk.new).count ≤ (D.given disk.old).count + file_count nodes.now) }
    ensures same { IsTrue D.tells → D.state disk.new ≡ D.state disk.old }
    ensures moments { IsTrue D.tells → Adds (D.past disk.old) (D.past disk.new) (λ s. s ≡ D.state disk.old) }
    ensures fixed { D.fixed disk.new ≡ D.fixed disk.old }
    ensures cause { HasCause (D.faults disk.old) (D.faults disk.new) result }
{
    for node in nodes {
        if is_bad(disk, node, last_blocks)? {
            return Ok(Some(node.0));
        }
    }
    Ok(None)
}

/// Whether a node is a file with a byte past its size that isn't 0.
fn is_bad<D: Disk>(
    disk: &mut D,
    node: &(InoNo, Inode),
    last_blocks: &[NodeBlock],
) -> Result<bool, DiskFault>
    requires order { NeverFall last_blocks.now }
    requires size { AreOnDisk (D.fixed disk.old).size last_blocks.now }
    ensures has { IfOk result (λ has. IsTrue D.tells → has ≡ node_has_tail (blocks_in (D.state disk.old).contents) last_blocks.now node.now) }
    ensures reads { OnOk result ((D.given disk.new).count ≤ (D.given disk.old).count + file_count (node.now ∷ [])) }
    ensures same { IsTrue D.tells → D.state disk.new ≡ D.state disk.old }
    ensures moments { IsTrue D.tells → Adds (D.past disk.old) (D.past disk.new) (λ s. s ≡ D.state disk.old) }
    ensures fixed { D.fixed disk.new ≡ D.fixed disk.old }
    ensures cause { HasCause (D.faults disk.old) (D.faults disk.new) result }
{
    match node.1 {
        Inode::File { size, .. } => has_tail(disk, node.0, size, last_blocks),
        _ => Ok(false),
    }
}

/// Whether a file of this number and size has a byte past the size that isn't 0.
fn has_tail<D: Disk>(
    disk: &mut D,
    number: InoNo,
    size: u64,
    last_blocks: &[NodeBlock],
) -> Result<bool, DiskFault>
    requires order { NeverFall last_blocks.now }
    requires size { AreOnDisk (D.fixed disk.old).size last_blocks.now }
    ensures has { IfOk result (λ has. IsTrue D.tells → has ≡ has_tail_in (blocks_in (D.state disk.old).contents) last_blocks.now number size) }
    ensures reads { OnOk result ((D.given disk.new).count ≤ (D.given disk.old).count + 1) }
    ensures same { IsTrue D.tells → D.state disk.new ≡ D.state disk.old }
    ensures moments { IsTrue D.tells → Adds (D.past disk.old) (D.past disk.new) (λ s. s ≡ D.state disk.old) }
    ensures fixed { D.fixed disk.new ≡ D.fixed disk.old }
    ensures cause { HasCause (D.faults disk.old) (D.faults disk.new) result }
{
    let place = size.div_ceil(4_096).saturating_sub(1);
    match block_at(last_blocks, number, place) {
        Some(block) => has_bytes(disk, block, (size - 4_096 * place) as usize),
        None => Ok(false),
    }
}

/// Whether a block has a byte from one on that isn't 0.
fn has_bytes<D: Disk>(disk: &mut D, block: BlockNo, from: usize) -> Result<bool, DiskFault>
    requires block { block < (D.fixed disk.old).size }
    requires from { from ≤ 4096 }
    ensures has { IfOk result (λ has. IsTrue D.tells → has ≡ not (list_all (λ b. b == 0) (drop from (take 4096 (blocks_in (D.state disk.old).contents block))))) }
    ensures reads { OnOk result ((D.given disk.new).count ≤ (D.given disk.old).count + 1) }
    ensures same { IsTrue D.tells → D.state disk.new ≡ D.state disk.old }
    ensures moments { IsTrue D.tells → Adds (D.past disk.old) (D.past disk.new) (λ s. s ≡ D.state disk.old) }
    ensures fixed { D.fixed disk.new ≡ D.fixed disk.old }
    ensures cause { HasCause (D.faults disk.old) (D.faults disk.new) result }
{
    let block = read_block(disk, block)?;
    Ok(!is_zero_from(&block, from))
}

/// Whether all bytes of a block from one on are 0.
fn is_zero_from(block: &Block, from: usize) -> bool
    requires { from ≤ 4096 }
    ensures { result ≡ list_all (λ b. b == 0) (drop from (take 4096 block.now.bytes)) }
{
    are_zeros(&block.bytes, from)
}

/// Whether all bytes from one on are 0.
fn are_zeros(bytes: &[u8], from: usize) -> bool
    requires { from ≤ length bytes.now }
    ensures { result ≡ list_all (λ b. b == 0) (drop from bytes.now) }
{
    for i in from..bytes.len() {
        if bytes[i] != 0 {
            return false;
        }
    }
    true
}
