//! Reads the counts from the homes that a root names.
ghost use Rattle.std.specs.Prelude.{◌≡◌, ◌<◌, ◌≤◌, ◌+◌, ◌*◌, IfOk, IsTrue, length};
ghost use Rattle.vol_numbers.specs.Cause.{HasCause};
ghost use Rattle.vol_numbers.specs.Geometry.{layout_of};
ghost use Rattle.vol_numbers.specs.Layout.{count_blocks};
ghost use Rattle.disk_model.specs.Past.{Adds};
ghost use Rattle.count_pairs.specs.Cause.{HasCountCause};
ghost use Rattle.count_pairs.specs.Homes.{blocks_in, home_of};
ghost use Rattle.count_pairs.specs.Loading.{GivesLast};
ghost use Rattle.count_pairs.specs.Table.{AllStand};
ghost use Rattle.block_format.specs.Words.{words};

use crate::CountFault;
use crate::homes::home;
use block_format::{HomeBits, RootBody, read_counts};
use disk_model::{Disk, DiskFault};
use std::alloc::Global;
use vol_numbers::Block;

/// The counts of all count blocks.
pub(crate) fn read_table<D: Disk>(
    alloc: Global,
    disk: &mut D,
    body: &RootBody,
) -> Result<Vec<u32>, CountFault>
    requires size { (layout_of body.now.geometry).blocks ≡ (D.fixed disk.old).size }
    ensures stand { IfOk result (λ counts. IsTrue D.tells → AllStand (blocks_in (D.state disk.old).contents) body.now.homes.bytes (count_blocks (layout_of body.now.geometry)) counts.items) }
    ensures long { IfOk result (λ counts. length counts.items ≡ 1024 * count_blocks (layout_of body.now.geometry)) }
    ensures given { IfOk result (λ counts. GivesLast (D.given disk.new) body.now.homes.bytes (count_blocks (layout_of body.now.geometry)) counts.items) }
    ensures reads { IfOk result (λ counts. (D.given disk.new).count ≤ (D.given disk.old).count + count_blocks (layout_of body.now.geometry)) }
    ensures same { IsTrue D.tells → D.state disk.new ≡ D.state disk.old }
    ensures moments { IsTrue D.tells → Adds (D.past disk.old) (D.past disk.new) (λ s. s ≡ D.state disk.old) }
    ensures fixed { D.fixed disk.new ≡ D.fixed disk.old }
    ensures cause { HasCountCause (D.faults disk.old) (D.faults disk.new) result }
{
    let mut counts = Vec::new(alloc);
    for i in 0..body.geometry.count_blocks() {
        let block = read_one(disk, &body.homes, i)?;
        counts.extend_from_slice(&block)?;
    }
    Ok(counts)
}

/// The counts of count block i.
fn read_one<D: Disk>(disk: &mut D, homes: &HomeBits, i: u32) -> Result<[u32; 1024], DiskFault>
    requires few { i < 64 }
    requires room { 5 + 2 * i ≤ (D.fixed disk.old).size }
    ensures spelled { IfOk result (λ counts. IsTrue D.tells → words (blocks_in (D.state disk.old).contents (home_of homes.now.bytes i)) ≡ counts) }
    ensures at { IfOk result (λ counts. (D.given disk.new).at ≡ home_of homes.now.bytes i) }
    ensures given { IfOk result (λ counts. words (D.given disk.new).block.bytes ≡ counts) }
    ensures reads { IfOk result (λ counts. (D.given disk.new).count ≤ (D.given disk.old).count + 1) }
    ensures same { IsTrue D.tells → D.state disk.new ≡ D.state disk.old }
    ensures moments { Adds (D.past disk.old) (D.past disk.new) (λ s. s ≡ D.state disk.old) }
    ensures fixed { D.fixed disk.new ≡ D.fixed disk.old }
    ensures cause { HasCause (D.faults disk.old) (D.faults disk.new) result }
{
    let mut block = Block::zero();
    disk.read_block(home(homes, i), &mut block)?;
    Ok(read_counts(&block))
}
