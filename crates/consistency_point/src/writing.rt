//! Writes the blocks of a plan. Nothing is synced here.
ghost use Rattle.std.specs.Prelude.{◌≡◌, ◌≢◌, ◌<◌, ◌≤◌, ◌+◌, [], true, Some, All, OnOk, OnErr, IsTrue};
ghost use Rattle.std.specs.FinMap.{find};
ghost use Rattle.vol_numbers.specs.Cause.{HasCause};
ghost use Rattle.vol_numbers.specs.declared.block.Block.{Block as BlockOf};
ghost use Rattle.vol_numbers.specs.declared.runs.Page.{Page as PageOf};
ghost use Rattle.disk_model.specs.Past.{Adds};
ghost use Rattle.block_tree.specs.Notes.{Stand, page_blocks};
ghost use Rattle.block_tree.specs.Tree.{blocks_in};
ghost use Rattle.count_pairs.specs.Writing.{ChangesOnly};
ghost use Rattle.place_words.specs.Different.{Distinct};
ghost use Rattle.point_plan.specs.Carries.{LineStands};
ghost use Rattle.volume_model.specs.Places.{spot_cmp};
ghost use Rattle.consistency_point.specs.Writing.{IsBlockOf, IsPageOf};

use dirty_store::DirtyStore;
use disk_model::{Disk, DiskFault};
use tree_model::Line;
use vol_numbers::{Block, BlockNo, Fbn, InoNo, Page};

/// Writes each page into its block. No other block changes, at no moment and after no failure.
pub(crate) fn write_pages<D: Disk>(disk: &mut D, pages: &[Page]) -> Result<(), DiskFault>
    requires within { All (λ (p : PageOf). p.at < (D.fixed disk.old).size) pages.now }
    ensures stand { OnOk result (IsTrue D.tells → Distinct (page_blocks pages.now) → Stand pages.now (blocks_in (D.state disk.new).contents)) }
    ensures changes { IsTrue D.tells → ChangesOnly (IsPageOf pages.now) (D.state disk.old) (D.state disk.new) }
    ensures during { IsTrue D.tells → Adds (D.past disk.old) (D.past disk.new) (ChangesOnly (IsPageOf pages.now) (D.state disk.old)) }
    ensures unsynced { OnErr result (IsTrue D.tells → (D.state disk.new).unsynced ≢ []) }
    ensures fixed { D.fixed disk.new ≡ D.fixed disk.old }
    ensures given { D.given disk.new ≡ D.given disk.old }
    ensures cause { HasCause (D.faults disk.old) (D.faults disk.new) result }
{
    for page in pages {
        write_at(disk, page.at, &page.block)?;
    }
    Ok(())
}

/// Writes the staged blocks of a line's places into its blocks.
pub(crate) fn write_line<D: Disk>(
    disk: &mut D,
    dirty: &DirtyStore,
    line: Line,
) -> Result<(), DiskFault>
    requires places { line.place + line.length ≤ 1048576 }
    requires blocks { line.block + line.length ≤ (D.fixed disk.old).size }
    requires numbers { line.block + line.length ≤ 65536 }
    ensures stand { OnOk result (IsTrue D.tells → LineStands dirty.now.overlay (blocks_in (D.state disk.new).contents) line) }
    ensures changes { IsTrue D.tells → ChangesOnly (IsBlockOf line) (D.state disk.old) (D.state disk.new) }
    ensures during { IsTrue D.tells → Adds (D.past disk.old) (D.past disk.new) (ChangesOnly (IsBlockOf line) (D.state disk.old)) }
    ensures unsynced { OnErr result (IsTrue D.tells → (D.state disk.new).unsynced ≢ []) }
    ensures fixed { D.fixed disk.new ≡ D.fixed disk.old }
    ensures given { D.given disk.new ≡ D.given disk.old }
    ensures cause { HasCause (D.faults disk.old) (D.faults disk.new) result }
{
    for k in 0..line.length {
        write_place(disk, dirty, line.number, line.place + k, line.block + k)?;
    }
    Ok(())
}

/// Writes the staged block of a place, where there is one. It is written straight from the store.
fn write_place<D: Disk>(
    disk: &mut D,
    dirty: &DirtyStore,
    number: InoNo,
    place: Fbn,
    at: BlockNo,
) -> Result<(), DiskFault>
    requires { at < (D.fixed disk.old).size }
    ensures stands { OnOk result (IsTrue D.tells → (staged : BlockOf) → find spot_cmp (number, place) dirty.now.overlay.blocks ≡ Some staged → blocks_in (D.state disk.new).contents at ≡ staged.bytes) }
    ensures changes { IsTrue D.tells → ChangesOnly (λ b. b ≡ at) (D.state disk.old) (D.state disk.new) }
    ensures during { Adds (D.past disk.old) (D.past disk.new) (ChangesOnly (λ b. b ≡ at) (D.state disk.old)) }
    ensures unsynced { OnErr result (IsTrue D.tells → (D.state disk.new).unsynced ≢ []) }
    ensures fixed { D.fixed disk.new ≡ D.fixed disk.old }
    ensures given { D.given disk.new ≡ D.given disk.old }
    ensures cause { HasCause (D.faults disk.old) (D.faults disk.new) result }
{
    match dirty.block(number, place) {
        Some(block) => write_at(disk, at, block),
        None => Ok(()),
    }
}

/// Writes a block.
fn write_at<D: Disk>(disk: &mut D, at: BlockNo, block: &Block) -> Result<(), DiskFault>
    requires { at < (D.fixed disk.old).size }
    ensures stands { OnOk result (IsTrue D.tells → blocks_in (D.state disk.new).contents at ≡ block.now.bytes) }
    ensures changes { IsTrue D.tells → ChangesOnly (λ b. b ≡ at) (D.state disk.old) (D.state disk.new) }
    ensures during { Adds (D.past disk.old) (D.past disk.new) (ChangesOnly (λ b. b ≡ at) (D.state disk.old)) }
    ensures unsynced { OnErr result (IsTrue D.tells → (D.state disk.new).unsynced ≢ []) }
    ensures fixed { D.fixed disk.new ≡ D.fixed disk.old }
    ensures given { D.given disk.new ≡ D.given disk.old }
    ensures cause { HasCause (D.faults disk.old) (D.faults disk.new) result }
{
    disk.write_block(at, block)
}
