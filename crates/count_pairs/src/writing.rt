//! Writes the count blocks that were touched.
ghost use Rattle.std.specs.Prelude.{◌≡◌, ◌≢◌, ◌<◌, ◌≤◌, ◌+◌, ◌*◌, ℕ, [], true, length, IfOk, OnOk, OnErr, IsTrue};
ghost use Rattle.vol_numbers.specs.Cause.{HasCause};
ghost use Rattle.disk_model.specs.Disk.{is_among};
ghost use Rattle.disk_model.specs.Past.{Adds};
ghost use Rattle.count_pairs.specs.Homes.{blocks_in, other_of};
ghost use Rattle.count_pairs.specs.Table.{count_block, is_touched};
ghost use Rattle.block_format.specs.Words.{words};
ghost use Rattle.count_pairs.specs.Writing.{ChangesOnly, IsWritten, NamesWritten};

use crate::count_block::block_of;
use crate::homes::{flip, other_home};
use block_format::HomeBits;
use disk_model::{Disk, DiskFault};

/// Writes each count block that was touched into its other home, and answers the bits that name what was written.
pub(crate) fn write_touched<D: Disk>(
    disk: &mut D,
    homes: &HomeBits,
    counts: &[u32],
    touched: &[bool],
) -> Result<HomeBits, DiskFault>
    requires long { length counts.now ≡ 1024 * length touched.now }
    requires few { length touched.now ≤ 64 }
    requires room { 3 + 2 * length touched.now ≤ (D.fixed disk.old).size }
    ensures bits { IfOk result (λ new. NamesWritten homes.now.bytes new.bytes touched.now) }
    ensures stand { OnOk result (IsTrue D.tells → (i : ℕ) → is_touched touched.now i ≡ true
        → words (blocks_in (D.state disk.new).contents (other_of homes.now.bytes i)) ≡ count_block counts.now i) }
    ensures joined { OnOk result (IsTrue D.tells → (i : ℕ) → is_touched touched.now i ≡ true → is_among (D.state disk.new).unsynced (other_of homes.now.bytes i) ≡ true) }
    ensures changes { IsTrue D.tells → ChangesOnly (IsWritten homes.now.bytes touched.now) (D.state disk.old) (D.state disk.new) }
    ensures during { IsTrue D.tells → Adds (D.past disk.old) (D.past disk.new) (ChangesOnly (IsWritten homes.now.bytes touched.now) (D.state disk.old)) }
    ensures unsynced { OnErr result (IsTrue D.tells → (D.state disk.new).unsynced ≢ []) }
    ensures fixed { D.fixed disk.new ≡ D.fixed disk.old }
    ensures given { D.given disk.new ≡ D.given disk.old }
    ensures cause { HasCause (D.faults disk.old) (D.faults disk.new) result }
{
    let mut new = *homes;
    for i in 0..touched.len() as u32 {
        if !touched[i as usize] {
            continue;
        }
        write_one(disk, homes, counts, i)?;
        flip(&mut new, i);
    }
    Ok(new)
}

/// Writes count block i into its other home.
fn write_one<D: Disk>(
    disk: &mut D,
    homes: &HomeBits,
    counts: &[u32],
    i: u32,
) -> Result<(), DiskFault>
    requires long { 1024 * i + 1024 ≤ length counts.now }
    requires few { i < 64 }
    requires room { 5 + 2 * i ≤ (D.fixed disk.old).size }
    ensures stands { OnOk result (IsTrue D.tells → words (blocks_in (D.state disk.new).contents (other_of homes.now.bytes i)) ≡ count_block counts.now i) }
    ensures joined { OnOk result (IsTrue D.tells → is_among (D.state disk.new).unsynced (other_of homes.now.bytes i) ≡ true) }
    ensures changes { IsTrue D.tells → ChangesOnly (λ b. b ≡ other_of homes.now.bytes i) (D.state disk.old) (D.state disk.new) }
    ensures during { Adds (D.past disk.old) (D.past disk.new) (ChangesOnly (λ b. b ≡ other_of homes.now.bytes i) (D.state disk.old)) }
    ensures unsynced { OnErr result (IsTrue D.tells → (D.state disk.new).unsynced ≢ []) }
    ensures fixed { D.fixed disk.new ≡ D.fixed disk.old }
    ensures given { D.given disk.new ≡ D.given disk.old }
    ensures cause { HasCause (D.faults disk.old) (D.faults disk.new) result }
{
    disk.write_block(other_home(homes, i), &block_of(counts, i))
}
