//! Compares the counts that are kept with the pointers that were met.
ghost use Rattle.std.specs.Prelude.{◌≡◌, ◌<◌, ◌≤◌, ◌+◌, ◌*◌, ℕ, List, false, length, replicate, get_or, IfOk, IfNone, IsTrue};
ghost use Rattle.vol_numbers.specs.Geometry.{layout_of};
ghost use Rattle.vol_numbers.specs.Layout.{count_blocks};
ghost use Rattle.disk_model.specs.Past.{Adds};
ghost use Rattle.count_pairs.specs.Homes.{blocks_in};
ghost use Rattle.count_pairs.specs.Table.{IsKept};
ghost use Rattle.image_model.specs.Findings.{count_finding, free_in};
ghost use Rattle.image_model.specs.Met.{Met};
ghost use Rattle.image_model.specs.Seen.{Seen, counts_from};
ghost use Rattle.image_walk.specs.Marks.{Says, mark_of};
ghost use Rattle.count_check.specs.Cause.{HasCountCheckCause};
ghost use Rattle.count_check.specs.Comparing.{IsCountFinding};

use crate::CountCheckFault;
use block_format::RootBody;
use count_pairs::CountTable;
use disk_model::Disk;
use image_model::Finding;
use image_walk::Marks;
use std::alloc::Global;
use vol_numbers::Geometry;

/// Counts with which nothing is wrong.
#[derive(Drop)]
pub struct Counted {
    /// How many pointers lead to each block.
    pub counts: CountTable,
    /// How many blocks of the area are free: those to which none leads.
    pub free: u32,
}

/// The counts that a root names, where each is the number of pointers that lead to its block, also of the numbers behind the last block.
///
/// Each count block is read once, from the home that the root names.
///
/// # Errors
///
/// The least block whose kept count is another number, a fault of the disk, or want of memory.
pub fn counts<D: Disk>(
    alloc: Global,
    disk: &mut D,
    body: &RootBody,
    marks: &Marks,
) -> Result<Counted, CountCheckFault>
    requires size { (layout_of body.now.geometry).blocks ≡ (D.fixed disk.old).size }

    // Whatever is seen of an image whose pointers the marks tell, and whose kept counts are those in the homes that the root names.
    ensures found { IsTrue D.tells → (s : Seen) → Says marks.now s.met
        → s.kept ≡ counts_from (blocks_in (D.state disk.old).contents) body.now.homes.bytes 0 (count_blocks (layout_of body.now.geometry))
        → IsCountFinding (layout_of body.now.geometry) s result }
    ensures kept { IfOk result (λ c. IsTrue D.tells → c.counts.counts ≡ counts_from (blocks_in (D.state disk.old).contents) body.now.homes.bytes 0 (count_blocks (layout_of body.now.geometry))) }
    ensures stand { IfOk result (λ c. IsTrue D.tells → IsKept (blocks_in (D.state disk.old).contents) body.now.homes.bytes c.counts) }

    // On every disk the counts are the numbers of pointers, none of them touched, and the free blocks are those of the area with count 0.
    ensures counted { IfOk result (λ c. (b : ℕ) → b < 1024 * count_blocks (layout_of body.now.geometry) → get_or c.counts.counts b 0 ≡ (mark_of marks.now b).pointers) }
    ensures long { IfOk result (λ c. length c.counts.counts ≡ 1024 * count_blocks (layout_of body.now.geometry)) }
    ensures untouched { IfOk result (λ c. c.counts.touched ≡ replicate (count_blocks (layout_of body.now.geometry)) false) }
    ensures free { IfOk result (λ c. c.free ≡ free_in (layout_of body.now.geometry) c.counts.counts) }
    ensures reads { IfOk result (λ c. (D.given disk.new).count ≤ (D.given disk.old).count + count_blocks (layout_of body.now.geometry)) }

    ensures same { IsTrue D.tells → D.state disk.new ≡ D.state disk.old }
    ensures moments { IsTrue D.tells → Adds (D.past disk.old) (D.past disk.new) (λ s. s ≡ D.state disk.old) }
    ensures fixed { D.fixed disk.new ≡ D.fixed disk.old }
    ensures cause { HasCountCheckCause (D.faults disk.old) (D.faults disk.new) result }
{
    let counts = CountTable::load(alloc, disk, body)?;
    match wrong_count(&counts, marks, &body.geometry) {
        Some(finding) => Err(CountCheckFault::Found(finding)),
        None => {
            let free = free_blocks(&counts, &body.geometry);
            Ok(Counted { counts, free })
        }
    }
}

/// The least number with a count that isn't the number of pointers to its block.
fn wrong_count(counts: &CountTable, marks: &Marks, g: &Geometry) -> Option<Finding>
    requires { length counts.now.counts ≡ 1024 * count_blocks (layout_of g.now) }
    ensures finding { (ms : List Met) → Says marks.now ms → result ≡ count_finding ms counts.now.counts 0 (1024 * count_blocks (layout_of g.now)) }
    ensures counted { IfNone result ((b : ℕ) → b < 1024 * count_blocks (layout_of g.now) → get_or counts.now.counts b 0 ≡ (mark_of marks.now b).pointers) }
{
    for block in 0..1_024 * g.count_blocks() {
        let kept = counts.get(block);
        let counted = marks.get(block).pointers;
        if kept != counted {
            return Some(Finding::WrongCount {
                block,
                kept,
                counted,
            });
        }
    }
    None
}

/// How many blocks of the area have the count 0.
fn free_blocks(counts: &CountTable, g: &Geometry) -> u32
    requires { length counts.now.counts ≡ 1024 * count_blocks (layout_of g.now) }
    ensures { result ≡ free_in (layout_of g.now) counts.now.counts }
{
    let mut free = 0;
    for block in g.area_start()..g.blocks() {
        if counts.get(block) == 0 {
            free += 1;
        }
    }
    free
}
