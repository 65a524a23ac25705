//! The phases behind the root and before the log, one after the other.
ghost use Rattle.std.specs.Prelude.{◌≡◌, ◌≤◌, ◌+◌, ◌*◌, false, IfOk, IsTrue, length, replicate};
ghost use Rattle.vol_numbers.specs.Geometry.{layout_of};
ghost use Rattle.vol_numbers.specs.Layout.{count_blocks};
ghost use Rattle.disk_model.specs.Past.{Adds};
ghost use Rattle.block_format.specs.Root.{root_of};
ghost use Rattle.block_tree.specs.Tree.{blocks_in};
ghost use Rattle.root_switch.specs.Current.{root_of_image};
ghost use Rattle.count_pairs.specs.Table.{IsKept};
ghost use Rattle.image_model.specs.Findings.{body_finding, free_in};
ghost use Rattle.image_model.specs.Seen.{Seen, seen};
ghost use Rattle.name_check.specs.Seeing.{HoldsDirectories};
ghost use Rattle.log_check.specs.Holding.{AreNodes, FindsNoneLost};
ghost use Rattle.fs_check.specs.Cause.{HasFsCause};
ghost use Rattle.fs_check.specs.Left.{IsLeft, IsSeen};
ghost use Rattle.fs_check.specs.Looked.{IsLookedAt, IsWellFormed};
ghost use Rattle.fs_check.specs.Phases.{IsPhase, names_finding, rest_finding};
ghost use Rattle.fs_check.specs.Reads.{reads_behind};
ghost use Rattle.image_walk.specs.Reads.{file_count};

use crate::CheckFault;
use crate::counting::good_counts;
use crate::mixing::unmixed;
use crate::naming::good_directories;
use crate::tailing::clean_tails;
use crate::treeing::one_tree;
use crate::walking::reach;
use block_format::RootBody;
use count_check::Counted;
use count_pairs::CountTable;
use disk_model::Disk;
use held_list::HeldList;
use image_walk::{NodeList, Walked, count_metadata};
use std::alloc::Global;
use vol_numbers::Geometry;

/// What there is behind a root, but for the log.
#[derive(Drop)]
pub(crate) struct Looked {
    pub(crate) nodes: NodeList,
    pub(crate) directories: HeldList,
    pub(crate) counts: CountTable,
    /// How many blocks are free.
    pub(crate) free: u32,
    /// How many blocks are metadata.
    pub(crate) metadata: u32,
}

/// Looks at all that a root leads to, but for the log, in the order of the phases.
pub(crate) fn look<D: Disk>(
    alloc: Global,
    disk: &mut D,
    body: &RootBody,
) -> Result<Looked, CheckFault>
    requires size { (root_of body.now).layout.blocks ≡ (D.fixed disk.old).size }
    requires root { IsTrue D.tells → root_of_image (D.state disk.old).contents ≡ root_of body.now }
    ensures found { IsTrue D.tells → IsPhase (body_finding (root_of body.now).layout (seen (D.state disk.old).contents)) result }
    ensures looked { IfOk result (λ l. IsTrue D.tells → IsLookedAt (D.state disk.old).contents body.now l) }
    ensures formed { IfOk result (IsWellFormed (root_of body.now).layout) }
    ensures reads { IfOk result (λ l. IsTrue D.tells → (D.given disk.new).count ≤ (D.given disk.old).count + reads_behind (seen (D.state disk.old).contents) + count_blocks (root_of body.now).layout) }
    ensures same { IsTrue D.tells → D.state disk.new ≡ D.state disk.old }
    ensures moments { IsTrue D.tells → Adds (D.past disk.old) (D.past disk.new) (λ s. s ≡ D.state disk.old) }
    ensures fixed { D.fixed disk.new ≡ D.fixed disk.old }
    ensures cause { HasFsCause (D.faults disk.old) (D.faults disk.new) result }
{
    let walked = reach(alloc, disk, body)?;
    let (directories, counted) = names_and_counts(alloc, disk, body, &walked)?;
    let metadata = count_metadata(&walked.marks, &body.geometry);
    Ok(Looked {
        nodes: walked.nodes,
        directories,
        counts: counted.counts,
        free: counted.free,
        metadata,
    })
}

/// The directories and the counts, where nothing is found between the walk and the log.
fn names_and_counts<D: Disk>(
    alloc: Global,
    disk: &mut D,
    body: &RootBody,
    walked: &Walked,
) -> Result<(HeldList, Counted), CheckFault>
    requires size { (root_of body.now).layout.blocks ≡ (D.fixed disk.old).size }
    requires root { IsTrue D.tells → root_of_image (D.state disk.old).contents ≡ root_of body.now }
    requires left { IsLeft (D.fixed disk.old).size walked.now }
    ensures found { IsTrue D.tells → IsSeen (blocks_in (D.state disk.old).contents) walked.now (seen (D.state disk.old).contents)
        → IsPhase (rest_finding (root_of body.now).layout (seen (D.state disk.old).contents)) result }
    ensures holds { IfOk result (λ l. IsTrue D.tells → IsSeen (blocks_in (D.state disk.old).contents) walked.now (seen (D.state disk.old).contents)
        → HoldsDirectories (seen (D.state disk.old).contents) l.0) }
    ensures are { IfOk result (λ l. AreNodes walked.now.nodes l.0) }
    ensures none_lost { IfOk result (λ l. FindsNoneLost walked.now.nodes l.0) }
    ensures kept { IfOk result (λ l. IsTrue D.tells → l.1.counts.counts ≡ (seen (D.state disk.old).contents).kept) }
    ensures stand { IfOk result (λ l. IsTrue D.tells → IsKept (blocks_in (D.state disk.old).contents) body.now.homes.bytes l.1.counts) }
    ensures long { IfOk result (λ l. length l.1.counts.counts ≡ 1024 * count_blocks (root_of body.now).layout) }
    ensures untouched { IfOk result (λ l. l.1.counts.touched ≡ replicate (count_blocks (root_of body.now).layout) false) }
    ensures free { IfOk result (λ l. l.1.free ≡ free_in (root_of body.now).layout l.1.counts.counts) }
    ensures reads { IfOk result (λ l. (D.given disk.new).count ≤ (D.given disk.old).count + file_count walked.now.nodes + length walked.now.pages + count_blocks (root_of body.now).layout) }
    ensures same { IsTrue D.tells → D.state disk.new ≡ D.state disk.old }
    ensures moments { IsTrue D.tells → Adds (D.past disk.old) (D.past disk.new) (λ s. s ≡ D.state disk.old) }
    ensures fixed { D.fixed disk.new ≡ D.fixed disk.old }
    ensures cause { HasFsCause (D.faults disk.old) (D.faults disk.new) result }
{
    let directories = good_names(alloc, disk, &body.geometry, walked)?;
    let counted = good_counts(alloc, disk, body, &walked.marks)?;
    Ok((directories, counted))
}

/// The directories, where no block is metadata and a file's, no file has a tail, no directory is bad, and the entries make a tree.
fn good_names<D: Disk>(
    alloc: Global,
    disk: &mut D,
    g: &Geometry,
    walked: &Walked,
) -> Result<HeldList, CheckFault>
    requires { IsLeft (D.fixed disk.old).size walked.now }
    ensures found { IsTrue D.tells → (s : Seen) → IsSeen (blocks_in (D.state disk.old).contents) walked.now s → IsPhase (names_finding (layout_of g.now) s) result }
    ensures holds { IfOk result (λ held. IsTrue D.tells → (s : Seen) → IsSeen (blocks_in (D.state disk.old).contents) walked.now s → HoldsDirectories s held) }
    ensures are { IfOk result (λ held. AreNodes walked.now.nodes held) }
    ensures none_lost { IfOk result (λ held. FindsNoneLost walked.now.nodes held) }
    ensures reads { IfOk result (λ held. (D.given disk.new).count ≤ (D.given disk.old).count + file_count walked.now.nodes + length walked.now.pages) }
    ensures same { IsTrue D.tells → D.state disk.new ≡ D.state disk.old }
    ensures moments { IsTrue D.tells → Adds (D.past disk.old) (D.past disk.new) (λ s. s ≡ D.state disk.old) }
    ensures fixed { D.fixed disk.new ≡ D.fixed disk.old }
    ensures cause { HasFsCause (D.faults disk.old) (D.faults disk.new) result }
{
    unmixed(&walked.marks, g)?;
    clean_tails(disk, walked)?;
    let held = good_directories(alloc, disk, walked)?;
    one_tree(alloc, walked.nodes.as_slice(), &held)?;
    Ok(held)
}
