//! The selection, plain on purpose.
ghost use Rattle.std.specs.Prelude.{◌≡◌, ◌≤◌, ◌<◌, ◌^◌, IfOk, IsTrue, length, max};
ghost use Rattle.disk_model.specs.Past.{Adds};
ghost use Rattle.volume_model.specs.Selection.{IsSelection, by_place};
ghost use Rattle.sequence_rule.specs.Causes.{HasFindCause};
ghost use Rattle.sequence_rule.specs.Choosing.{picks_along};
ghost use Rattle.sequence_rule.specs.Matches.{matches, HaveFingerprints, LieBelow, SelectsCached};
ghost use Rattle.sequence_rule.specs.Runs.{dirty_blocks, dirty_places};

use crate::choosing::picks;
use crate::matched::PlaceMatches;
use crate::matching::match_all;
use crate::sorting::by_place;
use crate::{DirtyRuns, FindFault};
use content_model::ContentCache;
use disk_model::Disk;
use std::alloc::{AllocError, Global};
use std::marker::Brand;
use std::sync::ledger::Blank;
use vol_numbers::ItemList;
use volume_model::Sequence;

/// Sequences, in order.
pub type SequenceList = ItemList<Sequence>;

/// The sequences of a file's dirty places that are shared, by place: the longest of at least the threshold, of these the one from
/// the least place, and of these the one to the least block; then the same among the places that are left, until none is long
/// enough. A place matches a block of the cache list that holds the same bytes.
pub fn plain_select<D: Disk, K: ContentCache>(
    alloc: Global,
    dirty: &DirtyRuns,
    cache: &K,
    disk: &mut D,
    threshold: u32,
) -> Result<SequenceList, FindFault>
    requires blocks { LieBelow (D.fixed disk.old).size (K.list cache.now) }
    requires fingerprints { IsTrue D.tells → HaveFingerprints (D.state disk.old).contents (K.list cache.now) }
    ensures selection { IfOk result (λ list. IsTrue D.tells → IsSelection (matches (K.list cache.now) (D.state disk.old).contents (dirty_blocks dirty.now.runs)) threshold (dirty_places dirty.now.runs) list) }
    // Over a disk that tells nothing it is the selection by what was read.
    ensures some { IfOk result (SelectsCached (K.list cache.now) threshold (dirty_places dirty.now.runs)) }
    ensures same { IsTrue D.tells → D.state disk.new ≡ D.state disk.old }
    ensures moments { IsTrue D.tells → Adds (D.past disk.old) (D.past disk.new) (λ s. s ≡ D.state disk.old) }
    ensures fixed { D.fixed disk.new ≡ D.fixed disk.old }
    ensures given { (D.given disk.old).count ≤ (D.given disk.new).count }
    ensures cause { HasFindCause (D.faults disk.old) (D.faults disk.new) result }
{
    let rows = match_all::<D, K, Brand>(alloc, dirty, cache, disk, Blank::new(1))?;
    Ok(select(alloc, rows, threshold)?)
}

/// The sequences that are picked along these rows, by place.
fn select(
    alloc: Global,
    rows: Vec<PlaceMatches>,
    threshold: u32,
) -> Result<SequenceList, AllocError>
    requires { length rows.items < 2 ^ 32 }
    ensures { IfOk result (λ list. list ≡ by_place (picks_along (max threshold 1) (length rows.items) rows.items)) }
{
    let picked = picks(alloc, rows, threshold.max(1))?;
    Ok(SequenceList::from_vec(by_place(alloc, picked.as_slice())?))
}
