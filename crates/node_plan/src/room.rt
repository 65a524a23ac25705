//! How many free blocks a plan may need.
ghost use Rattle.std.specs.Prelude.{◌≡◌, ◌<◌, ◌≤◌, ◌+◌, ◌↔◌, All, IsTrue, length};
ghost use Rattle.vol_numbers.specs.declared.runs.Change.{Change};
ghost use Rattle.block_tree.specs.Edit.{leaves_of};
ghost use Rattle.place_words.specs.Different.{different};

use run_allocator::FreeMap;
use vol_numbers::ChangeList;

/// In how many leaves the changes are.
pub(crate) fn leaf_count(changes: &ChangeList) -> usize
    requires { All (λ (c : Change). c.place < 1048576) changes.now }
    ensures { result ≡ different (leaves_of changes.now) }
{
    let mut seen = [false; 1024];
    let mut count = 0;
    for change in changes.as_slice() {
        let leaf = (change.place / 1_024) as usize;
        if !seen[leaf] {
            seen[leaf] = true;
            count += 1;
        }
    }
    count
}

/// Whether so many blocks are free, those of some pages and more.
pub(crate) fn has_room(free: &FreeMap, pages: usize, more: u32) -> bool
    ensures { IsTrue result ↔ (pages + more ≤ length free.now) }
{
    let free = free.free();
    free >= more && pages <= (free - more) as usize
}
