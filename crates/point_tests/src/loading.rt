//! What memory has of a volume with nothing but its root directory.
ghost use Rattle.std.specs.Prelude.{◌≡◌, [], ◌∷◌, IfSome};
ghost use Rattle.vol_numbers.specs.Geometry.{layout_of};
ghost use Rattle.inode_file.specs.Inodes.{IsTable};
ghost use Rattle.inode_file.specs.Loading.{IsWithin};
ghost use Rattle.point_plan.specs.State.{IsOfSize};

use consistency_point::PointState;
use count_pairs::CountTable;
use dir_slots::Directory;
use dirty_store::DirtyStore;
use disk_model::Disk;
use held_list::HeldList;
use inode_file::InodeFile;
use root_switch::read_current;
use std::alloc::Global;
use vol_numbers::{BlockNo, Geometry, PageList};

/// The state of a volume whose root directory is empty, with nothing staged. Its metadata is the inode block and the inode index.
pub fn fresh_state<D: Disk>(alloc: Global, disk: &mut D) -> Option<PointState>
    ensures size { IfSome result (IsOfSize (D.fixed disk.new).size) }
    ensures fixed { D.fixed disk.new ≡ D.fixed disk.old }
{
    let Ok(current) = read_current(disk) else {
        return None;
    };
    let geometry = current.body.geometry;
    let Ok(counts) = CountTable::load(alloc, disk, &current.body) else {
        return None;
    };
    let inodes = inodes_of(alloc, disk, current.body.inode_index, &geometry)?;
    let directories = root_alone(alloc)?;
    Some(PointState {
        geometry,
        current,
        counts,
        inodes,
        directories,
        metadata: 2,
        dirty: DirtyStore::new(alloc),
    })
}

/// The inodes, where the inode index is in the area.
fn inodes_of<D: Disk>(
    alloc: Global,
    disk: &mut D,
    index: BlockNo,
    g: &Geometry,
) -> Option<InodeFile>
    requires { (layout_of g.now).blocks ≡ (D.fixed disk.old).size }
    ensures index { IfSome result (λ t. t.index ≡ index) }
    ensures settled { IfSome result (λ t. t.inodes ≡ t.stored) }
    ensures within { IfSome result (IsWithin (layout_of g.now)) }
    ensures whole { IfSome result IsTable }
    ensures fixed { D.fixed disk.new ≡ D.fixed disk.old }
{
    if index < g.area_start() || g.blocks() <= index {
        return None;
    }
    match InodeFile::load(alloc, disk, index, g) {
        Ok(inodes) => Some(inodes),
        Err(_) => None,
    }
}

/// The root directory with no slot.
fn root_alone(alloc: Global) -> Option<HeldList>
    ensures { IfSome result (λ list. list ≡ record { number = 1; slots = [] } ∷ []) }
{
    let mut list = HeldList::new(alloc);
    let empty = match Directory::read(alloc, &PageList::from_vec(Vec::new(alloc)), 0) {
        Ok(empty) => empty,
        Err(_) => return None,
    };
    list.push(1, empty).ok()?;
    Some(list)
}
