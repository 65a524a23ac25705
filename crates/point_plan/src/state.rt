//! What a volume has in memory between consistency points.
use count_pairs::CountTable;
use dirty_store::DirtyStore;
use held_list::HeldList;
use inode_file::InodeFile;
use root_switch::Current;
use vol_numbers::Geometry;

/// The volume as at the last point, and what was staged since. The root's log fields are those of now.
#[derive(Drop)]
pub struct PointState {
    pub geometry: Geometry,
    pub current: Current,
    pub counts: CountTable,
    pub inodes: InodeFile,
    pub directories: HeldList,
    /// How many blocks of metadata the last point has. It serves the rule that a point may be short, and goes with that rule.
    pub metadata: u32,
    pub dirty: DirtyStore,
}
