//! Rows of images, and what is found in each.
ghost use Rattle.image_rows.specs.Roots.{NoRootRows, BadGeometryRows};
ghost use Rattle.image_rows.specs.Walks.{BadPointerRows, BadInodeRows};
ghost use Rattle.image_rows.specs.Nodes.{MixedBlockRows, BadTailRows, BadDirectoryRows, NotATreeRows};
ghost use Rattle.image_rows.specs.Spaces.{WrongCountRows, NoReserveRows};
ghost use Rattle.image_rows.specs.Orders.{OrderRows};
ghost use Rattle.image_rows.specs.Limits.{LimitRows};
ghost use Rattle.image_rows.specs.Firsts.{FirstRows};
ghost use Rattle.image_rows.specs.Logs.{BadLogRows};
ghost use Rattle.image_rows.specs.Fresh.{FreshIsMet};
ghost use Rattle.image_rows.specs.Points.{RecordIsMet, PointIsMet};
ghost use Rattle.image_rows.specs.Sound.{SoundImages};

/// In these images there is no root.
pub fn no_root_rows()
    ensures { NoRootRows }
{}

/// In these images the root breaks a rule of the geometry.
pub fn bad_geometry_rows()
    ensures { BadGeometryRows }
{}

/// In these images the walk comes first to a pointer that may not be so.
pub fn bad_pointer_rows()
    ensures { BadPointerRows }
{}

/// In these images the walk comes first to an inode that may not be so.
pub fn bad_inode_rows()
    ensures { BadInodeRows }
{}

/// In these images a block is metadata and a file's.
pub fn mixed_block_rows()
    ensures { MixedBlockRows }
{}

/// In these images a file has a byte behind its end.
pub fn bad_tail_rows()
    ensures { BadTailRows }
{}

/// In these images a directory may not be so.
pub fn bad_directory_rows()
    ensures { BadDirectoryRows }
{}

/// In these images a number is named or reached wrongly.
pub fn not_a_tree_rows()
    ensures { NotATreeRows }
{}

/// In these images a count is not the number of pointers.
pub fn wrong_count_rows()
    ensures { WrongCountRows }
{}

/// In this image fewer than 16 blocks are free.
pub fn no_reserve_rows()
    ensures { NoReserveRows }
{}

/// In these images two phases that follow each other have a finding, and the earlier one has it.
pub fn order_rows()
    ensures { OrderRows }
{}

/// In these images nothing is found.
pub fn sound_images()
    ensures { SoundImages }
{}

/// In these images the log has a bad record, or too few.
pub fn bad_log_rows()
    ensures { BadLogRows }
{}

/// What a format leaves can be met.
pub fn fresh_is_met()
    ensures { FreshIsMet }
{}

/// An image with a record in its log can be met, and stands for what the record is in.
pub fn record_is_met()
    ensures { RecordIsMet }
{}

/// An image after a point can be met. It has all that a point owes, and stands for what the point made.
pub fn point_is_met()
    ensures { PointIsMet }
{}

/// In these images a number is past its limit, or a byte that has to be 0 isn't.
pub fn limit_rows()
    ensures { LimitRows }
{}

/// In these images one phase has two faults, and the first of them is found.
pub fn first_rows()
    ensures { FirstRows }
{}
