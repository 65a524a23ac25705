//! Laws of inodes in blocks.
ghost use Rattle.inode_file.specs.Laws.{NotDamaged, NumberSpelled, OneTable, TableStays, TreeOfTable};

/// The inode of a number is the one at its position in its block.
pub fn number_spelled()
    ensures { NumberSpelled }
{}

/// The same blocks spell the same inodes.
pub fn one_table()
    ensures { OneTable }
{}

/// What stands in blocks stands wherever these blocks are as they were.
pub fn table_stays()
    ensures { TableStays }
{}

/// The pointers of a table are those of the tree of height 1 whose index is the inode index.
pub fn tree_of_table()
    ensures { TreeOfTable }
{}

/// Where the blocks spell inodes within the rules, none of them is damaged.
pub fn not_damaged()
    ensures { NotDamaged }
{}
