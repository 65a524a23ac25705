//! What follows from the definitions of records and logs.
ghost use Rattle.op_log.specs.Laws.{OneSpelling, OneCommand, OneLog, NoneBehindBad, UsedBlocksTell, OneRecordMore};

/// Each command has one spelling.
pub fn one_spelling()
    ensures { OneSpelling }
{}

/// Each spelling has one command.
pub fn one_command()
    ensures { OneCommand }
{}

/// The records of a log are determined by their number.
pub fn one_log()
    ensures { OneLog }
{}

/// There is one first bad record, and none where as many records stand.
pub fn none_behind_bad()
    ensures { NoneBehindBad }
{}

/// The records depend on the used blocks alone.
pub fn used_blocks_tell()
    ensures { UsedBlocksTell }
{}

/// A record that is written behind those of a log is its next one.
pub fn one_record_more()
    ensures { OneRecordMore }
{}
