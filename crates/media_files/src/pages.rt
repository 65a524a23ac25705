//! Has the system drop what it holds of a file in memory.
use sqlite_std_file::{OpenError, Unknown};
use std::{fs, io};

/// Drops the system's copies of a file's pages, so that the next read of it is one of the disk. The file is of this name, and what was written
/// to it is synced.
///
/// The kit's std has no such call. Its `sqlite_std_file` makes it, when it opens a file as a database: it advises the system that the pages
/// won't be needed. On its way it makes an empty log beside the file, which is removed here.
pub(crate) fn drop_pages(rt: &HostRuntime, name: &str) -> io::Result<()> {
    let log = log_of(rt, name)?;
    let was_there = fs::exists(rt, log.as_str())?;
    let dropped = open_and_close(rt, name);
    if !was_there {
        let _ = fs::remove_file(rt, log.as_str());
    }
    dropped
}

/// The path at which a database of this name has its log.
fn log_of(rt: &HostRuntime, name: &str) -> io::Result<String> {
    let real = fs::canonicalize(rt, name)?;
    let log = format!(in rt.alloc(); "{}-wal", real.as_str())?;
    Ok(log)
}

fn open_and_close(rt: &HostRuntime, name: &str) -> io::Result<()> {
    match sqlite_std_file::open(rt, name, Unknown) {
        Ok(files) => {
            drop(files);
            Ok(())
        }
        Err(error) => Err(as_io(error)),
    }
}

fn as_io(error: OpenError) -> io::Error {
    match error {
        OpenError::Io(error) => error,
        OpenError::OutOfMemory => io::ErrorKind::OutOfMemory.into(),
        OpenError::Busy => io::Error::new(
            io::ErrorKind::ResourceBusy,
            "another program has locked it as a database",
        ),
        OpenError::HotJournal => io::Error::new(
            io::ErrorKind::InvalidInput,
            "a file of its name with -journal lies beside it",
        ),
    }
}
