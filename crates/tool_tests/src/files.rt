//! The files of the system, as images.
use disk_model::{Disk, Media, OpenFault};
use media_files::FileMedia;
use std::test::Fail;
use std::{env, fs, io};
use vol_numbers::{Block, FaultCount};

/// What is done with an image in a file, and how it must end.
enum Step {
    /// It opens with a number of blocks, or as it is, and has so many then.
    Opens(Option<u32>, u32),
    /// It doesn't open, and this is told of it.
    Refused(Option<u32>, &'static str),
    /// No other medium opens it, with or without a number of blocks.
    IsLocked,
    /// A block is read, whose bytes are all this one.
    Reads(u32, u8),
    /// A block isn't read, and this is told of it.
    Unread(u32, &'static str),
    /// A block is written, whose bytes are all this one.
    Writes(u32, u8),
    Syncs,
    Unsynced,
    /// Somebody else makes the file so many bytes, which are all this one.
    IsMade(usize, u8),
    /// The file has so many blocks, and the bytes of each of them are all the one of it.
    Holds(&'static [u8]),
    /// No file has the name.
    IsAbsent,
    /// So many calls have failed.
    Faults(u32),
}

/// What is written is there when the medium opens the image again: the lock goes with the file that was open.
const KEEPS: &[Step] = &[
    Step::Opens(Some(3), 3),
    Step::Reads(2, 0),
    Step::Writes(1, 7),
    Step::Syncs,
    Step::Opens(None, 3),
    Step::Reads(1, 7),
    Step::Reads(0, 0),
    Step::Holds(&[0, 7, 0]),
    Step::Faults(0),
];

const ABSENT: &[Step] = &[
    Step::Refused(None, "open: No such file or directory (os error 2)"),
    Step::IsAbsent,
    Step::Unsynced,
    Step::Faults(2),
];

/// A part of a block at the end isn't counted, and what was in the file is gone when it is made anew.
const ROUNDS_DOWN: &[Step] = &[
    Step::IsMade(9_000, 5),
    Step::Opens(None, 2),
    Step::Reads(1, 5),
    Step::Opens(Some(2), 2),
    Step::Reads(1, 0),
    Step::IsMade(5, 5),
    Step::Unread(1, "read of block 1: failed to fill whole buffer"),
    Step::Faults(1),
];

/// A second opener changes nothing, with a number of blocks neither.
const LOCKS: &[Step] = &[
    Step::Opens(Some(2), 2),
    Step::Writes(1, 3),
    Step::IsLocked,
    Step::Reads(1, 3),
    Step::Holds(&[0, 3]),
];

/// The paths of no regular file.
const NO_FILES: &[&str] = &["/dev/null", "/dev/full", "", "/", "/tmp"];

/// A path in the folder for what doesn't last, where nothing stands.
fn scratch(rt: &HostRuntime, name: &str) -> Result<String, Fail> {
    let folder = env::temp_dir(rt)?;
    let id = std::process::id(rt.process());
    let path = format!(in rt.alloc(); "{}/idedup_tool_{id}_{name}", folder.as_str())?;
    let _ = fs::remove_file(rt, path.as_str());
    Ok(path)
}

/// Whether the count is of so many faults.
fn is_count(count: FaultCount, faults: u32) -> bool {
    let mut wanted = FaultCount::new();
    for _ in 0..faults {
        wanted.raise();
    }
    count == wanted
}

/// Whether this is told of the last call that failed.
fn tells(rt: &HostRuntime, media: &FileMedia, words: &str) -> bool {
    match media.failure() {
        Some(failure) => format!(in rt.alloc(); "{failure}").is_ok_and(|text| text.as_str()
            == words),
        None => false,
    }
}

fn opens(media: &mut FileMedia, path: &str, blocks: Option<u32>, count: u32) -> bool {
    media.open(path, blocks).is_ok() && media.blocks() == count
}

fn is_refused(media: &mut FileMedia, path: &str, blocks: Option<u32>) -> bool {
    media.open(path, blocks) == Err(OpenFault::Failed) && media.blocks() == 0
}

fn is_locked(rt: &HostRuntime, path: &str) -> bool {
    let mut other = FileMedia::new(*rt);
    is_refused(&mut other, path, None)
        && is_refused(&mut other, path, Some(1))
        && tells(rt, &other, "lock: another program has it open")
}

fn reads(media: &mut FileMedia, at: u32, byte: u8) -> bool {
    let mut block = Block::filled(255);
    at < media.blocks() && media.read_block(at, &mut block).is_ok() && block == Block::filled(byte)
}

fn writes(media: &mut FileMedia, at: u32, byte: u8) -> bool {
    at < media.blocks() && media.write_block(at, &Block::filled(byte)).is_ok()
}

fn is_made(rt: &HostRuntime, path: &str, count: usize, byte: u8) -> bool {
    match vec![in rt.alloc(); byte; count] {
        Ok(bytes) => fs::write(rt, path, bytes.as_slice()).is_ok(),
        Err(_) => false,
    }
}

fn holds(rt: &HostRuntime, path: &str, blocks: &[u8]) -> bool {
    match fs::read(rt, path) {
        Ok(bytes) => {
            bytes.len() % 4_096 == 0
                && bytes.len() / 4_096 == blocks.len()
                && bytes
                    .chunks(4_096)
                    .zip(blocks)
                    .all(|(block, byte)| block.iter().all(|found| found == byte))
        }
        Err(_) => false,
    }
}

fn is_absent(rt: &HostRuntime, path: &str) -> bool {
    matches!(fs::exists(rt, path), Ok(false))
}

fn ends_so(rt: &HostRuntime, media: &mut FileMedia, path: &str, step: &Step) -> bool {
    match step {
        Step::Opens(blocks, count) => opens(media, path, *blocks, *count),
        Step::Refused(blocks, words) => {
            is_refused(media, path, *blocks) && tells(rt, media, words)
        }
        Step::IsLocked => is_locked(rt, path),
        Step::Reads(at, byte) => reads(media, *at, *byte),
        Step::Unread(at, words) => !reads(media, *at, 0) && tells(rt, media, words),
        Step::Writes(at, byte) => writes(media, *at, *byte),
        Step::Syncs => media.sync().is_ok(),
        Step::Unsynced => media.sync().is_err(),
        Step::IsMade(count, byte) => is_made(rt, path, *count, *byte),
        Step::Holds(blocks) => holds(rt, path, blocks),
        Step::IsAbsent => is_absent(rt, path),
        Step::Faults(faults) => is_count(media.faults(), *faults),
    }
}

/// Whether all of these steps end so, on an image that isn't there at first.
fn all_end_so(rt: &HostRuntime, name: &str, steps: &[Step]) -> Result<bool, Fail> {
    let path = scratch(rt, name)?;
    let mut media = FileMedia::new(*rt);
    let mut all = true;
    for step in steps {
        all = all && ends_so(rt, &mut media, path.as_str(), step);
    }
    let _ = fs::remove_file(rt, path.as_str());
    Ok(all)
}

#[test]
fn keeps_what_is_written(rt: HostRuntime) -> Result<(), Fail> {
    assert!(rt; all_end_so(&rt, "keeps", KEEPS)?);
    Ok(())
}

#[test]
fn absent_image_is_no_image(rt: HostRuntime) -> Result<(), Fail> {
    assert!(rt; all_end_so(&rt, "absent", ABSENT)?);
    Ok(())
}

#[test]
fn part_of_a_block_is_left_out(rt: HostRuntime) -> Result<(), Fail> {
    assert!(rt; all_end_so(&rt, "rounds", ROUNDS_DOWN)?);
    Ok(())
}

#[test]
fn only_one_has_the_image(rt: HostRuntime) -> Result<(), Fail> {
    assert!(rt; all_end_so(&rt, "lock", LOCKS)?);
    // The lock went with the medium that had it.
    Ok(())
}

/// Whether nothing at this path opens, and that is told.
fn is_no_file(rt: &HostRuntime, path: &str) -> bool {
    let mut media = FileMedia::new(*rt);
    is_refused(&mut media, path, None) && is_count(media.faults(), 1)
}

#[test]
fn only_regular_files_are_images(rt: HostRuntime) {
    assert!(rt; NO_FILES.iter().all(|path| is_no_file(&rt, path)));
}

/// What is no regular file is left as it is, also where an image is to be made.
#[test]
fn nothing_but_a_file_becomes_an_image(rt: HostRuntime) {
    let mut media = FileMedia::new(rt);
    assert!(rt; is_refused(&mut media, "/dev/full", Some(1)));
    assert!(rt; tells(&rt, &media, "open: it is no regular file"));
}
