//! A file that is open as an image: its lock, its length and its blocks.
ghost use Rattle.std.specs.Prelude.{◌≡◌, ◌*◌, ◌/◌, ◌<◌, ◌^◌, ◌↔◌, IsOk, IfOk, IfSome};

use crate::failure::{Failure, ImageCall};
use crate::pages::drop_pages;
use std::fs::{File, OpenOptions, TryLockError};
use std::io;
use std::os::fd::AsRawFd;
use std::os::unix::fs::FileExt;
use std::path::Path;
use vol_numbers::{BLOCK_SIZE, Block, BlockNo};

/// An open file that is locked, and how many whole blocks it had when it was opened.
#[derive(Drop)]
pub(crate) struct Image {
    file: File,
    pub(crate) count: u32,
}

impl Image {
    /// Opens the file of this name, which no other server may have open. With a number of blocks the file is made, or what is in it is
    /// dropped, and it has so many zero blocks. Without one it is taken as the disk has it.
    pub(crate) fn open(rt: &HostRuntime, name: &str, blocks: Option<u32>) -> Result<Image, Failure>
        ensures { IfOk result (λ image. IfSome blocks (λ n. image.count ≡ n)) }
    {
        let file = open_file(rt, name, blocks.is_some())?;
        lock(&file)?;
        match blocks {
            Some(blocks) => Image::made(rt, name, file, blocks),
            None => Image::found(rt, name, file),
        }
    }

    /// A new image in an open file of this name, which is on the disk with its entry in its folder.
    fn made(rt: &HostRuntime, name: &str, file: File, blocks: u32) -> Result<Image, Failure>
        ensures { IfOk result (λ image. image.count ≡ blocks) }
    {
        fill_with_zeros(&file, blocks)?;
        sync_folder(rt, name)?;
        Ok(Image {
            file,
            count: blocks,
        })
    }

    /// The image that an open file of this name has on the disk. A sync of an earlier process may have failed, and then the system holds pages
    /// which it takes for written and the disk doesn't have. So all is written first, and then the copies in memory are dropped.
    fn found(rt: &HostRuntime, name: &str, file: File) -> Result<Image, Failure> {
        ImageCall::Sync.answered(file.sync_all())?;
        ImageCall::Forget.answered(drop_pages(rt, name))?;
        let count = whole_blocks_of(&file)?;
        Ok(Image { file, count })
    }

    pub(crate) fn read(&self, at: BlockNo, into: &mut Block) -> Result<(), Failure> {
        ImageCall::Read(at).answered(self.file.read_exact_at(&mut into.bytes, offset_of(at)))
    }

    pub(crate) fn write(&self, at: BlockNo, from: &Block) -> Result<(), Failure> {
        ImageCall::Write(at).answered(self.file.write_all_at(&from.bytes, offset_of(at)))
    }

    /// Has all written blocks on the disk. The length of an open image doesn't change, so nothing else of the file has to be written.
    pub(crate) fn sync(&self) -> Result<(), Failure> {
        ImageCall::Sync.answered(self.file.sync_data())
    }
}

/// The place of a block's first byte.
fn offset_of(at: BlockNo) -> u64
    ensures { result ≡ at * 4096 }
{
    u64::from(at) * BLOCK_SIZE as u64
}

/// How many whole blocks so many bytes are. It fails where no `u32` tells it.
fn whole_blocks(len: u64) -> io::Result<u32>
    ensures fits { IsOk result ↔ (len / 4096 < 2 ^ 32) }
    ensures whole { IfOk result (λ count. count ≡ len / 4096) }
{
    match u32::try_from(len / BLOCK_SIZE as u64) {
        Ok(count) => Ok(count),
        Err(_) => Err(io::ErrorKind::FileTooLarge.into()),
    }
}

fn whole_blocks_of(file: &File) -> Result<u32, Failure> {
    let about = ImageCall::Measure.answered(file.metadata())?;
    ImageCall::Measure.answered(whole_blocks(about.len()))
}

/// Opens a regular file for reading and writing. Nothing in the file is changed.
fn open_file(rt: &HostRuntime, name: &str, may_make: bool) -> Result<File, Failure> {
    let file = ImageCall::Open.answered(
        OpenOptions::new()
            .read(true)
            .write(true)
            .create(may_make)
            .open(rt, name),
    )?;
    ImageCall::Open.answered(regular(file))
}

/// The file, if it is a regular one, under a number that no standard stream has: where such a stream was closed its number is free, and
/// what is meant for that stream must not go into the image.
fn regular(file: File) -> io::Result<File> {
    if !file.metadata()?.is_file() {
        return Err(io::Error::new(io::ErrorKind::InvalidInput, "it is no regular file"));
    }
    if file.as_raw_fd() <= 2 {
        return file.try_clone();
    }
    Ok(file)
}

/// Takes the lock that only one open file has.
fn lock(file: &File) -> Result<(), Failure> {
    let taken = match file.try_lock() {
        Ok(()) => Ok(()),
        Err(TryLockError::WouldBlock) => Err(io::Error::new(
            io::ErrorKind::WouldBlock,
            "another program has it open",
        )),
        Err(TryLockError::Error(error)) => Err(error),
    };
    ImageCall::Lock.answered(taken)
}

/// Drops what is in the file, and makes it so many zero blocks, which are on the disk.
fn fill_with_zeros(file: &File, blocks: u32) -> Result<(), Failure> {
    ImageCall::Resize.answered(file.set_len(0))?;
    ImageCall::Resize.answered(file.set_len(offset_of(blocks)))?;
    ImageCall::Sync.answered(file.sync_all())
}

/// Has the file's entry on the disk, in the folder that it stands in.
fn sync_folder(rt: &HostRuntime, name: &str) -> Result<(), Failure> {
    let folder = match Path::new(name).parent() {
        Some(folder) if !folder.as_str().is_empty() => folder,
        _ => Path::new("."),
    };
    let opened = ImageCall::SyncFolder.answered(File::open(rt, folder))?;
    ImageCall::SyncFolder.answered(opened.sync_all())
}
