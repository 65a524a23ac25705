//! A medium over the files of the system. It tells nothing of what they hold.
ghost use Rattle.std.specs.Prelude.{◌≡◌, ◌↔◌, None, IsOk, IfSome, OnOk, OnErr};
ghost use Rattle.vol_numbers.specs.Cause.{raised, HasCause};

use crate::failure::{Failure, ImageCall};
use crate::image::Image;
use disk_model::{Disk, DiskFault, LastRead, Media, OpenFault};
use std::io;
use vol_numbers::{Block, BlockNo, FaultCount};

/// A medium whose images are files.
#[derive(Drop)]
pub struct FileMedia {
    rt: HostRuntime,
    image: Option<Image>,
    faults: FaultCount,
    given: LastRead,
    failure: Option<Failure>,
}

impl FileMedia {
    ghost use Rattle.vol_numbers.specs.Block.{zero_block};
    ghost use Rattle.disk_model.specs.Media.{of_size};
    ghost use Rattle.media_files.specs.Image.{count_of};

    /// Opens nothing: there are 0 blocks.
    pub fn new(rt: HostRuntime) -> FileMedia
        ensures size { ⟦<FileMedia as Disk>⟧.fixed result ≡ of_size 0 }
        ensures faults { ⟦<FileMedia as Disk>⟧.faults result ≡ 0 }
        ensures given { ⟦<FileMedia as Disk>⟧.given result ≡ record { at = 0; block = zero_block; count = 0 } }
    {
        FileMedia {
            rt,
            image: None,
            faults: FaultCount::new(),
            given: LastRead::none(),
            failure: None,
        }
    }

    /// How many calls have failed.
    pub fn faults(&self) -> FaultCount
        ensures { result ≡ ⟦<FileMedia as Disk>⟧.faults self.now }
    {
        self.faults
    }

    /// How the last call that failed did so, if one has.
    pub fn failure(&self) -> Option<Failure> {
        self.failure
    }

    /// Closes the image that is open, and opens another. Where that fails nothing is open.
    fn reopen(&mut self, name: &str, blocks: Option<u32>) -> Result<(), Failure>
        ensures size { OnOk result (IfSome blocks (λ n. count_of self.new.image ≡ n)) }
        ensures none { OnErr result (self.new.image ≡ None) }
        ensures faults { self.new.faults ≡ self.old.faults }
        ensures given { self.new.given ≡ self.old.given }
    {
        // The lock of the file that was open goes with it, so that the same file can be opened again.
        self.image = None;
        self.image = Some(Image::open(&self.rt, name, blocks)?);
        Ok(())
    }
}

/// Counts the fault of a call that failed, and keeps how it did so.
fn noted(
    faults: &mut FaultCount,
    failure: &mut Option<Failure>,
    done: Result<(), Failure>,
) -> Result<(), DiskFault>
    ensures same { IsOk result ↔ IsOk done }
    ensures cause { HasCause faults.old faults.new result }
{
    match done {
        Ok(()) => Ok(()),
        Err(how) => {
            *failure = Some(how);
            faults.raise();
            Err(DiskFault)
        }
    }
}

impl Disk for FileMedia {
    ghost use Rattle.std.specs.Prelude.{false};
    ghost use Rattle.disk_model.specs.Disk.{blank};
    ghost use Rattle.media_files.specs.Image.{fixed_of};

    ghost fixed = { λ m. fixed_of m.image };

    ghost tells = { false };

    ghost state = { λ _. blank 0 };

    ghost past = { λ _. record { clock = 0; is_told = false; since = λ _ _. ⊥ } };

    ghost faults = { λ m. m.faults };

    ghost given = { λ m. m.given };

    ghost has_size = { λ d tells. Prim.cc };

    ghost now_counts = { λ d t told le. Prim.cc };

    ghost only_now = { λ d s told stood. Prim.cc };

    fn blocks(&self) -> u32 {
        match &self.image {
            Some(image) => image.count,
            None => 0,
        }
    }

    fn read_block(&mut self, at: BlockNo, into: &mut Block) -> Result<(), DiskFault> {
        let done = match &self.image {
            Some(image) => image.read(at, into),
            None => unreachable!(),
        };
        noted(&mut self.faults, &mut self.failure, done)?;
        self.given.note(at, into);
        Ok(())
    }

    fn write_block(&mut self, at: BlockNo, from: &Block) -> Result<(), DiskFault> {
        let done = match &self.image {
            Some(image) => image.write(at, from),
            None => unreachable!(),
        };
        noted(&mut self.faults, &mut self.failure, done)
    }

    fn sync(&mut self) -> Result<(), DiskFault> {
        let done = match &self.image {
            Some(image) => image.sync(),
            None => ImageCall::Sync.answered(Err(io::ErrorKind::NotConnected.into())),
        };
        noted(&mut self.faults, &mut self.failure, done)
    }
}

impl Media for FileMedia {
    fn open(&mut self, name: &str, blocks: Option<u32>) -> Result<(), OpenFault> {
        match self.reopen(name, blocks) {
            Ok(()) => Ok(()),
            Err(how) if how.is_want_of_memory() => Err(OpenFault::OutOfMemory),
            Err(how) => {
                self.failure = Some(how);
                self.faults.raise();
                Err(OpenFault::Failed)
            }
        }
    }
}
