//! A disk in memory of which nothing is promised but its size.
use disk_model::{Disk, DiskFault};
use mem_disk::MemDisk;
use vol_numbers::{Block, BlockNo};

/// Calls over it owe nothing of what memory and disk hold, so a test may stage what it likes.
#[derive(Drop)]
pub struct Quiet {
    pub disk: MemDisk,
}

impl Disk for Quiet {
    ghost use Rattle.std.specs.Prelude.{false};
    ghost use Rattle.disk_model.specs.Disk.{blank};

    ghost fixed = { λ q. ⟦<MemDisk as Disk>⟧.fixed q.disk };

    ghost tells = { false };

    ghost state = { λ _. blank 0 };

    ghost past = { λ _. record { clock = 0; is_told = false; since = λ _ _. ⊥ } };

    ghost faults = { λ q. ⟦<MemDisk as Disk>⟧.faults q.disk };

    ghost given = { λ q. ⟦<MemDisk as Disk>⟧.given q.disk };

    ghost has_size = { λ d tells. Prim.cc };

    ghost now_counts = { λ d t told le. Prim.cc };

    ghost only_now = { λ d s told stood. Prim.cc };

    fn blocks(&self) -> u32 {
        self.disk.blocks()
    }

    fn read_block(&mut self, at: BlockNo, into: &mut Block) -> Result<(), DiskFault> {
        self.disk.read_block(at, into)
    }

    fn write_block(&mut self, at: BlockNo, from: &Block) -> Result<(), DiskFault> {
        self.disk.write_block(at, from)
    }

    fn sync(&mut self) -> Result<(), DiskFault> {
        self.disk.sync()
    }
}
