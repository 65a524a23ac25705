//! Where the parts of a volume lie.
ghost use Rattle.std.specs.Prelude.{◌≡◌};
ghost use Rattle.vol_numbers.specs.Layout.{IsValid};

use thiserror::Error;

/// A valid geometry: how many blocks a volume has, and how many of them are of the log.
#[derive(Clone, Copy, Debug, PartialEq, Eq)]
pub struct Geometry {
    pub blocks: u32,
    pub log_blocks: u32,
    pub ghost valid: { IsValid (record { blocks = blocks; log_blocks = log_blocks }) },
}

/// The numbers are outside the limits of a volume.
#[derive(Clone, Copy, Debug, PartialEq, Eq, Error)]
#[error("a volume has at most 65,536 blocks, of the log 64 to 4,096, and an area of at least 64")]
pub struct BadGeometry;

impl Geometry {
    ghost use Rattle.std.specs.Prelude.{◌≡◌, ◌↔◌, IsOk, IfOk};
    ghost use Rattle.vol_numbers.specs.Layout.{IsValid, count_blocks, log_start, area_start, area_size};
    ghost use Rattle.vol_numbers.specs.Geometry.{layout_of};

    /// Refused exactly outside the limits of a volume.
    pub fn new(blocks: u32, log_blocks: u32) -> Result<Geometry, BadGeometry>
        ensures valid { IsOk result ↔ IsValid (record { blocks = blocks; log_blocks = log_blocks }) }
        ensures value { IfOk result (λ g. layout_of g ≡ record { blocks = blocks; log_blocks = log_blocks }) }
    {
        if blocks > 65_536 || log_blocks < 64 || log_blocks > 4_096 {
            return Err(BadGeometry);
        }
        let area = 3 + 2 * blocks.div_ceil(1_024) + log_blocks + 32;
        if blocks < area + 64 {
            return Err(BadGeometry);
        }
        Ok(Geometry { blocks, log_blocks })
    }

    /// How many blocks the volume has.
    pub fn blocks(&self) -> u32
        ensures { result ≡ (layout_of self.now).blocks }
    {
        self.blocks
    }

    /// How many of them are of the log.
    pub fn log_blocks(&self) -> u32
        ensures { result ≡ (layout_of self.now).log_blocks }
    {
        self.log_blocks
    }

    /// How many blocks the counts take in one home.
    pub fn count_blocks(&self) -> u32
        ensures { result ≡ count_blocks (layout_of self.now) }
    {
        self.blocks.div_ceil(1_024)
    }

    /// The first block of the log.
    pub fn log_start(&self) -> u32
        ensures { result ≡ log_start (layout_of self.now) }
    {
        3 + 2 * self.count_blocks()
    }

    /// The first block of the area.
    pub fn area_start(&self) -> u32
        ensures { result ≡ area_start (layout_of self.now) }
    {
        self.log_start() + self.log_blocks + 32
    }

    /// How many blocks the area has.
    pub fn area_size(&self) -> u32
        ensures { result ≡ area_size (layout_of self.now) }
    {
        self.blocks - self.area_start()
    }
}
