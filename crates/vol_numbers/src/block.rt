//! A block, and the numbers that name blocks, nodes and places.
ghost use Rattle.std.specs.Prelude.{◌≡◌};
ghost use Rattle.vol_numbers.specs.Block.{zero_block, block_of};

/// How many bytes a block has.
pub const BLOCK_SIZE: usize = 4_096;

/// The number of a block of the volume, from 0.
pub type BlockNo = u32;

/// The number of a node, from 1. The root directory is number 1.
pub type InoNo = u32;

/// The place of a block in a file or a directory, from 0.
pub type Fbn = u32;

/// A block of 4,096 bytes, as the volume is read and written.
#[derive(Clone, Copy, Debug, PartialEq, Eq)]
pub struct Block {
    pub bytes: [u8; 4096],
}

impl Block {
    /// A block of zeros.
    pub fn zero() -> Block
        ensures { result ≡ zero_block }
    {
        Block::filled(0)
    }

    /// A block whose bytes are all this one.
    pub fn filled(byte: u8) -> Block
        ensures { result ≡ block_of byte }
    {
        Block {
            bytes: [byte; BLOCK_SIZE],
        }
    }
}
