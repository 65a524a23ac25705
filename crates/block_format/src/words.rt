//! The 1,024 numbers of a block, in a row.
ghost use Rattle.std.specs.Prelude.{◌≡◌, length};
ghost use Rattle.block_format.specs.Index.{index_bytes};
ghost use Rattle.block_format.specs.Counts.{SpellsCounts};
ghost use Rattle.block_format.specs.Words.{words};

use byteorder::{ByteOrder, LittleEndian};
use vol_numbers::BLOCK_SIZE;

/// The numbers in the bytes of a block.
pub(crate) fn numbers_in(bytes: &[u8]) -> [u32; 1024]
    requires { length bytes.now ≡ 4096 }
    ensures words { result ≡ words bytes.now }
    ensures spelled { SpellsCounts result bytes.now }
{
    let mut numbers = [0; 1024];
    LittleEndian::read_u32_into(bytes, &mut numbers);
    let _last = bytes[4095];
    numbers
}

/// The bytes of a block with these numbers.
pub(crate) fn bytes_of(numbers: &[u32]) -> [u8; BLOCK_SIZE]
    requires { length numbers.now ≡ 1024 }
    ensures spelled { result ≡ index_bytes numbers.now }
    ensures reads_back { words result ≡ numbers.now }
{
    let mut bytes = [0; BLOCK_SIZE];
    LittleEndian::write_u32_into(numbers, &mut bytes);
    let _last = numbers[1023];
    bytes
}
