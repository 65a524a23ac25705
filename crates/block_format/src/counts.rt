//! A count block: 1,024 counts.
ghost use Rattle.std.specs.Prelude.{◌≡◌, ◌<◌, ◌≤◌, ◌+◌, ◌*◌, ◌++◌, length, take, drop, slice_index, slice_set};
ghost use Rattle.block_format.specs.Counts.{SpellsCounts, count_bytes};
ghost use Rattle.block_format.specs.Words.{words};
ghost use Rattle.byteorder.specs.Endian.{little_bytes};

use crate::bytes::put;
use crate::words::{bytes_of, numbers_in};
use byteorder::{ByteOrder, LittleEndian};
use vol_numbers::Block;

/// The counts of a count block. Every block is one.
pub fn read_counts(from: &Block) -> [u32; 1024]
    ensures counts { result ≡ words from.now.bytes }
    ensures spelled { SpellsCounts result from.now.bytes }
{
    numbers_in(&from.bytes)
}

/// Writes the one block that spells these 1,024 counts.
pub fn write_counts(counts: &[u32], into: &mut Block)
    requires { length counts.now ≡ 1024 }
    ensures spelled { into.new.bytes ≡ count_bytes counts.now }
    ensures reads_back { words into.new.bytes ≡ counts.now }
{
    into.bytes = bytes_of(counts);
}

/// The count k of a count block.
pub fn read_count(from: &Block, k: u32) -> u32
    requires { k < 1024 }
    ensures { result ≡ slice_index (words from.now.bytes) k }
{
    count_in(&from.bytes, k as usize)
}

/// Puts a count into its place in a count block. The others stay.
pub fn write_count(count: u32, k: u32, into: &mut Block)
    requires { k < 1024 }
    ensures bytes { into.new.bytes ≡ take (4 * k) into.old.bytes ++ little_bytes 4 count ++ drop (4 * k + 4) into.old.bytes }
    ensures counts { words into.new.bytes ≡ slice_set (words into.old.bytes) k count }
{
    put(&spelled(count), 4 * k as usize, &mut into.bytes);
}

/// The count k in the bytes of counts.
fn count_in(bytes: &[u8], k: usize) -> u32
    requires { 4 * k + 4 ≤ length bytes.now }
    ensures { result ≡ slice_index (words bytes.now) k }
{
    LittleEndian::read_u32(&bytes[4 * k..])
}

/// The bytes of a count.
fn spelled(count: u32) -> [u8; 4]
    ensures { result ≡ little_bytes 4 count }
{
    let mut bytes = [0; 4];
    LittleEndian::write_u32(&mut bytes, count);
    bytes
}
