//! The two homes of a count block, by the home bits of a root.
ghost use Rattle.std.specs.Prelude.{◌≡◌, ◌≢◌, ◌<◌, ◌-◌, ◌*◌, ℕ, length};
ghost use Rattle.block_format.specs.Homes.{home_bit};
ghost use Rattle.count_pairs.specs.Homes.{home_of, other_of};

use block_format::HomeBits;
use vol_numbers::BlockNo;

/// The home of a count block that the bits name.
pub(crate) fn home(homes: &HomeBits, i: u32) -> BlockNo
    requires { i < 1024 }
    ensures { result ≡ home_of homes.now.bytes i }
{
    let bit = (homes.bytes[i as usize / 8] >> (i % 8)) % 2;
    3 + 2 * i + u32::from(bit)
}

/// The home of a count block that the bits don't name.
pub(crate) fn other_home(homes: &HomeBits, i: u32) -> BlockNo
    requires { i < 1024 }
    ensures { result ≡ other_of homes.now.bytes i }
{
    let bit = (homes.bytes[i as usize / 8] >> (i % 8)) % 2;
    3 + 2 * i + (1 - u32::from(bit))
}

/// Names the other home of a count block.
pub(crate) fn flip(homes: &mut HomeBits, i: u32)
    requires { i < 1024 }
    ensures flipped { home_bit homes.new.bytes i ≡ 1 - home_bit homes.old.bytes i }
    ensures others { (j : ℕ) → j ≢ i → home_bit homes.new.bytes j ≡ home_bit homes.old.bytes j }
{
    flip_bit(&mut homes.bytes, i as usize);
}

fn flip_bit(bytes: &mut [u8], i: usize)
    requires { i < 8 * length bytes.old }
    ensures flipped { home_bit bytes.new i ≡ 1 - home_bit bytes.old i }
    ensures others { (j : ℕ) → j ≢ i → home_bit bytes.new j ≡ home_bit bytes.old j }
{
    bytes[i / 8] ^= 1 << (i % 8);
}
