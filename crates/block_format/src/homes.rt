//! The home bits of a root: in which of its two homes each count block lies.
ghost use Rattle.std.specs.Prelude.{◌≡◌, ◌<◌, ◌≤◌, ◌↔◌, ℕ, IsTrue, replicate};
ghost use Rattle.block_format.specs.Homes.{home_bit};

/// Bit `i mod 8` of byte `i / 8` is the home of count block `i`.
#[derive(Clone, Copy, Debug, PartialEq, Eq)]
pub struct HomeBits {
    pub bytes: [u8; 128],
}

impl HomeBits {
    /// Each count block lies in its first home.
    pub fn zero() -> HomeBits
        ensures { result.bytes ≡ replicate 128 0 }
    {
        HomeBits { bytes: [0; 128] }
    }

    /// The home of a count block.
    pub fn home(&self, i: u32) -> u8
        requires { i < 1024 }
        ensures { result ≡ home_bit self.now.bytes i }
    {
        (self.bytes[i as usize / 8] >> (i % 8)) % 2
    }

    /// Whether no bit is set from this one on.
    pub(crate) fn is_clear_from(&self, first: u32) -> bool
        ensures { IsTrue result ↔ ((i : ℕ) → i < 1024 → first ≤ i → home_bit self.now.bytes i ≡ 0) }
    {
        for i in first..1_024 {
            if self.home(i) != 0 {
                return false;
            }
        }
        true
    }
}
