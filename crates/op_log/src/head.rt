//! The first bytes of a record as they stand, before any rule.
use byteorder::{ByteOrder, LittleEndian};

/// The kind of a record, the lengths of its two parts, and its number.
#[derive(Clone, Copy)]
pub(crate) struct Head {
    pub(crate) kind: u8,
    pub(crate) path_len: u32,
    pub(crate) number: u64,
    pub(crate) rest_len: u32,
}

impl Head {
    ghost use Rattle.std.specs.Prelude.{◌≡◌, ◌≤◌, ◌↔◌, length, IsSome, IfSome};
    ghost use Rattle.op_log.specs.Reading.{head_in, blocks_in, HasLimits};

    #[tactic(auto, unfolding(crate::specs::Reading::head_in))]
    pub(crate) fn read(bytes: &[u8]) -> Head
        requires { 24 ≤ length bytes.now }
        ensures { result ≡ head_in bytes.now }
    {
        Head {
            kind: bytes[0],
            path_len: LittleEndian::read_u32(&bytes[4..]),
            number: LittleEndian::read_u64(&bytes[8..]),
            rest_len: LittleEndian::read_u32(&bytes[16..]),
        }
    }

    /// How many blocks the record takes, exactly where its parts are within their limits.
    pub(crate) fn blocks(&self) -> Option<u32>
        ensures within { IsSome result ↔ HasLimits self.now }
        ensures value { IfSome result (λ count. count ≡ blocks_in self.now) }
    {
        if self.path_len > 1_024 {
            return None;
        }
        if self.rest_len > 65_536 {
            return None;
        }
        Some((24 + self.path_len + self.rest_len).div_ceil(4_096))
    }
}
