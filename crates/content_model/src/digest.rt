//! Fingerprints as values.
ghost use Rattle.std.specs.Prelude.{◌≡◌};

use std::marker::Model;

/// 32 bytes that stand for the contents of a block. Equal blocks have equal fingerprints; nothing rests on the reverse.
#[derive(Clone, Copy, Debug, PartialEq, Eq, PartialOrd, Ord)]
pub struct Fingerprint {
    bytes: [u8; 32],
}

impl Model for Fingerprint {
    ghost use Rattle.std.specs.Prelude.{List, ℕ};

    ghost Value = { List ℕ };

    ghost view = { λ f. f.bytes };

    ghost inverse = { λ bytes. record { bytes = bytes } };
}

impl Fingerprint {
    pub fn new(bytes: [u8; 32]) -> Fingerprint
        ensures { result ≡ bytes }
    {
        Fingerprint { bytes }
    }

    pub fn as_bytes(&self) -> &[u8; 32]
        ensures { result.now ≡ self.now }
    {
        &self.bytes
    }
}
