//! The fingerprint of a block.
ghost use Rattle.std.specs.Prelude.{◌≡◌};
ghost use Rattle.sha2.specs.Sha256.{sha256};

use crate::Fingerprint;
use sha2::{Digest, Sha256};
use vol_numbers::Block;

/// The SHA-256 of the block's 4,096 bytes.
pub fn fingerprint(block: &Block) -> Fingerprint
    ensures { result ≡ sha256 block.now.bytes }
{
    Fingerprint::new(Sha256::digest(block.bytes.as_slice()))
}
