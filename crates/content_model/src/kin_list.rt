//! The blocks of one fingerprint.
ghost use Rattle.std.specs.Prelude.{◌≡◌, ◌<◌, ◌≤◌, [], length};
ghost use Rattle.content_model.specs.Kin.{included, place_in};

use arrayvec::ArrayVec;
use std::marker::Model;
use vol_numbers::BlockNo;

/// How many blocks of one fingerprint a cache keeps.
pub const KIN_LIMIT: usize = 8;

/// At most 8 numbers of blocks, in an array.
#[derive(Drop)]
pub struct KinList {
    blocks: ArrayVec<BlockNo, KIN_LIMIT>,
}

impl Model for KinList {
    ghost use Rattle.std.specs.Prelude.{List, ℕ};

    ghost Value = { List ℕ };

    ghost view = { λ k. k.blocks.items };
}

impl KinList {
    pub fn new() -> KinList
        ensures { result ≡ [] }
    {
        KinList {
            blocks: ArrayVec::new(),
        }
    }

    pub fn clear(&mut self)
        ensures { self.new ≡ [] }
    {
        self.blocks.clear();
    }

    /// Puts a block in front of the first that is above it. One that is there already stays the only one.
    pub fn include(&mut self, block: BlockNo)
        requires { length self.old < 8 }
        ensures { self.new ≡ included block self.old }
    {
        if !self.blocks.as_slice().contains(&block) {
            let place = place_in(self.blocks.as_slice(), block);
            self.blocks.insert(place, block);
        }
    }

    pub fn as_slice(&self) -> &[BlockNo]
        ensures is { result.now ≡ self.now }
        ensures few { length self.now ≤ 8 }
    {
        self.blocks.as_slice()
    }
}

/// The place of the first block that isn't below this one.
fn place_in(blocks: &[BlockNo], block: BlockNo) -> usize
    ensures place { result ≡ place_in block blocks.now }
    ensures within { result ≤ length blocks.now }
{
    for (i, other) in blocks.iter().enumerate() {
        if block <= *other {
            return i;
        }
    }
    blocks.len()
}
