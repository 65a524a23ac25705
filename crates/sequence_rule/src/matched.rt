//! A dirty place with the blocks that it matches.
ghost use Rattle.std.specs.Prelude.{◌≡◌};
ghost use Rattle.place_words.specs.Different.{is_among};

use content_model::KinList;
use vol_numbers::{BlockNo, Fbn};

/// A dirty place, and the disk blocks that its block matches.
#[derive(Drop)]
pub(crate) struct PlaceMatches {
    pub place: Fbn,
    pub blocks: KinList,
}

impl PlaceMatches {
    ghost use Rattle.sequence_rule.specs.Matched.{row_matches};

    /// Whether it is this place, and matches this block.
    pub fn matches(&self, place: u64, block: u64) -> bool
        ensures { result ≡ row_matches self.now place block }
    {
        u64::from(self.place) == place && has_block(self.blocks.as_slice(), block)
    }
}

fn has_block(blocks: &[BlockNo], block: u64) -> bool
    ensures { result ≡ is_among blocks.now block }
{
    for other in blocks {
        if u64::from(*other) == block {
            return true;
        }
    }
    false
}
