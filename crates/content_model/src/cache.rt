//! The trait of a cache of fingerprints.
ghost use Rattle.std.specs.Prelude.{◌≡◌, ◌≤◌, ◌+◌, ℕ, List, length, true};
ghost use Rattle.std.specs.Option.{ForSome};
ghost use Rattle.place_words.specs.Different.{Distinct};
ghost use Rattle.volume_model.specs.Cache.{CacheList, cached_blocks, is_cached, forget, use_block};
ghost use Rattle.volume_model.specs.Cache.{kin as kin_in};
ghost use Rattle.content_model.specs.Kin.{AreAscending};
ghost use Rattle.content_model.specs.Order.{older_in};

use crate::{Fingerprint, KinList, Steps};
use std::sync::ledger::Ledger;
use vol_numbers::BlockNo;

/// A list of fingerprints with disk blocks, the one used last in front. No call takes memory.
pub trait ContentCache {
    /// The fingerprints with their blocks, the one used last in front.
    ghost list: { Self → CacheList };

    /// How many pairs the list has at most.
    ghost capacity: { Self → ℕ };

    /// How many steps no call of `kin` exceeds.
    ghost bound: { Self → ℕ };

    /// How many pairs the list has at most.
    fn capacity(&self) -> u32
        ensures { result ≡ capacity self.now };

    /// Uses a block: its older pair leaves, and its new one stands in front. Of more than 8 pairs of the fingerprint the last
    /// leaves, and so does what is behind the capacity.
    fn use_block(&mut self, fp: &Fingerprint, at: BlockNo)
        ensures used { list self.new ≡ use_block (capacity self.old) (list self.old) fp.now at }
        ensures capacity { capacity self.new ≡ capacity self.old };

    /// Forgets a block, if it is there.
    fn forget(&mut self, at: BlockNo)
        ensures forgotten { list self.new ≡ forget (list self.old) at }
        ensures capacity { capacity self.new ≡ capacity self.old };

    /// The blocks of a fingerprint, ascending.
    fn kin<L: Ledger>(&self, fp: &Fingerprint, out: &mut KinList, steps: &mut Steps<L>)
        ensures kin { AreAscending (cached_blocks (kin_in (list self.now) fp.now)) out.new }
        ensures later { steps.old ≤ steps.new }
        ensures bound { steps.new ≤ steps.old + bound self.now };

    /// Whether a block is there.
    fn has<L: Ledger>(&self, at: BlockNo, steps: &mut Steps<L>) -> bool
        ensures found { result ≡ is_cached (list self.now) at }
        ensures later { steps.old ≤ steps.new };

    /// The block behind the one that is given, and with none the front one. None where no block is behind.
    fn older(&self, than: Option<BlockNo>) -> Option<BlockNo>
        requires { ForSome than (λ block. is_cached (list self.now) block ≡ true) }
        ensures { result ≡ older_in (cached_blocks (list self.now)) than };

    /// No block is there twice.
    ghost once: { (cache : Self) → Distinct (cached_blocks (list cache)) };

    /// At most 8 blocks have one fingerprint.
    ghost few: { (cache : Self) (fingerprint : List ℕ) → length (kin_in (list cache) fingerprint) ≤ 8 };

    /// The list has no more pairs than its capacity.
    ghost within: { (cache : Self) → length (list cache) ≤ capacity cache };
}
