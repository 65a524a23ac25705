//! The cache as its list, in one `Vec`.
ghost use Rattle.std.specs.Prelude.{◌≡◌, ◌≤◌, ◌<◌, ◌∷◌, [], ℕ, List, IfOk, IfNone, IfSome, length, remove, take, slice_get, position, nat_eq};
ghost use Rattle.std.specs.Option.{ForSome};
ghost use Rattle.std.specs.Vec.{vec_len, vec_capacity};
ghost use Rattle.place_words.specs.Different.{Distinct};
ghost use Rattle.volume_model.specs.Cache.{cached_blocks, is_cached, forget, use_block, without_last_kin};
ghost use Rattle.volume_model.specs.Cache.{kin as kin_in};
ghost use Rattle.content_model.specs.Kin.{AreAscending};
ghost use Rattle.content_model.specs.Order.{older_in, behind};
ghost use Rattle.content_model.specs.Stored.{with_room_for_kin, Distinct-prop};

use crate::{ContentCache, Fingerprint, KIN_LIMIT, KinList, Steps};
use std::alloc::{AllocError, Global};
use std::marker::Model;
use std::sync::ledger::Ledger;
use vol_numbers::BlockNo;

/// A fingerprint with a block that has it.
#[derive(Clone, Copy)]
struct Pair {
    fp: Fingerprint,
    block: BlockNo,
}

impl Model for Pair {
    ghost use Rattle.std.specs.Prelude.{List, ℕ};

    ghost Value = { List ℕ × ℕ };

    ghost view = { λ p. (p.fp, p.block) };

    ghost inverse = { λ v. record { fp = v.0; block = v.1 } };
}

/// A cache that searches its list from front to back. Its memory is taken once, when it is made.
#[derive(Drop)]
pub struct PlainCache {
    pairs: Vec<Pair>,
    capacity: u32,
    ghost reserved: { capacity ≤ vec_capacity pairs },
    ghost fits: { length pairs.items ≤ capacity },
    ghost distinct: { Distinct (cached_blocks pairs.items) } by { Distinct-prop (cached_blocks pairs.items) },
    ghost few_kin: { (fingerprint : List ℕ) → length (kin_in pairs.items fingerprint) ≤ 8 },
}

impl PlainCache {
    /// An empty cache with room for so many pairs.
    pub fn with_capacity(alloc: Global, n: u32) -> Result<PlainCache, AllocError>
        ensures empty { IfOk result (λ cache. ⟦<PlainCache as ContentCache>⟧.list cache ≡ []) }
        ensures capacity { IfOk result (λ cache. ⟦<PlainCache as ContentCache>⟧.capacity cache ≡ n) }
    {
        Ok(PlainCache {
            pairs: Vec::with_capacity(alloc, n as usize)?,
            capacity: n,
        })
    }
}

/// Forgets a block.
fn without_block(pairs: &mut Vec<Pair>, at: BlockNo)
    ensures pairs { pairs.new.items ≡ forget pairs.old.items at }
    ensures capacity { vec_capacity pairs.new ≡ vec_capacity pairs.old }
{
    pairs.retain(|pair| pair.block != at);
}

/// How many pairs have the fingerprint.
fn kin_count(pairs: &[Pair], fp: &Fingerprint) -> usize
    ensures { result ≡ length (kin_in pairs.now fp.now) }
{
    pairs.iter().filter(|pair| pair.fp == *fp).count()
}

/// The place of the last pair of the fingerprint.
fn last_kin(pairs: &[Pair], fp: &Fingerprint) -> Option<usize>
    ensures none { IfNone result (without_last_kin fp.now pairs.now ≡ pairs.now) }
    ensures last { IfSome result (λ place. (place < length pairs.now) × (remove pairs.now place ≡ without_last_kin fp.now pairs.now)) }
{
    for i in (0..pairs.len()).rev() {
        let pair = &pairs[i];
        if pair.fp == *fp {
            return Some(i);
        }
    }
    None
}

/// Makes room for one pair more of the fingerprint.
fn make_room_for_kin(pairs: &mut Vec<Pair>, fp: &Fingerprint)
    ensures pairs { pairs.new.items ≡ with_room_for_kin fp.now pairs.old.items }
    ensures capacity { vec_capacity pairs.new ≡ vec_capacity pairs.old }
{
    if kin_count(pairs, fp) < KIN_LIMIT {
        return;
    }
    if let Some(i) = last_kin(pairs, fp) {
        pairs.remove(i);
    }
}

/// Puts a pair in front, and drops what is behind the capacity.
fn put_in_front(pairs: &mut Vec<Pair>, capacity: u32, pair: Pair)
    requires { capacity ≤ vec_capacity pairs.old }
    ensures pairs { pairs.new.items ≡ take capacity (pair ∷ pairs.old.items) }
    ensures capacity { vec_capacity pairs.old ≤ vec_capacity pairs.new }
{
    if capacity == 0 {
        pairs.clear();
        return;
    }
    pairs.truncate(capacity as usize - 1);
    if let Err(_) = pairs.insert(0, pair) {
        unreachable!()
    }
}

/// Uses a pair by the rule of the list.
#[tactic(auto, using(crate::proofs::Using::taken_is))]
fn use_pair(pairs: &mut Vec<Pair>, capacity: u32, pair: Pair)
    requires { capacity ≤ vec_capacity pairs.old }
    ensures pairs { pairs.new.items ≡ use_block capacity pairs.old.items pair.0 pair.1 }
    ensures capacity { vec_capacity pairs.old ≤ vec_capacity pairs.new }
{
    without_block(pairs, pair.block);
    make_room_for_kin(pairs, &pair.fp);
    put_in_front(pairs, capacity, pair);
}

impl ContentCache for PlainCache {
    ghost use Rattle.std.specs.Prelude.{refl};
    ghost use Rattle.volume_model.specs.Cache.{CacheList};

    ghost list = { λ cache. cache.pairs.items };

    ghost capacity = { λ cache. cache.capacity };

    ghost bound = { λ cache. 0 };

    ghost once = { λ cache. cache.distinct };

    ghost few = { λ cache. cache.few_kin };

    ghost within = { λ cache. cache.fits };

    fn capacity(&self) -> u32 {
        self.capacity
    }

    fn use_block(&mut self, fp: &Fingerprint, at: BlockNo) {
        let PlainCache { pairs, capacity } = self;
        use_pair(pairs, *capacity, Pair { fp: *fp, block: at });
    }

    fn forget(&mut self, at: BlockNo) {
        let PlainCache { pairs, capacity: _ } = self;
        without_block(pairs, at);
    }

    fn kin<L: Ledger>(&self, fp: &Fingerprint, out: &mut KinList, steps: &mut Steps<L>)
        ensures kin { AreAscending (cached_blocks (kin_in (⟦<PlainCache as ContentCache>⟧.list self.now) fp.now)) out.new }
        ensures later { steps.old ≤ steps.new }
        ensures bound { steps.new ≤ steps.old }
    {
        out.clear();
        for pair in &self.pairs {
            if pair.fp == *fp {
                out.include(pair.block);
            }
        }
    }

    fn has<L: Ledger>(&self, at: BlockNo, steps: &mut Steps<L>) -> bool {
        place_of(self.pairs.as_slice(), at).is_some()
    }

    fn older(&self, than: Option<BlockNo>) -> Option<BlockNo> {
        match than {
            None => block_at(self.pairs.as_slice(), 0),
            Some(block) => behind(self.pairs.as_slice(), block),
        }
    }
}

/// The place of a block in the list.
fn place_of(pairs: &[Pair], block: BlockNo) -> Option<usize>
    ensures { result ≡ position (λ p. nat_eq p.1 block) pairs.now }
{
    pairs.iter().position(|pair| pair.block == block)
}

/// The block at a place of the list.
fn block_at(pairs: &[Pair], place: usize) -> Option<BlockNo>
    ensures { result ≡ slice_get (cached_blocks pairs.now) place }
{
    pairs.get(place).map(|pair| pair.block)
}

/// The block behind this one.
fn behind(pairs: &[Pair], block: BlockNo) -> Option<BlockNo>
    ensures { result ≡ behind block (cached_blocks pairs.now) }
{
    match place_of(pairs, block) {
        None => None,
        Some(place) => block_at(pairs, place + 1),
    }
}
