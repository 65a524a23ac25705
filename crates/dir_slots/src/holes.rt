//! The unused slots of a directory, from the last down.
ghost use Rattle.std.specs.Prelude.{◌≡◌, ◌<◌, ◌≤◌, ◌+◌, ℕ, IfOk, slice_index, length, vec_len, vec_capacity};
ghost use Rattle.std.specs.List.{insert};
ghost use Rattle.dir_slots.specs.Index.{IsHoles, IsDescending};

use crate::slots::is_used;
use block_format::Slot;
use std::alloc::{AllocError, Global};

/// The unused slots, with room for one more than there are slots.
pub(crate) fn holes_of(alloc: Global, slots: &[Slot]) -> Result<Vec<u32>, AllocError>
    requires { length slots.now ≤ 65534 }
    ensures holes { IfOk result (λ holes. IsHoles slots.now holes.items) }
    ensures room { IfOk result (λ holes. length slots.now < vec_capacity holes) }
{
    let mut holes = Vec::with_capacity(alloc, slots.len() + 1)?;
    for i in (0..slots.len() as u32).rev() {
        if !is_used(&slots[i as usize]) {
            holes.push(i)?;
        }
    }
    Ok(holes)
}

/// How many of the holes are above a slot.
pub(crate) fn count_above(holes: &[u32], slot: u32) -> usize
    requires { IsDescending holes.now }
    ensures within { result ≤ length holes.now }
    ensures above { (k : ℕ) → k < result → slot < slice_index holes.now k }
    ensures below { (k : ℕ) → result ≤ k → k < length holes.now → slice_index holes.now k ≤ slot }
{
    let mut low = 0;
    let mut high = holes.len();
    while low < high {
        let middle = low + (high - low) / 2;
        if slot < holes[middle] {
            low = middle + 1;
        } else {
            high = middle;
        }
    }
    low
}

/// Puts a slot among the holes. There is room for it.
pub(crate) fn put_hole(holes: &mut Vec<u32>, place: usize, slot: u32)
    requires place { place ≤ length holes.old.items }
    requires room { vec_len holes.old < vec_capacity holes.old }
    ensures put { holes.new.items ≡ insert holes.old.items place slot }
    ensures capacity { vec_capacity holes.old ≤ vec_capacity holes.new }
{
    let _ = holes.insert(place, slot);
}
