//! The changes of a tree, leaf by leaf.
ghost use Rattle.std.specs.Prelude.{◌≡◌, ◌≤◌, ◌/◌, ℕ, filter, nat_le, nat_lt, IfOk};
ghost use Rattle.std.specs.List.Sorted.{IsPermutation};
ghost use Rattle.vol_numbers.specs.declared.runs.Change.{Change as ChangeOf};
ghost use Rattle.block_tree.specs.Edit.{portion, AreInOrder};

use std::alloc::{AllocError, Global};
use vol_numbers::{Change, ChangeList};

/// The changes in the order of their leaves. Those of one leaf stay in their order.
pub(crate) fn by_leaf(alloc: Global, changes: &ChangeList) -> Result<Vec<Change>, AllocError>
    ensures order { IfOk result (λ sorted. AreInOrder sorted.items) }
    ensures permutation { IfOk result (λ sorted. IsPermutation changes.now sorted.items) }
    ensures portions { IfOk result (λ sorted. (k : ℕ) → portion k sorted.items ≡ portion k changes.now) }
{
    let mut sorted = Vec::from_slice(alloc, changes.as_slice())?;
    sorted.sort_by_key(|change| change.place / 1_024)?;
    Ok(sorted)
}

/// The changes in the leaf k.
pub(crate) fn portion_of(changes: &[Change], k: u32) -> &[Change]
    requires { AreInOrder changes.now }
    ensures { result.now ≡ portion k changes.now }
{
    leaves_up_to(leaves_from(changes, k), k)
}

/// The changes in the leaf k and behind it.
fn leaves_from(changes: &[Change], k: u32) -> &[Change]
    requires { AreInOrder changes.now }
    ensures from { result.now ≡ filter (λ (c : ChangeOf). nat_le k (c.place / 1024)) changes.now }
    ensures order { AreInOrder result.now }
{
    let start = changes.partition_point(|change| change.place / 1_024 < k);
    &changes[start..]
}

/// The changes in the leaf k and before it.
fn leaves_up_to(changes: &[Change], k: u32) -> &[Change]
    requires { AreInOrder changes.now }
    ensures { result.now ≡ filter (λ (c : ChangeOf). nat_le (c.place / 1024) k) changes.now }
{
    let end = changes.partition_point(|change| change.place / 1_024 <= k);
    &changes[..end]
}
