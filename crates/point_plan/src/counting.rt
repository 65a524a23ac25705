//! Pointers that come and go, counted.
ghost use Rattle.std.specs.Prelude.{◌≡◌, ◌≢◌, ◌<◌, ◌≤◌, ◌+◌, ◌++◌, ◌^◌, ℕ, length, slice_index};
ghost use Rattle.count_pairs.specs.Homes.{Blocks};
ghost use Rattle.count_pairs.specs.Table.{IsKept};
ghost use Rattle.place_words.specs.Different.{times};
ghost use Rattle.point_plan.specs.Nodes.{IsCountable, all_added, all_dropped};

use crate::PlannedNode;
use block_tree::Rewritten;
use count_pairs::CountTable;
use vol_numbers::BlockNo;

/// Counts the pointers that come and then those that go, of all changed nodes and of the inodes. It takes no memory.
pub(crate) fn count_pointers(counts: &mut CountTable, nodes: &[PlannedNode], inodes: &Rewritten)
    ensures moved { (b : ℕ) → b < length counts.old.counts → IsCountable nodes.now inodes.now (slice_index counts.old.counts b) b
        → slice_index counts.old.counts b + times b (inodes.now.added ++ all_added nodes.now) ≡ slice_index counts.new.counts b + times b (inodes.now.dropped ++ all_dropped nodes.now) }
    ensures long { length counts.new.counts ≡ length counts.old.counts }
    ensures touched { length counts.new.touched ≡ length counts.old.touched }
    ensures kept { (read : Blocks) (homes : _) → IsKept read homes counts.old → IsKept read homes counts.new }
{
    count_added(counts, inodes.added.as_slice());
    count_nodes_added(counts, nodes);
    count_dropped(counts, inodes.dropped.as_slice());
    count_nodes_dropped(counts, nodes);
}

/// Counts the pointers that come to the blocks of all changed nodes.
fn count_nodes_added(counts: &mut CountTable, nodes: &[PlannedNode])
    ensures counted { (b : ℕ) → b < length counts.old.counts → (1 ≤ times b (all_added nodes.now) → slice_index counts.old.counts b + times b (all_added nodes.now) < 2 ^ 32)
        → slice_index counts.new.counts b ≡ slice_index counts.old.counts b + times b (all_added nodes.now) }
    ensures long { length counts.new.counts ≡ length counts.old.counts }
    ensures touched { length counts.new.touched ≡ length counts.old.touched }
    ensures kept { (read : Blocks) (homes : _) → IsKept read homes counts.old → IsKept read homes counts.new }
{
    for node in nodes {
        count_added(counts, node.added.as_slice());
    }
}

/// Counts the pointers that go, of all changed nodes.
fn count_nodes_dropped(counts: &mut CountTable, nodes: &[PlannedNode])
    ensures counted { (b : ℕ) → b < length counts.old.counts → times b (all_dropped nodes.now) ≤ slice_index counts.old.counts b
        → slice_index counts.new.counts b + times b (all_dropped nodes.now) ≡ slice_index counts.old.counts b }
    ensures long { length counts.new.counts ≡ length counts.old.counts }
    ensures touched { length counts.new.touched ≡ length counts.old.touched }
    ensures kept { (read : Blocks) (homes : _) → IsKept read homes counts.old → IsKept read homes counts.new }
{
    for node in nodes {
        count_dropped(counts, node.dropped.as_slice());
    }
}

/// Counts a pointer more to each of these blocks, as often as it is named.
fn count_added(counts: &mut CountTable, added: &[BlockNo])
    ensures counted { (b : ℕ) → b < length counts.old.counts → (1 ≤ times b added.now → slice_index counts.old.counts b + times b added.now < 2 ^ 32)
        → slice_index counts.new.counts b ≡ slice_index counts.old.counts b + times b added.now }
    ensures long { length counts.new.counts ≡ length counts.old.counts }
    ensures touched { length counts.new.touched ≡ length counts.old.touched }
    ensures kept { (read : Blocks) (homes : _) → IsKept read homes counts.old → IsKept read homes counts.new }
{
    for b in added {
        count_one(counts, *b);
    }
}

/// Counts a pointer less to each of these blocks, as often as it is named.
fn count_dropped(counts: &mut CountTable, dropped: &[BlockNo])
    ensures counted { (b : ℕ) → b < length counts.old.counts → times b dropped.now ≤ slice_index counts.old.counts b
        → slice_index counts.new.counts b + times b dropped.now ≡ slice_index counts.old.counts b }
    ensures long { length counts.new.counts ≡ length counts.old.counts }
    ensures touched { length counts.new.touched ≡ length counts.old.touched }
    ensures kept { (read : Blocks) (homes : _) → IsKept read homes counts.old → IsKept read homes counts.new }
{
    for b in dropped {
        drop_one(counts, *b);
    }
}

/// Counts a pointer more to a block. Only a disk that tells nothing gives a block without a count, or a count that can't rise.
fn count_one(counts: &mut CountTable, b: BlockNo)
    ensures counted { b < length counts.old.counts → slice_index counts.old.counts b + 1 < 2 ^ 32 → slice_index counts.new.counts b ≡ slice_index counts.old.counts b + 1 }
    ensures others { (c : ℕ) → c ≢ b → slice_index counts.new.counts c ≡ slice_index counts.old.counts c }
    ensures long { length counts.new.counts ≡ length counts.old.counts }
    ensures touched { length counts.new.touched ≡ length counts.old.touched }
    ensures kept { (read : Blocks) (homes : _) → IsKept read homes counts.old → IsKept read homes counts.new }
{
    if b as usize >= counts.as_slice().len() {
        return;
    }
    if counts.get(b) == u32::MAX {
        return;
    }
    counts.add(b);
}

/// Counts a pointer less to a block. Only a disk that tells nothing gives a block without a count, or one that is 0 already.
fn drop_one(counts: &mut CountTable, b: BlockNo)
    ensures counted { b < length counts.old.counts → 1 ≤ slice_index counts.old.counts b → slice_index counts.new.counts b + 1 ≡ slice_index counts.old.counts b }
    ensures others { (c : ℕ) → c ≢ b → slice_index counts.new.counts c ≡ slice_index counts.old.counts c }
    ensures long { length counts.new.counts ≡ length counts.old.counts }
    ensures touched { length counts.new.touched ≡ length counts.old.touched }
    ensures kept { (read : Blocks) (homes : _) → IsKept read homes counts.old → IsKept read homes counts.new }
{
    if b as usize >= counts.as_slice().len() {
        return;
    }
    if counts.get(b) == 0 {
        return;
    }
    counts.drop_one(b);
}
