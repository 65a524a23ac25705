//! The store of what is staged.
ghost use Rattle.std.specs.Prelude.{◌≡◌, length, IfOk, OnOk, OnErr};
ghost use Rattle.std.specs.Option.{option_copied, option_map};
ghost use Rattle.std.specs.FinMap.{find};
ghost use Rattle.volume_model.specs.Places.{spot_cmp};
ghost use Rattle.dirty_store.specs.Laws.{dirty_spots};
ghost use Rattle.dirty_store.specs.Overlay.{IsEffect, IsOverlay, clean, staged, node_of, least_cut, dirty_places, width_of};
ghost use Rattle.dirty_store.specs.Undo.{IsUndoable, KeepsRoom, undone};
ghost use Rattle.dirty_store.specs.Runs.{AreRunsOf};
ghost use Rattle.dirty_store.specs.Numbers.{AreOnce, staged_numbers, staged_pages};

use crate::boxes::{Boxed, boxed_lists};
use crate::cuts::bounds_of;
use crate::effect::Effect;
use crate::entries::get;
use crate::node_change::{Nodes, least_cut, node_back, node_of, stage_node};
use crate::numbers::{NumberList, PlaceList, pages_of, push_nodes, push_numbers, sort_once};
use crate::rooms::{rooms_for, whole};
use crate::runs::runs_of;
use crate::staged::Staged;
use crate::staging::{put_all_back, restage};
use block_format::{Inode, Slot};
use std::alloc::{AllocError, Global};
use std::collections::BTreeMap;
use std::marker::Model;
use vol_numbers::{Block, Fbn, InoNo, RunList};

/// Dirty blocks, nodes and slots since the last point.
#[derive(Drop)]
pub struct DirtyStore {
    blocks: Vec<Boxed<Block>>,
    nodes: Nodes,
    slots: Vec<Boxed<Slot>>,
}

impl Model for DirtyStore {
    ghost use Rattle.std.specs.Prelude.{vec_capacity};
    ghost use Rattle.dirty_store.specs.Inside.{unboxed};
    ghost use Rattle.dirty_store.specs.Undo.{Store};
    ghost use Rattle.dirty_store.specs.Inside.{IsKept};

    ghost Value = { Store };

    ghost view = { λ s. record {
      overlay = record { blocks = unboxed s.blocks.items; nodes = s.nodes.entries; slots = unboxed s.slots.items };
      block_room = vec_capacity s.blocks;
      slot_room = vec_capacity s.slots;
    } };

    ghost invariant = { λ s. IsKept s.blocks.items s.nodes.entries s.slots.items };
}

impl DirtyStore {
    /// Nothing is staged, which takes no memory.
    pub fn new(alloc: Global) -> DirtyStore
        ensures { result.overlay ≡ clean }
    {
        DirtyStore {
            blocks: Vec::new(alloc),
            nodes: BTreeMap::new(alloc),
            slots: Vec::new(alloc),
        }
    }

    /// Stages an effect: first its cut, then its touched places and its slots, each list in its order. All is unchanged where memory is wanting.
    ///
    /// A place or a slot costs a search by halves, and a shift of 16 bytes for each entry behind it. A block is moved once, into its box.
    pub fn stage(&mut self, alloc: Global, effect: Effect) -> Result<Staged, AllocError>
        requires { IsEffect effect }
        ensures staged { OnOk result (self.new.overlay ≡ staged self.old.overlay effect) }
        ensures back { IfOk result (λ replaced. undone self.new.overlay replaced ≡ self.old.overlay) }
        ensures undoable { IfOk result (IsUndoable self.new) }
        ensures unchanged { OnErr result (self.new.overlay ≡ self.old.overlay) }
        ensures room { KeepsRoom self.old self.new }
    {
        let Effect {
            number,
            inode,
            cut_to,
            touched,
            slots,
        } = effect;
        let new = boxed_lists(alloc, number, touched, slots)?;
        let were = rooms_for(
            alloc,
            &mut self.blocks,
            &mut self.slots,
            number,
            cut_to,
            &new,
        )?;
        let node = stage_node(&mut self.nodes, number, inode, cut_to)?;
        Ok(Staged {
            number,
            node,
            blocks: restage(&mut self.blocks, number, cut_to, new.blocks, were.blocks),
            slots: restage(
                &mut self.slots,
                number,
                whole(cut_to),
                new.slots,
                were.slots,
            ),
        })
    }

    /// Puts back what a staging replaced. Where it was the last one, the store is as it was before it. It takes no memory.
    pub fn undo(&mut self, staged: Staged)
        requires { IsUndoable self.old staged }
        ensures undone { self.new.overlay ≡ undone self.old.overlay staged }
        ensures room { KeepsRoom self.old self.new }
    {
        let Staged {
            number,
            node,
            blocks,
            slots,
        } = staged;
        put_all_back(&mut self.blocks, blocks);
        put_all_back(&mut self.slots, slots);
        node_back(&mut self.nodes, number, node);
    }

    /// The block of a dirty place.
    pub fn block(&self, number: InoNo, place: Fbn) -> Option<&Block>
        ensures { option_copied result ≡ find spot_cmp (number, place) self.now.overlay.blocks }
    {
        match get(&self.blocks, (number, place)) {
            Some(block) => Some(block),
            None => None,
        }
    }

    /// The content of a slot that was staged last.
    pub fn slot(&self, directory: InoNo, k: u32) -> Option<&Slot>
        ensures { option_copied result ≡ find spot_cmp (directory, k) self.now.overlay.slots }
    {
        match get(&self.slots, (directory, k)) {
            Some(slot) => Some(slot),
            None => None,
        }
    }

    /// The dirty places of a node, ascending, in the longest runs.
    pub fn runs_of(&self, alloc: Global, number: InoNo) -> Result<RunList, AllocError>
        ensures { IfOk result (AreRunsOf (dirty_places self.now.overlay.blocks number)) }
    {
        let bounds = bounds_of(&self.blocks, number, 0);
        runs_of(alloc, &self.blocks[bounds])
    }

    /// The numbers of which something is staged, a dirty place, a node or a slot: in ascending order, each once.
    pub fn numbers(&self, alloc: Global) -> Result<NumberList, AllocError>
        ensures { IfOk result (AreOnce (staged_numbers self.now.overlay)) }
    {
        let mut numbers = Vec::new(alloc);
        push_numbers(&mut numbers, &self.blocks)?;
        push_nodes(&mut numbers, &self.nodes)?;
        push_numbers(&mut numbers, &self.slots)?;
        sort_once(&mut numbers);
        Ok(NumberList::from_vec(numbers))
    }

    /// The pages of a directory in which a slot is staged: in ascending order, each once.
    pub fn pages(&self, alloc: Global, directory: InoNo) -> Result<PlaceList, AllocError>
        ensures { IfOk result (AreOnce (staged_pages self.now.overlay directory)) }
    {
        let bounds = bounds_of(&self.slots, directory, 0);
        pages_of(alloc, &self.slots[bounds])
    }

    /// How many places are dirty. They are in order, and each is within the greatest size.
    pub fn dirty_count(&self) -> usize
        ensures count { result ≡ length (dirty_spots self.now.overlay) }
        ensures in_order { IsOverlay self.now.overlay }
    {
        self.blocks.len()
    }

    /// One more than the greatest slot of a directory that is staged, 0 where there is none.
    pub fn width(&self, directory: InoNo) -> u32
        ensures is { result ≡ width_of self.now.overlay.slots directory }
        ensures in_order { IsOverlay self.now.overlay }
    {
        let bounds = bounds_of(&self.slots, directory, 0);
        match self.slots[bounds].last() {
            Some(last) => last.0.1 + 1,
            None => 0,
        }
    }

    /// The least number of blocks that a cut of the node has named, 1,048,576 where there was none.
    pub fn cut_to(&self, number: InoNo) -> Fbn
        ensures { result ≡ least_cut (node_of self.now.overlay number) }
    {
        least_cut(node_of(&self.nodes, number))
    }

    /// The kind and size of a node that were staged last.
    pub fn inode(&self, number: InoNo) -> Option<Inode>
        ensures { result ≡ option_map (λ node. node.inode) (node_of self.now.overlay number) }
    {
        match node_of(&self.nodes, number) {
            Some(node) => Some(node.inode),
            None => None,
        }
    }
}
