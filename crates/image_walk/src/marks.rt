//! What leads to each block.
ghost use Rattle.std.specs.Prelude.{◌≡◌, ◌<◌, ◌*◌, ◌∷◌, [], ℕ, true, false, OnOk, IfOk, length, replicate, slice_set};
ghost use Rattle.vol_numbers.specs.Geometry.{layout_of};
ghost use Rattle.vol_numbers.specs.Layout.{count_blocks};
ghost use Rattle.block_format.specs.Index.{IsInArea};
ghost use Rattle.image_model.specs.Met.{index, page, content};
ghost use Rattle.image_walk.specs.Marks.{no_mark, mark_of, as_metadata, as_content};
ghost use Rattle.image_walk.specs.Going.{Walks};
ghost use Rattle.image_walk.specs.Cause.{IsNoDevice};

use crate::WalkFault;
use crate::area::is_in_area;
use image_model::Finding;
use std::alloc::{AllocError, Global};
use std::marker::Model;
use vol_numbers::{BlockNo, Geometry};

/// What leads to a block.
#[derive(Clone, Copy, Debug, PartialEq, Eq)]
pub struct Mark {
    /// Whether it was reached as metadata.
    pub is_metadata: bool,
    /// Whether it was reached as a file's data.
    pub is_content: bool,
    /// How many pointers lead to it.
    pub pointers: u32,
}

/// What leads to each block: to all of which there are counts.
#[derive(Drop)]
pub struct Marks {
    marks: Vec<Mark>,
}

impl Model for Marks {
    ghost use Rattle.std.specs.Prelude.{List};
    ghost use Rattle.image_walk.specs.declared.marks.Mark.{Mark};

    ghost Value = { List Mark };

    ghost view = { λ m. m.marks.items };
}

impl Mark {
    /// Nothing leads to it.
    fn none() -> Mark
        ensures { result ≡ no_mark }
    {
        Mark {
            is_metadata: false,
            is_content: false,
            pointers: 0,
        }
    }

    /// With a pointer to it as metadata.
    fn as_metadata(self) -> Mark
        ensures { result ≡ as_metadata self }
    {
        Mark {
            is_metadata: true,
            is_content: self.is_content,
            pointers: self.pointers.saturating_add(1),
        }
    }

    /// With a pointer to it as a file's data.
    fn as_content(self) -> Mark
        ensures { result ≡ as_content self }
    {
        Mark {
            is_metadata: self.is_metadata,
            is_content: true,
            pointers: self.pointers.saturating_add(1),
        }
    }
}

impl Marks {
    /// Nothing leads to any block.
    pub(crate) fn new(alloc: Global, g: &Geometry) -> Result<Marks, AllocError>
        ensures { IfOk result (λ marks. marks ≡ replicate (1024 * count_blocks (layout_of g.now)) no_mark) }
    {
        let marks = vec![in alloc; Mark::none(); 1_024 * g.count_blocks() as usize]?;
        Ok(Marks { marks })
    }

    /// What leads to a block. Nothing does to one of which there is no count.
    pub fn get(&self, block: BlockNo) -> Mark
        ensures { result ≡ mark_of self.now block }
    {
        match self.marks.get(block as usize) {
            Some(mark) => *mark,
            None => Mark::none(),
        }
    }

    /// A pointer to metadata.
    pub(crate) fn meet_metadata(&mut self, g: &Geometry, ptr: BlockNo) -> Result<(), WalkFault>
        requires { length self.old ≡ 1024 * count_blocks (layout_of g.now) }
        ensures of_index { Walks (layout_of g.now) self.old self.new (index ptr ∷ []) result }
        ensures of_page { (n place : ℕ) → Walks (layout_of g.now) self.old self.new (page n place ptr ∷ []) result }
        ensures cause { IsNoDevice result }
        ensures within { OnOk result (IsInArea (layout_of g.now) ptr) }
    {
        if !is_in_area(ptr, g) {
            return Err(WalkFault::Found(Finding::BadPointer(ptr)));
        }
        let mark = self.marks[ptr as usize];
        if mark.is_metadata {
            return Err(WalkFault::Found(Finding::BadPointer(ptr)));
        }
        self.marks[ptr as usize] = mark.as_metadata();
        Ok(())
    }

    /// A pointer to a file's block.
    pub(crate) fn meet_content(&mut self, g: &Geometry, ptr: BlockNo) -> Result<(), WalkFault>
        requires { length self.old ≡ 1024 * count_blocks (layout_of g.now) }
        ensures walked { (n place : ℕ) → Walks (layout_of g.now) self.old self.new (content n place ptr ∷ []) result }
        ensures cause { IsNoDevice result }
        ensures within { OnOk result (IsInArea (layout_of g.now) ptr) }
    {
        if !is_in_area(ptr, g) {
            return Err(WalkFault::Found(Finding::BadPointer(ptr)));
        }
        let mark = self.marks[ptr as usize];
        self.marks[ptr as usize] = mark.as_content();
        Ok(())
    }
}
