//! What a walk has reached so far.
ghost use Rattle.std.specs.Prelude.{◌≡◌, ◌<◌, ◌*◌, ℕ, ◌∷◌, ◌++◌, [], OnOk, IfOk, length, replicate};
ghost use Rattle.vol_numbers.specs.Geometry.{layout_of};
ghost use Rattle.vol_numbers.specs.Layout.{count_blocks};
ghost use Rattle.image_model.specs.Met.{page, content};
ghost use Rattle.image_walk.specs.Marks.{no_mark};
ghost use Rattle.image_walk.specs.Cause.{IsNoDevice};
ghost use Rattle.image_walk.specs.Kept.{last_of};
ghost use Rattle.image_walk.specs.Order.{BlocksGrow, KeepsOf};
ghost use Rattle.image_walk.specs.Trees.{PassesOver};

use crate::{Marks, NodeBlock, WalkFault};
use std::alloc::{AllocError, Global};
use vol_numbers::{BlockNo, Fbn, Geometry, InoNo};

/// Whose blocks are walked over.
#[derive(Clone, Copy)]
pub(crate) struct Owner {
    pub(crate) number: InoNo,
    pub(crate) is_directory: bool,
    /// How many places it has.
    pub(crate) blocks: u64,
}

/// What leads to each block, the blocks of directories, and the last blocks of files.
#[derive(Drop)]
pub(crate) struct Reached {
    pub(crate) marks: Marks,
    pub(crate) pages: Vec<NodeBlock>,
    pub(crate) lasts: Vec<NodeBlock>,
}

impl Reached {
    /// Nothing was reached.
    pub(crate) fn new(alloc: Global, g: &Geometry) -> Result<Reached, AllocError>
        ensures marks { IfOk result (λ reached. reached.marks ≡ replicate (1024 * count_blocks (layout_of g.now)) no_mark) }
        ensures pages { IfOk result (λ reached. reached.pages.items ≡ []) }
        ensures lasts { IfOk result (λ reached. reached.lasts.items ≡ []) }
    {
        let marks = Marks::new(alloc, g)?;
        Ok(Reached {
            marks,
            pages: Vec::new(alloc),
            lasts: Vec::new(alloc),
        })
    }

    /// A pointer to a directory's block.
    pub(crate) fn meet_page(
        &mut self,
        g: &Geometry,
        owner: &Owner,
        place: Fbn,
        ptr: BlockNo,
    ) -> Result<(), WalkFault>
        requires { length self.old.marks ≡ 1024 * count_blocks (layout_of g.now) }
        ensures walked { PassesOver (layout_of g.now) self.old self.new (page owner.now.number place ptr ∷ []) [] result }
        ensures keeps { OnOk result (KeepsOf (layout_of g.now).blocks owner.now.number self.old self.new) }
        ensures cause { IsNoDevice result }
    {
        self.marks.meet_metadata(g, ptr)?;
        keep_page(&mut self.pages, owner, place, ptr)?;
        Ok(())
    }

    /// A pointer to a file's block.
    pub(crate) fn meet_content(
        &mut self,
        g: &Geometry,
        owner: &Owner,
        place: Fbn,
        ptr: BlockNo,
    ) -> Result<(), WalkFault>
        requires { length self.old.marks ≡ 1024 * count_blocks (layout_of g.now) }
        ensures walked { PassesOver (layout_of g.now) self.old self.new (content owner.now.number place ptr ∷ []) (last_of owner.now.blocks (content owner.now.number place ptr)) result }
        ensures keeps { OnOk result (KeepsOf (layout_of g.now).blocks owner.now.number self.old self.new) }
        ensures cause { IsNoDevice result }
    {
        self.marks.meet_content(g, ptr)?;
        keep_last(&mut self.lasts, owner, place, ptr)?;
        Ok(())
    }
}

/// One page more.
fn keep_page(
    pages: &mut Vec<NodeBlock>,
    owner: &Owner,
    place: Fbn,
    block: BlockNo,
) -> Result<(), AllocError>
    ensures kept { OnOk result (pages.new.items ≡ pages.old.items ++ (record { number = owner.now.number; place = place; block = block } ∷ [])) }
    ensures grows { OnOk result ((size : ℕ) → block < size → BlocksGrow size owner.now.number pages.old.items pages.new.items) }
{
    pages.push(NodeBlock {
        number: owner.number,
        place,
        block,
    })?;
    Ok(())
}

/// One block more, if it is that of the last place.
fn keep_last(
    lasts: &mut Vec<NodeBlock>,
    owner: &Owner,
    place: Fbn,
    block: BlockNo,
) -> Result<(), AllocError>
    ensures kept { OnOk result (lasts.new.items ≡ lasts.old.items ++ last_of owner.now.blocks (content owner.now.number place block)) }
    ensures grows { OnOk result ((size : ℕ) → block < size → BlocksGrow size owner.now.number lasts.old.items lasts.new.items) }
{
    if u64::from(place) + 1 != owner.blocks {
        return Ok(());
    }
    lasts.push(NodeBlock {
        number: owner.number,
        place,
        block,
    })?;
    Ok(())
}
