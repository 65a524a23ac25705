//! What a rewriting has found so far: the pages that are to be written, and the pointers that come and go.
ghost use Rattle.std.specs.Prelude.{◌≡◌, [], ◌∷◌, ◌++◌, OnOk};
ghost use Rattle.inode_file.specs.Noted.{no_notes};
ghost use Rattle.block_tree.specs.Tree.{nonzero};

use block_tree::{Rewritten, TreeRoot};
use std::alloc::{AllocError, Global};
use std::marker::Model;
use vol_numbers::{Block, BlockNo, Page, PageList, PointerList};

/// The pages, and the pointers that were added and dropped.
#[derive(Drop)]
pub(crate) struct Notes {
    pages: Vec<Page>,
    added: Vec<BlockNo>,
    dropped: Vec<BlockNo>,
}

impl Model for Notes {
    ghost use Rattle.inode_file.specs.Noted.{Noted};

    ghost Value = { Noted };

    ghost view = { λ n. record { pages = n.pages.items; added = n.added.items; dropped = n.dropped.items } };
}

impl Notes {
    pub(crate) fn new(alloc: Global) -> Notes
        ensures { result ≡ no_notes }
    {
        Notes {
            pages: Vec::new(alloc),
            added: Vec::new(alloc),
            dropped: Vec::new(alloc),
        }
    }

    /// A pointer less, if it leads to a block.
    pub(crate) fn remove(&mut self, ptr: BlockNo) -> Result<(), AllocError>
        ensures { OnOk result (self.new ≡ record self.old { dropped = self.old.dropped ++ nonzero (ptr ∷ []) }) }
    {
        if ptr != 0 {
            self.dropped.push(ptr)?;
        }
        Ok(())
    }

    /// A page more, and a pointer to it.
    pub(crate) fn write(&mut self, at: BlockNo, block: Block) -> Result<(), AllocError>
        ensures { OnOk result (self.new ≡ record self.old { pages = self.old.pages ++ record { at = at; block = block } ∷ []; added = self.old.added ++ at ∷ [] }) }
    {
        self.pages.push(Page { at, block })?;
        self.added.push(at)?;
        Ok(())
    }

    /// The plan that was made, with the inode index as the root of a tree of pointers.
    pub(crate) fn into_rewritten(self, index: BlockNo) -> Rewritten
        ensures { result ≡ record { root = record { height = 1; ptr = index }; pages = self.pages; added = self.added; dropped = self.dropped } }
    {
        Rewritten {
            root: TreeRoot {
                height: 1,
                ptr: index,
            },
            pages: PageList::from_vec(self.pages),
            added: PointerList::from_vec(self.added),
            dropped: PointerList::from_vec(self.dropped),
        }
    }
}
