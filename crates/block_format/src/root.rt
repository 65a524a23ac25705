//! A root, and its block.
ghost use Rattle.std.specs.Prelude.{◌≡◌, ◌↔◌, IsOk, IfOk, IsErrOf, IsTrue};
ghost use Rattle.block_format.specs.Root.{root_of, root_in, root_bytes, HasShape, HasGeometry, SpellsRoot};
ghost use Rattle.block_format.specs.declared.root.RootShape.TheVariants.{NoRoot, BadGeometry};

use crate::HomeBits;
use crate::fields::Fields;
use thiserror::Error;
use vol_numbers::{Block, BlockNo, Geometry};

/// What a root says: the volume's geometry, its last point, and where its parts begin.
#[derive(Clone, Copy, Debug, PartialEq, Eq)]
pub struct RootBody {
    pub geometry: Geometry,
    pub point: u64,
    pub inode_index: BlockNo,
    pub records: u32,
    pub log_used: u32,
    pub homes: HomeBits,
}

/// Why a block is no root.
#[derive(Clone, Copy, Debug, PartialEq, Eq, Error)]
pub enum RootShape {
    #[error("the block is no root")]
    NoRoot,
    #[error("the numbers of the root are outside the limits of a volume")]
    BadGeometry,
}

/// The root that a block spells.
pub fn read_root(from: &Block) -> Result<RootBody, RootShape>
    ensures ok { IfOk result (λ body. SpellsRoot body from.now) }
    ensures fields { IfOk result (λ body. root_of body ≡ root_in from.now.bytes) }
    ensures found { IsOk result ↔ (HasShape from.now.bytes × HasGeometry (root_in from.now.bytes)) }
    ensures no_root { IsErrOf result NoRoot ↔ (¬ HasShape from.now.bytes) }
    ensures bad_geometry { IsErrOf result BadGeometry ↔ (HasShape from.now.bytes × (¬ HasGeometry (root_in from.now.bytes))) }
{
    let fields = Fields::read(&from.bytes);
    if fields.spelled() != from.bytes {
        return Err(RootShape::NoRoot);
    }
    fields.body().ok_or(RootShape::BadGeometry)
}

/// Writes the one block that spells a root.
pub fn write_root(body: &RootBody, into: &mut Block)
    ensures spelled { into.new.bytes ≡ root_bytes (root_of body.now) }
    ensures reads_back { root_in into.new.bytes ≡ root_of body.now }
{
    into.bytes = Fields::of(body).spelled();
}
