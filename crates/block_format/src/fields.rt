//! The fields of a root slot as they stand, before any rule of the geometry.
ghost use Rattle.std.specs.Prelude.{◌≡◌, ◌≤◌, ◌+◌, ◌↔◌, IsSome, IfSome, length, take, drop};
ghost use Rattle.block_format.specs.Root.{root_of, root_in, root_bytes, header_bytes, HasGeometry};

use crate::{HomeBits, RootBody};
use byteorder::{ByteOrder, LittleEndian};
use vol_numbers::{BlockNo, Geometry};

#[derive(Clone, Copy)]
pub(crate) struct Fields {
    pub(crate) blocks: u32,
    pub(crate) log_blocks: u32,
    pub(crate) point: u64,
    pub(crate) inode_index: BlockNo,
    pub(crate) records: u32,
    pub(crate) log_used: u32,
    pub(crate) homes: HomeBits,
}

impl Fields {
    ghost use Rattle.block_format.specs.Fields.{root_from};

    /// The fields of a root.
    pub(crate) fn of(body: &RootBody) -> Fields
        ensures { root_from result ≡ root_of body.now }
    {
        Fields {
            blocks: body.geometry.blocks(),
            log_blocks: body.geometry.log_blocks(),
            point: body.point,
            inode_index: body.inode_index,
            records: body.records,
            log_used: body.log_used,
            homes: body.homes,
        }
    }

    /// The fields of a block, whatever its shape.
    #[tactic(auto, unfolding(crate::specs::Root::root_in))]
    pub(crate) fn read(bytes: &[u8]) -> Fields
        requires { length bytes.now ≡ 4096 }
        ensures { root_from result ≡ root_in bytes.now }
    {
        Fields {
            blocks: LittleEndian::read_u32(&bytes[12..]),
            log_blocks: LittleEndian::read_u32(&bytes[16..]),
            point: LittleEndian::read_u64(&bytes[24..]),
            inode_index: LittleEndian::read_u32(&bytes[32..]),
            records: LittleEndian::read_u32(&bytes[36..]),
            log_used: LittleEndian::read_u32(&bytes[40..]),
            homes: homes_of(bytes),
        }
    }

    /// The root with these fields, exactly within the geometry rules.
    pub(crate) fn body(&self) -> Option<RootBody>
        ensures within { IsSome result ↔ HasGeometry (root_from self.now) }
        ensures value { IfSome result (λ body. root_of body ≡ root_from self.now) }
    {
        let geometry = Geometry::new(self.blocks, self.log_blocks).ok()?;
        if self.records > self.log_used
            || self.log_used > self.log_blocks
            || !self.homes.is_clear_from(geometry.count_blocks())
        {
            return None;
        }
        Some(RootBody {
            geometry,
            point: self.point,
            inode_index: self.inode_index,
            records: self.records,
            log_used: self.log_used,
            homes: self.homes,
        })
    }

    /// The one block with these fields.
    pub(crate) fn spelled(&self) -> [u8; 4096]
        ensures spelled { result ≡ root_bytes (root_from self.now) }
        ensures reads_back { root_in result ≡ root_from self.now }
    {
        let mut bytes = [0; 4096];
        bytes[..176].copy_from_slice(&self.header());
        bytes
    }

    /// Its bytes up to the home bits.
    fn header(self) -> [u8; 176]
        ensures spelled { result ≡ header_bytes (root_from self) }
        ensures reads_back { root_in (root_bytes (root_from self)) ≡ root_from self }
    {
        let mut bytes = [0; 176];
        bytes[..8].copy_from_slice(b"IDEDUPFS");
        LittleEndian::write_u32(&mut bytes[8..], 1);
        LittleEndian::write_u32(&mut bytes[12..], self.blocks);
        LittleEndian::write_u32(&mut bytes[16..], self.log_blocks);
        LittleEndian::write_u64(&mut bytes[24..], self.point);
        LittleEndian::write_u32(&mut bytes[32..], self.inode_index);
        LittleEndian::write_u32(&mut bytes[36..], self.records);
        LittleEndian::write_u32(&mut bytes[40..], self.log_used);
        bytes[48..].copy_from_slice(&self.homes.bytes);
        bytes
    }
}

fn homes_of(bytes: &[u8]) -> HomeBits
    requires { length bytes.now ≡ 4096 }
    ensures { result.bytes ≡ take 128 (drop 48 bytes.now) }
{
    let mut homes = HomeBits::zero();
    homes.bytes.copy_from_slice(&bytes[48..176]);
    homes
}
