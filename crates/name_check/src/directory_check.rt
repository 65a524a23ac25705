//! Faults of directories.
ghost use Rattle.std.specs.Prelude.{◌≡◌, ◌<◌, ◌≤◌, ◌+◌, ◌++◌, ℕ, [], ◌∷◌, map, length, None, Some, IfOk, IfErr, OnOk, IsTrue};
ghost use Rattle.disk_model.specs.Past.{Adds};
ghost use Rattle.block_format.specs.declared.inode.Inode.{Inode};
ghost use Rattle.block_tree.specs.Tree.{blocks_in};
ghost use Rattle.dir_slots.specs.Pages.{SpellsDirectory, pages_for};
ghost use Rattle.place_words.specs.Different.{times};
ghost use Rattle.place_words.specs.Rising.{Rising};
ghost use Rattle.image_model.specs.Nodes.{directory_finding};
ghost use Rattle.image_model.specs.Seen.{Seen};
ghost use Rattle.image_walk.specs.Blocks.{NeverFall, AreOnDisk, blocks_held};
ghost use Rattle.name_check.specs.Cause.{HasNameCause, IsOwn};
ghost use Rattle.name_check.specs.Directories.{IsRead, FindsBad, FindsNone, AreHeld, AreWide, is_bad};
ghost use Rattle.image_walk.specs.Left.{HasOwners, HaveWidths};
ghost use Rattle.name_check.specs.Seeing.{HoldsDirectories, HaveSlots, FindsInNodes, directory_numbers};

use crate::NameFault;
use crate::blocks::of_number;
use crate::reading::read_pages;
use block_format::Inode;
use dir_slots::{DirFault, Directory};
use disk_model::Disk;
use held_list::HeldList;
use image_model::Finding;
use image_walk::NodeBlock;
use std::alloc::Global;
use vol_numbers::{InoNo, PageList};

/// How many slots a block has.
const SLOTS: u32 = 16;

/// The directories among the nodes, or the first of them that has a hole, a slot outside the grammar, an entry behind its width, or two equal names.
/// Each block is read once.
pub fn directories<D: Disk>(
    alloc: Global,
    disk: &mut D,
    nodes: &[(InoNo, Inode)],
    pages: &[NodeBlock],
) -> Result<HeldList, NameFault>
    requires nodes { Rising 0 (map (λ node. node.0) nodes.now) }
    requires widths { HaveWidths nodes.now }
    requires order { NeverFall pages.now }
    requires size { AreOnDisk (D.fixed disk.old).size pages.now }
    ensures none { IfOk result (λ _. IsTrue D.tells → (s : Seen) → s.nodes ≡ nodes.now → s.pages ≡ blocks_held (blocks_in (D.state disk.old).contents) pages.now → directory_finding s ≡ None) }
    ensures held { IfOk result (λ held. IsTrue D.tells → (s : Seen) → s.nodes ≡ nodes.now → s.pages ≡ blocks_held (blocks_in (D.state disk.old).contents) pages.now → HasOwners s → HoldsDirectories s held) }
    ensures numbers { IfOk result (λ held. map (λ h. h.number) held ≡ directory_numbers nodes.now) }
    ensures widths { IfOk result (λ held. HaveSlots nodes.now held) }
    ensures found { IfErr result (λ fault. IsTrue D.tells → (s : Seen) → s.nodes ≡ nodes.now → s.pages ≡ blocks_held (blocks_in (D.state disk.old).contents) pages.now → FindsInNodes s fault) }
    ensures reads { OnOk result ((D.given disk.new).count ≤ (D.given disk.old).count + length pages.now) }
    ensures same { IsTrue D.tells → D.state disk.new ≡ D.state disk.old }
    ensures moments { IsTrue D.tells → Adds (D.past disk.old) (D.past disk.new) (λ s. s ≡ D.state disk.old) }
    ensures fixed { D.fixed disk.new ≡ D.fixed disk.old }
    ensures cause { HasNameCause (D.faults disk.old) (D.faults disk.new) result }
{
    let mut held = HeldList::new(alloc);
    for node in nodes {
        if let Inode::Directory { width, .. } = node.1 {
            let slots = read_directory(alloc, disk, node.0, width, pages)?;
            held.push(node.0, slots)?;
        }
    }
    Ok(held)
}

/// The directory of a number and a width.
fn read_directory<D: Disk>(
    alloc: Global,
    disk: &mut D,
    number: InoNo,
    width: u32,
    pages: &[NodeBlock],
) -> Result<Directory, NameFault>
    requires width { width ≤ 65534 }
    requires order { NeverFall pages.now }
    requires size { AreOnDisk (D.fixed disk.old).size pages.now }
    ensures read { IfOk result (λ slots. IsTrue D.tells → IsRead (blocks_in (D.state disk.old).contents) pages.now number width slots) }
    ensures wide { IfOk result (λ slots. length slots ≡ width) }
    ensures bad { IfErr result (λ fault. IsTrue D.tells → FindsBad (blocks_in (D.state disk.old).contents) pages.now number width fault) }
    ensures reads { OnOk result ((D.given disk.new).count ≤ (D.given disk.old).count + times number (map (λ b. b.number) pages.now)) }
    ensures same { IsTrue D.tells → D.state disk.new ≡ D.state disk.old }
    ensures moments { IsTrue D.tells → Adds (D.past disk.old) (D.past disk.new) (λ s. s ≡ D.state disk.old) }
    ensures fixed { D.fixed disk.new ≡ D.fixed disk.old }
    ensures cause { HasNameCause (D.faults disk.old) (D.faults disk.new) result }
{
    let own = of_number(pages, number);
    if own.len() as u64 != u64::from(width.div_ceil(SLOTS)) {
        return Err(NameFault::Found(Finding::BadDirectory(number)));
    }
    let blocks = read_pages(alloc, disk, own)?;
    spelled(alloc, &blocks, number, width)
}

/// The directory of this width that blocks spell.
fn spelled(
    alloc: Global,
    blocks: &PageList,
    number: InoNo,
    width: u32,
) -> Result<Directory, NameFault>
    requires width { width ≤ 65534 }
    requires blocks { length blocks.now ≡ pages_for width }
    ensures spelled { IfOk result (λ slots. SpellsDirectory blocks.now slots) }
    ensures width { IfOk result (λ slots. length slots ≡ width) }
    ensures bad { IfErr result (λ fault. FindsNone blocks.now number width fault) }
    ensures cause { IfErr result (λ fault. IsOwn fault) }
{
    match Directory::read(alloc, blocks, width) {
        Ok(slots) => Ok(slots),
        Err(DirFault::BadSlots) => Err(NameFault::Found(Finding::BadDirectory(number))),
        Err(DirFault::OutOfMemory) => Err(NameFault::OutOfMemory),
    }
}
