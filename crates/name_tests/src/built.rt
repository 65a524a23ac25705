//! Nodes and directories of rows.
ghost use Rattle.std.specs.Prelude.{◌≡◌, true, map};
ghost use Rattle.place_words.specs.Rising.{Rising};

use block_format::Inode;
use dir_slots::{DirFault, Directory};
use held_list::HeldList;
use name_check::{NameFault, tree};
use std::alloc::{AllocError, Global};
use std::test::Fail;
use vol_numbers::{InoNo, Name, PageList};

/// A node of a row.
#[derive(Clone, Copy)]
pub(crate) enum Node {
    File(InoNo),
    /// A directory, and the numbers that its entries name, under a letter each.
    Directory(InoNo, &'static [InoNo]),
}

/// An inode with its number. Its width and pointer don't matter here.
fn inode(node: &Node) -> (InoNo, Inode) {
    match *node {
        Node::File(number) => {
            let (size, height, ptr) = (0, 0, 0);
            (number, Inode::File { size, height, ptr })
        }
        Node::Directory(number, _) => {
            let (width, height, ptr) = (0, 0, 0);
            (number, Inode::Directory { width, height, ptr })
        }
    }
}

/// The inodes of a row.
pub(crate) fn inodes(alloc: Global, row: &[Node]) -> Result<Vec<(InoNo, Inode)>, AllocError> {
    let mut nodes = Vec::new(alloc);
    for node in row {
        nodes.push(inode(node))?;
    }
    Ok(nodes)
}

/// A name of one letter.
fn letter(place: u32) -> Option<Name> {
    Name::new(&[b'a' + (place % 26) as u8]).ok()
}

/// Puts an entry under a letter. It gives none where the letter is used, or the number is no node's.
fn put(directory: &mut Directory, number: InoNo) -> Option<u32> {
    let name = letter(directory.first_unused())?;
    if directory.slot_of(&name).is_some() || number == 0 || number > 65_535 {
        return None;
    }
    if directory.first_unused() >= 65_534 {
        return None;
    }
    directory.add(&name, number).ok()
}

/// The directory of no slot.
fn empty(alloc: Global) -> Result<Directory, DirFault> {
    Directory::read(alloc, &PageList::new(alloc), 0)
}

fn put_all(directory: &mut Directory, named: &[InoNo]) -> bool {
    for number in named {
        if put(directory, *number).is_none() {
            return false;
        }
    }
    true
}

/// The directory whose entries name these numbers, under the letters from `a` on.
pub(crate) fn directory(alloc: Global, named: &[InoNo]) -> Option<Directory> {
    let mut directory = empty(alloc).ok()?;
    if put_all(&mut directory, named) {
        Some(directory)
    } else {
        None
    }
}

/// Puts a directory among the others.
pub(crate) fn hold(alloc: Global, held: &mut HeldList, number: InoNo, named: &[InoNo]) -> bool {
    match directory(alloc, named) {
        Some(slots) => held.insert(number, slots).is_ok(),
        None => false,
    }
}

/// The directories of a row. None where a name or a number doesn't do.
pub(crate) fn directories(alloc: Global, row: &[Node]) -> Option<HeldList> {
    let mut held = HeldList::new(alloc);
    for node in row {
        if let Node::Directory(number, named) = *node {
            if !hold(alloc, &mut held, number, named) {
                return None;
            }
        }
    }
    Some(held)
}

/// Whether the numbers strictly rise.
fn rises(nodes: &[(InoNo, Inode)]) -> bool
    ensures { result ≡ true → Rising 0 (map (λ node. node.0) nodes.now) }
{
    let mut from = 0;
    for node in nodes {
        if u64::from(node.0) < from {
            return false;
        }
        from = u64::from(node.0) + 1;
    }
    true
}

/// What is found. None where the numbers don't rise.
pub(crate) fn checked(
    alloc: Global,
    nodes: &[(InoNo, Inode)],
    directories: &HeldList,
) -> Option<Result<(), NameFault>> {
    if rises(nodes) {
        Some(tree(alloc, nodes, directories))
    } else {
        None
    }
}
