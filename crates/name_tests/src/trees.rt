//! Entries that make a tree, and such that don't: the number that is found, by the rule of the tree.
use crate::built::{Node, checked, directories, hold, inodes};
use block_format::Inode;
use held_list::HeldList;
use image_model::Finding;
use name_check::NameFault;
use std::alloc::Global;
use std::test::Fail;
use vol_numbers::InoNo;

/// Nodes, and the number that is found.
#[derive(Clone, Copy)]
struct Row {
    nodes: &'static [Node],
    lost: Option<InoNo>,
}

const ROWS: &[Row] = &[
    // The root alone.
    Row {
        nodes: &[Node::Directory(1, &[])],
        lost: None,
    },
    // A file beside a directory with another.
    Row {
        nodes: &[
            Node::Directory(1, &[3, 2]),
            Node::Directory(2, &[65_535]),
            Node::File(3),
            Node::File(65_535),
        ],
        lost: None,
    },
    // One below the other, the deeper ones with lower numbers.
    Row {
        nodes: &[
            Node::Directory(1, &[4]),
            Node::Directory(2, &[]),
            Node::Directory(3, &[2]),
            Node::Directory(4, &[3]),
        ],
        lost: None,
    },
    // The root is named.
    Row {
        nodes: &[Node::Directory(1, &[2]), Node::Directory(2, &[1])],
        lost: Some(1),
    },
    // 9 is named, and has no node.
    Row {
        nodes: &[Node::Directory(1, &[2, 9]), Node::File(2)],
        lost: Some(9),
    },
    // 2 is named twice in one directory.
    Row {
        nodes: &[Node::Directory(1, &[2, 2]), Node::File(2)],
        lost: Some(2),
    },
    // 3 is named once in each of two directories.
    Row {
        nodes: &[
            Node::Directory(1, &[2, 3]),
            Node::Directory(2, &[3]),
            Node::File(3),
        ],
        lost: Some(3),
    },
    // 3 isn't named.
    Row {
        nodes: &[Node::Directory(1, &[2]), Node::File(2), Node::File(3)],
        lost: Some(3),
    },
    // 3 and 4 name each other, so each is named once, and neither is reached.
    Row {
        nodes: &[
            Node::Directory(1, &[2]),
            Node::File(2),
            Node::Directory(3, &[4]),
            Node::Directory(4, &[3]),
        ],
        lost: Some(3),
    },
    // 2 names itself.
    Row {
        nodes: &[Node::Directory(1, &[]), Node::Directory(2, &[2])],
        lost: Some(2),
    },
    // 3 names itself and 4, which is no more reached; 9 has no node. The least is found.
    Row {
        nodes: &[
            Node::Directory(1, &[9]),
            Node::Directory(3, &[3, 4]),
            Node::File(4),
        ],
        lost: Some(3),
    },
    // 4 has no node, and 5 isn't named.
    Row {
        nodes: &[Node::Directory(1, &[2, 4]), Node::File(2), Node::File(5)],
        lost: Some(4),
    },
    // 5 isn't named, and 6 is named twice.
    Row {
        nodes: &[Node::Directory(1, &[6, 6]), Node::File(5), Node::File(6)],
        lost: Some(5),
    },
];

/// The number that is found, where nothing else is answered.
fn number_of(found: Result<(), NameFault>) -> Option<Option<InoNo>> {
    match found {
        Ok(()) => Some(None),
        Err(NameFault::Found(Finding::NotATree(number))) => Some(Some(number)),
        Err(_) => None,
    }
}

fn found(alloc: Global, row: &Row) -> Option<Option<InoNo>> {
    let nodes = inodes(alloc, row.nodes).ok()?;
    let held = directories(alloc, row.nodes)?;
    number_of(checked(alloc, &nodes, &held)?)
}

/// Whether each row's number is found.
fn all_hold(alloc: Global) -> bool {
    for row in ROWS {
        if found(alloc, row) != Some(row.lost) {
            return false;
        }
    }
    true
}

#[test]
fn least_number(rt: HostRuntime) {
    assert!(rt; all_hold(rt.alloc()));
}

/// How many directories make the ring.
const RING: InoNo = 20_000;

/// The root alone, and directories each of which names the next, and the last the first.
fn ring(alloc: Global) -> Option<HeldList> {
    let mut held = HeldList::new(alloc);
    for number in 2..RING {
        if !hold(alloc, &mut held, number, &[number + 1]) {
            return None;
        }
    }
    if hold(alloc, &mut held, RING, &[2]) && hold(alloc, &mut held, 1, &[]) {
        Some(held)
    } else {
        None
    }
}

fn ring_nodes(alloc: Global) -> Option<Vec<(InoNo, Inode)>> {
    let mut nodes = Vec::new(alloc);
    for number in 1..RING + 1 {
        let (width, height, ptr) = (1, 0, 0);
        nodes
            .push((number, Inode::Directory { width, height, ptr }))
            .ok()?;
    }
    Some(nodes)
}

fn found_in_ring(alloc: Global) -> Option<Option<InoNo>> {
    let nodes = ring_nodes(alloc)?;
    let held = ring(alloc)?;
    number_of(checked(alloc, &nodes, &held)?)
}

#[test]
fn ring_of_directories(rt: HostRuntime) {
    assert!(rt; found_in_ring(rt.alloc()) == Some(Some(2)));
}
