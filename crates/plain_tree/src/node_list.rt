//! The nodes of a tree in a plain list, in the order of their paths: what is looked up in it, and what is put into it.
ghost use Rattle.std.specs.Prelude.{◌≡◌, ◌+◌, ◌<◌, ◌≤◌, length, IfOk, MatchResult, Ok, Err, vec_len, vec_capacity, is_some, IsTrue};
ghost use Rattle.std.specs.Option.{option_copied};
ghost use Rattle.tree_model.specs.Path.{parent_of, strip};
ghost use Rattle.tree_model.specs.Tree.{node_at, with_node, without, is_directory, entries_of, least_unused, unused_from, is_used, entry_below, kind_of, widened};
ghost use Rattle.tree_model.specs.Step.{walk};
ghost use Rattle.plain_tree.specs.Places.{place_of, ties_at};

use std::alloc::{AllocError, Global};
use tree_model::path_names::{path_order, strip};
use tree_model::{Content, Entry, Kind, NameList, Node, Refusal};
use vol_numbers::{InoNo, Name};

/// The node at a path.
pub fn find_node<'a>(nodes: &'a [(NameList, Node)], path: &[Name]) -> Option<&'a Node>
    ensures { option_copied result ≡ node_at nodes.now path.now }
{
    for (at, node) in nodes {
        if path_order(path, at.as_slice()).is_eq() {
            return Some(node);
        }
    }
    None
}

pub fn is_directory(node: &Node) -> bool
    ensures { result ≡ is_directory node.now }
{
    matches!(node.content, Content::Directory { .. })
}

/// The node at the end of a walk along a path, or what stops the walk.
pub fn walk<'a>(nodes: &'a [(NameList, Node)], path: &[Name]) -> Result<&'a Node, Refusal>
    ensures { MatchResult result (λ node. walk nodes.now path.now ≡ Ok node.now) (λ refusal. walk nodes.now path.now ≡ Err refusal) }
{
    for depth in 0..path.len() {
        match find_node(nodes, &path[..depth]) {
            None => return Err(Refusal::NotFound),
            Some(node) => {
                if !is_directory(node) {
                    return Err(Refusal::NotADirectory);
                }
            }
        }
    }
    match find_node(nodes, path) {
        None => Err(Refusal::NotFound),
        Some(node) => Ok(node),
    }
}

fn is_used(nodes: &[(NameList, Node)], number: usize) -> bool
    ensures { result ≡ is_used nodes.now number }
{
    nodes.iter().any(|e| e.1.number as usize == number)
}

fn first_unused(nodes: &[(NameList, Node)]) -> usize
    ensures { result ≡ unused_from nodes.now 2 nodes.now }
{
    let mut number = 2;
    for _e in nodes {
        if !is_used(nodes, number) {
            return number;
        }
        number += 1;
    }
    number
}

/// The least number from 2 to 65,535 that no node has.
pub fn least_unused(nodes: &[(NameList, Node)]) -> Option<InoNo>
    ensures { result ≡ least_unused nodes.now }
{
    let number = first_unused(nodes);
    if number <= 65_535 {
        Some(number as u32)
    } else {
        None
    }
}

pub fn kind_of(content: &Content) -> Kind
    ensures { result ≡ kind_of content.now }
{
    match content {
        Content::File(_) => Kind::File,
        Content::Directory { .. } => Kind::Directory,
    }
}

fn entry_below(rest: Option<&[Name]>, node: &Node) -> Option<Entry>
    ensures { result ≡ entry_below (option_copied rest.entry) node.now }
{
    let Some(rest) = rest else {
        return None;
    };
    if rest.len() != 1 {
        return None;
    }
    Some(Entry {
        kind: kind_of(&node.content),
        number: node.number,
        name: rest[0],
    })
}

/// The entries of a directory, by the bytes of their names.
pub fn entries_of(
    alloc: Global,
    nodes: &[(NameList, Node)],
    path: &[Name],
) -> Result<Vec<Entry>, AllocError>
    ensures { IfOk result (λ v. v.items ≡ entries_of nodes.now path.now) }
{
    let mut entries = Vec::new(alloc);
    for (at, node) in nodes {
        if let Some(entry) = entry_below(strip(path, at.as_slice()), node) {
            entries.push(entry)?;
        }
    }
    Ok(entries)
}

fn is_entry(path: &[Name], at: &[Name], node: &Node) -> bool
    ensures { result ≡ is_some (entry_below (strip path.now at.now) node.now) }
{
    match strip(path, at) {
        None => false,
        Some(rest) => rest.len() == 1,
    }
}

/// How many entries a directory has.
pub fn entry_count(nodes: &[(NameList, Node)], path: &[Name]) -> usize
    ensures { result ≡ length (entries_of nodes.now path.now) }
{
    let mut count = 0;
    for (at, node) in nodes {
        if is_entry(path, at.as_slice(), node) {
            count += 1;
        }
    }
    count
}

// The first place whose path isn't below this one.
fn place_of(nodes: &[(NameList, Node)], path: &[Name]) -> usize
    ensures place { result ≡ place_of path.now nodes.now }
    ensures within { result ≤ length nodes.now }
{
    for (i, (at, _)) in nodes.iter().enumerate() {
        if !path_order(path, at.as_slice()).is_gt() {
            return i;
        }
    }
    nodes.len()
}

fn ties_at(nodes: &[(NameList, Node)], path: &[Name], place: usize) -> bool
    ensures value { result ≡ ties_at path.now nodes.now place }
    ensures within { IsTrue result → place < length nodes.now }
{
    match nodes.get(place) {
        None => false,
        Some(e) => path_order(path, e.0.as_slice()).is_eq(),
    }
}

/// Puts a node at a path, in place of one that is there.
#[tactic(auto, using(crate::proofs::PutRules::puts))]
pub fn put(nodes: &mut Vec<(NameList, Node)>, path: NameList, node: Node)
    requires { vec_len nodes.old < vec_capacity nodes.old }
    ensures items { nodes.new.items ≡ with_node nodes.old.items path node }
    ensures room { (vec_len nodes.new ≤ vec_len nodes.old + 1) × (vec_capacity nodes.new ≡ vec_capacity nodes.old) }
{
    let place = place_of(nodes, path.as_slice());
    if ties_at(nodes, path.as_slice(), place) {
        nodes[place] = (path, node);
    } else {
        let _ = nodes.insert(place, (path, node));
    }
}

/// Takes the node at a path away.
pub fn take_away(nodes: &mut Vec<(NameList, Node)>, path: &[Name])
    ensures { nodes.new.items ≡ without nodes.old.items path.now }
{
    nodes.retain(|e| !path_order(path, e.0.as_slice()).is_eq());
}

/// Makes the width of a directory at least its number of entries.
pub fn widen(nodes: &mut Vec<(NameList, Node)>, path: NameList)
    requires { vec_len nodes.old < vec_capacity nodes.old }
    ensures { nodes.new.items ≡ widened nodes.old.items path }
{
    let entries = entry_count(nodes, path.as_slice()) as u64;
    let (number, width) = match find_node(nodes, path.as_slice()) {
        None => return,
        Some(node) => match node.content {
            Content::File(_) => return,
            Content::Directory { width } => (node.number, width.max(entries)),
        },
    };
    let content = Content::Directory { width };
    put(nodes, path, Node { number, content });
}
