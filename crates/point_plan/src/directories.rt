//! The directories of after a point, by number. Those of numbers that had none come first into the list, and can be taken back without memory.
//! The others are replaced when nothing can fail any more.
ghost use Rattle.std.specs.Prelude.{◌≡◌, ◌≢◌, ℕ, true, None, Some, IfOk, OnOk, OnErr, is_some, if◌then◌else◌};
ghost use Rattle.dir_slots.specs.Slots.{IsDirectory};
ghost use Rattle.image_model.specs.Walk.{is_directory};
ghost use Rattle.held_list.specs.Held.{IsInOrder, slots_at};
ghost use Rattle.point_plan.specs.Directories.{built_or, finished, first_slots, is_planned_directory, slots_then, taken_back, where_there};
ghost use Rattle.point_plan.specs.Nodes.{Ascend, planned_of};

use crate::PlannedNode;
use block_format::Inode;
use dir_slots::Directory;
use dirty_store::DirtyStore;
use held_list::HeldList;
use std::alloc::{AllocError, Global};
use tree_plan::renewed_directory;
use vol_numbers::InoNo;

/// Builds each planned directory anew. Nothing is changed.
pub(crate) fn build_directories(
    alloc: Global,
    directories: &HeldList,
    dirty: &DirtyStore,
    nodes: &[PlannedNode],
) -> Result<HeldList, AllocError>
    requires ascend { Ascend 1 nodes.now }
    requires slots { (n : ℕ) → IsDirectory (slots_then directories.now dirty.now.overlay n) }
    ensures { IfOk result (λ fresh. (n : ℕ) → slots_at fresh n ≡ built_or (slots_then directories.now dirty.now.overlay) (planned_of nodes.now n) None) }
{
    let mut fresh = HeldList::new(alloc);
    for node in nodes {
        build_one(alloc, directories, dirty, node, &mut fresh)?;
    }
    Ok(fresh)
}

/// Builds the directory of a planned number anew, into a list of them. Of a number that is no directory nothing is built.
fn build_one(
    alloc: Global,
    directories: &HeldList,
    dirty: &DirtyStore,
    node: &PlannedNode,
    fresh: &mut HeldList,
) -> Result<(), AllocError>
    requires { IsDirectory (slots_then directories.now dirty.now.overlay node.now.number) }
    ensures own { OnOk result (slots_at fresh.new node.now.number ≡ built_or (slots_then directories.now dirty.now.overlay) (Some node.now) (slots_at fresh.old node.now.number)) }
    ensures others { OnOk result ((n : ℕ) → n ≢ node.now.number → slots_at fresh.new n ≡ slots_at fresh.old n) }
{
    if !is_directory(&node.is) {
        return Ok(());
    }
    let slots = build_directory(alloc, directories, dirty, node.number)?;
    put(fresh, node.number, slots)
}

/// Builds the directory of a number anew.
fn build_directory(
    alloc: Global,
    directories: &HeldList,
    dirty: &DirtyStore,
    number: InoNo,
) -> Result<Directory, AllocError>
    requires { IsDirectory (slots_then directories.now dirty.now.overlay number) }
    ensures { IfOk result (λ slots. slots ≡ slots_then directories.now dirty.now.overlay number) }
{
    if dirty.cut_to(number) == 0 {
        return renewed_directory(alloc, None, dirty, number);
    }
    renewed_directory(alloc, directories.get(number), dirty, number)
}

/// Moves the new directories of planned numbers that have none in the list into it. A failure leaves the list as it was.
pub(crate) fn add_directories(
    directories: &mut HeldList,
    fresh: &mut HeldList,
    nodes: &[PlannedNode],
) -> Result<(), AllocError>
    requires ascend { Ascend 1 nodes.now }
    requires planned { (n : ℕ) → is_some (slots_at fresh.old n) ≡ is_planned_directory (planned_of nodes.now n) }
    ensures added { OnOk result ((n : ℕ) → slots_at directories.new n ≡ first_slots (slots_at directories.old n) (slots_at fresh.old n)) }
    ensures left { OnOk result ((n : ℕ) → slots_at fresh.new n ≡ where_there (slots_at directories.old n) (slots_at fresh.old n)) }
    // They can be taken back.
    ensures back { OnOk result ((n : ℕ) → taken_back (planned_of nodes.now n) (slots_at fresh.new n) (slots_at directories.new n) ≡ slots_at directories.old n) }
    ensures unchanged { OnErr result (directories.new ≡ directories.old) }
    ensures order { IsInOrder directories.old }
{
    let _ = directories.as_slice();
    if let Err(AllocError) = add_all(directories, fresh, nodes) {
        take_back(directories, fresh, nodes);
        let _ = directories.as_slice();
        return Err(AllocError);
    }
    Ok(())
}

/// Moves them one by one. After a failure some are moved.
fn add_all(
    directories: &mut HeldList,
    fresh: &mut HeldList,
    nodes: &[PlannedNode],
) -> Result<(), AllocError>
    requires ascend { Ascend 1 nodes.now }
    requires planned { (n : ℕ) → is_some (slots_at fresh.old n) ≡ is_planned_directory (planned_of nodes.now n) }
    ensures added { OnOk result ((n : ℕ) → slots_at directories.new n ≡ first_slots (slots_at directories.old n) (slots_at fresh.old n)) }
    ensures left { OnOk result ((n : ℕ) → slots_at fresh.new n ≡ where_there (slots_at directories.old n) (slots_at fresh.old n)) }
    ensures back { (n : ℕ) → taken_back (planned_of nodes.now n) (slots_at fresh.new n) (slots_at directories.new n) ≡ slots_at directories.old n }
{
    for node in nodes {
        add_one(directories, fresh, node.number)?;
    }
    Ok(())
}

/// Moves the new directory of a number into the list, where the number has none there.
fn add_one(
    directories: &mut HeldList,
    fresh: &mut HeldList,
    number: InoNo,
) -> Result<(), AllocError>
    ensures added { OnOk result (slots_at directories.new number ≡ first_slots (slots_at directories.old number) (slots_at fresh.old number)) }
    ensures left { OnOk result (slots_at fresh.new number ≡ where_there (slots_at directories.old number) (slots_at fresh.old number)) }
    ensures others { OnOk result ((n : ℕ) → n ≢ number → slots_at directories.new n ≡ slots_at directories.old n) }
    ensures others_left { (n : ℕ) → n ≢ number → slots_at fresh.new n ≡ slots_at fresh.old n }
    ensures unchanged { OnErr result (directories.new ≡ directories.old) }
    ensures none { OnErr result (slots_at directories.old number ≡ None) }
    ensures lost { OnErr result (slots_at fresh.new number ≡ None) }
{
    if directories.get(number).is_some() {
        return Ok(());
    }
    match take(fresh, number) {
        Some(slots) => put(directories, number, slots),
        None => Ok(()),
    }
}

/// Takes away what planned directories were given that are not among the new ones any more.
pub(crate) fn take_back(directories: &mut HeldList, fresh: &HeldList, nodes: &[PlannedNode])
    requires { Ascend 1 nodes.now }
    ensures { (n : ℕ) → slots_at directories.new n ≡ taken_back (planned_of nodes.now n) (slots_at fresh.now n) (slots_at directories.old n) }
{
    for node in nodes {
        take_one_back(directories, fresh, node.number, is_directory(&node.is));
    }
}

/// Takes away what a directory was given that is not among the new ones any more.
fn take_one_back(directories: &mut HeldList, fresh: &HeldList, number: InoNo, is_directory: bool)
    ensures own { slots_at directories.new number ≡ (if is_directory then where_there (slots_at fresh.now number) (slots_at directories.old number) else slots_at directories.old number) }
    ensures others { (n : ℕ) → n ≢ number → slots_at directories.new n ≡ slots_at directories.old n }
{
    if is_directory && fresh.get(number).is_none() {
        take(directories, number);
    }
}

/// Gives each planned directory its new slots, where these are not in the list yet, and takes away each planned number that is no directory.
pub(crate) fn finish_directories(
    directories: &mut HeldList,
    fresh: &mut HeldList,
    nodes: &[PlannedNode],
)
    requires ascend { Ascend 1 nodes.now }
    requires there { (n : ℕ) → is_some (slots_at fresh.old n) ≡ true → is_some (slots_at directories.old n) ≡ true }
    ensures { (n : ℕ) → slots_at directories.new n ≡ finished (planned_of nodes.now n) (slots_at fresh.old n) (slots_at directories.old n) }
{
    for node in nodes {
        finish_one(directories, fresh, node.number, is_directory(&node.is));
    }
}

/// Gives a directory its new slots, where these are not in the list yet, and takes away what is no directory.
fn finish_one(directories: &mut HeldList, fresh: &mut HeldList, number: InoNo, is_directory: bool)
    requires { is_some (slots_at fresh.old number) ≡ true → is_some (slots_at directories.old number) ≡ true }
    ensures own { slots_at directories.new number ≡ (if is_directory then first_slots (slots_at fresh.old number) (slots_at directories.old number) else None) }
    ensures others { (n : ℕ) → n ≢ number → slots_at directories.new n ≡ slots_at directories.old n }
    ensures others_left { (n : ℕ) → n ≢ number → slots_at fresh.new n ≡ slots_at fresh.old n }
{
    if !is_directory {
        take(directories, number);
        return;
    }
    if let Some(slots) = take(fresh, number) {
        replace(directories, number, slots);
    }
}

/// Takes the directory of a number away, and gives it.
fn take(directories: &mut HeldList, number: InoNo) -> Option<Directory>
    ensures given { result ≡ slots_at directories.old number }
    ensures own { slots_at directories.new number ≡ None }
    ensures others { (n : ℕ) → n ≢ number → slots_at directories.new n ≡ slots_at directories.old n }
{
    // The list is in order, so no other directory has the number.
    let _ = directories.as_slice();
    directories.remove(number)
}

/// Puts a directory under a number.
fn put(directories: &mut HeldList, number: InoNo, slots: Directory) -> Result<(), AllocError>
    ensures own { OnOk result (slots_at directories.new number ≡ Some slots) }
    ensures others { OnOk result ((n : ℕ) → n ≢ number → slots_at directories.new n ≡ slots_at directories.old n) }
    ensures unchanged { OnErr result (directories.new ≡ directories.old) }
{
    directories.insert(number, slots)?;
    Ok(())
}

/// Gives a number that has a directory another one. It takes no memory.
fn replace(directories: &mut HeldList, number: InoNo, slots: Directory)
    requires { is_some (slots_at directories.old number) ≡ true }
    ensures own { slots_at directories.new number ≡ Some slots }
    ensures others { (n : ℕ) → n ≢ number → slots_at directories.new n ≡ slots_at directories.old n }
{
    if let Some(place) = directories.get_mut(number) {
        *place = slots;
    }
}

/// Whether an inode is a directory's.
fn is_directory(inode: &Inode) -> bool
    ensures { result ≡ is_directory inode.now }
{
    matches!(inode, Inode::Directory { .. })
}
