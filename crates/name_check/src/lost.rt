//! Which number is named or reached wrongly first.
ghost use Rattle.std.specs.Prelude.{◌≡◌, ◌≤◌, ◌==◌, ℕ, false, if◌then◌else◌, map, IfOk, IfSome, IfNone};
ghost use Rattle.std.specs.FinSet as set;
ghost use Rattle.place_words.specs.Rising.{Rising};
ghost use Rattle.image_model.specs.Seen.{Seen};
ghost use Rattle.image_model.specs.Slots.{inode_of};
ghost use Rattle.image_model.specs.Walk.{is_used};
ghost use Rattle.name_check.specs.Lost.{IsFirstLost, TellsLost, is_lost_by, is_misnamed_by};
ghost use Rattle.name_check.specs.Seeing.{HoldsDirectories};

use crate::naming::{Naming, all_names};
use crate::reaching::{ROOT, reached};
use block_format::Inode;
use held_list::HeldList;
use number_set::{MOST_NUMBER, NumberSet};
use std::alloc::{AllocError, Global};
use vol_numbers::InoNo;

/// What is known of numbers.
#[derive(Drop)]
pub(crate) struct Marks {
    /// Those that have a node.
    used: NumberSet,
    naming: Naming,
    /// Those that are reached from the root directory.
    reached: NumberSet,
}

/// Whether a number with this inode has a node.
fn is_used(inode: &Inode) -> bool
    ensures { result ≡ is_used inode.now }
{
    !matches!(inode, Inode::Unused)
}

/// Marks whether a number up to 65,535 has a node.
fn mark_used(used: &mut NumberSet, node: &(InoNo, Inode))
    ensures { (n : ℕ) → n ≤ 65535 → set.contains used.new n ≡ (if node.now.0 == n then is_used node.now.1 else set.contains used.old n) }
{
    if node.0 <= MOST_NUMBER {
        used.set(node.0, is_used(&node.1));
    }
}

/// The numbers up to 65,535 that have a node.
fn used_numbers(alloc: Global, nodes: &[(InoNo, Inode)]) -> Result<NumberSet, AllocError>
    requires { Rising 0 (map (λ node. node.0) nodes.now) }
    ensures { IfOk result (λ used. (n : ℕ) → n ≤ 65535 → set.contains used n ≡ is_used (inode_of nodes.now n)) }
{
    let mut used = NumberSet::new(alloc)?;
    for node in nodes {
        mark_used(&mut used, node);
    }
    Ok(used)
}

impl Marks {
    /// What nodes and directories tell of numbers.
    pub(crate) fn new(
        alloc: Global,
        nodes: &[(InoNo, Inode)],
        directories: &HeldList,
    ) -> Result<Marks, AllocError>
        requires { Rising 0 (map (λ node. node.0) nodes.now) }
        ensures { IfOk result (λ marks. (s : Seen) → s.nodes ≡ nodes.now → HoldsDirectories s directories.now → TellsLost s marks) }
    {
        let used = used_numbers(alloc, nodes)?;
        let naming = all_names(alloc, directories)?;
        let reached = reached(alloc, directories)?;
        Ok(Marks {
            used,
            naming,
            reached,
        })
    }

    /// Whether a node is the root and named, or another and not named once.
    fn is_misnamed(&self, number: InoNo) -> bool
        requires { 1 ≤ number }
        ensures { result ≡ is_misnamed_by (set.contains self.now.naming.once number) (set.contains self.now.naming.again number) number }
    {
        let named = self.naming.once.has(number);
        if number == ROOT {
            named
        } else {
            !named || self.naming.again.has(number)
        }
    }

    /// Whether a number is unused and named, or that of a node that is misnamed or not reached.
    fn is_lost(&self, number: InoNo) -> bool
        requires { 1 ≤ number }
        ensures { result ≡ is_lost_by self.now number }
    {
        if !self.used.has(number) {
            return self.naming.once.has(number);
        }
        if !self.reached.has(number) {
            return true;
        }
        self.is_misnamed(number)
    }

    /// The least number from 1 to 65,535 that is named or reached wrongly. Each is looked at once.
    pub(crate) fn first_lost(&self) -> Option<InoNo>
        ensures first { IfSome result (λ number. IsFirstLost self.now number) }
        ensures none { IfNone result ((n : ℕ) → 1 ≤ n → n ≤ 65535 → is_lost_by self.now n ≡ false) }
    {
        for number in 1..MOST_NUMBER + 1 {
            if self.is_lost(number) {
                return Some(number);
            }
        }
        None
    }
}
