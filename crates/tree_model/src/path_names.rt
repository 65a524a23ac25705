//! Paths as lists of names: their order, their parents, and what follows a front.
ghost use Rattle.std.specs.Prelude.{◌≡◌, OnOk, IfOk, ◌++◌};
ghost use Rattle.std.specs.Option.{option_copied};
ghost use Rattle.tree_model.specs.Path.{path_cmp, parent_of, strip};

use crate::NameList;
use std::alloc::{AllocError, Global};
use std::cmp::Ordering;
use vol_numbers::Name;

/// By the bytes of the names.
pub fn path_order(a: &[Name], b: &[Name]) -> Ordering
    ensures { result ≡ path_cmp a.now b.now }
{
    for i in 0..a.len() {
        if i >= b.len() {
            return Ordering::Greater;
        }
        let order = a[i].as_bytes().cmp(b[i].as_bytes());
        if !order.is_eq() {
            return order;
        }
    }
    if b.len() > a.len() {
        return Ordering::Less;
    }
    Ordering::Equal
}

/// The names of a path without the last.
#[tactic(auto, using(crate::proofs::Parents::parent_take))]
pub fn parent_names(path: &[Name]) -> &[Name]
    ensures { result.now ≡ parent_of path.now }
{
    &path[..path.len().saturating_sub(1)]
}

/// What follows the front in a path that begins with it.
pub fn strip<'a>(front: &[Name], path: &'a [Name]) -> Option<&'a [Name]>
    ensures { option_copied result ≡ strip front.now path.now }
{
    path.strip_prefix(front)
}

/// The names of one list and then those of another.
pub fn joined(alloc: Global, front: &[Name], rest: &[Name]) -> Result<NameList, AllocError>
    ensures { IfOk result (λ names. names ≡ front.now ++ rest.now) }
{
    let mut names = Vec::from_slice(alloc, front)?;
    names.extend_from_slice(rest)?;
    Ok(NameList::from_vec(names))
}

/// A copy of the names.
pub fn copied(alloc: Global, names: &[Name]) -> Result<NameList, AllocError>
    ensures { IfOk result (λ copy. copy ≡ names.now) }
{
    Ok(NameList::from_vec(Vec::from_slice(alloc, names)?))
}
