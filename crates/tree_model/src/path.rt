//! The paths of commands.
ghost use Rattle.std.specs.Prelude.{◌≡◌, ◌↔◌, ◌≤◌, ◌*◌, IsOk, IfOk, [], length};
ghost use Rattle.tree_model.specs.Path.{IsPath, path_length};

use crate::NameList;
use std::alloc::Global;
use std::marker::Model;
use vol_numbers::Name;

/// At most 32 names from the root on, of length at most 1,024, where each name counts its bytes and one. The empty path is the root.
#[derive(Drop)]
pub struct Path {
    names: NameList,
}

impl Model for Path {
    ghost use Rattle.std.specs.Prelude.{ℕ, List};
    ghost use Rattle.tree_model.specs.Path.{IsPath};

    ghost Value = { List (List ℕ) };

    ghost view = { λ p. p.names };

    ghost invariant = { λ p. IsPath p.names };
}

/// The names are too many or too long for a path.
#[derive(Clone, Copy, Debug, PartialEq, Eq)]
pub struct BadPath;

impl Path {
    /// The root, which takes no memory.
    pub fn root(alloc: Global) -> Path
        ensures { result ≡ [] }
    {
        Path {
            names: NameList::new(alloc),
        }
    }

    /// Refused exactly outside the limits of a path.
    pub fn new(names: NameList) -> Result<Path, BadPath>
        ensures valid { IsOk result ↔ IsPath names }
        ensures value { IfOk result (λ path. path ≡ names) }
    {
        if names.len() > 32 || path_length(names.as_slice()) > 1_024 {
            return Err(BadPath);
        }
        Ok(Path { names })
    }

    /// The names, from the root on.
    pub fn names(&self) -> &[Name]
        ensures is { result.now ≡ self.now }
        ensures path { IsPath self.now }
    {
        self.names.as_slice()
    }

    /// How many bytes the path takes, with one before each name.
    pub fn length(&self) -> usize
        ensures is { result ≡ path_length self.now }
        ensures at_most { result ≤ 1024 }
    {
        path_length(self.names())
    }
}

fn path_length(names: &[Name]) -> usize
    requires { length names.now ≤ 32 }
    ensures { result ≡ path_length names.now }
{
    let mut total = 0;
    for name in names {
        total += name.as_bytes().len() + 1;
    }
    total
}
