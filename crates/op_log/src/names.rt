//! The path in a record.
ghost use Rattle.std.specs.Prelude.{◌≡◌, ◌≢◌, ◌≤◌, ◌<◌, ◌+◌, ℕ, List, [], ◌∷◌, length, slice_index, All, Some, IfOk, IfSome};
ghost use Rattle.vol_numbers.specs.Name.{IsName};
ghost use Rattle.tree_model.specs.Path.{Path as PathOf};
ghost use Rattle.op_log.specs.Record.{IsLogPath, path_bytes};

use std::alloc::{AllocError, Global};
use tree_model::{NameList, Path};
use vol_numbers::Name;

/// The path that these bytes spell, if they spell one with names.
pub(crate) fn path_of(alloc: Global, bytes: &[u8]) -> Result<Option<Path>, AllocError>
    ensures some { IfOk result (λ found. IfSome found (λ path. path ≢ [])) }
    ensures is { IfOk result (λ found. (path : PathOf) → IsLogPath path → path_bytes path ≡ bytes.now → found ≡ Some path) }
{
    let Some(names) = names_in(alloc, bytes)? else {
        return Ok(None);
    };
    if names.is_empty() {
        return Ok(None);
    }
    Ok(Path::new(names).ok())
}

/// The names that these bytes spell, if they spell names.
fn names_in(alloc: Global, bytes: &[u8]) -> Result<Option<NameList>, AllocError>
    ensures { IfOk result (λ found. (path : PathOf) → All IsName path → path_bytes path ≡ bytes.now → found ≡ Some path) }
{
    let mut names = Vec::new(alloc);
    let mut rest = bytes;
    while !rest.is_empty() {
        let Some(name) = first_name(rest) else {
            return Ok(None);
        };
        rest = &rest[1 + name.as_bytes().len()..];
        names.push(name)?;
    }
    Ok(Some(NameList::from_vec(names)))
}

/// The name behind the first byte, which a spelling has as a slash, if there is one.
fn first_name(bytes: &[u8]) -> Option<Name>
    requires { 1 ≤ length bytes.now }
    ensures within { IfSome result (λ name. 1 + length name ≤ length bytes.now) }
    ensures is { (name : List ℕ) (path : PathOf) → IsName name → path_bytes (name ∷ path) ≡ bytes.now → result ≡ Some name }
{
    let behind = &bytes[1..];
    Name::new(&behind[..name_len(behind)]).ok()
}

/// How many bytes stand before the first slash.
fn name_len(bytes: &[u8]) -> usize
    ensures within { result ≤ length bytes.now }
    ensures before { (k : ℕ) → k < result → slice_index bytes.now k ≢ 47 }
    ensures found { result < length bytes.now → slice_index bytes.now result ≡ 47 }
{
    for (i, byte) in bytes.iter().enumerate() {
        if *byte == b'/' {
            return i;
        }
    }
    bytes.len()
}
