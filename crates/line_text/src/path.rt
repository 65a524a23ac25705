//! Paths as lines write them: `/`, or a slash and an escaped name, once or more.
ghost use Rattle.std.specs.Prelude.{◌≡◌, IfOk, if◌then◌else◌, Some, None};
ghost use Rattle.percent_encoding.specs.Percent.{percent_decode};
ghost use Rattle.line_text.specs.Paths.{path_in, names_in, path_of_names, few_names, is_name};

use crate::cut::cut;
use percent_encoding::percent_decode;
use std::alloc::{AllocError, Global};
use tree_model::{NameList, Path};
use vol_numbers::Name;

/// The path that a field writes, if it is one.
pub(crate) fn path(alloc: Global, field: &[u8]) -> Result<Option<Path>, AllocError>
    ensures { IfOk result (λ path. path ≡ path_in field.now) }
{
    if field == b"/".as_slice() {
        return Ok(Some(Path::root(alloc)));
    }
    match field {
        [b'/', names @ ..] => path_of(alloc, names),
        _ => Ok(None),
    }
}

/// The path of the names behind the first slash.
fn path_of(alloc: Global, field: &[u8]) -> Result<Option<Path>, AllocError>
    ensures { IfOk result (λ path. path ≡ path_of_names (names_in field.now)) }
{
    match names(alloc, field)? {
        Some(names) => Ok(Path::new(names).ok()),
        None => Ok(None),
    }
}

/// The names, if each part is one and there are at most 32.
fn names(alloc: Global, field: &[u8]) -> Result<Option<NameList>, AllocError>
    ensures { IfOk result (λ names. names ≡ few_names (names_in field.now)) }
{
    let mut names = Vec::new(alloc);
    let mut rest = Some(field);
    while let Some(field) = rest {
        let (part, behind) = cut(field, b'/');
        match name(alloc, part)? {
            Some(name) if names.len() < 32 => names.push(name)?,
            _ => return Ok(None),
        }
        rest = behind;
    }
    Ok(Some(NameList::from_vec(names)))
}

/// The name that a part writes, if it is one.
fn name(alloc: Global, part: &[u8]) -> Result<Option<Name>, AllocError>
    ensures { IfOk result (λ name. let bytes = percent_decode part.now in name ≡ (if is_name bytes then Some bytes else None)) }
{
    let bytes = decoded(alloc, part)?;
    Ok(Name::new(&bytes).ok())
}

/// The bytes of a part: `%` and two hexadecimal digits are one byte.
fn decoded(alloc: Global, part: &[u8]) -> Result<Vec<u8>, AllocError>
    ensures { IfOk result (λ bytes. bytes.items ≡ percent_decode part.now) }
{
    let mut bytes = Vec::new(alloc);
    percent_decode(part).append_to(&mut bytes)?;
    Ok(bytes)
}
