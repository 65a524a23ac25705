//! The bytes of a file, changed and read.
ghost use Rattle.std.specs.Prelude.{◌≡◌, ◌+◌, ◌<◌, ◌^◌, length, take, drop, IfOk};
ghost use Rattle.tree_model.specs.Tree.{resized, written};

use std::alloc::{AllocError, Global};
use vol_numbers::ByteList;

fn resized_vec(alloc: Global, bytes: &[u8], size: u64) -> Result<Vec<u8>, AllocError>
    ensures { IfOk result (λ new. new.items ≡ resized bytes.now size) }
{
    let kept = (size as usize).min(bytes.len());
    let mut new = Vec::from_slice(alloc, &bytes[..kept])?;
    new.resize(size as usize, 0)?;
    Ok(new)
}

/// The first bytes, with zeros added up to the size.
pub fn resized(alloc: Global, bytes: &[u8], size: u64) -> Result<ByteList, AllocError>
    ensures { IfOk result (λ new. new ≡ resized bytes.now size) }
{
    Ok(ByteList::from_vec(resized_vec(alloc, bytes, size)?))
}

/// The bytes from a place on, none where it lies past the end.
pub fn tail(bytes: &[u8], from: u64) -> &[u8]
    ensures { result.now ≡ drop from bytes.now }
{
    &bytes[(from as usize).min(bytes.len())..]
}

/// The bytes with more written over them at an offset, and zeros in a gap before it.
pub fn written(
    alloc: Global,
    bytes: &[u8],
    offset: u64,
    more: &[u8],
) -> Result<ByteList, AllocError>
    requires { offset + length more.now < 2 ^ 64 }
    ensures { IfOk result (λ new. new ≡ written bytes.now offset more.now) }
{
    let mut new = resized_vec(alloc, bytes, offset)?;
    new.extend_from_slice(more)?;
    new.extend_from_slice(tail(bytes, offset + more.len() as u64))?;
    Ok(ByteList::from_vec(new))
}

/// The bytes from an offset on, at most so many.
pub fn part(alloc: Global, bytes: &[u8], offset: u64, length: u32) -> Result<ByteList, AllocError>
    ensures { IfOk result (λ part. part ≡ take length (drop offset bytes.now)) }
{
    let rest = tail(bytes, offset);
    let to = (length as usize).min(rest.len());
    Ok(ByteList::from_vec(Vec::from_slice(alloc, &rest[..to])?))
}
