//! Parts of a block, and bytes that are compared.
ghost use Rattle.std.specs.Prelude.{◌≡◌, ◌≤◌, ◌↔◌, ◌+◌, ◌++◌, IsTrue, bytes_eq, length, take, drop};

/// Whether these bytes are the same.
pub(crate) fn is_same(a: &[u8], b: &[u8]) -> bool
    ensures is { IsTrue result ↔ (a.now ≡ b.now) }
    ensures test { result ≡ bytes_eq a.now b.now }
{
    a == b
}

/// Puts a part into its place. All other bytes stay.
pub(crate) fn put(part: &[u8], at: usize, bytes: &mut [u8])
    requires { at + length part.now ≤ length bytes.old }
    ensures { bytes.new ≡ take at bytes.old ++ part.now ++ drop (at + length part.now) bytes.old }
{
    bytes[at..at + part.len()].copy_from_slice(part);
}
