//! Numbers as texts write them: `0`, or a digit from 1 to 9 and then digits.
ghost use Rattle.std.specs.Prelude.{◌≡◌};
ghost use Rattle.std.specs.List.{list_all};
ghost use Rattle.std.specs.Char.{is_ascii_digit};
ghost use Rattle.line_text.specs.Numbers.{number_in, length_in, is_decimal, has_first_digit};

use std::str::from_utf8;
use tree_model::{MOST_BYTES, ReadLength};

/// The number that a field of a line writes, if it is one below 2^64: `0`, or digits of which the first isn't `0`.
pub fn read_number(field: &[u8]) -> Option<u64>
    ensures { result ≡ number_in field.now }
{
    if !is_decimal(field) {
        return None;
    }
    match from_utf8(field) {
        Ok(digits) => digits.parse().ok(),
        Err(_) => None,
    }
}

/// The length that a field writes, if it is one of at most 65,536 bytes.
pub(crate) fn length(field: &[u8]) -> Option<ReadLength>
    ensures { result ≡ length_in field.now }
{
    match read_number(field) {
        Some(bytes) if bytes <= MOST_BYTES as u64 => ReadLength::new(bytes as u32).ok(),
        _ => None,
    }
}

fn is_decimal(field: &[u8]) -> bool
    ensures { result ≡ is_decimal field.now }
{
    are_digits(field) && has_first_digit(field)
}

fn are_digits(field: &[u8]) -> bool
    ensures { result ≡ list_all is_ascii_digit field.now }
{
    field.iter().all(|byte| byte.is_ascii_digit())
}

/// Whether digits have a first one, and no leading zero.
fn has_first_digit(field: &[u8]) -> bool
    ensures { result ≡ has_first_digit field.now }
{
    match field {
        [] => false,
        [_] => true,
        [first, ..] => *first != b'0',
    }
}
