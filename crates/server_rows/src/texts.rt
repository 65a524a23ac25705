//! How bytes are written in the rows: one that isn't printed is a backslash and two digits.
ghost use Rattle.std.specs.Prelude.{◌<◌};

use std::alloc::{AllocError, Global};

/// The bytes that a text of a row stands for.
pub(crate) fn read(alloc: Global, text: &str) -> Result<Vec<u8>, AllocError> {
    let mut bytes = Vec::new(alloc);
    for (i, part) in text.split('\\').enumerate() {
        read_part(&mut bytes, part.as_bytes(), i > 0)?;
    }
    Ok(bytes)
}

/// Adds what stands between two backslashes.
fn read_part(bytes: &mut Vec<u8>, part: &[u8], is_escaped: bool) -> Result<(), AllocError> {
    match part {
        [high, low, rest @ ..] if is_escaped => {
            bytes.push(digit_of(*high) * 16 + digit_of(*low))?;
            bytes.extend_from_slice(rest)
        }
        _ => bytes.extend_from_slice(part),
    }
}

fn digit_of(byte: u8) -> u8
    ensures { result < 16 }
{
    match byte {
        b'0'..=b'9' => byte - b'0',
        b'a'..=b'f' => byte - b'a' + 10,
        _ => 0,
    }
}

/// Adds bytes as a row writes them. A newline stays.
pub(crate) fn write(text: &mut Vec<u8>, bytes: &[u8]) -> Result<(), AllocError> {
    for byte in bytes {
        write_byte(text, *byte)?;
    }
    Ok(())
}

fn write_byte(text: &mut Vec<u8>, byte: u8) -> Result<(), AllocError> {
    match byte {
        b'\n' | b' '..=b'[' | b']'..=b'~' => Ok(text.push(byte)?),
        _ => Ok(text.extend_from_slice(&[b'\\', digit(byte / 16), digit(byte % 16)])?),
    }
}

fn digit(number: u8) -> u8
    requires { number < 16 }
{
    match number {
        0..=9 => b'0' + number,
        _ => b'a' + (number - 10),
    }
}

/// The number that a word writes, and 0 where it writes none.
pub(crate) fn number(word: &str) -> u32 {
    word.parse::<u32>().unwrap_or(0)
}

/// The byte that a word writes, and 0 where it writes none.
pub(crate) fn byte(word: &str) -> u8 {
    word.parse::<u8>().unwrap_or(0)
}
