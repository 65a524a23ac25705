//! Names as replies write them.
ghost use Rattle.std.specs.Prelude.{◌≡◌, ◌++◌, OnOk, ℕ, All};
ghost use Rattle.std.specs.String.{string_bytes};
ghost use Rattle.percent_encoding.specs.AsciiSet.{should_percent_encode};
ghost use Rattle.reply_text.specs.Replies.{needs_escape, escaped};
ghost use Rattle.reply_text.specs.Telling.{IsByte};

use percent_encoding::{AsciiSet, CONTROLS, percent_encode};
use std::alloc::AllocError;

/// Appends a name, with each byte below 33 or above 126 and each `%` escaped.
pub fn push_escaped(text: &mut String, name: &[u8]) -> Result<(), AllocError>
    ensures text { OnOk result (string_bytes text.new ≡ string_bytes text.old ++ escaped name.now) }
    ensures bytes { All IsByte name.now }
{
    percent_encode(name, escapes()).append_to(text)
}

/// The bytes that are escaped.
fn escapes() -> AsciiSet
    ensures { (b : ℕ) → should_percent_encode result b ≡ needs_escape b }
{
    CONTROLS.add(b' ').add(b'%')
}
