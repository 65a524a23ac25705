//! The text of a list of entries.
ghost use Rattle.std.specs.Prelude.{◌≡◌, ◌++◌, length, codes, IfOk, OnOk};
ghost use Rattle.std.specs.List.{flat_map};
ghost use Rattle.std.specs.String.{string_bytes};
ghost use Rattle.reply_text.specs.Replies.{entry_text, counted_text};

use crate::escape::push_escaped;
use crate::reply::kind_text;
use itoa::Buffer;
use std::alloc::{AllocError, Global};
use tree_model::Entry;

/// How many entries there are, and a line for each.
pub(crate) fn entries_text(alloc: Global, entries: &[Entry]) -> Result<String, AllocError>
    ensures { IfOk result (λ text. string_bytes text ≡ counted_text (codes "list ") (length entries.now) ++ flat_map entry_text entries.now) }
{
    let mut text = String::new(alloc);
    let mut digits = Buffer::new();
    text.push_str("list ")?;
    text.push_str(digits.format(entries.len()))?;
    text.push_str("\n")?;
    for entry in entries {
        push_entry(&mut text, entry)?;
    }
    Ok(text)
}

fn push_entry(text: &mut String, entry: &Entry) -> Result<(), AllocError>
    ensures { OnOk result (string_bytes text.new ≡ string_bytes text.old ++ entry_text entry.now) }
{
    let mut digits = Buffer::new();
    text.push_str(kind_text(entry.kind))?;
    text.push_str(" ")?;
    text.push_str(digits.format(entry.number))?;
    text.push_str(" ")?;
    push_escaped(text, entry.name.as_bytes())?;
    text.push_str("\n")
}
