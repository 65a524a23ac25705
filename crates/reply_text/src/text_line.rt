//! A line that is put together without memory.
ghost use Rattle.std.specs.Prelude.{◌≡◌, ◌≤◌, ◌+◌, ◌++◌, [], length, decimal};

use arrayvec::ArrayString;
use itoa::Buffer;
use std::marker::Model;

/// How many bytes a line of an answer has at most, if it has no name.
pub(crate) const LINE_ROOM: usize = 160;

/// A line of at most 160 bytes.
#[derive(Drop)]
pub(crate) struct TextLine {
    text: ArrayString<LINE_ROOM>,
}

impl Model for TextLine {
    ghost use Rattle.std.specs.Prelude.{ℕ, List};

    ghost Value = { List ℕ };

    ghost view = { λ l. l.text.bytes };
}

impl TextLine {
    pub(crate) fn new() -> TextLine
        ensures { result ≡ [] }
    {
        TextLine {
            text: ArrayString::new(),
        }
    }

    /// A line of this text.
    pub(crate) fn of(text: &str) -> TextLine
        requires { length text.now ≤ 160 }
        ensures { result ≡ text.now }
    {
        let mut line = TextLine::new();
        line.text(text);
        line
    }

    pub(crate) fn text(&mut self, text: &str)
        requires { length self.old + length text.now ≤ 160 }
        ensures appended { self.new ≡ self.old ++ text.now }
        ensures counted { length self.new ≡ length self.old + length text.now }
    {
        self.text.push_str(text);
    }

    /// Appends a text and a number.
    pub(crate) fn field(&mut self, name: &str, number: u64)
        requires { length self.old + length name.now + 20 ≤ 160 }
        ensures appended { self.new ≡ self.old ++ name.now ++ decimal number }
        ensures counted { length self.new ≤ length self.old + length name.now + 20 }
    {
        let mut digits = Buffer::new();
        self.text.push_str(name);
        self.text.push_str(digits.format(number));
    }

    pub(crate) fn as_bytes(&self) -> &[u8]
        ensures { result.now ≡ self.now }
    {
        self.text.as_str().as_bytes()
    }
}
