//! Where the first line ends.
ghost use Rattle.std.specs.Prelude.{◌≡◌, ◌≤◌, length, position};
ghost use Rattle.command_text.specs.Front.{is_newline};
ghost use Rattle.command_text.specs.Filling.{FindsLineEnd};
ghost use Rattle.command_text.specs.declared.line_end.LineEnd.TheVariants.{Missing};

/// How many bytes a line has at most, without its newline.
const LONGEST_LINE: usize = 8_192;

/// What the end of the first line is.
#[derive(Clone, Copy)]
pub(crate) enum LineEnd {
    /// The place of its newline.
    At(usize),
    /// The line is too long.
    TooLong,
    /// More bytes are needed.
    Missing,
}

/// Where the first line of the bytes ends.
pub(crate) fn line_end(bytes: &[u8]) -> LineEnd
    ensures end { FindsLineEnd bytes.now result }
    ensures short { result ≡ Missing → length bytes.now ≤ 8192 }
{
    match first_newline(bytes) {
        Some(end) if end <= LONGEST_LINE => LineEnd::At(end),
        Some(_) => LineEnd::TooLong,
        None if bytes.len() > LONGEST_LINE => LineEnd::TooLong,
        None => LineEnd::Missing,
    }
}

fn first_newline(bytes: &[u8]) -> Option<usize>
    ensures { result ≡ position is_newline bytes.now }
{
    bytes.iter().position(|byte| *byte == b'\n')
}
