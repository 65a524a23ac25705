//! What the words of a call ask for, read by hand: the action, the image, and then pairs of an option and its value.
ghost use Rattle.std.specs.Prelude.{◌≡◌, ◌∷◌, map, Some, None, option_and_then, true, false, MatchOption};
ghost use Rattle.command_server.specs.Words.{bytes_of_words, no_options, request_of, format_of, serve_of, check_of, with_options, with_option, value_in, layout_in, is_layout, is_image_name};
ghost use Rattle.vol_numbers.specs.Geometry.{layout_of};
ghost use Rattle.command_server.specs.Asked.{asked};

use line_text::read_number;
use vol_numbers::Geometry;

/// The options of a format, as far as they were given.
#[derive(Clone, Copy, Debug, PartialEq, Eq)]
pub(crate) struct FormatOptions {
    pub(crate) blocks: Option<u32>,
    pub(crate) log: Option<u32>,
}

/// What is asked for.
#[derive(Clone, Copy)]
pub(crate) enum Request<'a> {
    /// To make a volume in an image.
    Format { image: &'a str, geometry: Geometry },
    /// To serve a session over the volume in an image.
    Serve { image: &'a str },
    /// To check an image.
    Check { image: &'a str },
}

/// What the words ask for, if they are in the table of actions.
pub(crate) fn read_words<'a>(words: &[&'a str]) -> Option<Request<'a>>
    ensures { MatchOption result (request_of (bytes_of_words words.now) ≡ None) (λ request. request_of (bytes_of_words words.now) ≡ Some (asked request)) }
{
    match words {
        [action, image, options @ ..] => read_action(action, image, options),
        _ => None,
    }
}

fn read_action<'a>(action: &str, image: &'a str, options: &[&str]) -> Option<Request<'a>>
    ensures { let request = request_of (action.now ∷ image.now ∷ bytes_of_words options.now) in
        MatchOption result (request ≡ None) (λ read. request ≡ Some (asked read)) }
{
    if !is_image_name(image) {
        return None;
    }
    match action {
        "format" => read_format(image, options),
        "serve" => read_serve(image, options),
        "check" => read_check(image, options),
        _ => None,
    }
}

/// A session takes no options.
fn read_serve<'a>(image: &'a str, options: &[&str]) -> Option<Request<'a>>
    ensures { let request = serve_of image.now (bytes_of_words options.now) in
        MatchOption result (request ≡ None) (λ read. request ≡ Some (asked read)) }
{
    match options {
        [] => Some(Request::Serve { image }),
        _ => None,
    }
}

/// A check takes no options.
fn read_check<'a>(image: &'a str, options: &[&str]) -> Option<Request<'a>>
    ensures { let request = check_of image.now (bytes_of_words options.now) in
        MatchOption result (request ≡ None) (λ read. request ≡ Some (asked read)) }
{
    match options {
        [] => Some(Request::Check { image }),
        _ => None,
    }
}

fn read_format<'a>(image: &'a str, options: &[&str]) -> Option<Request<'a>>
    ensures { let request = option_and_then (format_of image.now) (with_options no_options (bytes_of_words options.now)) in
        MatchOption result (request ≡ None) (λ read. request ≡ Some (asked read)) }
{
    let options = read_options(FormatOptions::none(), options)?;
    let geometry = options.geometry()?;
    Some(Request::Format { image, geometry })
}

/// Whether a word may name an image.
fn is_image_name(word: &str) -> bool
    ensures { result ≡ is_image_name word.now }
{
    match word.as_bytes() {
        [] => false,
        [first, ..] => *first != b'-',
    }
}

/// The options with those of these words.
fn read_options(options: FormatOptions, words: &[&str]) -> Option<FormatOptions>
    ensures { result ≡ with_options options (bytes_of_words words.now) }
{
    match words {
        [] => Some(options),
        [name, value, rest @ ..] => {
            let next = options.with(name, value)?;
            read_options(next, rest)
        }
        [_] => None,
    }
}

impl FormatOptions {
    fn none() -> FormatOptions
        ensures { result ≡ no_options }
    {
        FormatOptions {
            blocks: None,
            log: None,
        }
    }

    /// The options with one more.
    fn with(self, name: &str, value: &str) -> Option<FormatOptions>
        ensures { result ≡ with_option self name.now value.now }
    {
        match name {
            "--blocks" if self.blocks.is_none() => Some(FormatOptions {
                blocks: Some(number(value)?),
                log: self.log,
            }),
            "--log" if self.log.is_none() => Some(FormatOptions {
                blocks: self.blocks,
                log: Some(number(value)?),
            }),
            _ => None,
        }
    }

    /// The geometry, if the numbers are within the limits of a volume.
    fn geometry(&self) -> Option<Geometry>
        ensures { MatchOption result (is_layout (layout_in self.now) ≡ false) (λ g. (is_layout (layout_in self.now) ≡ true) × (layout_of g ≡ layout_in self.now)) }
    {
        let blocks = self.blocks.unwrap_or(65_536);
        let log_blocks = self.log.unwrap_or(1_024);
        Geometry::new(blocks, log_blocks).ok()
    }
}

/// The number that a word writes.
fn number(word: &str) -> Option<u32>
    ensures { result ≡ value_in word.now }
{
    let number = read_number(word.as_bytes())?;
    u32::try_from(number).ok()
}
