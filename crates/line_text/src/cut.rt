//! Text that is cut at a byte.
ghost use Rattle.std.specs.Prelude.{◌≡◌, ◌==◌, ◌<◌, [], ◌∷◌, length, MatchOption, IfSome, position};
ghost use Rattle.std.specs.List.{slice_split};

/// The part up to the first separator, and what lies behind that, if there is one.
pub(crate) fn cut(text: &[u8], separator: u8) -> (&[u8], Option<&[u8]>)
    ensures parts { MatchOption result.1 (slice_split (λ b. b == separator) text.now ≡ result.0.now ∷ [])
        (λ rest. slice_split (λ b. b == separator) text.now ≡ result.0.now ∷ slice_split (λ b. b == separator) rest.now) }
    ensures shorter { IfSome result.1 (λ rest. length rest.now < length text.now) }
{
    match place_of(text, separator) {
        Some(place) => (&text[..place], Some(&text[place + 1..])),
        None => (text, None),
    }
}

fn place_of(text: &[u8], byte: u8) -> Option<usize>
    ensures place { result ≡ position (λ b. b == byte) text.now }
    ensures within { IfSome result (λ place. place < length text.now) }
{
    text.iter().position(|b| *b == byte)
}
