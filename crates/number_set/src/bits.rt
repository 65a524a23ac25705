//! Bits by their place in a list of words.
ghost use Rattle.std.specs.Prelude.{◌≡◌, ◌≢◌, ℕ, ◌<◌, ◌≤◌, ◌*◌, ◌/◌, if◌then◌else◌, nat_eq, length, slice_index};
ghost use Rattle.std.specs.Int.{bit_at};
ghost use Rattle.number_set.specs.Bits.{has_bit, full_word};

/// How many bits a word has.
const BITS: usize = 64;

/// Whether the bit of this place is set. From the end on none is.
pub(crate) fn has_bit(words: &[u64], place: usize) -> bool
    ensures { result ≡ has_bit words.now place }
{
    match words.get(place / BITS) {
        None => false,
        Some(word) => (*word >> (place % BITS)) & 1 == 1,
    }
}

/// The word with this bit.
#[tactic(auto, using(crate::proofs::WordLaws::word_bits))]
fn with_bit(word: u64, place: u32, present: bool) -> u64
    requires { place < 64 }
    ensures same { bit_at result place ≡ (if present then 1 else 0) }
    ensures others { (i : ℕ) → i < 64 → i ≢ place → bit_at result i ≡ bit_at word i }
{
    if present {
        word | (1 << place)
    } else {
        word & !(1 << place)
    }
}

/// Sets the bit of this place, or clears it.
pub(crate) fn write_bit(words: &mut Vec<u64>, place: usize, present: bool)
    requires { place < 64 * length words.old.items }
    ensures bits { (k : ℕ) → has_bit words.new.items k ≡ (if nat_eq k place then present else has_bit words.old.items k) }
    ensures words { (i : ℕ) → i ≢ place / 64 → slice_index words.new.items i ≡ slice_index words.old.items i }
    ensures length { length words.new.items ≡ length words.old.items }
{
    let word = words[place / BITS];
    words[place / BITS] = with_bit(word, (place % BITS) as u32, present);
}

/// How many bits from the lowest on are set.
#[tactic(auto, using(crate::proofs::WordLaws::word_bits))]
pub(crate) fn ones(word: u64) -> usize
    ensures within { result ≤ 64 }
    ensures below { (i : ℕ) → i < result → bit_at word i ≡ 1 }
    ensures next { result < 64 → bit_at word result ≡ 0 }
    ensures full { word ≢ full_word → result < 64 }
{
    word.trailing_ones() as usize
}
