//! Reads a word as a number.
ghost use Rattle.std.specs.Prelude.{◌≡◌, ◌<◌, MatchBool, length, slice_index};
ghost use Rattle.script.specs.Reading.{number_of};

/// The number that a word spells: 1 to 20 decimal digits, no sign, and no leading zero but in `0`.
pub(crate) fn number_of(word: &[u8]) -> Option<u64>
    ensures { result ≡ number_of word.now }
{
    if !begins_as_number(word) {
        return None;
    }
    let mut number = 0_u64;
    for byte in word {
        let digit = char::from(*byte).to_digit(10)?;
        number = number.checked_mul(10)?.checked_add(u64::from(digit))?;
    }
    Some(number)
}

/// Whether a word is some bytes, without a leading zero but in `0`.
fn begins_as_number(word: &[u8]) -> bool
    ensures { let P =
        (0 < length word.now) × (slice_index word.now 0 ≡ 48 → length word.now ≡ 1) in MatchBool result P (P → ⊥) }
{
    match word {
        [] => false,
        [first, ..] => *first != b'0' || word.len() == 1,
    }
}
