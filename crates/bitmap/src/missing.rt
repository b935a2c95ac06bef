ghost use Rattle.std.specs.Prelude.{◌≡◌, ℕ, ◌-◌, ◌*◌, ◌^◌, ◌<◌, min, slice_index, MatchOption, IsTrue};
ghost use Rattle.chains.specs.WellFormed.{IsRequired, IsMissing, IsLeastMissing};
ghost use Rattle.bitmap.specs.Bits.{has};
ghost use Rattle.bitmap.specs.Words.{SpellsFrom, set_of, word_bits, word_count};

use crate::words::{WORD_BITS, WORDS, power};
use mds_base::RADIX;

/// A word, and 0 past the last one.
fn word_at(words: &[u64; WORDS], row: usize) -> u64
    ensures { result ≡ slice_index words.now row }
{
    words.get(row).copied().unwrap_or(0)
}

/// The bits from bit `first` on, in one word; those past the last word are not set.
fn bits_from(words: &[u64; WORDS], first: u32) -> u64
    ensures { SpellsFrom (λ m. IsTrue (has (set_of words.now) m)) first result }
{
    let row = (first / WORD_BITS) as usize;
    let shift = first % WORD_BITS;
    let low = word_at(words, row) >> shift;
    if shift == 0 {
        low
    } else {
        low | (word_at(words, row + 1) << (WORD_BITS - shift))
    }
}

/// The word with its `count` lowest bits set, and all 64 where there are more.
fn low_bits(count: u32) -> u64
    requires { 0 < count }
    ensures { result ≡ 2 ^ min count word_bits - 1 }
{
    u64::MAX >> (WORD_BITS - count.min(WORD_BITS))
}

/// Which bits of a word a well-formed bitmap with these bits has to have.
fn required_in(words: &[u64; WORDS], row: u32) -> u64
    requires { row < word_count }
    ensures { SpellsFrom (IsRequired RADIX (has (set_of words.now))) (row * word_bits) result }
{
    let first = row * WORD_BITS;
    let mut required = u64::from(row == 0);
    for depth in 0..RADIX {
        // Bit m is required by bit m + 2 ^ depth where m is below 2 ^ (depth + 1).
        let end = power(depth + 1);
        if first < end {
            required |= bits_from(words, first + power(depth)) & low_bits(end - first);
        }
    }
    required
}

/// The least bit that a well-formed bitmap with these bits has to have and that is not set, found a word at a time.
pub fn least_missing(words: &[u64; WORDS]) -> Option<u32>
    ensures { MatchOption result ((m : ℕ) → IsMissing RADIX (has (set_of words.now)) m → ⊥)
        (IsLeastMissing RADIX (has (set_of words.now))) }
{
    for row in 0..WORDS {
        let missing = required_in(words, row as u32) & !words[row];
        if missing != 0 {
            return Some(row as u32 * WORD_BITS + missing.trailing_zeros());
        }
    }
    None
}
