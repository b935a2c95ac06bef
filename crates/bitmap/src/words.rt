ghost use Rattle.std.specs.Prelude.{◌≡◌, ℕ, ◌^◌, ◌<◌, MatchOption, IsTrue};
ghost use Rattle.std.specs.FinSet as set;
ghost use Rattle.chains.specs.WellFormed.{IsWellFormed, IsRequiredBy};
ghost use Rattle.chains.specs.Located.{located};
ghost use Rattle.chains.specs.Depth.{depth_of, IsDepth};
ghost use Rattle.bitmap.specs.Bits.{has, IsLeastLacking};
ghost use Rattle.bitmap.specs.Words.{IsWhole, set_of};

use chains::chain_next;
use mds_base::RADIX;

/// How many words spell a bitmap: their bits are `2 ^ RADIX`.
pub const WORDS: usize = 16;

/// How many bits a word has.
pub const WORD_BITS: u32 = 64;

/// How many partitions a directory may have.
const PARTS: u32 = 1 << RADIX;

/// `2 ^ depth`.
pub fn power(depth: u32) -> u32
    requires { depth < 32 }
    ensures { result ≡ 2 ^ depth }
{
    1 << depth
}

/// Whether a bit is set; those past the last word are not.
pub fn has_bit(words: &[u64; WORDS], bit: u32) -> bool
    ensures { result ≡ has (set_of words.now) bit }
{
    bit < PARTS && words[(bit / WORD_BITS) as usize] >> (bit % WORD_BITS) & 1 == 1
}

/// Sets a bit.
pub fn set_bit(words: &mut [u64; WORDS], bit: u32)
    requires { bit < 2 ^ RADIX }
    ensures spelled { set_of words.new ≡ set.insert (set_of words.old) bit }
    ensures whole { IsWhole words.old → IsWhole words.new }
{
    words[(bit / WORD_BITS) as usize] |= 1 << (bit % WORD_BITS);
}

/// Sets the bits that are set in the other words.
pub fn join(words: &mut [u64; WORDS], more: &[u64; WORDS])
    ensures spelled { set_of words.new ≡ set.union (set_of words.old) (set_of more.now) }
    ensures whole { IsWhole words.old → IsWhole more.now → IsWhole words.new }
{
    for i in 0..WORDS {
        words[i] |= more[i];
    }
}

/// The least partition that the child of `part` at this depth requires and that is missing.
pub fn least_lacking(words: &[u64; WORDS], part: u32, depth: u32) -> Option<u32>
    requires in_radix { depth < RADIX }
    requires in_depth { part < 2 ^ depth }
    ensures { MatchOption result ((m : ℕ) → IsRequiredBy part depth m → IsTrue (has (set_of words.now) m))
        (IsLeastLacking (set_of words.now) part depth) }
{
    if !has_bit(words, part) {
        return Some(part);
    }
    if depth == 0 || power(depth - 1) <= part {
        return None;
    }
    let before = part + power(depth - 1);
    if has_bit(words, before) {
        None
    } else {
        Some(before)
    }
}

/// Where a hash is located: along its chain as far as the bits are set.
pub fn locate_in(words: &[u64; WORDS], hash: u64) -> u32
    requires { IsWellFormed RADIX (has (set_of words.now)) }
    ensures { result ≡ located RADIX hash (has (set_of words.now)) }
{
    let mut part = 0;
    while let Some(next) = chain_next(RADIX, hash, part) {
        if !has_bit(words, next) {
            return part;
        }
        part = next;
    }
    part
}

/// How deep a partition is split.
pub fn depth_in(words: &[u64; WORDS], part: u32) -> u32
    requires well_formed { IsWellFormed RADIX (has (set_of words.now)) }
    requires there { IsTrue (has (set_of words.now) part) }
    ensures value { result ≡ depth_of RADIX part (has (set_of words.now)) }
    ensures least { IsDepth RADIX part (has (set_of words.now)) result }
{
    let mut depth = u32::BITS - part.leading_zeros();
    while depth < RADIX && has_bit(words, part + power(depth)) {
        depth += 1;
    }
    depth
}
