ghost use Rattle.std.specs.Prelude.{◌≡◌, ℕ, suc, ◌+◌, ◌%◌, ◌^◌, ◌<◌, ◌≤◌, ◌↔◌, IsTrue, IsOk, IfOk, OnOk, IfErr, OnErr};
ghost use Rattle.std.specs.Prelude.{false};
ghost use Rattle.std.specs.FinSet as set;
ghost use Rattle.chains.specs.Chain.{OnChain};
ghost use Rattle.chains.specs.WellFormed.{IsWellFormed, IsLeastMissing};
ghost use Rattle.chains.specs.Located.{located, IsLocated};
ghost use Rattle.chains.specs.Depth.{depth_of, IsDepth};
ghost use Rattle.chains.specs.Reversed.{reversed};
ghost use Rattle.bitmap.specs.Bits.{has, is_same};
ghost use Rattle.bitmap.specs.Span.{range_of, IsInside, IsHalved, SplitsAt};
ghost use Rattle.bitmap.specs.Words.{set_of, words_of};

use crate::fault::{BadBitmap, NoParent};
use crate::missing::least_missing;
use crate::span::Span;
use crate::words::{WORDS, depth_in, has_bit, join, least_lacking, locate_in, power, set_bit};
use chains::reverse;
use mds_base::RADIX;
use std::marker::Model;

/// Which partitions of a directory exist, as far as the holder knows: a well-formed set of numbers below
/// `2 ^ RADIX` (`crates/chains/README.md`, "Well-formed bitmap").
#[derive(Debug, Clone, Copy)]
pub struct Bitmap {
    words: [u64; WORDS],
}

impl Model for Bitmap {
    ghost use Rattle.mds_base.specs.declared.TheConstants.{RADIX};
    ghost use Rattle.bitmap.specs.Bits.{Bits, coded_bits};
    ghost use Rattle.bitmap.specs.Words.{set_of, words_of, IsBitmap};

    ghost Value = { Bits };

    ghost coded = { coded_bits };

    ghost view = { λ a. set_of a.words };

    ghost invariant = { λ a. IsBitmap RADIX a.words };

    ghost inverse = { λ bits. record { words = words_of bits } };

    ghost use Rattle.bitmap.specs.WordLaws.{words_back};

    ghost inverse_ok = { λ a h i. record { words = words_back a.words h.whole i } };
}

impl PartialEq for Bitmap {
    ghost use Rattle.bitmap.specs.Bits.{is_same};
    ghost use Rattle.bitmap.specs.BitSetLaws.{is_same_partial};

    ghost eq = { is_same };

    ghost laws = { is_same_partial };

    fn eq(&self, other: &Bitmap) -> bool
        ensures value { result ≡ is_same self.now other.now }
        ensures same { IsTrue result ↔ (self.now ≡ other.now) }
    {
        self.words == other.words
    }
}

impl Eq for Bitmap {
    ghost use Rattle.bitmap.specs.BitSetLaws.{is_same_equivalence};

    ghost laws = { is_same_equivalence };
}

impl Bitmap {
    /// The bitmap of partition 0 alone.
    pub fn zero() -> Bitmap
        ensures value { result ≡ set.insert set.empty 0 }
        ensures well_formed { IsWellFormed RADIX (has result) }
    {
        let mut words = [0; WORDS];
        set_bit(&mut words, 0);
        Bitmap { words }
    }

    /// Whether a partition exists; none does from `2 ^ RADIX` on.
    pub fn has(&self, part: u32) -> bool
        ensures value { result ≡ has self.now part }
        ensures well_formed { IsWellFormed RADIX (has self.now) }
    {
        has_bit(&self.words, part)
    }

    /// Adds the child `part + 2 ^ depth` of a partition. It is refused with the least partition that is missing
    /// then, exactly where the bitmap would not stay well formed, and nothing changes. Where the child was there
    /// nothing changes either; where it was not the span of `part` is cut in the middle and the upper half is
    /// the child's.
    pub fn add_child(&mut self, part: u32, depth: u32) -> Result<(), NoParent>
        requires in_radix { depth < RADIX }
        requires in_depth { part < 2 ^ depth }
        ensures exactly { IsOk result ↔ IsWellFormed RADIX (has (set.insert self.old (part + 2 ^ depth))) }
        ensures ok { OnOk result (self.new ≡ set.insert self.old (part + 2 ^ depth)) }
        ensures err { OnErr result (self.new ≡ self.old) }
        ensures well_formed { IsWellFormed RADIX (has self.new) }
        ensures least { IfErr result
            (λ e. IsLeastMissing RADIX (has (set.insert self.old (part + 2 ^ depth))) e.bit) }

        // Where the child was there, and where it was not.
        ensures stays { IsTrue (has self.old (part + 2 ^ depth)) → self.new ≡ self.old }
        ensures depths { has self.old (part + 2 ^ depth) ≡ false
            → OnOk result (SplitsAt RADIX self.old self.new part depth) }
        ensures halves { has self.old (part + 2 ^ depth) ≡ false → OnOk result
            (IsHalved (range_of RADIX self.old part) (range_of RADIX self.new part)
            (range_of RADIX self.new (part + 2 ^ depth))) }
    {
        if let Some(bit) = least_lacking(&self.words, part, depth) {
            return Err(NoParent { bit });
        }
        set_bit(&mut self.words, part + power(depth));
        Ok(())
    }

    /// Adds the partitions of another bitmap.
    pub fn merge(&mut self, other: &Bitmap)
        ensures union { self.new ≡ set.union self.old other.now }
        ensures well_formed { IsWellFormed RADIX (has self.new) }
        ensures grows { (hash : ℕ) → located RADIX hash (has self.old) ≤ located RADIX hash (has self.new) }
    {
        join(&mut self.words, &other.words);
    }

    /// The partition at which a hash is located, in time by the chain's length (`crates/chains/README.md`, "Locate").
    pub fn locate(&self, hash: u64) -> u32
        ensures value { result ≡ located RADIX hash (has self.now) }
        ensures greatest { IsLocated RADIX hash (has self.now) result }
        ensures prefix { (x y : ℕ) → OnChain RADIX hash x → OnChain RADIX hash y → y ≤ x
            → IsTrue (has self.now x) → IsTrue (has self.now y) }
    {
        locate_in(&self.words, hash)
    }

    /// How deep a partition that exists is split, in time by the radix (`crates/chains/README.md`, "Depth and range").
    pub fn depth(&self, part: u32) -> u32
        requires { IsTrue (has self.now part) }
        ensures value { result ≡ depth_of RADIX part (has self.now) }
        ensures least { IsDepth RADIX part (has self.now) result }
    {
        depth_in(&self.words, part)
    }

    /// The range of a partition that exists, in reversed hashes (`crates/chains/README.md`, "Depth and range").
    pub fn range_of(&self, part: u32) -> Span
        requires { IsTrue (has self.now part) }
        ensures value { result ≡ range_of RADIX self.now part }

        // A hash is in the range, and located at the partition, exactly where its reversed form lies in the span.
        ensures holds { (hash : ℕ)
            → (hash % 2 ^ depth_of RADIX part (has self.now) ≡ part) ↔ IsInside result (reversed 64 hash) }
        ensures locates { (hash : ℕ) → (located RADIX hash (has self.now) ≡ part) ↔ IsInside result (reversed 64 hash) }
    {
        let first = reverse(u64::from(part));
        Span {
            first,
            last: first + (u64::MAX >> depth_in(&self.words, part)),
        }
    }

    /// The words that spell the bitmap: bit `i` is bit `i` mod 64 of word `i / 64`.
    pub fn words(&self) -> [u64; WORDS]
        ensures value { result ≡ words_of self.now }
        ensures spelled { set_of result ≡ self.now }
    {
        self.words
    }

    /// The bitmap that words spell. They are refused, with the least bit that is missing, exactly where they are
    /// not well formed.
    pub fn from_words(words: &[u64; WORDS]) -> Result<Bitmap, BadBitmap>
        ensures exactly { IsOk result ↔ IsWellFormed RADIX (has (set_of words.now)) }
        ensures ok { IfOk result (λ bitmap. bitmap ≡ set_of words.now) }
        ensures back { IfOk result (λ bitmap. words_of bitmap ≡ words.now) }
        ensures least { IfErr result (λ e. IsLeastMissing RADIX (has (set_of words.now)) e.bit) }
    {
        match least_missing(words) {
            Some(bit) => Err(BadBitmap { bit }),
            None => Ok(Bitmap { words: *words }),
        }
    }
}
