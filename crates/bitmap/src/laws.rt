ghost use Rattle.std.specs.Prelude.{◌≡◌, ℕ, ◌==◌, ◌↔◌, List, IsTrue};
ghost use Rattle.std.specs.FinSet as set;
ghost use Rattle.chains.specs.WellFormed.{with_number, union_of};
ghost use Rattle.bitmap.specs.Bits.{Bits, has, is_same};
ghost use Rattle.bitmap.specs.Words.{IsWhole, bit_of, set_of, words_of};

/// The laws of bitmaps as finite sets (`crates/chains/README.md`, "Well-formed bitmap"): the sets that calls make, as
/// tests of numbers, and the words that spell a set.
pub fn laws_of_bitmaps()
    ensures zero { has (set.insert set.empty 0) ≡ (λ i. i == 0) }
    ensures insert { (bits : Bits) → (number : ℕ) → has (set.insert bits number) ≡ with_number (has bits) number }
    ensures union { (a b : Bits) → has (set.union a b) ≡ union_of (has a) (has b) }
    ensures same { (a b : Bits) → has a ≡ has b → a ≡ b }
    ensures equals { (a b : Bits) → IsTrue (is_same a b) ↔ (a ≡ b) }

    // Words spell the set of the bits that are set, and words and sets give each other back.
    ensures bits { (words : List ℕ) → has (set_of words) ≡ bit_of words }
    ensures words_back { (words : List ℕ) → IsWhole words → words_of (set_of words) ≡ words }
    ensures one_spelling { (v w : List ℕ) → IsWhole v → IsWhole w → set_of v ≡ set_of w → v ≡ w }
{}
