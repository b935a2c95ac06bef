ghost use Rattle.std.specs.Prelude.{◌≡◌, ℕ, ◌<◌, ◌≤◌, Bool, false, IsTrue};
ghost use Rattle.chains.specs.Chain.{OnChain};
ghost use Rattle.chains.specs.WellFormed.{IsWellFormed, IsWithin};
ghost use Rattle.chains.specs.Located.{located, IsLocated};

/// The laws of locating (`crates/chains/README.md`, "Locate"), for every radix, hash and set.
pub fn laws_of_locating()
    // In a well-formed set the elements of a chain are a prefix of the chain.
    ensures prefix { (radix hash x y : ℕ) → (set : ℕ → Bool) → IsWellFormed radix set
        → OnChain radix hash x → OnChain radix hash y → y ≤ x → IsTrue (set x) → IsTrue (set y) }

    // The located partition is the greatest element of the chain with all elements up to it in the set.
    ensures greatest { (radix hash : ℕ) → (set : ℕ → Bool) → IsTrue (set 0)
        → IsLocated radix hash set (located radix hash set) }
    ensures unique { (radix hash x y : ℕ) → (set : ℕ → Bool) → IsLocated radix hash set x → IsLocated radix hash set y
        → x ≡ y }
    ensures on_chain { (radix hash : ℕ) → (set : ℕ → Bool) → OnChain radix hash (located radix hash set) }
    ensures in_set { (radix hash : ℕ) → (set : ℕ → Bool) → IsWellFormed radix set
        → IsTrue (set (located radix hash set)) }
    ensures above { (radix hash x : ℕ) → (set : ℕ → Bool) → IsWellFormed radix set
        → OnChain radix hash x → IsTrue (set x) → x ≤ located radix hash set }
    ensures at { (radix hash x : ℕ) → (set : ℕ → Bool) → IsWellFormed radix set → OnChain radix hash x → IsTrue (set x)
        → ((y : ℕ) → OnChain radix hash y → x < y → set y ≡ false) → located radix hash set ≡ x }

    // A greater set never locates lower.
    ensures grows { (radix hash : ℕ) → (small large : ℕ → Bool) → IsWellFormed radix small → IsWellFormed radix large
        → IsWithin small large → located radix hash small ≤ located radix hash large }
{}
