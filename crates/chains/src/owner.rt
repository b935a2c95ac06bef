ghost use Rattle.std.specs.Prelude.{◌≡◌, ℕ, ◌+◌, ◌^◌, ◌<◌, Bool, false, IsTrue};
ghost use Rattle.std.specs.Int.{bit_at};
ghost use Rattle.chains.specs.Chain.{OnChain};
ghost use Rattle.chains.specs.WellFormed.{IsWellFormed, IsWithin};
ghost use Rattle.chains.specs.Located.{located};
ghost use Rattle.chains.specs.Depth.{HasChildren, HasOtherChildren, HasChildrenBelow};

/// The laws of two sets, one within the other, as a server's bitmap is within the tree of the kept partitions:
/// where the smaller locates a hash, and where the greater does (`crates/chains/README.md`, "Locate").
pub fn laws_of_owners()
    // Both locate it at the same partition, where the smaller set has all children of that partition,
    ensures quiet { (radix hash part : ℕ) → (small large : ℕ → Bool) → IsWellFormed radix small
        → IsWellFormed radix large → IsWithin small large → located radix hash small ≡ part
        → HasChildren part small large → located radix hash large ≡ part }

    // or all but the one that is being made, where the hash is not in its half or the greater set has it not either.
    ensures moving { (radix hash part depth : ℕ) → (small large : ℕ → Bool) → IsWellFormed radix small
        → IsWellFormed radix large → IsWithin small large → located radix hash small ≡ part
        → HasOtherChildren part depth small large → bit_at hash depth ≡ 0 → located radix hash large ≡ part }
    ensures frozen { (radix hash part depth : ℕ) → (small large : ℕ → Bool) → IsWellFormed radix small
        → IsWellFormed radix large → IsWithin small large → located radix hash small ≡ part
        → HasOtherChildren part depth small large → large (part + 2 ^ depth) ≡ false
        → located radix hash large ≡ part }

    // A hash in that half has the child on its chain.
    ensures frozen_child { (radix hash part depth : ℕ) → (small large : ℕ → Bool) → IsWellFormed radix small
        → located radix hash small ≡ part → HasOtherChildren part depth small large → depth < radix → part < 2 ^ depth
        → HasChildrenBelow part depth large → bit_at hash depth ≡ 1 → OnChain radix hash (part + 2 ^ depth) }
    ensures child_on_chain { (radix hash part depth : ℕ) → (set : ℕ → Bool) → IsWellFormed radix set
        → located radix hash set ≡ part → depth < radix → part < 2 ^ depth
        → HasChildrenBelow part depth set → bit_at hash depth ≡ 1 → OnChain radix hash (part + 2 ^ depth) }

    // A set with 0 and with all children of its elements has everything.
    ensures reach_all { (radix : ℕ) → (small large : ℕ → Bool) → IsWellFormed radix large → IsTrue (small 0)
        → ((part : ℕ) → IsTrue (small part) → HasChildren part small large) → IsWithin large small }
{}
