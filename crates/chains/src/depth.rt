ghost use Rattle.std.specs.Prelude.{◌≡◌, ◌≢◌, ℕ, suc, ◌+◌, ◌%◌, ◌^◌, ◌<◌, ◌≤◌, ◌↔◌, Bool, false, IsTrue};
ghost use Rattle.chains.specs.Chain.{OnChain};
ghost use Rattle.chains.specs.WellFormed.{IsWellFormed, IsWithin, with_number};
ghost use Rattle.chains.specs.Located.{located};
ghost use Rattle.chains.specs.Depth.{depth_of, IsDepth, HasChildren, HasNoChildrenFrom};

/// The laws of depths and ranges (`crates/chains/README.md`, "Depth and range"), for every radix, hash and set.
pub fn laws_of_depths()
    ensures depth { (radix part : ℕ) → (set : ℕ → Bool) → IsWellFormed radix set → IsTrue (set part)
        → IsDepth radix part set (depth_of radix part set) }
    ensures unique { (radix part depth : ℕ) → (set : ℕ → Bool) → IsDepth radix part set depth
        → depth_of radix part set ≡ depth }
    ensures no_child { (radix part depth : ℕ) → (set : ℕ → Bool) → IsWellFormed radix set → IsDepth radix part set depth
        → HasNoChildrenFrom part depth set }

    // The range of a partition is the set of hashes that are located there.
    ensures range { (radix hash part : ℕ) → (set : ℕ → Bool) → IsWellFormed radix set → IsTrue (set part)
        → (hash % 2 ^ depth_of radix part set ≡ part) ↔ (located radix hash set ≡ part) }

    // So is the range at a lower depth from which on there is no child.
    ensures active { (radix hash part depth : ℕ) → (set : ℕ → Bool) → IsWellFormed radix set → IsTrue (set part)
        → depth ≤ radix → HasNoChildrenFrom part depth set → hash % 2 ^ depth ≡ part → located radix hash set ≡ part }

    // A set between two that agree on the children of a partition gives it the same depth.
    ensures same { (radix part depth : ℕ) → (small middle large : ℕ → Bool) → IsWithin small middle
        → IsWithin middle large → HasChildren part small large → IsDepth radix part small depth
        → IsDepth radix part middle depth }
{}

/// The laws of a set with one child more (`crates/chains/README.md`, "Depth and range"), for every radix, hash and set.
pub fn laws_of_children()
    // The depth before, and the depths with the child.
    ensures before { (radix part depth : ℕ) → (set : ℕ → Bool) → IsWellFormed radix set → part < 2 ^ depth
        → depth < radix → IsWellFormed radix (with_number set (part + 2 ^ depth)) → set (part + 2 ^ depth) ≡ false
        → IsDepth radix part set depth }
    ensures parent { (radix part depth : ℕ) → (set : ℕ → Bool) → IsWellFormed radix set → IsDepth radix part set depth
        → depth < radix → IsDepth radix part (with_number set (part + 2 ^ depth)) (suc depth) }
    ensures child { (radix part depth : ℕ) → (set : ℕ → Bool) → IsWellFormed radix set → part < 2 ^ depth
        → depth < radix → set (part + 2 ^ depth) ≡ false
        → IsDepth radix (part + 2 ^ depth) (with_number set (part + 2 ^ depth)) (suc depth) }
    ensures other { (radix part depth x e : ℕ) → (set : ℕ → Bool) → part < 2 ^ depth → x ≢ part → IsDepth radix x set e
        → IsDepth radix x (with_number set (part + 2 ^ depth)) e }

    // The hashes with the child on their chain are located there instead of at the parent, and all others as before.
    ensures moved { (radix hash part depth : ℕ) → (set : ℕ → Bool) → IsWellFormed radix set → IsTrue (set part)
        → IsDepth radix part set depth → depth < radix → OnChain radix hash (part + 2 ^ depth)
        → located radix hash (with_number set (part + 2 ^ depth)) ≡ part + 2 ^ depth }
    ensures moved_from { (radix hash part depth : ℕ) → (set : ℕ → Bool) → IsWellFormed radix set → IsTrue (set part)
        → IsDepth radix part set depth → OnChain radix hash (part + 2 ^ depth) → located radix hash set ≡ part }
    ensures stayed { (radix hash part depth : ℕ) → (set : ℕ → Bool) → IsWellFormed radix set → IsTrue (set part)
        → IsDepth radix part set depth → depth < radix → (OnChain radix hash (part + 2 ^ depth) → ⊥)
        → located radix hash (with_number set (part + 2 ^ depth)) ≡ located radix hash set }
{}
