ghost use Rattle.std.specs.Prelude.{◌≡◌, ℕ, suc, ◌+◌, ◌^◌, ◌<◌, ◌≤◌, ◌==◌, ◌↔◌, Bool, false, IsTrue};
ghost use Rattle.chains.specs.Depth.{IsDepth};
ghost use Rattle.chains.specs.WellFormed.{IsWellFormed, IsWithin, with_number, union_of, IsMissing, IsRequiredBy};

/// The laws of well-formed sets (`crates/chains/README.md`, "Well-formed bitmap"), for every radix and set.
pub fn laws_of_well_formed_sets()
    ensures root { (radix : ℕ) → IsWellFormed radix (λ i. i == 0) }
    ensures unions { (radix : ℕ) → (a b : ℕ → Bool) → IsWellFormed radix a → IsWellFormed radix b
        → IsWellFormed radix (union_of a b) }
    ensures first_within { (a b : ℕ → Bool) → IsWithin a (union_of a b) }
    ensures second_within { (a b : ℕ → Bool) → IsWithin b (union_of a b) }

    // The child of a partition at its depth may be added.
    ensures next_child { (radix : ℕ) → (set : ℕ → Bool) → (part depth : ℕ) → IsWellFormed radix set → IsTrue (set part)
        → IsDepth radix part set depth → depth < radix → IsWellFormed radix (with_number set (part + 2 ^ depth)) }
{}

/// The laws of what a set of partitions lacks (`crates/chains/README.md`, "Missing"), for every radix and set.
pub fn laws_of_missing_numbers()
    ensures none_missing { (radix : ℕ) → (set : ℕ → Bool) → IsWellFormed radix set → (m : ℕ) → IsMissing radix set m
        → ⊥ }
    ensures well_formed { (radix : ℕ) → (set : ℕ → Bool) → ((i : ℕ) → IsTrue (set i) → i < 2 ^ radix)
        → ((m : ℕ) → IsMissing radix set m → ⊥) → IsWellFormed radix set }

    // With a child the set stays well formed exactly where it has what the child requires, and this is then missing.
    ensures with_child { (radix : ℕ) → (set : ℕ → Bool) → (part depth : ℕ) → IsWellFormed radix set → part < 2 ^ depth
        → depth < radix → IsWellFormed radix (with_number set (part + 2 ^ depth))
        ↔ ((m : ℕ) → IsRequiredBy part depth m → IsTrue (set m)) }
    ensures child_misses { (radix : ℕ) → (set : ℕ → Bool) → (part depth m : ℕ) → IsWellFormed radix set
        → part < 2 ^ depth → depth < radix → IsMissing radix (with_number set (part + 2 ^ depth)) m
        ↔ ((set m ≡ false) × IsRequiredBy part depth m) }
{}
