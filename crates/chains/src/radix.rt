ghost use Rattle.std.specs.Prelude.{◌≡◌, ℕ, ◌^◌, ◌<◌, ◌≤◌, Bool, IsTrue};
ghost use Rattle.chains.specs.WellFormed.{IsWellFormed};
ghost use Rattle.chains.specs.Located.{located};
ghost use Rattle.chains.specs.Depth.{depth_of};

/// The laws of one set under two radixes: what is well formed under the lesser is so under the greater, with the
/// same locations and depths (`crates/chains/README.md`, "Chain").
pub fn laws_of_radixes()
    ensures wide { (radix wider : ℕ) → (set : ℕ → Bool) → radix ≤ wider → IsWellFormed radix set
        → IsWellFormed wider set }
    ensures narrow { (radix wider : ℕ) → (set : ℕ → Bool) → ((i : ℕ) → IsTrue (set i) → i < 2 ^ radix)
        → IsWellFormed wider set → IsWellFormed radix set }
    ensures location { (radix wider hash : ℕ) → (set : ℕ → Bool) → radix ≤ wider → IsWellFormed radix set
        → located wider hash set ≡ located radix hash set }
    ensures depth { (radix wider part : ℕ) → (set : ℕ → Bool) → radix ≤ wider → IsWellFormed radix set
        → IsTrue (set part) → depth_of wider part set ≡ depth_of radix part set }
{}
