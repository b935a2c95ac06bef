ghost use Rattle.std.specs.Prelude.{◌≡◌, ◌↔◌, ℕ, true};
ghost use Rattle.bitmap.specs.Bits.{Bits, has};
ghost use Rattle.chains.specs.WellFormed.{IsWellFormed};
ghost use Rattle.world.specs.Events.{is_well_formed};
ghost use Rattle.world.specs.Law.{HoldsOfRuns};

/// The theorem of the world (`crates/world/README.md`, "Every run is explained"), for every setup, every start that
/// past runs can reach, and every list of enabled events.
pub fn laws_of_runs()
    ensures { HoldsOfRuns }
{}

/// The law of the test of a hint's bitmap (`crates/world/README.md`, "Hints"), for every radix and bitmap.
pub fn laws_of_hints()
    ensures { (radix : ℕ) → (bits : Bits) → (is_well_formed radix bits ≡ true) ↔ IsWellFormed radix (has bits) }
{}
