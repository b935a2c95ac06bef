ghost use Rattle.std.specs.Prelude.{◌≡◌, ◌≢◌, ℕ, List, Some, None};
ghost use Rattle.block_cache.specs.Blocks.{Blocks, held, used, kept, without};
ghost use Rattle.block_cache.specs.declared.place.Place.{Place};

/// What follows from the definitions (`crates/block_cache/README.md`), for all caches, places and files.
pub fn laws_of_block_caches()
    // A block that is found is what was kept last of its place.
    ensures kept_found { (blocks : Blocks) → (place : Place) → (bytes : List ℕ)
        → held (kept blocks place bytes) place ≡ Some bytes }
    ensures others_kept { (blocks : Blocks) → (place other : Place) → (bytes found : List ℕ) → other ≢ place
        → held (kept blocks place bytes) other ≡ Some found → held blocks other ≡ Some found }

    // The order of use changes nothing that is found.
    ensures used_found { (blocks : Blocks) → (place other : Place)
        → held (used blocks place) other ≡ held blocks other }

    // Once a file left nothing of it is found, and all else is found as before.
    ensures none_left { (blocks : Blocks) → (file : ℕ) → (place : Place) → place.file ≡ file
        → held (without blocks file) place ≡ None }
    ensures others_stay { (blocks : Blocks) → (file : ℕ) → (place : Place) → place.file ≢ file
        → held (without blocks file) place ≡ held blocks place }
{}
