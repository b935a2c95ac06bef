ghost use Rattle.std.specs.Prelude.{◌≡◌, ◌≢◌, ◌<◌, ◌≤◌, ℕ, List, max};
ghost use Rattle.leases.specs.Leases.{LeasesV, unleased, granted, held_until, top, swept};

/// What follows from the definitions (`crates/leases/README.md`, "Leases"), for all leases, names and moments.
pub fn laws_of_leases()
    // A name is held for the new lease too, and no other name for longer than before.
    ensures granted_here { (l : LeasesV) → (name : List ℕ) → (until : ℕ)
        → held_until (granted l name until) name ≡ max (held_until l name) until }
    ensures granted_apart { (l : LeasesV) → (name other : List ℕ) → (until : ℕ) → other ≢ name
        → held_until (granted l name until) other ≡ held_until l other }

    // A name that is held at the moment of a sweep is held as long as before, and no name for longer.
    ensures swept_held { (l : LeasesV) → (now : ℕ) → (name : List ℕ) → now < held_until l name
        → held_until (swept l now) name ≡ held_until l name }
    ensures swept_upto { (l : LeasesV) → (now : ℕ) → (name : List ℕ)
        → held_until (swept l now) name ≤ held_until l name }

    // The top is the least moment up to which every name is held at most.
    ensures bounded { (l : LeasesV) → (name : List ℕ) → held_until l name ≤ top l }
    ensures least { (l : LeasesV) → (bound : ℕ) → ((name : List ℕ) → held_until l name ≤ bound) → top l ≤ bound }
    ensures top_granted { (l : LeasesV) → (name : List ℕ) → (until : ℕ)
        → top (granted l name until) ≡ max (top l) until }
    ensures top_swept { (l : LeasesV) → (now : ℕ) → top (swept l now) ≤ top l }

    // Without a lease the floor is all.
    ensures unleased_held { (floor : ℕ) → (name : List ℕ) → held_until (unleased floor) name ≡ floor }
    ensures unleased_top { (floor : ℕ) → top (unleased floor) ≡ floor }
{}
