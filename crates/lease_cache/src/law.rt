ghost use Rattle.std.specs.Prelude.{◌≡◌, ◌≢◌, ◌<◌, ◌⊎◌, ℕ, Contains, Some};
ghost use Rattle.mds_base.specs.declared.attr.Attr.{Attr};
ghost use Rattle.mds_base.specs.Entries.{Place};
ghost use Rattle.lease_cache.specs.declared.lease.Lease.{Lease};
ghost use Rattle.lease_cache.specs.Cache.{Cache, answered, used, kept, dropped};

/// What follows from the definitions (`crates/lease_cache/README.md`, "Lease cache"), for all caches, places and
/// moments.
pub fn laws_of_lease_caches()
    // What is answered is kept of that place, with an end above the moment.
    ensures answered_kept { (cache : Cache) → (place : Place) → (now : ℕ) → (attr : Attr)
        → answered cache place now ≡ Some attr
        → (lease : Lease) × (Contains cache.entries (place, lease)) × (lease.attr ≡ attr) × (now < lease.until) }

    // Right after it is kept a lease is answered until it ends.
    ensures kept_answered { (cache : Cache) → (place : Place) → (lease : Lease) → (now : ℕ) → now < lease.until
        → answered (kept cache place lease) place now ≡ Some lease.attr }

    // What is kept after a call was kept before, or is the lease that was given.
    ensures from_kept { (cache : Cache) → (place : Place) → (lease : Lease) → (entry : Place × Lease)
        → Contains (kept cache place lease).entries entry → Contains cache.entries entry ⊎ (entry ≡ (place, lease)) }
    ensures from_used { (cache : Cache) → (place : Place) → (now : ℕ) → (entry : Place × Lease)
        → Contains (used cache place now).entries entry → Contains cache.entries entry }
    ensures from_dropped { (cache : Cache) → (place : Place) → (entry : Place × Lease)
        → Contains (dropped cache place).entries entry → Contains cache.entries entry }
{}
