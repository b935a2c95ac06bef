//! Floor 2, parts: the leases that a client keeps of what it looked up, the last one used first.
//!
//! It stands on `mds_base`, on `lru` and, for keys that take no memory, on `arrayvec`. Its contract for the layers
//! above: the cache is the list of an `lru` cache by places, and `answer`, `keep` and `drop_name` are what its calls
//! of the same names do to that list, its order of use included; `answer` gives Some exactly where the place is kept
//! with an end above the moment, and an `answer` that gives None changes nothing. `laws_of_lease_caches` says that
//! what is kept was kept by `keep`. Only `new` and `keep` take memory. `crates/lease_cache/README.md` is its page.
#![tactic(auto)]

mod key;
mod law;
mod lease;
mod lease_cache;

pub use law::laws_of_lease_caches;
pub use lease::Lease;
pub use lease_cache::LeaseCache;
