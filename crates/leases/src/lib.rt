//! Floor 2, parts: what a partition keeps of the leases that it granted on its names.
//!
//! It stands on `mds_base` alone. `Leases` is a finite map from names to the moments at which the last leases on them
//! end, beside a floor, which stands for all leases that are not kept here. Its contract for the layers above:
//! `grant` keeps the greater end, `held_until` is the greater of a name's end and the floor, `top` the greatest of the
//! floor and all ends, `sweep` drops the ends that are over, and `copy` equals its source;
//! `laws_of_leases` has what follows. Sweeping costs what ended
//! and not what is held, by an order of the ends beside the map. Only `grant` and `copy` take memory.
//! `crates/leases/README.md` is its page.
#![tactic(auto)]

mod ending;
mod ends;
mod law;
mod leases;

pub use law::laws_of_leases;
pub use leases::Leases;
