//! The hash of a name, where its row stands, and the order in which a scan gives names.
//!
//! It stands on `mds_base` for names and row keys, on `chains` for reversed hashes, and on the kit's `md5`. Only a
//! copy of a name of more than 22 bytes takes memory. The contract for the layers above: `hash` is the first 8 bytes
//! of the MD5 digest as a big-endian number, and `Hashed` is a name beside it, so that it is computed once. What is
//! made of a hash, its chain and its reversed form, is in `chains`. The order of a scan is defined in
//! `specs/ScanOrder.antt`.
#![tactic(auto)]

mod hashed;

ghost use Rattle.std.specs.Prelude.{◌≡◌, IfOk};
ghost use Rattle.std.specs.Cmp.{IsTotalOrder};
ghost use Rattle.std.specs.FinMap.{IsAntisymmetric};
ghost use Rattle.name_hash.specs.NameHash.{hash_of};
ghost use Rattle.name_hash.specs.RowPlace.{row_key};
ghost use Rattle.name_hash.specs.ScanOrder.{scan_cmp};

pub use hashed::Hashed;
use md5::{Digest, Md5};
use mds_base::{Name, RowKey};
use std::alloc::{AllocError, Global};

/// The hash of a name (`crates/name_hash/README.md`, "Name hash").
pub fn hash(name: &Name) -> u64
    ensures { result ≡ hash_of name.now }
{
    let digest = Md5::digest(name.bytes());
    u64::from_be_bytes([
        digest[0], digest[1], digest[2], digest[3], digest[4], digest[5], digest[6], digest[7],
    ])
}

/// The key at which the row of a name stands in a partition of a directory.
pub fn row_key(alloc: Global, dir: u64, part: u32, name: &Name) -> Result<RowKey, AllocError>
    ensures { IfOk result (λ key. key ≡ row_key dir part name.now) }
{
    Hashed::of(name).row_key(alloc, dir, part)
}

/// The laws of the scan order (`crates/name_hash/README.md`, "Scan order").
pub fn laws_of_scan_order()
    ensures total { IsTotalOrder scan_cmp }
    ensures exact { IsAntisymmetric scan_cmp }
{}
