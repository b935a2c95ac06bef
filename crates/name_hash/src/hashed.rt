ghost use Rattle.std.specs.Prelude.{◌≡◌, IfOk};
ghost use Rattle.name_hash.specs.NameHash.{hash_of};
ghost use Rattle.name_hash.specs.RowPlace.{row_key};
ghost use Rattle.name_hash.specs.ScanOrder.{place_of};

use crate::hash;
use chains::reverse;
use mds_base::{Name, RowKey};
use std::alloc::{AllocError, Global};
use std::marker::Model;

/// A name and its hash, which is computed once and then only read. Contracts see it as the name's bytes.
#[derive(Drop)]
pub struct Hashed<'a> {
    name: &'a Name,
    number: u64,
}

impl<'a> Model for Hashed<'a> {
    ghost use Rattle.std.specs.Prelude.{◌≡◌, ℕ, List};
    ghost use Rattle.name_hash.specs.NameHash.{hash_of};

    ghost Value = { List ℕ };

    ghost view = { λ a. a.name.now };

    ghost invariant = { λ a. a.number ≡ hash_of a.name.now };
}

impl<'a> Hashed<'a> {
    /// The name with its hash, which is computed now.
    pub fn of(name: &'a Name) -> Hashed<'a>
        ensures { result ≡ name.now }
    {
        Hashed {
            name,
            number: hash(name),
        }
    }

    /// The name with its hash, which was computed before. It is not computed again.
    pub fn again(name: &'a Name, number: u64) -> Hashed<'a>
        requires { number ≡ hash_of name.now }
        ensures { result ≡ name.now }
    {
        Hashed { name, number }
    }

    /// The name.
    pub fn name(&self) -> &Name
        ensures { result.now ≡ self.now }
    {
        self.name
    }

    /// The hash.
    pub fn number(&self) -> u64
        ensures { result ≡ hash_of self.now }
    {
        self.number
    }

    /// The name's place in the order of a scan: its hash with the bits in the opposite order.
    pub fn place(&self) -> u64
        ensures { result ≡ place_of self.now }
    {
        reverse(self.number)
    }

    /// The key at which the row of the name stands in a partition of a directory. Only a copy of a name of more than 22
    /// bytes takes memory.
    pub fn row_key(&self, alloc: Global, dir: u64, part: u32) -> Result<RowKey, AllocError>
        ensures { IfOk result (λ key. key ≡ row_key dir part self.now) }
    {
        Ok(RowKey {
            dir,
            part,
            rev: self.place(),
            name: self.name.copy(alloc)?,
        })
    }
}
