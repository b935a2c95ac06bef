ghost use Rattle.std.specs.Prelude.{◌≡◌, ◌↔◌, [], ◌∷◌, ◌≤◌, length, IsTrue, IfOk, IsOk, OnOk, IsErrOf, false};
ghost use Rattle.std.specs.Prelude.{nat_eq};
ghost use Rattle.std.specs.List.{list_all};
ghost use Rattle.std.specs.Cmp.{partial_order_from_own_ties};
ghost use Rattle.std.specs.Cmp.Lexicographic.{pointwise, slice_cmp};
ghost use Rattle.std.specs.Cmp.Rules.{comparing};
ghost use Rattle.std.specs.Ordering.{nat_cmp, as_partial_cmp};
ghost use Rattle.std.proofs.Common.{rules};
ghost use Rattle.mds_base.specs.declared.limits.TheConstants.{SHORT_NAME};
ghost use Rattle.mds_base.specs.Name.{is_name, is_dots, is_name_byte};

use crate::limits::SHORT_NAME;
use std::alloc::{AllocError, Global};
use std::cmp::Ordering;
use std::marker::Model;
use thiserror::Error;

/// Why bytes were not read as a name.
#[derive(Debug, Drop, Error)]
pub enum NameFault {
    /// The bytes are not 1 to 255 in number, have a `/` or a NUL among them, or are `.` or `..`.
    #[error("not a name")]
    BadName,
    /// There was no memory for the name.
    #[error("out of memory")]
    OutOfMemory,
}

impl From<AllocError> for NameFault {
    ghost use Rattle.mds_base.specs.declared.name.NameFault.{NameFault};

    ghost from_gives = { λ _ e. e ≡ NameFault.OutOfMemory };

    fn from(_: AllocError) -> NameFault {
        NameFault::OutOfMemory
    }
}

/// The name of an entry in a directory: 1 to 255 bytes, none of them `/` or NUL, and neither `.` nor `..`
/// (`crates/mds_base/README.md`, "Name"). Names are ordered by their bytes. Up to 22 bytes lie in the name itself.
#[derive(Debug, Drop)]
pub struct Name {
    bytes: Kept,
}

/// Where the bytes of a name lie.
#[derive(Debug, Drop)]
enum Kept {
    /// In the name itself: the first `number` of these.
    Short { number: u8, bytes: [u8; SHORT_NAME] },
    /// On the heap.
    Long(Box<Vec<u8>>),
}

impl Kept {
    ghost use Rattle.mds_base.specs.NameKept.{kept_bytes, IsWithin};

    fn of(alloc: Global, bytes: &[u8]) -> Result<Kept, AllocError>
        ensures bytes { IfOk result (λ kept. kept_bytes kept ≡ bytes.now) }
        ensures within { IfOk result IsWithin }
        ensures short_is_ok { length bytes.now ≤ SHORT_NAME → IsOk result }
    {
        if bytes.len() <= SHORT_NAME {
            let mut short = [0; SHORT_NAME];
            short[..bytes.len()].copy_from_slice(bytes);
            return Ok(Kept::Short {
                number: bytes.len() as u8,
                bytes: short,
            });
        }
        let long = Box::new(alloc, Vec::from_slice(alloc, bytes)?)?;
        Ok(Kept::Long(long))
    }

    fn as_slice(&self) -> &[u8]
        requires { IsWithin self.now }
        ensures { result.now ≡ kept_bytes self.now }
    {
        match self {
            Kept::Short { number, bytes } => &bytes[..*number as usize],
            Kept::Long(bytes) => bytes.as_slice(),
        }
    }
}

impl Model for Name {
    ghost use Rattle.std.specs.Prelude.{List, ℕ, IsTrue};
    ghost use Rattle.mds_base.specs.Name.{is_name};
    ghost use Rattle.mds_base.specs.NameKept.{kept_bytes, IsWithin};

    ghost Value = { List ℕ };

    ghost view = { λ a. kept_bytes a.bytes };

    ghost invariant = { λ a. IsTrue (is_name (kept_bytes a.bytes)) × IsWithin a.bytes };
}

impl Name {
    /// Reads bytes as a name. It is refused as `BadName` exactly where they are none, and as `OutOfMemory` where
    /// there is no memory for it; a name of at most 22 bytes takes none.
    pub fn read(alloc: Global, bytes: &[u8]) -> Result<Name, NameFault>
        ensures ok { IfOk result (λ name. name ≡ bytes.now) }
        ensures is_name { OnOk result (IsTrue (is_name bytes.now)) }
        ensures bad_name { IsErrOf result NameFault.BadName ↔ (is_name bytes.now ≡ false) }
        ensures short_is_ok { length bytes.now ≤ SHORT_NAME → IsTrue (is_name bytes.now) → IsOk result }
    {
        if !is_name(bytes) {
            return Err(NameFault::BadName);
        }
        let bytes = Kept::of(alloc, bytes)?;
        Ok(Name { bytes })
    }

    /// The name of these bytes, which are one. It is refused only where there is no memory for it; a name of at most
    /// 22 bytes takes none.
    pub fn of_bytes(alloc: Global, bytes: &[u8]) -> Result<Name, AllocError>
        requires { IsTrue (is_name bytes.now) }
        ensures value { IfOk result (λ name. name ≡ bytes.now) }
        ensures short_is_ok { length bytes.now ≤ SHORT_NAME → IsOk result }
    {
        let bytes = Kept::of(alloc, bytes)?;
        Ok(Name { bytes })
    }

    /// The bytes of the name.
    pub fn bytes(&self) -> &[u8]
        ensures value { result.now ≡ self.now }
        ensures is_name { IsTrue (is_name self.now) }
    {
        self.bytes.as_slice()
    }

    /// The least of all names in the order of names, the single byte 1.
    pub(crate) fn least(alloc: Global) -> Result<Name, AllocError>
        ensures { IfOk result (λ name. name ≡ 1 ∷ []) }
    {
        let bytes = Kept::of(alloc, &[1])?;
        Ok(Name { bytes })
    }

    /// A copy of the name. It is refused only where there is no memory for it; a name of at most 22 bytes takes none.
    pub fn copy(&self, alloc: Global) -> Result<Name, AllocError>
        ensures value { IfOk result (λ name. name ≡ self.now) }
        ensures short_is_ok { length self.now ≤ SHORT_NAME → IsOk result }
    {
        let bytes = Kept::of(alloc, self.bytes.as_slice())?;
        Ok(Name { bytes })
    }
}

impl PartialEq for Name {
    ghost eq = { pointwise nat_eq };

    ghost laws = { Prim.search (comparing, rules) };

    fn eq(&self, other: &Name) -> bool {
        self.bytes() == other.bytes()
    }
}

impl Eq for Name {
    ghost laws = { Prim.search (comparing, rules) };
}

impl PartialOrd for Name {
    ghost partial_cmp = { as_partial_cmp (slice_cmp nat_cmp) };

    ghost laws = { partial_order_from_own_ties (Prim.search (comparing, rules)) (Prim.search (comparing, rules)) };

    fn partial_cmp(&self, other: &Name) -> Option<Ordering> {
        Some(self.cmp(other))
    }
}

impl Ord for Name {
    ghost cmp = { slice_cmp nat_cmp };

    ghost total = { Prim.search (comparing, rules) };

    ghost matches_partial_cmp = { Prim.search (comparing, rules) };

    ghost matches_eq = { Prim.search (comparing, rules) };

    fn cmp(&self, other: &Name) -> Ordering {
        self.bytes().cmp(&other.bytes())
    }
}

/// Whether the bytes are a name (`crates/mds_base/README.md`, "Name").
pub fn is_name(bytes: &[u8]) -> bool
    ensures { result ≡ is_name bytes.now }
{
    1 <= bytes.len() && bytes.len() <= 255 && !is_dots_of(bytes) && is_plain(bytes)
}

fn is_dots_of(bytes: &[u8]) -> bool
    ensures { result ≡ is_dots bytes.now }
{
    bytes == b".".as_slice() || bytes == b"..".as_slice()
}

fn is_plain(bytes: &[u8]) -> bool
    ensures { result ≡ list_all is_name_byte bytes.now }
{
    bytes.iter().all(|byte| *byte != b'/' && *byte != 0)
}
