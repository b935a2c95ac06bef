//! What is answered where an entry of these attributes stands, or none.
ghost use Rattle.std.specs.Prelude.{◌≡◌};
ghost use Rattle.plain_dir.specs.Served.{made, removed, unlinked, set, found};

use mds_base::{Attr, Final, Reply};

/// What a call that makes an entry is answered.
pub(crate) fn made(before: Option<Attr>, said: Final) -> Final
    ensures { result ≡ made before said }
{
    match before {
        None => said,
        Some(_) => Final::Exists,
    }
}

/// What a remove is answered.
pub(crate) fn removed(before: Option<Attr>) -> Final
    ensures { result ≡ removed before }
{
    match before {
        None => Final::Missing,
        Some(attr) if attr.is_file() => Final::Removed,
        Some(_) => Final::IsDir,
    }
}

/// What an unlink of the directory `id` is answered.
pub(crate) fn unlinked(before: Option<Attr>, id: u64) -> Final
    ensures { result ≡ unlinked before id }
{
    match before {
        None => Final::Missing,
        Some(attr) if attr.dir == id => Final::Removed,
        Some(_) => Final::Exists,
    }
}

/// What a setattr is answered.
pub(crate) fn set(before: Option<Attr>) -> Final
    ensures { result ≡ set before }
{
    match before {
        None => Final::Missing,
        Some(_) => Final::Set,
    }
}

/// What a lookup is answered.
pub(crate) fn found(before: Option<Attr>) -> Reply
    ensures { result ≡ found before }
{
    match before {
        None => Reply::Said(Final::Missing),
        Some(attr) => Reply::Found { attr, until: 0 },
    }
}
