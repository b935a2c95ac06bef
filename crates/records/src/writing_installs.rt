//! Writing what the child of a split is made from.
ghost use Rattle.std.specs.Prelude.{◌≡◌, ℕ, ◌<◌, ◌≤◌, ◌+◌, ◌*◌, ◌^◌, ◌++◌, ◌∷◌, length, OnOk, if◌then◌else◌};
ghost use Rattle.std.specs.List.{AllByRecursion, flat_map};
ghost use Rattle.bitmap.specs.Bits.{has};
ghost use Rattle.records.specs.Installs.{bitmap_byte, bitmap_spelling, session_spelling, sessions_spelling, IsSession};
ghost use Rattle.records.specs.Installs.{IsInstall, install_spelling};
ghost use Rattle.records.specs.LeastFormats.{some_stamped_of};
ghost use Rattle.records.specs.Writing.{OnlyGrows};
ghost use Rattle.records.specs.Spelling.{install_kind};

use crate::kinds::{RECORD_INSTALL, RECORD_INSTALL_STAMPED};
use crate::least_format::some_stamped;
use crate::reading_installs::{BITMAP_BYTES, power};
use crate::writing::{put_byte, put_final, put_rows, put_split, put_u32, put_u64};
use bitmap::Bitmap;
use mds_base::{Row, Session};
use std::alloc::AllocError;

// What a partition is worth at a bit of its byte.
fn worth(bitmap: &Bitmap, part: u32, bit: usize) -> usize
    requires { bit < 8 }
    ensures { result ≡ (if has bitmap.now part then 2 ^ bit else 0) }
{
    if bitmap.has(part) { power(bit) } else { 0 }
}

// The byte at a place of a bitmap's spelling.
fn bitmap_byte(bitmap: &Bitmap, place: usize) -> u8
    requires { place < 128 }
    ensures { result ≡ bitmap_byte bitmap.now place }
{
    let mut byte = 0;
    for bit in 0..8 {
        byte += worth(bitmap, (place * 8 + bit) as u32, bit);
    }
    byte as u8
}

fn put_bitmap(out: &mut Vec<u8>, bitmap: &Bitmap) -> Result<(), AllocError>
    ensures ok { OnOk result (out.new.items ≡ out.old.items ++ bitmap_spelling bitmap.now) }
    ensures grows { OnlyGrows out.old.items out.new.items }
{
    for place in 0..BITMAP_BYTES {
        put_byte(out, bitmap_byte(bitmap, place))?;
    }
    Ok(())
}

fn put_session(out: &mut Vec<u8>, session: &Session) -> Result<(), AllocError>
    requires { IsSession session.now }
    ensures ok { OnOk result (out.new.items ≡ out.old.items ++ session_spelling session.now) }
    ensures grows { OnlyGrows out.old.items out.new.items }
{
    put_u32(out, session.client)?;
    put_u64(out, session.seq)?;
    put_final(out, &session.said)
}

fn put_each_session(out: &mut Vec<u8>, sessions: &[Session]) -> Result<(), AllocError>
    requires { AllByRecursion IsSession sessions.now }
    ensures ok { OnOk result (out.new.items ≡ out.old.items ++ flat_map session_spelling sessions.now) }
    ensures grows { OnlyGrows out.old.items out.new.items }
{
    for session in sessions {
        put_session(out, session)?;
    }
    Ok(())
}

// How many sessions there are, and each of them.
fn put_sessions(out: &mut Vec<u8>, sessions: &[Session]) -> Result<(), AllocError>
    requires few { length sessions.now ≤ 64 }
    requires each { AllByRecursion IsSession sessions.now }
    ensures ok { OnOk result (out.new.items ≡ out.old.items ++ sessions_spelling sessions.now) }
    ensures grows { OnlyGrows out.old.items out.new.items }
{
    put_byte(out, sessions.len() as u8)?;
    put_each_session(out, sessions)
}

// The kind of an Install with these rows.
fn install_kind(stamped: bool) -> u8
    ensures { result ≡ install_kind stamped }
{
    if stamped {
        RECORD_INSTALL_STAMPED
    } else {
        RECORD_INSTALL
    }
}

// The kind of an Install, and what the child is made from.
pub(crate) fn put_install(
    out: &mut Vec<u8>,
    dir: u64,
    part: u32,
    depth: u32,
    bitmap: &Bitmap,
    sessions: &[Session],
    rows: &[Row],
) -> Result<(), AllocError>
    requires { IsInstall 0 dir part depth bitmap.now sessions.now rows.now }
    ensures ok { OnOk result
        (out.new.items
        ≡ out.old.items ++ install_kind (some_stamped_of rows.now)
        ∷ install_spelling dir part depth bitmap.now sessions.now rows.now) }
    ensures grows { OnlyGrows out.old.items out.new.items }
{
    let stamped = some_stamped(rows);
    put_split(out, install_kind(stamped), dir, part, depth as u8)?;
    put_bitmap(out, bitmap)?;
    put_sessions(out, sessions)?;
    put_rows(out, stamped, rows)
}
