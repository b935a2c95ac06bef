ghost use Rattle.std.specs.Prelude.{◌≡◌, ◌<◌, ◌^◌, ◌++◌, ◌∷◌, [], length, false, OnOk, OnErr};
ghost use Rattle.std.specs.List.{AllByRecursion, flat_map};
ghost use Rattle.std.specs.Int.{w16, w32, w64, to_be_bytes};
ghost use Rattle.mds_base.specs.declared.call.Call.TheVariants.{Setattr};
ghost use Rattle.records.specs.declared.kinds.TheConstants.{CALL_KILL, CALL_LOAD};
ghost use Rattle.records.specs.Rows.{IsRow, name_spelling, attr_spelling, row_spelling, rows_spelling};
ghost use Rattle.records.specs.Writing.{OnlyGrows};
ghost use Rattle.records.specs.Spelling.{IsChange, IsNumbered, IsRecord, call_spelling, tag_of, number_of};
ghost use Rattle.records.specs.Spelling.{final_spelling, split_spelling, record_spelling};

use crate::kinds::{
    CALL_CREATE, CALL_GRAB, CALL_KILL, CALL_LINK, CALL_LOAD, CALL_MKDIR, CALL_REMOVE, CALL_SEAL,
    CALL_SETATTR, CALL_STAMP, CALL_UNLINK, CALL_UNSEAL, FINAL_CREATED, FINAL_CREATED_DIR,
    FINAL_EXISTS, FINAL_IDS, FINAL_IS_DIR, FINAL_KILLED, FINAL_LATE, FINAL_LOADED, FINAL_MISSING,
    FINAL_NOT_EMPTY, FINAL_OPENED, FINAL_REMOVED, FINAL_SEALED, FINAL_SET, FINAL_STALE,
    RECORD_BEGIN, RECORD_END, RECORD_HEAD, RECORD_OPENED, RECORD_SERVED,
};
use crate::record::Record;
use crate::writing_installs::put_install;
use byteorder::{BigEndian, ByteOrder};
use mds_base::{Attr, Call, Final, Name, Row, Stamp};
use std::alloc::AllocError;

pub(crate) fn put_byte(out: &mut Vec<u8>, byte: u8) -> Result<(), AllocError>
    ensures ok { OnOk result (out.new.items ≡ out.old.items ++ byte ∷ []) }
    ensures grows { OnlyGrows out.old.items out.new.items }
{
    out.push(byte)?;
    Ok(())
}

fn put_bytes(out: &mut Vec<u8>, bytes: &[u8]) -> Result<(), AllocError>
    ensures ok { OnOk result (out.new.items ≡ out.old.items ++ bytes.now) }
    ensures grows { OnlyGrows out.old.items out.new.items }
{
    out.extend_from_slice(bytes)
}

fn put_u16(out: &mut Vec<u8>, number: u16) -> Result<(), AllocError>
    ensures ok { OnOk result (out.new.items ≡ out.old.items ++ to_be_bytes w16 number) }
    ensures grows { OnlyGrows out.old.items out.new.items }
{
    let mut bytes = [0; 2];
    BigEndian::write_u16(&mut bytes, number);
    put_bytes(out, &bytes)
}

pub(crate) fn put_u32(out: &mut Vec<u8>, number: u32) -> Result<(), AllocError>
    ensures ok { OnOk result (out.new.items ≡ out.old.items ++ to_be_bytes w32 number) }
    ensures grows { OnlyGrows out.old.items out.new.items }
{
    let mut bytes = [0; 4];
    BigEndian::write_u32(&mut bytes, number);
    put_bytes(out, &bytes)
}

pub(crate) fn put_u64(out: &mut Vec<u8>, number: u64) -> Result<(), AllocError>
    ensures ok { OnOk result (out.new.items ≡ out.old.items ++ to_be_bytes w64 number) }
    ensures grows { OnlyGrows out.old.items out.new.items }
{
    let mut bytes = [0; 8];
    BigEndian::write_u64(&mut bytes, number);
    put_bytes(out, &bytes)
}

fn put_name(out: &mut Vec<u8>, name: &Name) -> Result<(), AllocError>
    ensures ok { OnOk result (out.new.items ≡ out.old.items ++ name_spelling name.now) }
    ensures grows { OnlyGrows out.old.items out.new.items }
{
    let bytes = name.bytes();
    put_byte(out, bytes.len() as u8)?;
    put_bytes(out, bytes)
}

// The kind of a call, its directory and its name.
fn put_start(out: &mut Vec<u8>, kind: u8, dir: u64, name: &Name) -> Result<(), AllocError>
    ensures ok { OnOk result (out.new.items ≡ out.old.items ++ kind ∷ (to_be_bytes w64 dir ++ name_spelling name.now)) }
    ensures grows { OnlyGrows out.old.items out.new.items }
{
    put_byte(out, kind)?;
    put_u64(out, dir)?;
    put_name(out, name)
}

// A call that seals a partition or takes a seal off.
fn put_seal(out: &mut Vec<u8>, kind: u8, dir: u64, part: u32, epoch: u64) -> Result<(), AllocError>
    ensures ok { OnOk result
        (out.new.items
        ≡ out.old.items ++ kind ∷ (to_be_bytes w64 dir ++ (to_be_bytes w32 part ++ to_be_bytes w64 epoch))) }
    ensures grows { OnlyGrows out.old.items out.new.items }
{
    put_byte(out, kind)?;
    put_u64(out, dir)?;
    put_u32(out, part)?;
    put_u64(out, epoch)
}

// A call that kills a directory.
fn put_kill(out: &mut Vec<u8>, dir: u64, epoch: u64) -> Result<(), AllocError>
    ensures ok { OnOk result
        (out.new.items ≡ out.old.items ++ CALL_KILL ∷ (to_be_bytes w64 dir ++ to_be_bytes w64 epoch)) }
    ensures grows { OnlyGrows out.old.items out.new.items }
{
    put_byte(out, CALL_KILL)?;
    put_u64(out, dir)?;
    put_u64(out, epoch)
}

// A call that sets attributes.
fn put_set(
    out: &mut Vec<u8>,
    dir: u64,
    name: &Name,
    mode: u16,
    size: u64,
    stamp: &Option<Stamp>,
) -> Result<(), AllocError>
    ensures ok { OnOk result
        (out.new.items ≡ out.old.items ++ call_spelling (Setattr dir name.now mode size stamp.now)) }
    ensures grows { OnlyGrows out.old.items out.new.items }
{
    match stamp {
        None => {
            put_start(out, CALL_SETATTR, dir, name)?;
            put_u16(out, mode)?;
            put_u64(out, size)
        }
        Some(stamp) => {
            put_start(out, CALL_STAMP, dir, name)?;
            put_u16(out, mode)?;
            put_stamped(out, size, stamp.owner, stamp.mtime)
        }
    }
}

// The size of a call that sets a stamp, and the stamp's owner and time.
fn put_stamped(out: &mut Vec<u8>, size: u64, owner: u32, mtime: u64) -> Result<(), AllocError>
    ensures ok { OnOk result
        (out.new.items ≡ out.old.items ++ (to_be_bytes w64 size ++ (to_be_bytes w32 owner ++ to_be_bytes w64 mtime))) }
    ensures grows { OnlyGrows out.old.items out.new.items }
{
    put_u64(out, size)?;
    put_u32(out, owner)?;
    put_u64(out, mtime)
}

// The owner and the time of attributes.
fn put_stamp(out: &mut Vec<u8>, owner: u32, mtime: u64) -> Result<(), AllocError>
    ensures ok { OnOk result (out.new.items ≡ out.old.items ++ (to_be_bytes w32 owner ++ to_be_bytes w64 mtime)) }
    ensures grows { OnlyGrows out.old.items out.new.items }
{
    put_u32(out, owner)?;
    put_u64(out, mtime)
}

// The directory, the mode and the size of attributes.
fn put_numbered(out: &mut Vec<u8>, dir: u64, mode: u16, size: u64) -> Result<(), AllocError>
    ensures ok { OnOk result
        (out.new.items ≡ out.old.items ++ (to_be_bytes w64 dir ++ (to_be_bytes w16 mode ++ to_be_bytes w64 size))) }
    ensures grows { OnlyGrows out.old.items out.new.items }
{
    put_u64(out, dir)?;
    put_u16(out, mode)?;
    put_u64(out, size)
}

fn put_attr(out: &mut Vec<u8>, stamped: bool, attr: &Attr) -> Result<(), AllocError>
    requires { attr.now.mode < 2 ^ 16 }
    ensures ok { OnOk result (out.new.items ≡ out.old.items ++ attr_spelling stamped attr.now) }
    ensures grows { OnlyGrows out.old.items out.new.items }
{
    put_numbered(out, attr.dir, attr.mode as u16, attr.size)?;
    if stamped {
        return put_stamp(out, attr.owner, attr.mtime);
    }
    Ok(())
}

fn put_row(out: &mut Vec<u8>, stamped: bool, row: &Row) -> Result<(), AllocError>
    requires { IsRow stamped row.now }
    ensures ok { OnOk result (out.new.items ≡ out.old.items ++ row_spelling stamped row.now) }
    ensures grows { OnlyGrows out.old.items out.new.items }
{
    put_name(out, &row.name)?;
    put_attr(out, stamped, &row.attr)
}

fn put_each(out: &mut Vec<u8>, stamped: bool, rows: &[Row]) -> Result<(), AllocError>
    requires { AllByRecursion (IsRow stamped) rows.now }
    ensures ok { OnOk result (out.new.items ≡ out.old.items ++ flat_map (row_spelling stamped) rows.now) }
    ensures grows { OnlyGrows out.old.items out.new.items }
{
    for row in rows {
        put_row(out, stamped, row)?;
    }
    Ok(())
}

// How many rows there are, and each of them.
pub(crate) fn put_rows(out: &mut Vec<u8>, stamped: bool, rows: &[Row]) -> Result<(), AllocError>
    requires few { length rows.now < 2 ^ 32 }
    requires each { AllByRecursion (IsRow stamped) rows.now }
    ensures ok { OnOk result (out.new.items ≡ out.old.items ++ rows_spelling stamped rows.now) }
    ensures grows { OnlyGrows out.old.items out.new.items }
{
    put_u32(out, rows.len() as u32)?;
    put_each(out, stamped, rows)
}

// A call that adds rows.
fn put_load(out: &mut Vec<u8>, dir: u64, rows: &[Row]) -> Result<(), AllocError>
    requires few { length rows.now < 2 ^ 32 }
    requires each { AllByRecursion (IsRow false) rows.now }
    ensures ok { OnOk result
        (out.new.items ≡ out.old.items ++ CALL_LOAD ∷ (to_be_bytes w64 dir ++ rows_spelling false rows.now)) }
    ensures grows { OnlyGrows out.old.items out.new.items }
{
    put_byte(out, CALL_LOAD)?;
    put_u64(out, dir)?;
    put_rows(out, false, rows)
}

fn put_call(out: &mut Vec<u8>, call: &Call) -> Result<(), AllocError>
    requires { IsChange call.now }
    ensures ok { OnOk result (out.new.items ≡ out.old.items ++ call_spelling call.now) }
    ensures grows { OnlyGrows out.old.items out.new.items }
{
    match call {
        Call::Create { dir, name } => put_start(out, CALL_CREATE, *dir, name),
        Call::Mkdir { dir, name } => put_start(out, CALL_MKDIR, *dir, name),
        Call::Remove { dir, name } => put_start(out, CALL_REMOVE, *dir, name),
        Call::Grab { dir, name, count } => {
            put_start(out, CALL_GRAB, *dir, name)?;
            put_u32(out, *count)
        }
        Call::Link { dir, name, id } => {
            put_start(out, CALL_LINK, *dir, name)?;
            put_u64(out, *id)
        }
        Call::Seal { dir, part, epoch } => put_seal(out, CALL_SEAL, *dir, *part, *epoch),
        Call::Unseal { dir, part, epoch } => put_seal(out, CALL_UNSEAL, *dir, *part, *epoch),
        Call::Kill { dir, epoch } => put_kill(out, *dir, *epoch),
        Call::Unlink { dir, name, id } => {
            put_start(out, CALL_UNLINK, *dir, name)?;
            put_u64(out, *id)
        }
        Call::Setattr {
            dir,
            name,
            mode,
            size,
            stamp,
        } => put_set(out, *dir, name, *mode as u16, *size, stamp),
        Call::Lookup { .. } => Ok(()),
        Call::Scan { .. } => Ok(()),
        Call::Load { dir, rows } => put_load(out, *dir, rows.rows()),
    }
}

fn tag(said: &Final) -> u8
    ensures { result ≡ tag_of said.now }
{
    match said {
        Final::Created => FINAL_CREATED,
        Final::CreatedDir(_) => FINAL_CREATED_DIR,
        Final::Exists => FINAL_EXISTS,
        Final::Removed => FINAL_REMOVED,
        Final::Missing => FINAL_MISSING,
        Final::IsDir => FINAL_IS_DIR,
        Final::Set => FINAL_SET,
        Final::Ids(_) => FINAL_IDS,
        Final::Loaded(_) => FINAL_LOADED,
        Final::Stale => FINAL_STALE,
        Final::Sealed { .. } => FINAL_SEALED,
        Final::NotEmpty => FINAL_NOT_EMPTY,
        Final::Late => FINAL_LATE,
        Final::Opened => FINAL_OPENED,
        Final::Killed => FINAL_KILLED,
    }
}

fn number(said: &Final) -> u64
    requires { IsNumbered said.now }
    ensures { result ≡ number_of said.now }
{
    match said {
        Final::CreatedDir(number) => *number,
        Final::Ids(first) => *first,
        Final::Loaded(count) => *count as u64,
        Final::Sealed { depth, epoch } => 16 * *epoch + *depth as u64,
        _ => 0,
    }
}

pub(crate) fn put_final(out: &mut Vec<u8>, said: &Final) -> Result<(), AllocError>
    requires { IsNumbered said.now }
    ensures ok { OnOk result (out.new.items ≡ out.old.items ++ final_spelling said.now) }
    ensures grows { OnlyGrows out.old.items out.new.items }
{
    put_byte(out, tag(said))?;
    put_u64(out, number(said))
}

// The numbers of a change.
fn put_numbers(out: &mut Vec<u8>, client: u32, seq: u64, part: u32) -> Result<(), AllocError>
    ensures ok { OnOk result
        (out.new.items ≡ out.old.items ++ (to_be_bytes w32 client ++ (to_be_bytes w64 seq ++ to_be_bytes w32 part))) }
    ensures grows { OnlyGrows out.old.items out.new.items }
{
    put_u32(out, client)?;
    put_u64(out, seq)?;
    put_u32(out, part)
}

// A call and its reply.
fn put_answered(out: &mut Vec<u8>, call: &Call, said: &Final) -> Result<(), AllocError>
    requires { IsChange call.now × IsNumbered said.now }
    ensures ok { OnOk result (out.new.items ≡ out.old.items ++ (call_spelling call.now ++ final_spelling said.now)) }
    ensures grows { OnlyGrows out.old.items out.new.items }
{
    put_call(out, call)?;
    put_final(out, said)
}

// The kind of a split's begin or end, its directory, its partition and its depth.
pub(crate) fn put_split(
    out: &mut Vec<u8>,
    kind: u8,
    dir: u64,
    part: u32,
    depth: u8,
) -> Result<(), AllocError>
    ensures ok { OnOk result (out.new.items ≡ out.old.items ++ kind ∷ split_spelling dir part depth) }
    ensures grows { OnlyGrows out.old.items out.new.items }
{
    put_byte(out, kind)?;
    put_u64(out, dir)?;
    put_u32(out, part)?;
    put_byte(out, depth)?;
    Ok(())
}

fn put_record(out: &mut Vec<u8>, item: &Record) -> Result<(), AllocError>
    requires { IsRecord item.now }
    ensures ok { OnOk result (out.new.items ≡ out.old.items ++ record_spelling item.now) }
    ensures grows { OnlyGrows out.old.items out.new.items }
{
    match item {
        Record::Head {
            format,
            servers,
            server,
            threshold,
        } => {
            put_byte(out, RECORD_HEAD)?;
            put_byte(out, *format)?;
            put_u32(out, *servers)?;
            put_u32(out, *server)?;
            put_u32(out, *threshold)
        }
        Record::Opened => {
            put_byte(out, RECORD_OPENED)?;
            Ok(())
        }
        Record::Served {
            client,
            seq,
            part,
            call,
            said,
        } => {
            put_byte(out, RECORD_SERVED)?;
            put_numbers(out, *client, *seq, *part)?;
            put_answered(out, call, said)
        }
        Record::Begin { dir, part, depth } => put_split(
            out,
            RECORD_BEGIN,
            *dir,
            *part,
            *depth as u8,
        ),
        Record::End { dir, part, depth } => put_split(out, RECORD_END, *dir, *part, *depth as u8),
        Record::Install {
            dir,
            part,
            depth,
            bitmap,
            sessions,
            rows,
        } => put_install(
            out,
            *dir,
            *part,
            *depth,
            bitmap.get(),
            sessions.sessions(),
            rows.rows(),
        ),
    }
}

/// Appends the one spelling of a record (`docs/FORMATS.md`, "Records"), whose numbers are in the ranges there and
/// whose final the plain rules allow for its call. Where there is no memory for it the bytes of `out` stay as they are.
pub fn write(item: &Record, out: &mut Vec<u8>) -> Result<(), AllocError>
    requires { IsRecord item.now }
    ensures ok { OnOk result (out.new.items ≡ out.old.items ++ record_spelling item.now) }
    ensures err { OnErr result (out.new.items ≡ out.old.items) }
{
    let len = out.len();
    match put_record(out, item) {
        Ok(()) => Ok(()),
        Err(error) => {
            out.truncate(len);
            Err(error)
        }
    }
}
