//! Texts of records and of the lines of a script.
use mds_base::{Call, Final, Name, PlaceList};
use records::Record;
use row_words::{Answer, hex_text, push_call, push_final, push_name};
use script::{ByteList, Line};
use std::alloc::Global;
use std::fmt::Write;

/// `head FORMAT SERVERS SERVER THRESHOLD`, `opened`, `served CLIENT NUMBER PART CALL FINAL`, `begin DIR PART DEPTH`,
/// `install DIR PART DEPTH` or `end DIR PART DEPTH`.
pub(crate) fn record_text(alloc: Global, item: &Record) -> Answer {
    match item {
        Record::Head {
            format,
            servers,
            server,
            threshold,
        } => Ok(format!(in alloc; "head {format} {servers} {server} {threshold}")?),
        Record::Opened => Ok(String::from_str(alloc, "opened")?),
        Record::Served {
            client,
            seq,
            part,
            call,
            said,
        } => served_text(alloc, *client, *seq, *part, call, said),
        Record::Begin { dir, part, depth } => Ok(format!(in alloc; "begin {dir} {part} {depth}")?),
        Record::Install {
            dir,
            part,
            depth,
            ..
        } => Ok(format!(in alloc; "install {dir} {part} {depth}")?),
        Record::End { dir, part, depth } => Ok(format!(in alloc; "end {dir} {part} {depth}")?),
    }
}

fn served_text(
    alloc: Global,
    client: u32,
    seq: u64,
    part: u32,
    call: &Call,
    said: &Final,
) -> Answer {
    let mut out = format!(in alloc; "served {client} {seq} {part} ")?;
    push_call(&mut out, call)?;
    out.push(' ')?;
    push_final(&mut out, said)?;
    Ok(out)
}

/// A line of a script, in its printed form; `skipped` for a line that says nothing.
pub(crate) fn line_text(alloc: Global, line: &Line) -> Answer {
    match line {
        Line::Skipped => Ok(String::from_str(alloc, "skipped")?),
        Line::Call { client, call } => with_call(alloc, "call", *client, call),
        Line::Issue { client, call } => with_call(alloc, "issue", *client, call),
        Line::Retry { client } => Ok(format!(in alloc; "retry {client}")?),
        Line::Deliver { message } => Ok(format!(in alloc; "deliver {message}")?),
        Line::Take { client, message } => Ok(format!(in alloc; "take {client} {message}")?),
        Line::Settle => Ok(String::from_str(alloc, "settle")?),
        Line::Tick { by } => Ok(format!(in alloc; "tick {by}")?),
        Line::Fuse { server, calls } => Ok(format!(in alloc; "fuse {server} {calls}")?),
        Line::Stop { server } => Ok(format!(in alloc; "stop {server}")?),
        Line::Restart { server } => Ok(format!(in alloc; "restart {server}")?),
        Line::Batch { server, places } => batch_text(alloc, *server, places),
        Line::Remind { server } => Ok(format!(in alloc; "remind {server}")?),
        Line::Walk { client, path } => with_bytes(alloc, "walk", *client, path),
        Line::Bulk {
            client,
            dir,
            name,
            json,
        } => bulk_text(alloc, *client, *dir, name, json),
        Line::Rmdir { client, dir, name } => {
            let mut out = format!(in alloc; "rmdir {client} {dir} ")?;
            push_name(&mut out, name)?;
            Ok(out)
        }
        Line::Feed { server } => Ok(format!(in alloc; "feed {server}")?),
        Line::Promote { server } => Ok(format!(in alloc; "promote {server}")?),
    }
}

fn batch_text(alloc: Global, server: u32, places: &PlaceList) -> Answer {
    let mut out = format!(in alloc; "batch {server}")?;
    for place in places.places() {
        write!(out, " {place}")?;
    }
    Ok(out)
}

fn with_bytes(alloc: Global, verb: &str, client: u32, bytes: &ByteList) -> Answer {
    let text = hex_text(alloc, bytes.bytes())?;
    Ok(format!(in alloc; "{verb} {client} bytes {text}")?)
}

fn bulk_text(alloc: Global, client: u32, dir: u64, name: &Name, json: &ByteList) -> Answer {
    let text = hex_text(alloc, json.bytes())?;
    let mut out = format!(in alloc; "bulk {client} {dir} ")?;
    push_name(&mut out, name)?;
    write!(out, " bytes {text}")?;
    Ok(out)
}

fn with_call(alloc: Global, verb: &str, client: u32, call: &Call) -> Answer {
    let mut out = format!(in alloc; "{verb} {client} ")?;
    push_call(&mut out, call)?;
    Ok(out)
}
