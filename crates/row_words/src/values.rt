//! Texts of values, and values of texts: the one place that knows the fields of attributes, calls and replies.
use crate::row_fault::{Answer, RowFault};
use crate::words::{Words, push_name};
use mds_base::{Attr, Call, Final, Name, Stamp};
use std::alloc::{AllocError, Global};
use std::fmt::Write;

/// The attributes of a file, as the next two words give them: its mode and its size.
pub fn read_file(words: &mut Words<'_>) -> Result<Attr, RowFault> {
    let mode = words.small()?;
    let size = words.number()?;
    let stamp = read_stamp(words)?;
    Ok(Attr::new_file().reset(mode, size, stamp))
}

/// An owner and a time of modification, where there are more words.
fn read_stamp(words: &mut Words<'_>) -> Result<Option<Stamp>, RowFault> {
    if words.is_empty() {
        return Ok(None);
    }
    let owner = words.small()?;
    let mtime = words.number()?;
    Ok(Some(Stamp { owner, mtime }))
}

fn push_stamp(out: &mut String, stamp: Option<Stamp>) -> Result<(), AllocError> {
    match stamp {
        None => Ok(()),
        Some(Stamp { owner, mtime }) => write!(out, " {owner} {mtime}"),
    }
}

/// `file MODE SIZE`, or `dir NUMBER MODE SIZE`; behind it an owner and a time where one of them is not 0.
pub fn attr_text(alloc: Global, attr: &Attr) -> Answer {
    let Attr {
        dir,
        mode,
        size,
        ..
    } = *attr;
    let mut out = if attr.is_file() {
        format!(in alloc; "file {mode} {size}")?
    } else {
        format!(in alloc; "dir {dir} {mode} {size}")?
    };
    push_stamp(&mut out, attr.stamp())?;
    Ok(out)
}

/// The call that the next words say.
pub fn read_call(alloc: Global, words: &mut Words<'_>) -> Result<Call, RowFault> {
    let kind = words.word()?;
    let dir = words.number()?;
    let name = words.name(alloc)?;
    match kind {
        "create" => Ok(Call::Create { dir, name }),
        "mkdir" => Ok(Call::Mkdir { dir, name }),
        "remove" => Ok(Call::Remove { dir, name }),
        "lookup" => Ok(Call::Lookup { dir, name }),
        "setattr" => read_setattr(words, dir, name),
        _ => Err(RowFault::NotARow),
    }
}

fn read_setattr(words: &mut Words<'_>, dir: u64, name: Name) -> Result<Call, RowFault> {
    let mode = words.small()?;
    let size = words.number()?;
    let stamp = read_stamp(words)?;
    Ok(Call::Setattr {
        dir,
        name,
        mode,
        size,
        stamp,
    })
}

/// The final that the next word says, and the word after it where that is `created` or has a number.
pub fn read_final(words: &mut Words<'_>) -> Result<Final, RowFault> {
    match words.word()? {
        "created" if words.is_empty() => Ok(Final::Created),
        "created" => Ok(Final::CreatedDir(words.number()?)),
        "exists" => Ok(Final::Exists),
        "removed" => Ok(Final::Removed),
        "missing" => Ok(Final::Missing),
        "isdir" => Ok(Final::IsDir),
        "set" => Ok(Final::Set),
        "ids" => Ok(Final::Ids(words.number()?)),
        "loaded" => Ok(Final::Loaded(words.small()?)),
        "stale" => Ok(Final::Stale),
        _ => Err(RowFault::NotARow),
    }
}

/// A final at the end of a text.
pub fn push_final(out: &mut String, said: &Final) -> Result<(), AllocError> {
    match said {
        Final::Created => out.push_str("created"),
        Final::CreatedDir(dir) => write!(out, "created {dir}"),
        Final::Exists => out.push_str("exists"),
        Final::Removed => out.push_str("removed"),
        Final::Missing => out.push_str("missing"),
        Final::IsDir => out.push_str("isdir"),
        Final::Set => out.push_str("set"),
        Final::Ids(first) => write!(out, "ids {first}"),
        Final::Loaded(count) => write!(out, "loaded {count}"),
        Final::Stale => out.push_str("stale"),
        Final::Sealed { depth, epoch } => write!(out, "sealed {depth} {epoch}"),
        Final::NotEmpty => out.push_str("notempty"),
        Final::Late => out.push_str("late"),
        Final::Opened => out.push_str("opened"),
        Final::Killed => out.push_str("killed"),
    }
}

/// A call at the end of a text, as a script says it.
pub fn push_call(out: &mut String, call: &Call) -> Result<(), AllocError> {
    match call {
        Call::Create { dir, name } => push_named(out, "create", *dir, name),
        Call::Mkdir { dir, name } => push_named(out, "mkdir", *dir, name),
        Call::Remove { dir, name } => push_named(out, "remove", *dir, name),
        Call::Lookup { dir, name } => push_named(out, "lookup", *dir, name),
        Call::Setattr {
            dir,
            name,
            mode,
            size,
            stamp,
        } => {
            push_named(out, "setattr", *dir, name)?;
            write!(out, " {mode} {size}")?;
            push_stamp(out, *stamp)
        }
        Call::Scan { dir } => write!(out, "scan {dir}"),
        Call::Grab { dir, name, count } => {
            push_named(out, "grab", *dir, name)?;
            write!(out, " {count}")
        }
        Call::Load { dir, rows } => write!(out, "load {dir} {}", rows.rows().len()),
        Call::Link { dir, name, id } => {
            push_named(out, "link", *dir, name)?;
            write!(out, " {id}")
        }
        Call::Seal { dir, part, epoch } => write!(out, "seal {dir} {part} {epoch}"),
        Call::Unseal { dir, part, epoch } => write!(out, "unseal {dir} {part} {epoch}"),
        Call::Kill { dir, epoch } => write!(out, "kill {dir} {epoch}"),
        Call::Unlink { dir, name, id } => {
            push_named(out, "unlink", *dir, name)?;
            write!(out, " {id}")
        }
    }
}

fn push_named(out: &mut String, kind: &str, dir: u64, name: &Name) -> Result<(), AllocError> {
    write!(out, "{kind} {dir} ")?;
    push_name(out, name)
}
