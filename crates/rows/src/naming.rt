//! Rows of `mds_base`: which bytes are names, and the rows of a partition.
use mds_base::{Cursor, MapRows, Name, NameFault, RowKey, RowList, Rows};
use row_words::{
    Answer, BETWEEN, RowFault, Words, attr_text, push_answer, push_name, read_file, text, yes_or_no,
};
use std::alloc::Global;

/// `name BYTES`, and `rows ACTION; ..`.
pub(crate) fn answer(alloc: Global, mut words: Words<'_>) -> Answer {
    match words.word()? {
        "name" => name_row(alloc, words),
        "rows" => rows_row(alloc, words),
        _ => Err(RowFault::NotARow),
    }
}

fn name_row(alloc: Global, mut words: Words<'_>) -> Answer {
    let bytes = words.spelled(alloc)?;
    words.end()?;
    match Name::read(alloc, bytes.as_slice()) {
        Ok(_) => yes_or_no(alloc, true),
        Err(NameFault::BadName) => yes_or_no(alloc, false),
        Err(NameFault::OutOfMemory) => Err(RowFault::OutOfMemory),
    }
}

/// Carries actions out, one after another, on rows in memory that begin empty.
fn rows_row(alloc: Global, words: Words<'_>) -> Answer {
    let mut rows = MapRows::new(alloc);
    let mut out = String::new(alloc);
    for action in words.rest().split(BETWEEN) {
        let said = act(alloc, &mut rows, words.action(action));
        push_answer(&mut out, said)?;
    }
    Ok(out)
}

/// `put DIR PART REVERSED NAME MODE SIZE`, `get DIR PART REVERSED NAME`, `take_away DIR PART REVERSED NAME`, and
/// `page DIR PART REVERSED AFTER LAST LIMIT`, AFTER being the name behind which the cursor stands or `-`.
fn act(alloc: Global, rows: &mut MapRows, mut words: Words<'_>) -> Answer {
    match words.word()? {
        "put" => put(alloc, rows, words),
        "get" => get(alloc, rows, words),
        "take_away" => take_away(alloc, rows, words),
        "page" => page(alloc, rows, words),
        _ => Err(RowFault::NotARow),
    }
}

fn read_key(alloc: Global, words: &mut Words<'_>) -> Result<RowKey, RowFault> {
    let dir = words.number()?;
    let part = words.small()?;
    let rev = words.number()?;
    let name = words.name(alloc)?;
    Ok(RowKey {
        dir,
        part,
        rev,
        name,
    })
}

fn put(alloc: Global, rows: &mut MapRows, mut words: Words<'_>) -> Answer {
    let key = read_key(alloc, &mut words)?;
    let attr = read_file(&mut words)?;
    words.end()?;
    rows.put(key, attr)?;
    text(alloc, "ok")
}

fn get(alloc: Global, rows: &mut MapRows, mut words: Words<'_>) -> Answer {
    let key = read_key(alloc, &mut words)?;
    words.end()?;
    match rows.get(&key)? {
        None => text(alloc, "none"),
        Some(attr) => attr_text(alloc, &attr),
    }
}

fn take_away(alloc: Global, rows: &mut MapRows, mut words: Words<'_>) -> Answer {
    let key = read_key(alloc, &mut words)?;
    words.end()?;
    rows.take_away(&key)?;
    text(alloc, "ok")
}

fn page(alloc: Global, rows: &mut MapRows, mut words: Words<'_>) -> Answer {
    let dir = words.number()?;
    let part = words.small()?;
    let from = read_cursor(alloc, &mut words)?;
    let last = words.number()?;
    let limit = words.small()?;
    words.end()?;
    let page = rows.page(alloc, dir, part, &from, last, limit)?;
    page_text(alloc, &page)
}

fn read_cursor(alloc: Global, words: &mut Words<'_>) -> Result<Cursor, RowFault> {
    let at = words.number()?;
    let mut look = *words;
    if look.word()? == "-" {
        *words = look;
        return Ok(Cursor { at, after: None });
    }
    let after = words.name(alloc)?;
    Ok(Cursor {
        at,
        after: Some(after),
    })
}

/// The names of a page; `-` where it has none.
fn page_text(alloc: Global, page: &RowList) -> Answer {
    if page.rows().is_empty() {
        return text(alloc, "-");
    }
    let mut out = String::new(alloc);
    for row in page.rows() {
        if !out.as_str().is_empty() {
            out.push(' ')?;
        }
        push_name(&mut out, &row.name)?;
    }
    Ok(out)
}
