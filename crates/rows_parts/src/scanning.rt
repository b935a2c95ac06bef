//! Rows of `scan`.
use crate::lists::{read_rows, rows_text};
use mds_base::Cursor;
use row_words::{Answer, BETWEEN, RowFault, Words, push_answer, push_name, text, yes_or_no};
use scan::ScanState;
use std::alloc::Global;

/// Carries actions out, one after another, on a scan that begins.
pub(crate) fn answer(alloc: Global, words: Words<'_>) -> Answer {
    let mut scan = ScanState::new(alloc);
    let mut out = String::new(alloc);
    for action in words.rest().split(BETWEEN) {
        let said = act(alloc, &mut scan, words.action(action));
        push_answer(&mut out, said)?;
    }
    Ok(out)
}

/// `request` (the cursor), `page REVERSED AFTER NAMES` (the next cursor, AFTER being a name or `-`, and the rows),
/// `last NAMES`, `rows`, `finished`.
fn act(alloc: Global, scan: &mut ScanState, mut words: Words<'_>) -> Answer {
    match words.word()? {
        "request" => request(alloc, scan, words),
        "page" => {
            let next = read_cursor(alloc, &mut words)?;
            take(alloc, scan, words, Some(next))
        }
        "last" => take(alloc, scan, words, None),
        "rows" => {
            words.end()?;
            rows_text(alloc, scan.rows())
        }
        "finished" => {
            words.end()?;
            yes_or_no(alloc, scan.finished())
        }
        _ => Err(RowFault::NotARow),
    }
}

fn request(alloc: Global, scan: &ScanState, words: Words<'_>) -> Answer {
    words.end()?;
    if scan.finished() {
        return Err(RowFault::Refused);
    }
    let cursor = scan.next_request(alloc)?;
    let mut out = format!(in alloc; "{} ", cursor.at)?;
    match &cursor.after {
        None => out.push('-')?,
        Some(name) => push_name(&mut out, name)?,
    }
    Ok(out)
}

fn take(alloc: Global, scan: &mut ScanState, mut words: Words<'_>, next: Option<Cursor>) -> Answer {
    if scan.finished() {
        return Err(RowFault::Refused);
    }
    let rows = read_rows(alloc, &mut words)?;
    words.end()?;
    scan.take_page(alloc, &rows, next)?;
    text(alloc, "ok")
}

fn read_cursor(alloc: Global, words: &mut Words<'_>) -> Result<Cursor, RowFault> {
    let at = words.number()?;
    let mut look = *words;
    if look.word()? == "-" {
        *words = look;
        return Ok(Cursor { at, after: None });
    }
    let after = words.name(alloc)?;
    Ok(Cursor {
        at,
        after: Some(after),
    })
}
