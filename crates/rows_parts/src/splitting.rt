//! Rows of `split`: the half of a partition that moves, and the pieces in which it is sent.
ghost use Rattle.std.specs.Prelude.{◌<◌, ◌^◌};

use crate::lists::{names_in, read_rows, rows_text};
use mds_base::{Attr, MapRows, RADIX, Row, RowList, SplitState};
use row_words::{Answer, BETWEEN, RowFault, Words, push_answer, text, yes_or_no};
use split::{Collector, end, frozen, install, moving_half, piece, piece_count};
use std::alloc::Global;

/// The directory of the rows.
const DIR: u64 = 1;

/// `frozen`, `half`, `pieces`, `collect`.
pub(crate) fn answer(alloc: Global, mut words: Words<'_>) -> Answer {
    match words.word()? {
        "frozen" => frozen_at(alloc, words),
        "half" => half(alloc, words),
        "pieces" => pieces(alloc, words),
        "collect" => collect(alloc, words),
        _ => Err(RowFault::NotARow),
    }
}

/// `DEPTH HASH`, the hash in hexadecimal digits.
fn frozen_at(alloc: Global, mut words: Words<'_>) -> Answer {
    let depth = words.small()?;
    let hash = words.hex_number()?;
    words.end()?;
    yes_or_no(alloc, frozen(&SplitState::Moving { depth }, hash))
}

/// `PART DEPTH NAMES`: the half of a partition with these names, how many were taken away, the names that are left, and
/// those of the child where the half was put.
fn half(alloc: Global, mut words: Words<'_>) -> Answer {
    let part = words.small()?;
    let depth = words.small()?;
    if depth >= RADIX {
        return Err(RowFault::Refused);
    }
    if part >= 1 << depth {
        return Err(RowFault::Refused);
    }
    let named = read_rows(alloc, &mut words)?;
    words.end()?;
    move_half(alloc, part, depth, &named)
}

fn move_half(alloc: Global, part: u32, depth: u32, named: &RowList) -> Answer
    requires depth { depth < RADIX }
    requires part { part < 2 ^ depth }
{
    let mut rows = MapRows::new(alloc);
    install(alloc, &mut rows, DIR, part, named)?;
    let half = moving_half(alloc, &mut rows, DIR, part, depth)?;
    let taken = end(alloc, &mut rows, DIR, part, depth)?;
    let child = part + (1 << depth);
    install(alloc, &mut rows, DIR, child, &half)?;
    let moved = rows_text(alloc, half.rows())?;
    let left = names_in(alloc, &mut rows, DIR, part)?;
    let put = names_in(alloc, &mut rows, DIR, child)?;
    Ok(format!(in alloc; "{moved}; {taken}; {left}; {put}")?)
}

/// `COUNT NAME`: in how many pieces so many rows are sent, and how many each has.
fn pieces(alloc: Global, mut words: Words<'_>) -> Answer {
    let count = words.small()?;
    let name = words.name(alloc)?;
    words.end()?;
    let mut rows = RowList::new(alloc);
    for _ in 0..count {
        rows.push(Row {
            name: name.copy(alloc)?,
            attr: Attr::new_file(),
        })?;
    }
    if rows.rows().len() >= 1 << 32 {
        return Err(RowFault::Refused);
    }
    let mut out = format!(in alloc; "{}", piece_count(&rows))?;
    for index in 0..piece_count(&rows) {
        let piece = piece(alloc, &rows, index)?;
        push_answer(&mut out, Ok(format!(in alloc; "{}", piece.rows().len())?))?;
    }
    Ok(out)
}

/// `INDEX COUNT NAMES; ..`: pieces as they come.
fn collect(alloc: Global, words: Words<'_>) -> Answer {
    let mut collector = Collector::new(alloc);
    let mut out = String::new(alloc);
    for action in words.rest().split(BETWEEN) {
        let said = take(alloc, &mut collector, words.action(action));
        push_answer(&mut out, said)?;
    }
    Ok(out)
}

fn take(alloc: Global, collector: &mut Collector, mut words: Words<'_>) -> Answer {
    let index = words.small()?;
    let count = words.small()?;
    if index >= count {
        return Err(RowFault::Refused);
    }
    let rows = read_rows(alloc, &mut words)?;
    words.end()?;
    match collector.take(alloc, index, count, &rows)? {
        None => text(alloc, "none"),
        Some(rows) => rows_text(alloc, rows.rows()),
    }
}
