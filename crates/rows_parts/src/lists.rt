//! Rows of a directory, by their names alone.
use mds_base::{Attr, Cursor, MapRows, Row, RowList, Rows};
use row_words::{Answer, RowFault, Words, push_name, text};
use std::alloc::Global;

/// The rows of names with commas between them; `-` where there is none.
pub(crate) fn read_rows(alloc: Global, words: &mut Words<'_>) -> Result<RowList, RowFault> {
    let mut rows = RowList::new(alloc);
    let names = words.word()?;
    if names != "-" {
        for name in names.split(',') {
            let name = words.action(name).name(alloc)?;
            let attr = Attr::new_file();
            rows.push(Row { name, attr })?;
        }
    }
    Ok(rows)
}

/// The names of all rows of a partition, in their order; `-` where there is none.
pub(crate) fn names_in(alloc: Global, rows: &mut MapRows, dir: u64, part: u32) -> Answer {
    let from = Cursor { at: 0, after: None };
    let page = rows.page(alloc, dir, part, &from, u64::MAX, u32::MAX)?;
    rows_text(alloc, page.rows())
}

/// The names of rows; `-` where there is none.
pub(crate) fn rows_text(alloc: Global, rows: &[Row]) -> Answer {
    if rows.is_empty() {
        return text(alloc, "-");
    }
    let mut out = String::new(alloc);
    for row in rows {
        if !out.as_str().is_empty() {
            out.push(' ')?;
        }
        push_name(&mut out, &row.name)?;
    }
    Ok(out)
}
