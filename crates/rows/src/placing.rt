//! Rows of `placement`.
use placement::{server_of, zeroth};
use row_words::{Answer, RowFault, Words};
use std::alloc::Global;

/// `server_of DIR PART SERVERS`, `zeroth DIR SERVERS`.
pub(crate) fn answer(alloc: Global, mut words: Words<'_>) -> Answer {
    match words.word()? {
        "server_of" => server_row(alloc, words),
        "zeroth" => zeroth_row(alloc, words),
        _ => Err(RowFault::NotARow),
    }
}

fn server_row(alloc: Global, mut words: Words<'_>) -> Answer {
    let dir = words.number()?;
    let part = words.small()?;
    let servers = words.small()?;
    words.end()?;
    if dir >= 1 << 48 || servers == 0 {
        return Err(RowFault::Refused);
    }
    let server = server_of(dir, part, servers);
    Ok(format!(in alloc; "{server}")?)
}

fn zeroth_row(alloc: Global, mut words: Words<'_>) -> Answer {
    let dir = words.number()?;
    let servers = words.small()?;
    words.end()?;
    if dir >= 1 << 48 || servers == 0 {
        return Err(RowFault::Refused);
    }
    let server = zeroth(dir, servers);
    Ok(format!(in alloc; "{server}")?)
}
