//! The work of a line: a new database, so many commits of so many rows each, and look-ups.
use crate::rows::{asked_at, key_of, row_of};
use sqlite::{Alter, Connection, Error, ErrorCode, Statement, Transaction, params};
use std::alloc::Global;
use std::fs;

/// `synced FOLDER fill COMMITS CHANGES EVERY ROUNDS`: how many of the rows that the rounds ask for were found. `clear
/// FOLDER` takes the files away, and answers how many there were. `None` where the line is none of these.
pub(crate) fn answer(rt: &HostRuntime, line: &str) -> Result<Option<u64>, Error> {
    let alloc = rt.alloc();
    let mut words = Vec::new(alloc);
    for word in line.split(' ') {
        words.push(word)?;
    }
    match words.as_slice() {
        ["synced", folder, "fill", commits, changes, every, rounds] => {
            match (
                commits.parse(),
                changes.parse(),
                every.parse::<u64>(),
                rounds.parse(),
            ) {
                (Ok(commits), Ok(changes), Ok(_), Ok(rounds)) => {
                    let filling = Filling {
                        commits,
                        changes,
                        rounds,
                    };
                    Ok(Some(fill(rt, folder, filling)?))
                }
                _ => Ok(None),
            }
        }
        ["clear", folder] => Ok(Some(clear(rt, folder)?)),
        _ => Ok(None),
    }
}

/// What a new database is filled with, and how often it is looked into.
#[derive(Clone, Copy)]
struct Filling {
    commits: u64,
    changes: u64,
    rounds: u64,
}

fn fill(rt: &HostRuntime, folder: &str, filling: Filling) -> Result<u64, Error> {
    let alloc = rt.alloc();
    let _before = clear(rt, folder)?;
    let path = format!(in alloc; "{folder}/rows.db")?;
    let mut conn = Connection::open(rt, path.as_str())?;
    fill_all(alloc, &mut conn, filling)
}

fn clear(rt: &HostRuntime, folder: &str) -> Result<u64, Error> {
    let mut cleared: u64 = 0;
    for end in ["db", "db-wal"] {
        let path = format!(in rt.alloc(); "{folder}/rows.{end}")?;
        if fs::remove_file(rt, path.as_str()).is_ok() {
            cleared = cleared.saturating_add(1);
        }
    }
    Ok(cleared)
}

fn fill_all<S: Alter>(
    alloc: Global,
    conn: &mut Connection<S>,
    filling: Filling,
) -> Result<u64, Error> {
    let Filling {
        commits,
        changes,
        rounds,
    } = filling;
    make(conn)?;
    let put = conn.prepare("INSERT INTO rows (key, value) VALUES (?1, ?2)")?;
    for commit in 0..commits {
        put_all(alloc, conn, &put, commit.wrapping_mul(changes), changes)?;
    }
    find_all(alloc, conn, commits.wrapping_mul(changes), rounds)
}

fn make<S: Alter>(conn: &mut Connection<S>) -> Result<(), Error> {
    conn.execute_batch("CREATE TABLE rows (key BLOB PRIMARY KEY, value BLOB)")
}

// One commit of the rows of so many numbers from one on.
fn put_all<S: Alter>(
    alloc: Global,
    conn: &mut Connection<S>,
    put: &Statement,
    from: u64,
    changes: u64,
) -> Result<(), Error> {
    if !conn.is_autocommit() {
        return Err(Error::SqliteFailure(ErrorCode::TransactionState));
    }
    let mut transaction = conn.transaction();
    for number in 0..changes {
        put_row(alloc, &mut transaction, put, from.wrapping_add(number))?;
    }
    transaction.commit()
}

fn put_row<S: Alter>(
    alloc: Global,
    transaction: &mut Transaction<'_, S>,
    put: &Statement,
    number: u64,
) -> Result<(), Error> {
    let key = key_of(alloc, number)?;
    let row = row_of(alloc, number)?;
    transaction.execute_prepared(put, params![&key, &row])?;
    Ok(())
}

// How many of the rows that so many rounds ask for are found.
fn find_all<S: Alter>(
    alloc: Global,
    conn: &mut Connection<S>,
    rows: u64,
    rounds: u64,
) -> Result<u64, Error> {
    let get = conn.prepare("SELECT value FROM rows WHERE key = ?1")?;
    let mut found: u64 = 0;
    for round in 0..rounds {
        if has(alloc, conn, &get, asked_at(round, rows))? {
            found = found.saturating_add(1);
        }
    }
    Ok(found)
}

fn has<S: Alter>(
    alloc: Global,
    conn: &mut Connection<S>,
    get: &Statement,
    number: u64,
) -> Result<bool, Error> {
    let key = key_of(alloc, number)?;
    let found: Vec<u8> = get.query_row(conn, params![&key])?.get(0)?;
    Ok(found == row_of(alloc, number)?)
}
