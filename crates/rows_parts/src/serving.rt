//! Rows of `partition`: calls that are served in one partition, over rows in memory.
use crate::lists::names_in;
use mds_base::limits::{LEASE_MOST, MOMENTS};
use mds_base::{Ask, Attr, Call, MapRows, Reply, Row, RowList, Setup};
use partition::{Partition, Step, is_served};
use row_words::{
    Answer, BETWEEN, RowFault, Words, attr_text, push_answer, push_final, read_call, text,
};
use std::alloc::Global;

/// The directory and the partition of the rows.
const DIR: u64 = 1;

const PART: u32 = 0;

/// The number that a mkdir and a grab give.
const FRESH: u64 = 7;

/// `FLOOR LEASE ACTION; ..`: carries actions out, one after another, in a partition that begins empty with this floor,
/// where leases last this long.
pub(crate) fn answer(alloc: Global, mut words: Words<'_>) -> Answer {
    let floor = words.number()?;
    let lease = words.number()?;
    let mut part = Partition::empty(alloc, floor);
    let mut rows = MapRows::new(alloc);
    let mut out = String::new(alloc);
    for action in words.rest().split(BETWEEN) {
        let said = act(alloc, &mut part, &mut rows, lease, words.action(action));
        push_answer(&mut out, said)?;
    }
    Ok(out)
}

/// `MOMENT CLIENT NUMBER CALL`, `count`, `names`, `top`, and `again` (what `installed` makes of the count, the list of
/// the sessions and the top).
fn act(
    alloc: Global,
    part: &mut Partition,
    rows: &mut MapRows,
    lease: u64,
    mut words: Words<'_>,
) -> Answer {
    let all = words;
    match words.word()? {
        "count" => number_text(alloc, part.count),
        "top" => number_text(alloc, part.leases.top()),
        "names" => names_in(alloc, rows, DIR, PART),
        "again" => again(alloc, part),
        _ => serve(alloc, part, rows, lease, all),
    }
}

fn number_text(alloc: Global, number: u64) -> Answer {
    Ok(format!(in alloc; "{number}")?)
}

fn again(alloc: Global, part: &mut Partition) -> Answer {
    let list = part.sessions.list(alloc)?;
    let top = part.leases.top();
    *part = Partition::installed(alloc, part.count, &list, top)?;
    text(alloc, "ok")
}

fn serve(
    alloc: Global,
    part: &mut Partition,
    rows: &mut MapRows,
    lease: u64,
    mut words: Words<'_>,
) -> Answer {
    let now = words.number()?;
    let client = words.small()?;
    let seq = words.number()?;
    let call = read_served(alloc, words)?;
    let ask = Ask {
        client,
        seq,
        attempt: 1,
        call,
    };
    if now >= MOMENTS {
        return Err(RowFault::Refused);
    }
    if lease > LEASE_MOST {
        return Err(RowFault::Refused);
    }
    if !is_served(&ask.call) {
        return Err(RowFault::Refused);
    }
    let setup = Setup {
        servers: 1,
        threshold: 8000,
        lease,
        clients: 64,
    };
    let step = part.serve(alloc, rows, DIR, PART, &ask, now, &setup, FRESH)?;
    step_text(alloc, &step)
}

/// A call as a script says it; `grab DIR NAME COUNT`, `link` and `unlink DIR NAME NUMBER`, and `load DIR NAME ..`,
/// whose rows are new files.
fn read_served(alloc: Global, mut words: Words<'_>) -> Result<Call, RowFault> {
    let all = words;
    match words.word()? {
        "grab" => read_grab(alloc, words),
        "link" => read_link(alloc, words),
        "unlink" => read_unlink(alloc, words),
        "load" => read_load(alloc, words),
        _ => read_named(alloc, all),
    }
}

fn read_named(alloc: Global, mut words: Words<'_>) -> Result<Call, RowFault> {
    let call = read_call(alloc, &mut words)?;
    words.end()?;
    Ok(call)
}

fn read_grab(alloc: Global, mut words: Words<'_>) -> Result<Call, RowFault> {
    let dir = words.number()?;
    let name = words.name(alloc)?;
    let count = words.small()?;
    words.end()?;
    Ok(Call::Grab { dir, name, count })
}

fn read_link(alloc: Global, mut words: Words<'_>) -> Result<Call, RowFault> {
    let dir = words.number()?;
    let name = words.name(alloc)?;
    let id = words.number()?;
    words.end()?;
    Ok(Call::Link { dir, name, id })
}

fn read_unlink(alloc: Global, mut words: Words<'_>) -> Result<Call, RowFault> {
    let dir = words.number()?;
    let name = words.name(alloc)?;
    let id = words.number()?;
    words.end()?;
    Ok(Call::Unlink { dir, name, id })
}

fn read_load(alloc: Global, mut words: Words<'_>) -> Result<Call, RowFault> {
    let dir = words.number()?;
    let mut rows = RowList::new(alloc);
    for word in words.rest().split(' ') {
        let mut row = words.action(word);
        let name = row.name(alloc)?;
        rows.push(Row {
            name,
            attr: Attr::new_file(),
        })?;
    }
    Ok(Call::Load { dir, rows })
}

/// A final, `found` with the attributes and `until` the end of the lease, `held` until a moment, or `old` with the kept
/// number.
fn step_text(alloc: Global, step: &Step) -> Answer {
    match step {
        Step::Said(reply) => reply_text(alloc, reply),
        Step::Held { until } => Ok(format!(in alloc; "held {until}")?),
        Step::Old { kept } => Ok(format!(in alloc; "old {kept}")?),
    }
}

fn reply_text(alloc: Global, reply: &Reply) -> Answer {
    let mut out = String::new(alloc);
    match reply {
        Reply::Said(said) => {
            push_final(&mut out, said)?;
            Ok(out)
        }
        Reply::Found { attr, until } => {
            let found = attr_text(alloc, attr)?;
            Ok(format!(in alloc; "found {found} until {until}")?)
        }
        Reply::Listed { .. } => text(alloc, "listed"),
    }
}
