//! Rows of `leases`.
use leases::Leases;
use row_words::{Answer, BETWEEN, RowFault, Words, push_answer, text};
use std::alloc::Global;

/// `FLOOR ACTION; ..`: carries actions out, one after another, on leases that begin with this floor and no lease.
pub(crate) fn answer(alloc: Global, mut words: Words<'_>) -> Answer {
    let mut leases = Leases::new(alloc, words.number()?);
    let mut out = String::new(alloc);
    for action in words.rest().split(BETWEEN) {
        let said = act(alloc, &mut leases, words.action(action));
        push_answer(&mut out, said)?;
    }
    Ok(out)
}

/// `grant NAME UNTIL`, `held NAME`, `floor`, `top`, `sweep NOW`, `copy` (the next actions are on the copy).
fn act(alloc: Global, leases: &mut Leases, mut words: Words<'_>) -> Answer {
    match words.word()? {
        "grant" => grant(alloc, leases, words),
        "held" => held(alloc, leases, words),
        "floor" => moment(alloc, leases.floor(), words),
        "top" => moment(alloc, leases.top(), words),
        "sweep" => sweep(alloc, leases, words),
        "copy" => copy(alloc, leases, words),
        _ => Err(RowFault::NotARow),
    }
}

fn grant(alloc: Global, leases: &mut Leases, mut words: Words<'_>) -> Answer {
    let name = words.name(alloc)?;
    let until = words.number()?;
    words.end()?;
    leases.grant(alloc, &name, until)?;
    text(alloc, "ok")
}

fn held(alloc: Global, leases: &Leases, mut words: Words<'_>) -> Answer {
    let name = words.name(alloc)?;
    moment(alloc, leases.held_until(&name), words)
}

fn moment(alloc: Global, moment: u64, words: Words<'_>) -> Answer {
    words.end()?;
    Ok(format!(in alloc; "{moment}")?)
}

fn sweep(alloc: Global, leases: &mut Leases, mut words: Words<'_>) -> Answer {
    let now = words.number()?;
    words.end()?;
    leases.sweep(now);
    text(alloc, "ok")
}

fn copy(alloc: Global, leases: &mut Leases, words: Words<'_>) -> Answer {
    words.end()?;
    *leases = leases.copy(alloc)?;
    text(alloc, "ok")
}
