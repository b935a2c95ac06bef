//! Rows of `lease_cache`.
use lease_cache::LeaseCache;
use row_words::{
    Answer, BETWEEN, RowFault, Words, attr_text, push_answer, read_file, text, yes_or_no,
};
use std::alloc::Global;

/// `CAPACITY ACTION; ..`: carries actions out, one after another, on a cache of this capacity that keeps nothing yet.
pub(crate) fn answer(alloc: Global, mut words: Words<'_>) -> Answer {
    let capacity = words.small()?;
    if capacity == 0 {
        return Err(RowFault::Refused);
    }
    let mut cache = LeaseCache::new(alloc, capacity)?;
    let mut out = String::new(alloc);
    for action in words.rest().split(BETWEEN) {
        let said = act(alloc, &mut cache, words.action(action));
        push_answer(&mut out, said)?;
    }
    Ok(out)
}

/// `keep DIR NAME UNTIL MODE SIZE`, `answer DIR NAME NOW`, `live DIR NAME NOW`, `drop DIR NAME`.
fn act(alloc: Global, cache: &mut LeaseCache, mut words: Words<'_>) -> Answer {
    match words.word()? {
        "keep" => keep(alloc, cache, words),
        "answer" => look(alloc, cache, words),
        "live" => live(alloc, cache, words),
        "drop" => drop_name(alloc, cache, words),
        _ => Err(RowFault::NotARow),
    }
}

fn keep(alloc: Global, cache: &mut LeaseCache, mut words: Words<'_>) -> Answer {
    let dir = words.number()?;
    let name = words.name(alloc)?;
    let until = words.number()?;
    let attr = read_file(&mut words)?;
    words.end()?;
    cache.keep(alloc, dir, &name, attr, until)?;
    text(alloc, "ok")
}

fn look(alloc: Global, cache: &mut LeaseCache, mut words: Words<'_>) -> Answer {
    let dir = words.number()?;
    let name = words.name(alloc)?;
    let now = words.number()?;
    words.end()?;
    match cache.answer(dir, &name, now) {
        None => text(alloc, "none"),
        Some(attr) => attr_text(alloc, &attr),
    }
}

fn live(alloc: Global, cache: &LeaseCache, mut words: Words<'_>) -> Answer {
    let dir = words.number()?;
    let name = words.name(alloc)?;
    let now = words.number()?;
    words.end()?;
    yes_or_no(alloc, cache.live(dir, &name, now))
}

fn drop_name(alloc: Global, cache: &mut LeaseCache, mut words: Words<'_>) -> Answer {
    let dir = words.number()?;
    let name = words.name(alloc)?;
    words.end()?;
    cache.drop_name(dir, &name);
    text(alloc, "ok")
}
