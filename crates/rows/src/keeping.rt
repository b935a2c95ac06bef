//! Rows of `sessions`.
use mds_base::Session;
use row_words::{Answer, BETWEEN, RowFault, Words, push_answer, push_final, read_final, text};
use sessions::{Judged, Sessions};
use std::alloc::Global;
use std::fmt::Write;

/// Carries actions out, one after another, on sessions that begin empty.
pub(crate) fn answer(alloc: Global, words: Words<'_>) -> Answer {
    let mut sessions = Sessions::new(alloc);
    let mut out = String::new(alloc);
    for action in words.rest().split(BETWEEN) {
        let said = act(alloc, &mut sessions, words.action(action));
        push_answer(&mut out, said)?;
    }
    Ok(out)
}

/// `judge CLIENT NUMBER`, `note CLIENT NUMBER FINAL`, `list`, `again` (what `from_list` makes of the list), `clear`.
fn act(alloc: Global, sessions: &mut Sessions, mut words: Words<'_>) -> Answer {
    match words.word()? {
        "judge" => judge(alloc, sessions, words),
        "note" => note(alloc, sessions, words),
        "list" => list(alloc, sessions, words),
        "again" => again(alloc, sessions, words),
        "clear" => clear(alloc, sessions, words),
        _ => Err(RowFault::NotARow),
    }
}

fn judge(alloc: Global, sessions: &Sessions, mut words: Words<'_>) -> Answer {
    let client = words.small()?;
    let seq = words.number()?;
    words.end()?;
    match sessions.judge(client, seq) {
        Judged::New => text(alloc, "new"),
        Judged::Old { kept } => Ok(format!(in alloc; "old {kept}")?),
        Judged::Again(said) => {
            let mut out = String::from_str(alloc, "again ")?;
            push_final(&mut out, &said)?;
            Ok(out)
        }
    }
}

fn note(alloc: Global, sessions: &mut Sessions, mut words: Words<'_>) -> Answer {
    let client = words.small()?;
    let seq = words.number()?;
    let said = read_final(&mut words)?;
    words.end()?;
    match sessions.judge(client, seq) {
        Judged::New => {
            sessions.note(client, seq, said)?;
            text(alloc, "ok")
        }
        _ => Err(RowFault::Refused),
    }
}

fn list(alloc: Global, sessions: &Sessions, words: Words<'_>) -> Answer {
    words.end()?;
    let list = sessions.list(alloc)?;
    if list.sessions().is_empty() {
        return text(alloc, "-");
    }
    let mut out = String::new(alloc);
    for session in list.sessions() {
        push_session(&mut out, session)?;
    }
    Ok(out)
}

fn push_session(out: &mut String, session: &Session) -> Result<(), RowFault> {
    if !out.as_str().is_empty() {
        out.push_str(", ")?;
    }
    write!(out, "{} {} ", session.client, session.seq)?;
    push_final(out, &session.said)?;
    Ok(())
}

fn again(alloc: Global, sessions: &mut Sessions, words: Words<'_>) -> Answer {
    words.end()?;
    let list = sessions.list(alloc)?;
    *sessions = Sessions::from_list(alloc, &list)?;
    text(alloc, "ok")
}

fn clear(alloc: Global, sessions: &mut Sessions, words: Words<'_>) -> Answer {
    words.end()?;
    sessions.clear();
    text(alloc, "ok")
}
