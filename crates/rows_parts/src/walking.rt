//! Rows of `path_walk`.
use mds_base::{Attr, Name, Walked};
use path_walk::{Asked, Asker, Lookup, walk};
use row_words::{Answer, BETWEEN, RowFault, Words, attr_text, push_name, text};
use std::alloc::{AllocError, Global};
use std::fmt::Write;

/// `walk PATH`, and behind it what an asker knows, each with its directory and name: `; DIR NAME file SIZE`,
/// `; DIR NAME dir NUMBER`, or `; DIR NAME open` where a lookup is not answered. The answer is the verdict, and what
/// was asked.
pub(crate) fn answer(alloc: Global, words: Words<'_>) -> Answer {
    let mut asker = Knowing {
        known: Vec::new(alloc),
        asks: Vec::new(alloc),
    };
    let mut call = words.rest();
    if let Some((first, known)) = words.rest().split_once(BETWEEN) {
        call = first;
        for entry in known.split(BETWEEN) {
            asker.known.push(read_known(alloc, words.action(entry))?)?;
        }
    }
    let path = read_path(words.action(call))?;
    let verdict = walk(alloc, &mut asker, path.as_bytes())?;
    let mut out = verdict_text(alloc, &verdict)?;
    for ask in &asker.asks {
        write!(out, ", {} ", ask.dir)?;
        push_name(&mut out, &ask.name)?;
    }
    Ok(out)
}

fn read_path(mut words: Words<'_>) -> Result<&str, RowFault> {
    if words.word()? != "walk" {
        return Err(RowFault::NotARow);
    }
    let path = words.word()?;
    words.end()?;
    Ok(path)
}

fn read_known(alloc: Global, mut words: Words<'_>) -> Result<Lookup, RowFault> {
    let dir = words.number()?;
    let name = words.name(alloc)?;
    let answer = match words.word()? {
        "file" => Asked::Found(Attr::new_file().reset(420, words.number()?, None)),
        "dir" => Asked::Found(Attr::new_directory(words.number()?)),
        "open" => Asked::Unanswered,
        _ => return Err(RowFault::NotARow),
    };
    words.end()?;
    Ok(Lookup { dir, name, answer })
}

/// `found KIND`, or `missing`, `notdir`, `badpath` or `open` and the place.
fn verdict_text(alloc: Global, verdict: &Walked) -> Answer {
    match verdict {
        Walked::Found(attr) => {
            let mut out = text(alloc, "found ")?;
            out.push_str(attr_text(alloc, attr)?.as_str())?;
            Ok(out)
        }
        Walked::Missing { at } => Ok(format!(in alloc; "missing {at}")?),
        Walked::NotDir { at } => Ok(format!(in alloc; "notdir {at}")?),
        Walked::BadPath { at } => Ok(format!(in alloc; "badpath {at}")?),
        Walked::Open { at } => Ok(format!(in alloc; "open {at}")?),
    }
}

/// An asker that knows some names.
#[derive(Drop)]
struct Knowing {
    known: Vec<Lookup>,
    asks: Vec<Lookup>,
}

impl Knowing {
    fn find(&self, dir: u64, name: &Name) -> Asked {
        for entry in &self.known {
            if entry.dir == dir && entry.name == *name {
                return entry.answer;
            }
        }
        Asked::Missing
    }
}

impl Asker for Knowing {
    ghost asks = { λ asker. asker.asks.items };

    fn ask(&mut self, alloc: Global, dir: u64, name: &Name) -> Result<Asked, AllocError> {
        let answer = self.find(dir, name);
        let name = name.copy(alloc)?;
        self.asks.push(Lookup { dir, name, answer })?;
        Ok(answer)
    }
}
