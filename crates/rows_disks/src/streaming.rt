//! Rows of `mds_out`: sources and sinks in memory.
use mds_out::{BytesIn, BytesOut, Sink, Source, write_whole};
use row_words::{Answer, BETWEEN, RowFault, Words, hex_text, push_answer, text};
use std::alloc::Global;

/// How many bytes a read asks for.
const ASKED: usize = 4;

/// `source BYTES STEP FAILS TIMES`, and `sink STEP FAILS ACTION; ..`.
pub(crate) fn answer(alloc: Global, mut words: Words<'_>) -> Answer {
    match words.word()? {
        "source" => source_row(alloc, words),
        "sink" => sink_row(alloc, words),
        _ => Err(RowFault::NotARow),
    }
}

/// What each of so many reads gives.
fn source_row(alloc: Global, mut words: Words<'_>) -> Answer {
    let bytes = words.hex(alloc)?;
    let step = words.small()? as usize;
    let fails = words.list(alloc)?;
    let times = words.small()?;
    words.end()?;
    if step == 0 {
        return Err(RowFault::Refused);
    }
    let mut source = BytesIn::new(bytes, step, fails);
    let mut out = String::new(alloc);
    for _ in 0..times {
        let said = read(alloc, &mut source);
        push_answer(&mut out, said)?;
    }
    Ok(out)
}

/// The bytes that a read gives.
fn read(alloc: Global, source: &mut BytesIn) -> Answer {
    let mut into = [0; ASKED];
    let count = source.read(&mut into)?;
    if count > ASKED {
        return Err(RowFault::Refused);
    }
    hex_text(alloc, &into[..count])
}

/// What each action answers, and then what the sink took.
fn sink_row(alloc: Global, mut words: Words<'_>) -> Answer {
    let step = words.small()? as usize;
    let fails = words.list(alloc)?;
    if step == 0 {
        return Err(RowFault::Refused);
    }
    let mut sink = BytesOut::new(alloc, step, fails)?;
    let mut out = String::new(alloc);
    for action in words.rest().split(BETWEEN) {
        let said = act(alloc, &mut sink, words.action(action));
        push_answer(&mut out, said)?;
    }
    push_answer(&mut out, hex_text(alloc, sink.bytes()))?;
    Ok(out)
}

/// `write BYTES`, which writes them all, and `finish`.
fn act(alloc: Global, sink: &mut BytesOut, mut words: Words<'_>) -> Answer {
    match words.word()? {
        "write" => write(alloc, sink, words),
        "finish" => finish(alloc, sink, words),
        _ => Err(RowFault::NotARow),
    }
}

fn write(alloc: Global, sink: &mut BytesOut, mut words: Words<'_>) -> Answer {
    let bytes = words.hex(alloc)?;
    words.end()?;
    write_whole(sink, bytes.as_slice())?;
    text(alloc, "ok")
}

fn finish(alloc: Global, sink: &mut BytesOut, words: Words<'_>) -> Answer {
    words.end()?;
    sink.finish()?;
    text(alloc, "ok")
}
