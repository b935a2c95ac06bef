//! Rows of `gate_log`: a log on a disk that fails and crashes.
ghost use Rattle.std.specs.Prelude.{MatchOption};
ghost use Rattle.rows_disks.specs.Benches.{IsRunning, IsBench};

use gate_log::{GateLog, Piece};
use mds_out::{Disk, Fuse};
use row_words::{Answer, BETWEEN, RUNS, RowFault, Words, hex_text, push_answer, push_run, text};
use std::alloc::Global;

/// `log OUTCOME FAILS ACTION; ..` on a new disk, and `each OUTCOME FAILS ACTION; ..`, which is run for each K from 0 on
/// up to the first run in which no call failed.
pub(crate) fn answer(alloc: Global, mut words: Words<'_>) -> Answer {
    match words.word()? {
        "log" => run(alloc, words),
        "each" => each(alloc, words),
        _ => Err(RowFault::NotARow),
    }
}

fn each(alloc: Global, words: Words<'_>) -> Answer {
    let mut out = String::from_str(alloc, "in turn:")?;
    for number in 0..RUNS {
        let said = run(alloc, words.in_run(number))?;
        if !push_run(&mut out, number, said.as_str())? {
            break;
        }
    }
    Ok(out)
}

fn run(alloc: Global, mut words: Words<'_>) -> Answer {
    let disk = row_words::new_disk(alloc, &mut words)?;
    run_on(alloc, disk, words)
}

fn run_on<D: Disk + Drop>(alloc: Global, mut disk: Fuse<D>, words: Words<'_>) -> Answer {
    let mut log = None;
    let mut out = String::new(alloc);
    for action in words.rest().split(BETWEEN) {
        let said = act(alloc, &mut disk, &mut log, words.action(action));
        push_answer(&mut out, said)?;
    }
    Ok(out)
}

/// `create FILE`, `open FILE`, `append BODY` to the log that is open, `replay FILE`, which opens the log of a file and
/// gives its bodies, and the actions of a disk. Each but `append`, `arm` and `mend` closes the log that was open.
fn act<D: Disk>(
    alloc: Global,
    disk: &mut Fuse<D>,
    log: &mut Option<GateLog>,
    words: Words<'_>,
) -> Answer
    requires { IsBench log.old (D.seen disk.old.inner) (D.sizes disk.old.inner) (D.images disk.old.inner) }
    ensures { IsBench log.new (D.seen disk.new.inner) (D.sizes disk.new.inner) (D.images disk.new.inner) }
{
    let mut rest = words;
    match rest.word()? {
        "append" => append(alloc, disk, log, rest),
        "arm" => row_words::arm(alloc, disk, rest),
        "mend" => row_words::mend(alloc, disk, rest),
        _ => {
            *log = None;
            reopen(alloc, disk, log, words)
        }
    }
}

fn reopen<D: Disk>(
    alloc: Global,
    disk: &mut Fuse<D>,
    log: &mut Option<GateLog>,
    words: Words<'_>,
) -> Answer
    requires { MatchOption log.old (Unit {0}) (λ _. ⊥) }
    ensures { IsBench log.new (D.seen disk.new.inner) (D.sizes disk.new.inner) (D.images disk.new.inner) }
{
    let mut rest = words;
    match rest.word()? {
        "create" => create(alloc, disk, log, rest),
        "open" => open(alloc, disk, log, rest),
        "replay" => replay(alloc, disk, rest),
        _ => row_words::act(alloc, disk, words),
    }
}

fn append<D: Disk>(
    alloc: Global,
    disk: &mut Fuse<D>,
    log: &mut Option<GateLog>,
    mut words: Words<'_>,
) -> Answer
    requires { IsBench log.old (D.seen disk.old.inner) (D.sizes disk.old.inner) (D.images disk.old.inner) }
    ensures { IsBench log.new (D.seen disk.new.inner) (D.sizes disk.new.inner) (D.images disk.new.inner) }
{
    let body = words.hex(alloc)?;
    words.end()?;
    if body.len() >= 1 << 31 {
        return Err(RowFault::Refused);
    }
    let piece = Piece::of(alloc, body.as_slice())?;
    match log {
        None => text(alloc, "no log"),
        Some(log) => {
            append_piece(disk, log, &piece)?;
            text(alloc, "ok")
        }
    }
}

fn append_piece<D: Disk>(
    disk: &mut Fuse<D>,
    log: &mut GateLog,
    piece: &Piece,
) -> Result<(), RowFault>
    requires { IsRunning log.old (D.seen disk.old.inner) (D.sizes disk.old.inner) (D.images disk.old.inner) }
    ensures { IsRunning log.new (D.seen disk.new.inner) (D.sizes disk.new.inner) (D.images disk.new.inner) }
{
    if log.length() > 1 << 62 {
        return Err(RowFault::Refused);
    }
    log.append(disk, piece)?;
    Ok(())
}

fn create<D: Disk>(
    alloc: Global,
    disk: &mut Fuse<D>,
    log: &mut Option<GateLog>,
    mut words: Words<'_>,
) -> Answer
    requires { MatchOption log.old (Unit {0}) (λ _. ⊥) }
    ensures { IsBench log.new (D.seen disk.new.inner) (D.sizes disk.new.inner) (D.images disk.new.inner) }
{
    let file = words.small()?;
    words.end()?;
    let made = GateLog::create(disk, file)?;
    *log = Some(made);
    text(alloc, "ok")
}

fn open<D: Disk>(
    alloc: Global,
    disk: &mut Fuse<D>,
    log: &mut Option<GateLog>,
    mut words: Words<'_>,
) -> Answer
    requires { MatchOption log.old (Unit {0}) (λ _. ⊥) }
    ensures { IsBench log.new (D.seen disk.new.inner) (D.sizes disk.new.inner) (D.images disk.new.inner) }
{
    let file = words.small()?;
    words.end()?;
    let opened = GateLog::open_file(disk, file)?;
    let length = opened.length();
    *log = Some(opened);
    Ok(format!(in alloc; "length {length}")?)
}

fn replay<D: Disk>(alloc: Global, disk: &mut Fuse<D>, mut words: Words<'_>) -> Answer {
    let file = words.small()?;
    words.end()?;
    let mut out = String::new(alloc);
    replay_into(alloc, disk, file, &mut out)?;
    if out.as_str().is_empty() {
        return text(alloc, "no body");
    }
    Ok(out)
}

/// The bodies of the log in a file, with commas between them.
fn replay_into<D: Disk>(
    alloc: Global,
    disk: &mut Fuse<D>,
    file: u32,
    out: &mut String,
) -> Result<(), RowFault> {
    let mut log = GateLog::open_file(disk, file)?;
    let mut body = Vec::new(alloc);
    let mut gate = 0;
    'bodies: loop {
        match log.replay(disk, gate, &mut body)? {
            None => return Ok(()),
            Some(next) => gate = next,
        }
        push_body(alloc, out, body.as_slice())?;
    }
}

fn push_body(alloc: Global, out: &mut String, body: &[u8]) -> Result<(), RowFault> {
    let text = hex_text(alloc, body)?;
    if !out.as_str().is_empty() {
        out.push_str(", ")?;
    }
    out.push_str(text.as_str())?;
    Ok(())
}
