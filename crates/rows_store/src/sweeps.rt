//! Sweeps of `row_store`: so many calls of the disk are allowed, for each number in turn, and the store is opened again
//! after the crash.
use crate::keeping::{keep, tell};
use mds_out::Disk;
use row_words::{Answer, BETWEEN, RowFault, Words, new_disk, push_answer};
use std::alloc::{AllocError, Global};
use std::fmt::Write;

/// The most calls that are allowed.
const CALLS: u64 = 2000;

/// Runs one after another that answered the same.
#[derive(Drop)]
struct Runs {
    first: u64,
    last: u64,
    said: String,
}

/// `OUTCOME FAILS STEPS; STEPS`: the first steps are carried out on a new disk; the store is opened again, and carries
/// the others out, with 0, 1, 2 .. calls of the disk allowed, up to the first run in which none is refused. After each
/// run the disk is restarted, and what its store is then is told.
pub(crate) fn sweep(alloc: Global, words: Words<'_>) -> Answer {
    let mut out = String::from_str(alloc, "in turn:")?;
    let mut runs = Runs {
        first: 0,
        last: 0,
        said: crash(alloc, words, 0)?,
    };
    for allowed in 1..CALLS {
        if !runs.said.contains("device") {
            break;
        }
        let said = crash(alloc, words, allowed)?;
        if said == runs.said {
            runs.last = allowed;
        } else {
            push_runs(&mut out, &runs)?;
            runs = Runs {
                first: allowed,
                last: allowed,
                said,
            };
        }
    }
    push_runs(&mut out, &runs)?;
    Ok(out)
}

fn push_runs(out: &mut String, runs: &Runs) -> Result<(), AllocError> {
    let Runs { first, last, said } = runs;
    if first == last {
        return write!(out, "\n  {first}: {said}");
    }
    write!(out, "\n  {first} to {last}: {said}")
}

// What the steps answer of which so many calls pass, and what the store is after the crash.
fn crash(alloc: Global, mut words: Words<'_>, allowed: u64) -> Answer {
    let mut disk = new_disk(alloc, &mut words)?;
    let Some((before, steps)) = words.rest().split_once(BETWEEN) else {
        return Err(RowFault::NotARow);
    };
    keep(alloc, &mut disk, words.action(before))?;
    disk.arm(allowed);
    let said = keep(alloc, &mut disk, words.action(steps));
    disk.mend();
    disk.restart()?;
    let mut out = String::new(alloc);
    push_answer(&mut out, said)?;
    push_answer(&mut out, tell(alloc, &mut disk))?;
    Ok(out)
}
