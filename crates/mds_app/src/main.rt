//! The program: `giga_solo` over standard input and output, and disks in memory.
//!
//! It stands on `mds_cli` for the run and on `mds_out` for its streams and disks. Its own are the adapters of a reader
//! and of a writer, which count each system error as a fault, and the line on standard error for a status other than
//! done.
#![tactic(auto)]

ghost use Rattle.std.specs.Prelude.{◌≡◌, length, IfOk};
ghost use Rattle.mds_cli.specs.Fresh.{AreNewMemories};

mod input;
mod output;

use input::Input;
use mds_cli::{Status, code, disks_of, giga_solo, laws_of_words};
use mds_out::{Memory, Outcome};
use output::Output;
use std::alloc::{AllocError, Global};
use std::process::ExitCode;
use std::{env, io};

fn main(rt: HostRuntime) -> ExitCode {
    let status = run(&rt);
    if status != Status::Done {
        let _ = eprintln!(rt; "giga: {status}");
    }
    ExitCode::from(code(&status))
}

/// Runs the program on the words of its command line.
fn run(rt: &HostRuntime) -> Status {
    let mut words = match env::args(rt) {
        Ok(words) => words,
        Err(error) if error.kind() == io::ErrorKind::OutOfMemory => return Status::OutOfMemory,
        Err(_) => return Status::Usage,
    };
    let _program = words.next();
    let Ok(words) = words.collect::<Vec<String>>(rt.alloc()) else {
        return Status::OutOfMemory;
    };
    laws_of_words();
    let Some(count) = disks_of(&words) else {
        return Status::Usage;
    };
    let Ok(disks) = new_disks(rt.alloc(), count) else {
        return Status::OutOfMemory;
    };
    let mut input = Input::new(rt.stdin());
    let mut output = Output::new(rt.stdout());
    giga_solo(rt.alloc(), &words, &mut input, &mut output, disks).status
}

/// So many new disks in memory, of which a crash leaves what was synced: disks to which the empty past leads, by
/// `laws_of_new_disks` of `mds_cli`.
fn new_disks(alloc: Global, count: u32) -> Result<Vec<Memory>, AllocError>
    ensures count { IfOk result (λ disks. length disks.items ≡ count) }
    ensures new { IfOk result (λ disks. AreNewMemories disks.items) }
{
    let mut disks = Vec::new(alloc);
    for _ in 0..count {
        disks.push(Memory::new(alloc, Outcome::Old, Vec::new(alloc))?)?;
    }
    Ok(disks)
}
