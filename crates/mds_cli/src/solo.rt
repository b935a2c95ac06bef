//! The program's call.
ghost use Rattle.std.specs.Prelude.{◌≡◌, ◌↔◌, List, map, length, string_bytes};
ghost use Rattle.mds_base.specs.declared.setup.Setup.{Setup};
ghost use Rattle.mds_out.specs.Known.{OnTold};
ghost use Rattle.pasts.specs.Openings.{ComeBack};
ghost use Rattle.pasts.specs.Starts.{AreReached};
ghost use Rattle.world.specs.Law.{PastRun};
ghost use Rattle.mds_cli.specs.Ending.{HasEnded, outside};
ghost use Rattle.mds_cli.specs.Scripts.{IsWithinLimits, HaveNotRisen, Completes};
ghost use Rattle.mds_cli.specs.Payments.{TextIsPaid};
ghost use Rattle.mds_cli.specs.Words.{AsksFor};

use crate::run::{Ended, run};
use crate::status::Status;
use crate::words::{laws_of_words, setup_of};
use mds_out::{Disk, Sink, Source};
use std::alloc::Global;

/// Opens the servers on their disks, carries out a script of calls, losses, repeats, stops and restarts, and writes its
/// text: a line for each event that has one, then one for each effect, then `end` (`docs/FORMATS.md`). It reads in
/// pieces, and writes the text that is made before each read and before any status. The disks are handed back, each at
/// its place. `docs/PROMISES.md` says in words what each clause does.
pub fn giga_solo<S: Source, K: Sink, D: Disk + Drop>(
    alloc: Global,
    words: &[String],
    input: &mut S,
    output: &mut K,
    disks: Vec<D>,
) -> Ended<D>
    // As many disks as the words ask for.
    requires { (setup : Setup) → AsksFor (map (λ word. string_bytes word) words.now) setup → length disks.items
        ≡ setup.servers }

    // The words are refused exactly where they are outside the grammar, and then nothing is read or written.
    ensures usage { (result.status ≡ Status.Usage) ↔
        ((setup : Setup) → AsksFor (map (λ word. string_bytes word) words.now) setup → ⊥) }
    ensures untouched { result.status ≡ Status.Usage → (S.left input.new ≡ S.left input.old)
        × (K.taken output.new ≡ K.taken output.old) × (result.disks.items ≡ disks.items) }

    // How the run ended, by its status (`HasEnded`, `Because`): with disks that any past runs left, lines of the script
    // were carried out as a run from there, of which the theorem of the world holds, and then a part of the next one or
    // none; the bytes taken are its text, or a front of it; and the disks are those of its servers. Or the servers were
    // not opened: nothing was read or written, and disks of a past are still disks of that past.
    ensures ended { (setup : Setup) → AsksFor (map (λ word. string_bytes word) words.now) setup
        → HasEnded D.faults D.seen D.images setup result.status disks.items result.disks.items
        (outside (S.left input.old) (K.taken output.old) (S.faults input.old) (K.faults output.old))
        (outside (S.left input.new) (K.taken output.new) (S.faults input.new) (K.faults output.new)) }
    ensures passed_on { result.status ≡ Status.Done → K.passed_on output.new }

    // However the run ended: a server's device stopped it no more often, by the lines `stopped` of the bytes taken,
    // than the count of its disk rose by and the script's lines `fuse` armed its fuse, unless that count stands at the
    // greatest u64.
    ensures paid { TextIsPaid D.faults disks.items result.disks.items (S.left input.old) (K.taken output.old)
        (K.taken output.new) }

    // However the run ended: as many disks come back as went in, each at its place, where calls of a disk alone made it
    // of the one that went in.
    ensures disks { ComeBack D.lasts disks.items result.disks.items }

    // A script within the grammar and the limits, no line of which arms a fuse, is done where no disk's count of faults
    // has risen, or a stream failed, or there was no memory.
    ensures complete { (setup : Setup) → AsksFor (map (λ word. string_bytes word) words.now) setup
        → (past : List PastRun) → AreReached D.seen D.images setup disks.items past
        → HaveNotRisen D.faults disks.items result.disks.items
        → OnTold (S.left input.old) (λ bytes. IsWithinLimits setup past bytes → Completes result.status) }
{
    laws_of_words();
    let Some(setup) = setup_of(words) else {
        return Ended {
            status: Status::Usage,
            disks,
        };
    };
    run(alloc, setup, input, output, disks)
}
