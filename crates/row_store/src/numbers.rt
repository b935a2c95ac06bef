//! Numbers of files that a flush may write.
ghost use Rattle.std.specs.Prelude.{◌≡◌, ◌<◌, length};
ghost use Rattle.root_slots.specs.Root.{is_fresh};
ghost use Rattle.row_store.specs.Files.{IsLeastFree};

/// The least number of a file, from 1 up, that is none of these.
pub(crate) fn free_file(taken: &[u32]) -> u32
    requires { length taken.now < 1000 }
    ensures { IsLeastFree result taken.now }
{
    let mut file = 1;
    'taken: while !is_free(file, taken) {
        file += 1;
    }
    file
}

// Whether a number is not 0 and none of these.
fn is_free(file: u32, taken: &[u32]) -> bool
    ensures { result ≡ is_fresh file taken.now }
{
    file != 0 && !taken.contains(&file)
}
