//! How a run of the program ended.
ghost use Rattle.std.specs.Prelude.{◌≡◌};
ghost use Rattle.interpreter.specs.declared.interpreter.Halt.{Halt};
ghost use Rattle.mds_base.specs.declared.store_fault.StoreFault.{StoreFault};
ghost use Rattle.mds_cli.specs.Code.{code_of, status_of_halt, status_of_fault};

use interpreter::Halt;
use mds_base::{Damage, StoreFault, Which};
use std::alloc::AllocError;
use std::fmt;

/// How a run of the program ended (`docs/PROMISES.md` says what is proved of each).
#[derive(Clone, Copy, Debug, PartialEq, Eq)]
pub enum Status {
    /// The whole input was read, each line carried out, and the text taken and passed on.
    Done,
    /// The words are none that the program knows; nothing was read or written.
    Usage,
    /// The line of this number, counted from 1, is the first that is outside the script's grammar or not allowed at its
    /// place.
    BadScript {
        /// The line.
        line: u64,
    },
    /// The input failed.
    ReadFault,
    /// The output failed.
    WriteFault,
    /// The disk of a server failed while the server was opened; nothing was read or written.
    OpenFault {
        /// The server.
        server: u32,
    },
    /// The disk of a server is damaged.
    BadDisk {
        /// The server.
        server: u32,
        /// The file.
        file: u32,
        /// The offset in the file.
        offset: u64,
        /// What is wrong there.
        damage: Damage,
    },
    /// The run would pass a limit; what would pass it was not carried out.
    Limit {
        /// Which.
        which: Which,
    },
    /// There was no memory.
    OutOfMemory,
}

impl From<AllocError> for Status {
    ghost use Rattle.mds_cli.specs.declared.status.Status.{Status};

    ghost from_gives = { λ _ status. status ≡ Status.OutOfMemory };

    fn from(_: AllocError) -> Status {
        Status::OutOfMemory
    }
}

/// What standard error says of a status, behind the program's name.
impl fmt::Display for Status {
    ghost use Rattle.std.specs.Prelude.{Some};
    ghost use Rattle.mds_cli.specs.Code.{status_text};

    ghost output = { λ status. Some (status_text status) };

    fn fmt<W: fmt::Write>(&self, f: &mut fmt::Formatter<W>) -> fmt::Result {
        match self {
            Status::Done => write!(f, "done"),
            Status::Usage => write!(f, "usage"),
            Status::BadScript { line } => write!(f, "bad script at line {line}"),
            Status::ReadFault => write!(f, "read fault"),
            Status::WriteFault => write!(f, "write fault"),
            Status::OpenFault { server } => write!(f, "server {server} did not open"),
            Status::BadDisk {
                server,
                file,
                offset,
                ..
            } => write!(
                f,
                "damaged disk of server {server}, file {file}, place {offset}"
            ),
            Status::Limit { which } => write!(f, "limit {}", LimitText(*which)),
            Status::OutOfMemory => write!(f, "out of memory"),
        }
    }
}

/// A number that has a limit, by name.
#[derive(Drop)]
struct LimitText(Which);

impl fmt::Display for LimitText {
    ghost use Rattle.std.specs.Prelude.{Some};
    ghost use Rattle.mds_cli.specs.Code.{limit_text};

    ghost output = { λ text. Some (limit_text text.0) };

    fn fmt<W: fmt::Write>(&self, f: &mut fmt::Formatter<W>) -> fmt::Result {
        match self.0 {
            Which::Events => write!(f, "events"),
            Which::Rows => write!(f, "rows"),
            Which::Lines => write!(f, "lines"),
            Which::Moment => write!(f, "moment"),
            Which::Directories => write!(f, "directories"),
        }
    }
}

/// The exit code of a status: 0 where the run was done.
pub fn code(status: &Status) -> u8
    ensures { result ≡ code_of status.now }
{
    match status {
        Status::Done => 0,
        Status::Usage => 2,
        Status::BadScript { .. } => 3,
        Status::ReadFault => 4,
        Status::WriteFault => 5,
        Status::OpenFault { .. } => 6,
        Status::BadDisk { .. } => 7,
        Status::Limit { .. } => 8,
        Status::OutOfMemory => 9,
    }
}

/// The status with which a run ends that was halted within a line.
pub(crate) fn status_of_halt(halt: Halt) -> Status
    ensures { result ≡ status_of_halt halt }
{
    match halt {
        Halt::Limit { which } => Status::Limit { which },
        Halt::Damaged {
            server,
            file,
            offset,
            damage,
        } => Status::BadDisk {
            server,
            file,
            offset,
            damage,
        },
        Halt::OutOfMemory => Status::OutOfMemory,
    }
}

/// The status with which a run ends whose servers were not opened.
pub(crate) fn status_of_fault(server: u32, fault: StoreFault) -> Status
    ensures { result ≡ status_of_fault server fault }
{
    match fault {
        StoreFault::Device => Status::OpenFault { server },
        StoreFault::Damaged {
            file,
            offset,
            damage,
        } => Status::BadDisk {
            server,
            file,
            offset,
            damage,
        },
        _ => Status::OutOfMemory,
    }
}
