//! The numbers that the service is bound by, each with its unit and its one home here; code and clauses cite them.
//! What ends in `MOST` may be reached, and so may what counts events, lines, bytes and rows; numbers that something is
//! known by (a directory, a moment, an epoch, a call, an attempt) are below their limit.

// Names and calls.

/// A name of at most this many bytes takes no memory of its own.
pub const SHORT_NAME: usize = 22;

/// The mode of a file that was just made.
pub const FILE_MODE: u32 = 420;

/// The mode of a directory that was just made.
pub const DIRECTORY_MODE: u32 = 493;

/// The greatest mode.
pub const MODE_MOST: u32 = 4095;

/// How many numbers a grab may ask for at most.
pub const GRAB_MOST: u32 = 4096;

/// How many rows a load may have at most.
pub const LOAD_MOST: u32 = 4096;

/// How many leased entries a client keeps at most.
pub const LEASED_MOST: usize = 256;

/// How many rows a page of a scan has at most.
pub const PAGE_ROWS: u32 = 64;

/// Epochs of seals are below this.
pub const EPOCHS: u64 = 1 << 48;

/// The numbers of a client's calls are below this.
pub const CALLS: u64 = 1 << 63;

/// The numbers of a call's sendings are below this.
pub const ATTEMPTS: u32 = 1 << 31;

// Directory numbers.

/// Directory numbers are below this, and at least 1.
pub const DIRECTORIES: u64 = 1 << 48;

/// How many directory numbers a server has: server `s` gives numbers from `s` times this on, and none from `s + 1`
/// times this on.
pub const SERVER_DIRECTORIES: u64 = 1 << 40;

/// How many of its directory numbers a server has left at least when it serves a message or a batch.
pub const SERVE_DIRECTORIES: u64 = 1 << 18;

/// How many of its directory numbers a server has left at least before each message of a batch.
pub const MESSAGE_DIRECTORIES: u64 = 1 << 12;

/// How many of its directory numbers each server has left at least when a run in threads begins.
pub const THREADS_DIRECTORIES: u64 = 1 << 39;

// What a run is started with: from 1 up to these, and a lease from 0.

/// The most servers.
pub const SERVERS_MOST: u32 = 32;

/// The most clients.
pub const CLIENTS_MOST: u32 = 64;

/// The greatest threshold, in rows: a partition with more rows than the threshold is split.
pub const THRESHOLD_MOST: u32 = 8000;

/// The threshold where none is asked for, in rows.
pub const THRESHOLD_DEFAULT: u32 = 8000;

/// The longest lease, in moments.
pub const LEASE_MOST: u64 = 1_000_000;

/// The lease where none is asked for, in moments.
pub const LEASE_DEFAULT: u64 = 1000;

// A run.

/// Moments are below this.
pub const MOMENTS: u64 = 1 << 43;

/// How many events a run may have, and how many entries the journal of a client.
pub const EVENTS: u64 = 1 << 20;

/// How many rows may be counted in the transfers, loads and pages that a run sent.
pub const ROWS: u64 = 1 << 21;

/// How many rows each transfer counts more than it has.
pub const TRANSFER_ROWS: u64 = 8;

/// How many lines a script may have.
pub const LINES: u64 = 1 << 22;

/// How many bytes a line may have.
pub const LINE_BYTES: usize = 1 << 20;

/// How many moments a line `tick` may ask for.
pub const TICK_MOST: u64 = 1 << 32;

/// Of how many calls of a disk a line `fuse` may speak.
pub const FUSE_MOST: u64 = 1 << 32;

// What is done in one go.

/// How many messages a server may serve with one append.
pub const BATCH_MOST: usize = 64;

/// How many rows a transfer carries at most where a split is sent in pieces.
pub const PIECE_ROWS: usize = 64;

/// After how many attempts that were used up a call in threads is unanswered.
pub const TRIES: u32 = 64;

/// How many entries, files and directories together, a tree that is added in bulk may have.
pub const BULK_ENTRIES: usize = 4096;

/// How many directories a tree that is added in bulk may have, its top among them.
pub const BULK_DIRECTORIES: usize = 4096;

/// How deep the directories of a tree that is added in bulk may be nested, its top counted as 1.
pub const BULK_DEPTH: usize = 64;
