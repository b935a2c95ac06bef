//! The bytes by which records, calls and finals are told apart; reader, writer and definition cite them.

/// The kind of the head of a log.
pub const RECORD_HEAD: u8 = 1;

/// The kind of the record that a run began.
pub const RECORD_OPENED: u8 = 2;

/// The kind of a change with its reply.
pub const RECORD_SERVED: u8 = 3;

/// The kind of the begin of a split.
pub const RECORD_BEGIN: u8 = 4;

/// The kind of the child of a split, of whose rows none has a stamp.
pub const RECORD_INSTALL: u8 = 5;

/// The kind of the end of a split.
pub const RECORD_END: u8 = 6;

/// The kind of the child of a split, of whose rows some has a stamp.
pub const RECORD_INSTALL_STAMPED: u8 = 7;

/// The kind of a create.
pub const CALL_CREATE: u8 = 1;

/// The kind of a mkdir.
pub const CALL_MKDIR: u8 = 2;

/// The kind of a remove.
pub const CALL_REMOVE: u8 = 3;

/// The kind of a setattr without a stamp.
pub const CALL_SETATTR: u8 = 4;

/// The kind of a grab.
pub const CALL_GRAB: u8 = 5;

/// The kind of a load.
pub const CALL_LOAD: u8 = 6;

/// The kind of a link.
pub const CALL_LINK: u8 = 7;

/// The kind of a setattr with a stamp.
pub const CALL_STAMP: u8 = 8;

/// The kind of a seal.
pub const CALL_SEAL: u8 = 10;

/// The kind of an unseal.
pub const CALL_UNSEAL: u8 = 11;

/// The kind of a kill.
pub const CALL_KILL: u8 = 12;

/// The kind of an unlink.
pub const CALL_UNLINK: u8 = 13;

/// The tag of `created`.
pub const FINAL_CREATED: u8 = 1;

/// The tag of `created` with the number of a directory.
pub const FINAL_CREATED_DIR: u8 = 2;

/// The tag of `exists`.
pub const FINAL_EXISTS: u8 = 3;

/// The tag of `removed`.
pub const FINAL_REMOVED: u8 = 4;

/// The tag of `missing`.
pub const FINAL_MISSING: u8 = 5;

/// The tag of `isdir`.
pub const FINAL_IS_DIR: u8 = 6;

/// The tag of `set`.
pub const FINAL_SET: u8 = 7;

/// The tag of `ids` with the first number.
pub const FINAL_IDS: u8 = 8;

/// The tag of `loaded` with the number of rows.
pub const FINAL_LOADED: u8 = 9;

/// The tag of `stale`.
pub const FINAL_STALE: u8 = 10;

/// The tag of `sealed` with its epoch and depth.
pub const FINAL_SEALED: u8 = 11;

/// The tag of `notempty`.
pub const FINAL_NOT_EMPTY: u8 = 12;

/// The tag of `late`.
pub const FINAL_LATE: u8 = 13;

/// The tag of `opened`.
pub const FINAL_OPENED: u8 = 14;

/// The tag of `killed`.
pub const FINAL_KILLED: u8 = 15;
