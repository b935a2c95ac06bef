//! Bytes of a buffer, of which a front counts.
ghost use Rattle.std.specs.Prelude.{◌≡◌, ◌+◌, ◌≤◌, length, take, OnOk};
ghost use Rattle.mds_out.specs.Change.{half_written};
ghost use Rattle.mds_out.specs.Disk.{put};

use std::alloc::AllocError;

/// Writes bytes over the first `len` bytes of a buffer, or behind them, and says how many bytes count then.
pub(crate) fn write_over(buffer: &mut [u8], len: usize, at: usize, bytes: &[u8]) -> usize
    requires within { len ≤ length buffer.old }
    requires fits { at + length bytes.now ≤ length buffer.old }
    ensures count { result ≤ length buffer.new }
    ensures written { take result buffer.new ≡ put (take len buffer.old) at bytes.now }
{
    let at = at.min(len);
    let end = at + bytes.len();
    buffer[at..end].copy_from_slice(bytes);
    len.max(end)
}

/// As `write_over`, with the second half of the bytes spoilt.
pub(crate) fn spoil_over(buffer: &mut [u8], len: usize, at: usize, bytes: &[u8]) -> usize
    requires within { len ≤ length buffer.old }
    requires fits { at + length bytes.now ≤ length buffer.old }
    ensures count { result ≤ length buffer.new }
    ensures written { take result buffer.new ≡ put (take len buffer.old) at (half_written bytes.now) }
{
    let at = at.min(len);
    let half = bytes.len() / 2;
    let end = at + bytes.len();
    buffer[at..at + half].copy_from_slice(&bytes[..half]);
    buffer[at + half..end].fill(0xa5);
    len.max(end)
}

/// Makes a buffer at least this long; what it holds stays at its front.
pub(crate) fn make_room(buffer: &mut Vec<u8>, len: usize) -> Result<(), AllocError>
    ensures front { take (length buffer.old.items) buffer.new.items ≡ buffer.old.items }
    ensures longer { length buffer.old.items ≤ length buffer.new.items }
    ensures room { OnOk result (len ≤ length buffer.new.items) }
{
    if buffer.len() < len {
        buffer.resize(len, 0)?;
    }
    Ok(())
}
