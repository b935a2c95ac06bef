ghost use Rattle.std.specs.Prelude.{◌≡◌, length};
ghost use Rattle.std.specs.Borrow.{sem};

use crate::FRAME_BYTES;
use std::marker::Model;

/// A frame of a pool that is out. It can't be dropped: it is to be given back.
pub struct Frame {
    pub(crate) number: u32,
    pub(crate) block: Vec<u8>,
}

impl Model for Frame {
    ghost use Rattle.std.specs.Prelude.{◌≡◌, length};
    ghost use Rattle.frame_pool.specs.declared.TheConstants.{FRAME_BYTES};
    ghost use Rattle.frame_pool.specs.Frames.{FrameOut};

    ghost Value = { FrameOut };

    ghost view = { λ frame. record { number = frame.number; bytes = frame.block.items } };

    ghost invariant = { λ frame. length frame.block.items ≡ FRAME_BYTES };
}

impl Frame {
    ghost use Rattle.frame_pool.specs.Lending.{LendsBytes};

    /// Its number in its pool, from 0 up.
    pub fn number(&self) -> u32
        ensures { result ≡ self.now.number }
    {
        self.number
    }

    /// The `FRAME_BYTES` bytes that it holds.
    pub fn bytes(&self) -> &[u8]
        ensures bytes { result.now ≡ self.now.bytes }
        ensures size { length result.now ≡ FRAME_BYTES }
    {
        self.block.as_slice()
    }

    /// The `FRAME_BYTES` bytes that it holds, to be written. The frame then holds what was left there.
    pub fn bytes_mut(&mut self) -> &mut [u8]
        ensures* writes_back { sem 𝓛 (LendsBytes self.entry result) }
        ensures bytes { result.now ≡ self.old.bytes }
        ensures size { length result.now ≡ FRAME_BYTES }
    {
        self.block.as_mut_slice()
    }
}
