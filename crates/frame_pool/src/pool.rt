ghost use Rattle.std.specs.Prelude.{◌≡◌, ◌↔◌, All, position, is_some, IsTrue, IsNone, IfSome, IfNone, IfOk};
ghost use Rattle.frame_pool.specs.Frames.{IsFree, Lacks, fresh, taken, given};

use crate::{FRAME_BYTES, Frame};
use std::alloc::{AllocError, Global};
use std::marker::Model;

/// Frames, of which each is free or out.
#[derive(Drop)]
pub struct Pool {
    places: Vec<Option<Vec<u8>>>,
}

impl Model for Pool {
    ghost use Rattle.std.specs.Prelude.{map, ◌≡◌, ◌^◌, ◌<◌, All, IfSome, length};
    ghost use Rattle.frame_pool.specs.Frames.{Frames, IsWhole, bytes_of};

    ghost Value = { Frames };

    ghost view = { λ pool. map bytes_of pool.places.items };

    ghost invariant = { λ pool. (length pool.places.items < 2 ^ 32) × All IsWhole pool.places.items };
}

impl Pool {
    /// A pool of `n` frames of `FRAME_BYTES` bytes, numbered from 0 up, all free. It takes all the memory that the
    /// pool will ever have; no other call takes any.
    pub fn new(alloc: Global, n: u32) -> Result<Pool, AllocError>
        ensures { IfOk result (λ pool. pool ≡ fresh n) }
    {
        let mut places = Vec::with_capacity(alloc, n as usize)?;
        for _number in 0..n {
            places.push(Some(vec![in alloc; 0; FRAME_BYTES]?))?;
        }
        Ok(Pool { places })
    }

    /// A free frame, which is out from then on; `None` exactly where no frame is free. It looks at the frames in
    /// turn, up to the first free one.
    pub fn take(&mut self) -> Option<Frame>
        ensures free { IfSome result (λ frame. IsFree self.old frame) }
        ensures out { IfSome result (λ frame. self.new ≡ taken self.old frame) }
        ensures none { IfNone result (All IsNone self.old) }
        ensures unchanged { IfNone result (self.new ≡ self.old) }
    {
        let number = first_free(&self.places)?;
        let block = self.places[number].take()?;
        Some(Frame {
            number: number as u32,
            block,
        })
    }

    /// Whether this is the number of a frame of the pool that is out.
    pub fn lacks(&self, number: u32) -> bool
        ensures { IsTrue result ↔ Lacks self.now number }
    {
        match self.places.get(number as usize) {
            None => false,
            Some(place) => place.is_none(),
        }
    }

    /// Takes a frame back, which is free from then on and keeps its bytes.
    pub fn give(&mut self, frame: Frame)
        requires { Lacks self.old frame.number }
        ensures { self.new ≡ given self.old frame }
    {
        let Frame { number, block } = frame;
        self.places[number as usize] = Some(block);
    }
}

// The least number of a free frame.
fn first_free(places: &[Option<Vec<u8>>]) -> Option<usize>
    ensures { result ≡ position is_some places.now }
{
    places.iter().position(|place| place.is_some())
}
