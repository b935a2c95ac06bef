//! Bitmaps as a plain, slow program has them: one test for each partition, and every question by its definition.
use mds_base::RADIX;
use std::alloc::{AllocError, Global};

/// How many partitions a directory may have.
pub(crate) const PARTS: u32 = 1 << RADIX;

/// A set of partitions.
#[derive(Drop)]
pub(crate) struct PlainBitmap {
    parts: Vec<bool>,
}

impl PlainBitmap {
    /// The set of partition 0 alone.
    pub(crate) fn zero(alloc: Global) -> Result<PlainBitmap, AllocError> {
        let mut set = PlainBitmap {
            parts: vec![in alloc; false; PARTS as usize]?,
        };
        set.put(0, true);
        Ok(set)
    }

    /// Whether a partition is in the set.
    pub(crate) fn has(&self, part: u32) -> bool {
        self.parts.get(part as usize).copied().unwrap_or(false)
    }

    /// Puts a partition into the set, or takes it out.
    pub(crate) fn put(&mut self, part: u32, there: bool) {
        if let Some(slot) = self.parts.get_mut(part as usize) {
            *slot = there;
        }
    }

    /// The least partition that has to be in the set and is not.
    pub(crate) fn least_missing(&self) -> Option<u32> {
        (0..PARTS).find(|part| !self.has(*part) && self.is_required(*part))
    }

    /// Whether the set has to have a partition: 0, and each whose child, or whose next sibling, is there.
    fn is_required(&self, part: u32) -> bool {
        part == 0 || (0..RADIX).any(|depth| part < 2 << depth && self.has(part + (1 << depth)))
    }

    /// The partition at which a hash is located: the greatest of its remainders up to which all are in the set.
    pub(crate) fn located(&self, hash: u64) -> u32 {
        let mut part = 0;
        for depth in 0..=RADIX {
            let next = (hash % (1 << depth)) as u32;
            if !self.has(next) {
                return part;
            }
            part = next;
        }
        part
    }

    /// How deep a partition is split, by counting up.
    pub(crate) fn depth(&self, part: u32) -> u32 {
        for depth in 0..RADIX {
            if part < 1 << depth && !self.has(part + (1 << depth)) {
                return depth;
            }
        }
        RADIX
    }
}
