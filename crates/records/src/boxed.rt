//! What lies on the heap, so that the messages and records that hold it stay small.
ghost use Rattle.std.specs.Prelude.{◌≡◌, IfOk};

use bitmap::Bitmap;
use mds_base::Cursor;
use std::alloc::{AllocError, Global};
use std::marker::Model;

/// A bitmap on the heap. Contracts see it as the bitmap's value.
#[derive(Debug, Drop)]
pub struct BoxedBitmap {
    bitmap: Box<Bitmap>,
}

impl Model for BoxedBitmap {
    ghost use Rattle.bitmap.specs.Bits.{Bits, coded_bits};

    ghost Value = { Bits };

    ghost coded = { coded_bits };

    ghost view = { λ a. a.bitmap.value };
}

impl BoxedBitmap {
    /// Puts a bitmap on the heap; it is refused only where there is no memory for it.
    pub fn new(alloc: Global, bitmap: Bitmap) -> Result<BoxedBitmap, AllocError>
        ensures { IfOk result (λ boxed. boxed ≡ bitmap) }
    {
        let bitmap = Box::new(alloc, bitmap)?;
        Ok(BoxedBitmap { bitmap })
    }

    /// The bitmap.
    pub fn get(&self) -> &Bitmap
        ensures { result.now ≡ self.now }
    {
        &self.bitmap
    }

    /// A copy; it is refused only where there is no memory for it.
    pub fn copy(&self, alloc: Global) -> Result<BoxedBitmap, AllocError>
        ensures { IfOk result (λ boxed. boxed ≡ self.now) }
    {
        BoxedBitmap::new(alloc, *self.get())
    }
}

/// A cursor on the heap. Contracts see it as the cursor.
#[derive(Debug, Drop)]
pub struct BoxedCursor {
    cursor: Box<Cursor>,
}

impl Model for BoxedCursor {
    ghost use Rattle.mds_base.specs.declared.cursor.Cursor.{Cursor};

    ghost Value = { Cursor };

    ghost view = { λ a. a.cursor.value };
}

impl BoxedCursor {
    /// Puts a cursor on the heap; it is refused only where there is no memory for it.
    pub fn new(alloc: Global, cursor: Cursor) -> Result<BoxedCursor, AllocError>
        ensures { IfOk result (λ boxed. boxed ≡ cursor) }
    {
        let cursor = Box::new(alloc, cursor)?;
        Ok(BoxedCursor { cursor })
    }

    /// The cursor.
    pub fn get(&self) -> &Cursor
        ensures { result.now ≡ self.now }
    {
        &self.cursor
    }

    /// A copy; it is refused only where there is no memory for it.
    pub fn copy(&self, alloc: Global) -> Result<BoxedCursor, AllocError>
        ensures { IfOk result (λ boxed. boxed ≡ self.now) }
    {
        let cursor = self.get().copy(alloc)?;
        BoxedCursor::new(alloc, cursor)
    }
}
