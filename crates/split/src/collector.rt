//! The pieces of a half as they come.
ghost use Rattle.std.specs.Prelude.{◌≡◌, ◌<◌, IfOk, OnOk, OnErr, [], replicate, None, length, is_some, unwrap_or};
ghost use Rattle.std.specs.List.{list_all};
ghost use Rattle.split.specs.Pieces.{collected, with_piece, whole_of, all_rows};

use crate::pieces::push_copies;
use mds_base::{Row, RowList};
use std::alloc::{AllocError, Global};
use std::marker::Model;

/// The pieces of a half that came so far.
#[derive(Debug, Drop)]
pub struct Collector {
    pieces: Vec<Option<RowList>>,
}

impl Model for Collector {
    ghost use Rattle.split.specs.Pieces.{Collected};

    ghost Value = { Collected };

    ghost view = { λ a. a.pieces.items };
}

impl Collector {
    /// No piece came yet.
    pub fn new(alloc: Global) -> Collector
        ensures { result ≡ [] }
    {
        Collector {
            pieces: Vec::new(alloc),
        }
    }

    /// Keeps a piece of so many, and gives the rows of all pieces in order where none is missing. What was kept of
    /// another number is forgotten, and a piece that is kept already stays. It is refused only where there is no memory
    /// for it, and nothing changes then. It takes time by the pieces up to the first one that is missing, and by the
    /// rows where none is.
    pub fn take(
        &mut self,
        alloc: Global,
        index: u32,
        count: u32,
        rows: &RowList,
    ) -> Result<Option<RowList>, AllocError>
        requires { index < count }
        ensures kept { OnOk result (self.new ≡ collected self.old index count rows.now) }
        ensures whole { IfOk result (λ given. given ≡ whole_of (collected self.old index count rows.now)) }
        ensures err { OnErr result (self.new ≡ self.old) }
    {
        if self.pieces.len() == count as usize {
            return keep(alloc, &mut self.pieces, index as usize, rows);
        }
        let mut pieces = none_of(alloc, count)?;
        let given = keep(alloc, &mut pieces, index as usize, rows)?;
        self.pieces = pieces;
        Ok(given)
    }

    /// A copy of the pieces; it is refused only where there is no memory for it.
    pub fn copy(&self, alloc: Global) -> Result<Collector, AllocError>
        ensures { IfOk result (λ copy. copy ≡ self.now) }
    {
        let mut pieces = Vec::with_capacity(alloc, self.pieces.len())?;
        for piece in &self.pieces {
            pieces.push(copy_of(alloc, piece)?)?;
        }
        Ok(Collector { pieces })
    }
}

// So many pieces, none of which came.
fn none_of(alloc: Global, count: u32) -> Result<Vec<Option<RowList>>, AllocError>
    ensures { IfOk result (λ pieces. pieces.items ≡ replicate count None) }
{
    let mut pieces = Vec::with_capacity(alloc, count as usize)?;
    for _ in 0..count {
        pieces.push(None)?;
    }
    Ok(pieces)
}

fn copy_of(alloc: Global, piece: &Option<RowList>) -> Result<Option<RowList>, AllocError>
    ensures { IfOk result (λ copy. copy ≡ piece.now) }
{
    match piece {
        None => Ok(None),
        Some(rows) => Ok(Some(rows.copy(alloc)?)),
    }
}

// Keeps a piece and gives the whole, where it is whole.
fn keep(
    alloc: Global,
    pieces: &mut Vec<Option<RowList>>,
    index: usize,
    rows: &RowList,
) -> Result<Option<RowList>, AllocError>
    requires { index < length pieces.old.items }
    ensures kept { OnOk result (pieces.new.items ≡ with_piece pieces.old.items index rows.now) }
    ensures whole { IfOk result (λ given. given ≡ whole_of (with_piece pieces.old.items index rows.now)) }
    ensures err { OnErr result (pieces.new.items ≡ pieces.old.items) }
{
    if pieces[index].is_some() {
        return whole(alloc, pieces);
    }
    pieces[index] = Some(rows.copy(alloc)?);
    let given = whole(alloc, pieces);
    if given.is_err() {
        pieces[index] = None;
    }
    given
}

// The rows of all pieces in order, where none is missing.
fn whole(alloc: Global, pieces: &[Option<RowList>]) -> Result<Option<RowList>, AllocError>
    ensures { IfOk result (λ given. given ≡ whole_of pieces.now) }
{
    if !is_whole(pieces) {
        return Ok(None);
    }
    Ok(Some(join(alloc, pieces)?))
}

fn is_whole(pieces: &[Option<RowList>]) -> bool
    ensures { result ≡ list_all is_some pieces.now }
{
    pieces.iter().all(|piece| piece.is_some())
}

fn join(alloc: Global, pieces: &[Option<RowList>]) -> Result<RowList, AllocError>
    ensures { IfOk result (λ rows. rows ≡ all_rows pieces.now) }
{
    let mut rows = RowList::new(alloc);
    for piece in pieces {
        push_copies(alloc, &mut rows, rows_in(piece))?;
    }
    Ok(rows)
}

fn rows_in(piece: &Option<RowList>) -> &[Row]
    ensures { result.now ≡ unwrap_or piece.now [] }
{
    match piece {
        None => &[],
        Some(rows) => rows.rows(),
    }
}
