//! A set of places of messages, in constant time.
ghost use Rattle.std.specs.Prelude.{◌≡◌, ◌<◌, ◌≤◌, length, OnOk, OnErr, true};
ghost use Rattle.std.specs.FinSet as set;
ghost use Rattle.simulation.specs.Places.{places_of};

use std::alloc::{AllocError, Global};
use std::marker::Model;

/// A set of places, as a mark for each of them and of those before it.
#[derive(Drop)]
pub(crate) struct Places {
    marks: Vec<bool>,
}

impl Model for Places {
    ghost use Rattle.std.specs.FinSet as set;
    ghost use Rattle.std.specs.Coded.{codes};
    ghost use Rattle.std.specs.Ordering.{nat_cmp};
    ghost use Rattle.simulation.specs.Places.{places_of};

    ghost Value = { set.FinSet nat_cmp };

    ghost coded = { Prim.hlevel (codes, set.code) };

    ghost view = { λ a. places_of a.marks.items };
}

impl Places {
    /// No place.
    pub(crate) fn new(alloc: Global) -> Places
        ensures { result ≡ set.empty }
    {
        Places {
            marks: Vec::new(alloc),
        }
    }

    /// Adds a place. Where there is no memory for its mark the set stays as it is.
    pub(crate) fn insert(&mut self, message: u64) -> Result<(), AllocError>
        ensures ok { OnOk result (self.new ≡ set.insert self.old message) }
        ensures err { OnErr result (self.new ≡ self.old) }
    {
        let at = message as usize;
        let Some(len) = at.checked_add(1) else {
            return Err(AllocError);
        };
        make_room(&mut self.marks, len)?;
        mark(&mut self.marks, at);
        Ok(())
    }

    /// Whether a place is in the set.
    pub(crate) fn contains(&self, message: u64) -> bool
        ensures { result ≡ set.contains self.now message }
    {
        match self.marks.get(message as usize) {
            None => false,
            Some(marked) => *marked,
        }
    }
}

// Has at least so many marks.
fn make_room(marks: &mut Vec<bool>, len: usize) -> Result<(), AllocError>
    ensures same { places_of marks.new.items ≡ places_of marks.old.items }
    ensures room { OnOk result (len ≤ length marks.new.items) }
{
    if marks.len() < len {
        marks.resize(len, false)?;
    }
    Ok(())
}

// Marks a place.
fn mark(marks: &mut Vec<bool>, at: usize)
    requires { at < length marks.old.items }
    ensures { places_of marks.new.items ≡ set.insert (places_of marks.old.items) at }
{
    marks[at] = true;
}
