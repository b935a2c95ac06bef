ghost use Rattle.std.specs.Prelude.{◌≡◌, ◌++◌, ◌∷◌, [], OnOk, OnErr};

use std::alloc::{AllocError, Global};
use std::marker::Model;

/// Places in the list of all sent messages, counted from 0, in the order in which they are served.
#[derive(Debug, Drop)]
pub struct PlaceList {
    places: Vec<u64>,
}

impl Model for PlaceList {
    ghost use Rattle.std.specs.Prelude.{List, ℕ};

    ghost Value = { List ℕ };

    ghost view = { λ a. a.places.items };
}

impl PlaceList {
    /// The list with no place.
    pub fn new(alloc: Global) -> PlaceList
        ensures { result ≡ [] }
    {
        PlaceList {
            places: Vec::new(alloc),
        }
    }

    /// Adds a place at the end. Where there is no memory for it the list stays as it is.
    pub fn push(&mut self, place: u64) -> Result<(), AllocError>
        ensures ok { OnOk result (self.new ≡ self.old ++ place ∷ []) }
        ensures err { OnErr result (self.new ≡ self.old) }
    {
        self.places.push(place)?;
        Ok(())
    }

    /// The places, in their order.
    pub fn places(&self) -> &[u64]
        ensures { result.now ≡ self.now }
    {
        self.places.as_slice()
    }
}
