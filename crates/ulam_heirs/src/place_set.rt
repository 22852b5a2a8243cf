//! Sets of places.
ghost use Rattle.std.specs.Prelude.{◌≡◌, IfOk};
ghost use Rattle.std.specs.List.{list_any};
ghost use Rattle.ulam_heirs.specs.Files.{is_empty};
ghost use Rattle.ulam_heirs.specs.Lines.{same_place};
ghost use Rattle.ulam_heirs.specs.PlaceSets.{AreIndexed};

use feast_base::{NoMemory, Place};
use indexmap::IndexSet;
use std::alloc::Global;
use std::marker::Model;

/// Places in order, each of which is found at once.
#[derive(Drop)]
pub struct PlaceSet {
    places: Vec<Place>,
    keys: IndexSet<(u32, u32, u32)>,
}

impl Model for PlaceSet {
    ghost use Rattle.std.specs.Prelude.{List};
    ghost use Rattle.feast_base.specs.declared.place.Place.{Place};
    ghost use Rattle.ulam_heirs.specs.PlaceSets.{AreIndexed};

    ghost Value = { List Place };

    ghost view = { λ m. m.places.items };

    ghost invariant = { λ m. AreIndexed m.keys.keys m.places.items };
}

/// The keys of places.
fn keys_of(alloc: Global, places: &[Place]) -> Result<IndexSet<(u32, u32, u32)>, NoMemory>
    ensures { IfOk result (λ s. AreIndexed s.keys places.now) }
{
    let mut keys = IndexSet::new(alloc);
    for place in places {
        keys.insert((place.file, place.line, place.column))?;
    }
    Ok(keys)
}

impl PlaceSet {
    /// These places.
    pub fn of(alloc: Global, places: Vec<Place>) -> Result<PlaceSet, NoMemory>
        ensures { IfOk result (λ m. m ≡ places.items) }
    {
        let keys = keys_of(alloc, places.as_slice())?;
        Ok(PlaceSet { places, keys })
    }

    /// Whether there is none.
    pub fn is_empty(&self) -> bool
        ensures { result ≡ is_empty self.now }
    {
        self.places.is_empty()
    }

    /// Whether a place is one of them.
    pub fn has(&self, place: Place) -> bool
        ensures { result ≡ list_any (same_place place) self.now }
    {
        let key = (place.file, place.line, place.column);
        self.keys.contains(&key)
    }
}
