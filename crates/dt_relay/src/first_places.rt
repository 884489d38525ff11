//! A hash table over a list of links or routes: the first place of each key.
ghost use Rattle.std.specs.Prelude.{◌≡◌, ℕ, IfOk, nat_eq};
ghost use Rattle.std.specs.HashMap.{get};
ghost use Rattle.dt_relay.specs.Places.{TellsPlaces};

use dt_items::NoMemory;
use dt_world_model::{InLink, OutLink, Route};
use std::alloc::Global;
use std::collections::HashMap;

/// Where in a list the first stands that has a key.
pub(crate) type FirstPlaces = HashMap<u32, usize>;

/// What is looked up by a key.
pub(crate) trait Keyed {
    ghost key: { Self → ℕ };

    fn key(&self) -> u32
        ensures { result ≡ key self.now };
}

impl Keyed for OutLink {
    ghost key = { λ out. out.link };

    fn key(&self) -> u32 {
        u32::from(self.link)
    }
}

impl Keyed for InLink {
    ghost key = { λ link_in. link_in.link };

    fn key(&self) -> u32 {
        u32::from(self.link)
    }
}

impl Keyed for Route {
    ghost key = { λ route. route.to };

    fn key(&self) -> u32 {
        self.to
    }
}

/// The table of these places. Its cost is that of going over the list once.
pub(crate) fn places_in<T: Keyed>(alloc: Global, list: &[T]) -> Result<FirstPlaces, NoMemory>
    ensures { IfOk result (λ places. TellsPlaces T.key list.now places) }
{
    let mut places = HashMap::new(alloc);
    for i in 0..list.len() {
        places.entry(list[i].key())?.or_insert(i);
    }
    Ok(places)
}

/// The place that the table tells for a key.
pub(crate) fn place_in(places: &FirstPlaces, key: u32) -> Option<usize>
    ensures { result ≡ get nat_eq places.now key }
{
    places.get(&key).copied()
}
