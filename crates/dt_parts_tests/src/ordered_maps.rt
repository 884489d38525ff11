//! Tests of a map in the order of insertion: beside a plain list, over thousands of random steps.
use dt_items::NoMemory;
use dt_ordered::OrderedMap;
use std::alloc::Global;

/// So many steps, each at one of so many keys.
const STEPS: u32 = 4_000;

const KEYS: u64 = 40;

/// A map, and the list that it should be.
#[derive(Drop)]
struct Pair {
    map: OrderedMap<u16, u64>,
    list: Vec<(u16, u64)>,
}

fn place_of(list: &[(u16, u64)], key: u16) -> Option<usize> {
    list.iter().position(|entry| entry.0 == key)
}

/// What was under a key goes, or else an entry comes; whether the map answered as the list has it.
fn turns(pair: &mut Pair, key: u16, value: u64) -> Result<bool, NoMemory> {
    if let Some(place) = place_of(&pair.list, key) {
        if place >= pair.list.len() {
            return Ok(false);
        }
        let (_, had) = pair.list.remove(place);
        return Ok(pair.map.contains(&key) && pair.map.remove(&key) == Some(had));
    }
    if pair.map.remove(&key).is_some() || pair.map.contains(&key) {
        return Ok(false);
    }
    pair.map.push(key, value)?;
    pair.list.push((key, value))?;
    Ok(true)
}

/// Whether the map has the keys of the list, in its order.
fn agrees(alloc: Global, pair: &Pair) -> Result<bool, NoMemory> {
    let keys = pair.map.keys(alloc)?;
    let is_as_long = pair.map.len() == pair.list.len() && keys.len() == pair.list.len();
    Ok(
        is_as_long
            && keys
                .iter()
                .zip(&pair.list)
                .all(|(key, entry)| *key == entry.0),
    )
}

fn agrees_at_random(alloc: Global) -> Result<bool, NoMemory> {
    let mut pair = Pair {
        map: OrderedMap::new(alloc)?,
        list: Vec::new(alloc),
    };
    let mut seed = 1u64;
    for _ in 0..STEPS {
        seed = seed
            .wrapping_mul(6_364_136_223_846_793_005)
            .wrapping_add(1_442_695_040_888_963_407);
        let key = (seed >> 33) % KEYS;
        if !turns(&mut pair, key as u16, seed)? || !agrees(alloc, &pair)? {
            return Ok(false);
        }
    }
    pair.map.clear();
    pair.list.clear();
    agrees(alloc, &pair)
}

#[test]
fn a_map_is_the_list_that_it_should_be(rt: HostRuntime) {
    assert!(rt; agrees_at_random(rt.alloc()) == Ok(true));
}
