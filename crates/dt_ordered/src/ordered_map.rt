//! `OrderedMap`, in which entries stand in the order in which they came.
ghost use Rattle.std.specs.Prelude.{◌≡◌, ◌+◌, ◌<◌, ◌^◌, ◌++◌, ◌∷◌, [], false, filter, if◌then◌else◌, is_some, length, map, not, IfOk, OnErr, OnOk};
ghost use Rattle.std.specs.List.{list_any};
ghost use Rattle.std.specs.Map.{lookup};

use dt_items::NoMemory;
use lru::LruCache;
use std::alloc::Global;
use std::hash::Hash;
use std::marker::Model;

/// Entries in the order in which they came, each under a key of its own. A contract sees the list of them.
///
/// It is a cache of no bound: what comes in is its latest, and nothing is used. So an entry is found, comes
/// in and goes at a cost that doesn't grow with their number.
#[derive(Drop)]
pub struct OrderedMap<K: Eq + Hash + Drop, V: Drop> {
    latest_first: LruCache<K, V>,
}

impl<K: Eq + Hash + Drop, V: Drop> Model for OrderedMap<K, V> {
    ghost use Rattle.std.specs.Prelude.{◌≡◌, ◌^◌, ◌-◌, List, reverse};

    ghost Value = { List (K × V) };

    ghost view = { λ m. reverse m.latest_first.entries };

    ghost invariant = { λ m. m.latest_first.cap ≡ 2 ^ 64 - 1 };
}

impl<K: Eq + Hash + Drop, V: Drop> OrderedMap<K, V> {
    /// No entries.
    pub fn new(alloc: Global) -> Result<OrderedMap<K, V>, NoMemory>
        ensures { IfOk result (λ map. map ≡ []) }
    {
        Ok(OrderedMap {
            latest_first: LruCache::unbounded(alloc)?,
        })
    }

    /// How many entries there are.
    pub fn len(&self) -> usize
        ensures len { result ≡ length self.now }
        ensures small { result < 2 ^ 63 }
    {
        self.latest_first.len()
    }

    /// Whether there is an entry under a key.
    pub fn contains(&self, key: &K) -> bool
        ensures { result ≡ list_any (λ e. K.eq key.now e.0) self.now }
    {
        self.latest_first.contains(key)
    }

    /// An entry comes last, under a key that has none. `NoMemory` leaves all as it was.
    pub fn push(&mut self, key: K, value: V) -> Result<(), NoMemory>
        requires { list_any (λ e. K.eq key e.0) self.old ≡ false }
        ensures ok { OnOk result (self.new ≡ self.old ++ (key, value) ∷ []) }
        ensures same { OnErr result (self.new ≡ self.old) }
    {
        let _count = self.latest_first.len();
        self.latest_first.put(key, value)?;
        Ok(())
    }

    /// The entry under a key goes, if there is one. The others stand as they stood.
    pub fn remove(&mut self, key: &K) -> Option<V>
        ensures value { result ≡ lookup (K.eq key.now) self.old }
        ensures others { self.new ≡ filter (λ e. not (K.eq key.now e.0)) self.old }
        ensures one { length self.new + (if is_some result then 1 else 0) ≡ length self.old }
    {
        let _count = self.latest_first.len();
        self.latest_first.pop(key)
    }

    /// Each entry goes.
    pub fn clear(&mut self)
        ensures { self.new ≡ [] }
    {
        self.latest_first.clear();
    }
}

impl<K: Copy + Eq + Hash + Drop, V: Drop> OrderedMap<K, V> {
    /// The keys, in the order in which their entries came. The cost is that of all.
    pub fn keys(&self, alloc: Global) -> Result<Vec<K>, NoMemory>
        ensures { IfOk result (λ keys. keys.items ≡ map (λ e. e.0) self.now) }
    {
        let mut keys = Vec::with_capacity(alloc, self.latest_first.len())?;
        for (key, _) in self.latest_first.iter().rev() {
            keys.push(*key)?;
        }
        Ok(keys)
    }
}
