//! A map and a set over std's hash collections whose order no call but `Debug` shows: it differs from run to run, and no answer
//! of the compiler may depend on it. Values, and keys, are told apart by `==` alone.
ghost use Rattle.std.specs.Prelude.{◌≡◌, ◌+◌, ℕ, Bool, List, length, true, false, None, Some, not, is_some, IsSome, option_copied, if◌then◌else◌, IfOk, OnOk, OnErr};
ghost use Rattle.core_syntax.specs.Stable.{contains, entry_count, look_up, member_count, ClonesAreSame, HasClones, IsMadeOf};
ghost use Rattle.std.specs.HashMap.{get, hash_map_len};
ghost use Rattle.std.specs.Iterator.{Drains, IsFiniteIterable};
ghost use Rattle.std.specs.List.{IsDistinct};
ghost use Rattle.std.specs.Set.{is_member, ClonesAreEqual};

use std::alloc::{AllocError, Global};
use std::collections::{HashMap, HashSet};
use std::hash::Hash;
use std::marker::Model;
use std::ops::Index;

/// A set of values, in no order: it can be asked and grows, and can't be walked. Upstream's `StableSet`.
#[derive(Debug, Drop)]
pub struct StableSet<T: Eq + Hash> {
    items: HashSet<T>,
}

impl<T: Eq + Hash> Model for StableSet<T> {
    ghost use Rattle.core_syntax.specs.Stable.{Members, members_code, stable_set};

    ghost Value = { Members T };

    ghost coded = { members_code T.code };

    ghost view = { λ s. stable_set s.items.keys };
}

impl<T: Eq + Hash> StableSet<T> {
    /// The empty set. Takes no memory.
    pub fn new(alloc: Global) -> StableSet<T>
        ensures none { (x : T) → contains T.eq result x ≡ false }
        ensures len { member_count result ≡ 0 }
    {
        StableSet {
            items: HashSet::new(alloc),
        }
    }

    /// Adds a value, and answers whether it is new: whether the set had none that is equal to it.
    ///
    /// # Errors
    ///
    /// Where memory is refused. The set then has what it had.
    pub fn insert(&mut self, val: T) -> Result<bool, AllocError>
    where
        T: Drop,
        ensures new { IfOk result (λ b. b ≡ not (contains T.eq self.old val)) }
        ensures has { OnOk result ((x : T) → contains T.eq self.new x ≡ (if T.eq val x then true else contains T.eq self.old x)) }
        ensures len { IfOk result (λ b. member_count self.new ≡ member_count self.old + (if b then 1 else 0)) }
        ensures err { OnErr result (self.new ≡ self.old) }
    {
        Ok(self.items.insert(val)?)
    }

    /// Whether the set has a value that is equal to this one.
    pub fn contains(&self, val: &T) -> bool
        ensures value { result ≡ contains T.eq self.now val.now }

        // equal values are in the set together or not at all
        ensures same { (y : T) → T.eq val.now y ≡ true → contains T.eq self.now y ≡ result }
    {
        self.items.contains(val)
    }

    /// How many values the set has, those that are equal counted once.
    pub fn len(&self) -> usize
        ensures value { result ≡ member_count self.now }

        // as many as a list has that has each of them once
        ensures count { (values : List T) × IsDistinct T.eq values × ((y : T) → is_member T.eq values y ≡ contains T.eq self.now y) × (length values ≡ result) }
    {
        self.items.len()
    }
}

impl<T: Eq + Hash + Clone> StableSet<T> {
    /// Another set with the same values, where each value's clone is equal to it. Stands for upstream's `Clone`, since
    /// memory can be refused.
    ///
    /// # Errors
    ///
    /// Where memory is refused.
    pub fn clone(&self) -> Result<StableSet<T>, AllocError>
        requires { ClonesAreEqual T.eq T.is_clone }
        ensures has { IfOk result (λ copy. (x : T) → contains T.eq copy x ≡ contains T.eq self.now x) }
        ensures len { IfOk result (λ copy. member_count copy ≡ member_count self.now) }
        ensures same { IfOk result (λ copy. ClonesAreSame T.is_clone → copy ≡ self.now) }
    {
        let items = self.items.clone()?;
        Ok(StableSet { items })
    }
}

/// A map from keys to values, in no order: it can be asked and grows, and can't be walked. Upstream's `StableMap`.
#[derive(Debug, Drop)]
pub struct StableMap<K: Eq + Hash, V> {
    entries: HashMap<K, V>,
}

impl<K: Eq + Hash, V> Model for StableMap<K, V> {
    ghost use Rattle.core_syntax.specs.Stable.{Entries, entries_code, stable_map};

    ghost Value = { Entries K V };

    ghost coded = { entries_code K.code V.code };

    ghost view = { λ m. stable_map m.entries.entries };
}

impl<K: Eq + Hash, V> StableMap<K, V> {
    /// The empty map. Takes no memory.
    pub fn new(alloc: Global) -> StableMap<K, V>
        ensures none { (k : K) → look_up K.eq result k ≡ None }
        ensures len { entry_count result ≡ 0 }
    {
        StableMap {
            entries: HashMap::new(alloc),
        }
    }

    /// The map that pairs of a key and a value make, a later pair over an earlier one with an equal key. Condition: the
    /// pairs come to an end. Stands for upstream's `FromIterator`, since memory can be refused.
    ///
    /// # Errors
    ///
    /// Where memory is refused.
    pub fn from_iter<I: IntoIterator<Item = (K, V)>>(
        alloc: Global,
        pairs: I,
    ) -> Result<StableMap<K, V>, AllocError>
    where
        K: Drop,
        V: Drop,
        requires { IsFiniteIterable I.into_iter_gives I.IntoIter.can_next I.IntoIter.remaining pairs }
        ensures { IfOk result (λ m. (it : I.IntoIter) × (xs : List (K × V)) × I.into_iter_gives pairs it × Drains I.IntoIter.next_gives it xs × IsMadeOf K.eq xs m) }
    {
        let mut entries = HashMap::new(alloc);
        for (key, value) in pairs {
            entries.insert(key, value)?;
        }
        Ok(StableMap { entries })
    }

    /// Gives the key a value, and answers the one that it had.
    ///
    /// # Errors
    ///
    /// Where memory is refused. The map then has what it had.
    pub fn insert(&mut self, k: K, v: V) -> Result<Option<V>, AllocError>
    where
        K: Drop,
        V: Drop,
        ensures old { IfOk result (λ o. o ≡ look_up K.eq self.old k) }
        ensures has { OnOk result ((x : K) → look_up K.eq self.new x ≡ (if K.eq k x then Some v else look_up K.eq self.old x)) }
        ensures len { IfOk result (λ o. entry_count self.new ≡ entry_count self.old + (if is_some o then 0 else 1)) }
        ensures err { OnErr result (self.new ≡ self.old) }
    {
        Ok(self.entries.insert(k, v)?)
    }

    /// The value of the key that is equal to this one, if there is one.
    pub fn get(&self, k: &K) -> Option<&V>
        ensures value { option_copied result ≡ look_up K.eq self.now k.now }

        // equal keys have the same value, or none has one
        ensures same { (y : K) → K.eq k.now y ≡ true → look_up K.eq self.now y ≡ option_copied result }
    {
        self.entries.get(k)
    }

    /// Whether a key that is equal to this one has a value.
    pub fn contains_key(&self, k: &K) -> bool
        ensures value { result ≡ is_some (look_up K.eq self.now k.now) }

        // equal keys have a value together or not at all
        ensures same { (y : K) → K.eq k.now y ≡ true → is_some (look_up K.eq self.now y) ≡ result }
    {
        self.entries.contains_key(k)
    }

    /// How many keys have a value, those that are equal counted once.
    pub fn len(&self) -> usize
        ensures value { result ≡ entry_count self.now }

        // as many as a list has that has each of the keys once
        ensures count { (keys : List K) × IsDistinct K.eq keys × ((y : K) → is_member K.eq keys y ≡ is_some (look_up K.eq self.now y)) × (length keys ≡ result) }
    {
        self.entries.len()
    }
}

impl<K: Eq + Hash + Clone, V: Clone> StableMap<K, V> {
    /// Another map with the same keys, where each key's clone is equal to it, and at each of them a clone of its value.
    /// Stands for upstream's `Clone`, since memory can be refused.
    ///
    /// # Errors
    ///
    /// Where memory is refused.
    pub fn clone(&self) -> Result<StableMap<K, V>, AllocError>
        requires { ClonesAreEqual K.eq K.is_clone }
        ensures has { IfOk result (HasClones K.eq V.is_clone self.now) }
        ensures values { IfOk result (λ copy. ClonesAreSame V.is_clone → (k : K) → look_up K.eq copy k ≡ look_up K.eq self.now k) }
        ensures len { IfOk result (λ copy. entry_count copy ≡ entry_count self.now) }
        ensures same { IfOk result (λ copy. ClonesAreSame K.is_clone → ClonesAreSame V.is_clone → copy ≡ self.now) }
    {
        let entries = self.entries.clone()?;
        Ok(StableMap { entries })
    }
}

impl<'a, K: Eq + Hash, V> Index<&'a K> for StableMap<K, V> {
    type Output = V;

    ghost can_index = { λ m k. IsSome (look_up K.eq m k.now) };

    ghost index_gives = { λ m k v. look_up K.eq m k.now ≡ Some v };

    /// The value of the key that is equal to this one. There has to be one.
    fn index(&self, k: &K) -> &V {
        self.entries.index(k)
    }
}

impl<K: Eq + Hash, V> From<HashMap<K, V>> for StableMap<K, V> {
    ghost from_gives = { λ m result. ((k : K) → look_up K.eq result k ≡ get K.eq m k) × (entry_count result ≡ hash_map_len m) };

    /// The map with the same keys and values. Takes no memory.
    fn from(map: HashMap<K, V>) -> StableMap<K, V> {
        StableMap { entries: map }
    }
}
