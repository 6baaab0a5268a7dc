//! Maps from texts.
ghost use Rattle.std.specs.Prelude.{◌≡◌, [], length, IfOk, OnOk, OnErr, nat_eq, ◌&&◌, ◌++◌};
ghost use Rattle.std.specs.Ordering.{nat_cmp};
ghost use Rattle.std.specs.Hash as fed;
ghost use Rattle.std.specs.Hash.{on_Alike, and-Alike, items_Alike};
ghost use Rattle.std.specs.Cmp.{on_equiv, and_equiv, on_per, and_per, partial_equiv_from_equiv};
ghost use Rattle.std.specs.Cmp.Lexicographic.{pointwise, slice_cmp, lists_equiv, lists_per, nat_list_eq_equiv};
ghost use Rattle.base_text.specs.Laws.{text_hash};
ghost use Rattle.std.specs.BTreeMap.{insert_entry, is_at};
ghost use Rattle.std.specs.Borrow.{sem};
ghost use Rattle.std.specs.List.Sorted.{IsStrictlySortedBy};
ghost use Rattle.std.specs.List.{AllZip};
ghost use Rattle.std.specs.Map.{keys_of, lookup};
ghost use Rattle.std.specs.Option.{option_copied, option_copied_mut};

use crate::ImmutableString;
use std::alloc::{AllocError, Global};
use std::collections::BTreeMap;
use std::collections::btree_map::Iter;
use std::default::Emptied;
use std::hash::{Hash, Hasher};
use std::marker::Model;

/// A map from texts, seen as its entries in the order of the keys' bytes.
#[derive(Debug)]
pub struct StringMap<V> {
    map: BTreeMap<ImmutableString, V>,
}

impl<V: Drop> Drop for StringMap<V> {
    fn drop(self) {
        let StringMap { map: _map } = self;
    }
}

impl<V> Model for StringMap<V> {
    ghost use Rattle.std.specs.Prelude.{List, ℕ};
    ghost use Rattle.std.specs.Coded.{coded_list, coded×, coded_ℕ};

    ghost Value = { List (List ℕ × V) };

    ghost coded = { coded_list (coded× (coded_list coded_ℕ) V.code) };

    ghost view = { λ m. m.map.entries };
}

impl<V> StringMap<V> {
    ghost use Rattle.base_text.specs.Lends.{lends_value_at};

    /// A map without entries. It takes no memory.
    pub fn new(alloc: Global) -> StringMap<V>
        ensures { result ≡ [] }
    {
        StringMap {
            map: BTreeMap::new(alloc),
        }
    }

    /// A map with no entry, from the same allocator.
    pub fn emptied(&self) -> Result<StringMap<V>, AllocError>
        ensures { IfOk result (λ m. m ≡ []) }
    {
        Ok(StringMap {
            map: BTreeMap::emptied(&self.map)?,
        })
    }

    /// How many entries it has.
    pub fn len(&self) -> usize
        ensures len { result ≡ length self.now }
        ensures ordered { IsStrictlySortedBy (slice_cmp nat_cmp) (keys_of self.now) }
    {
        self.map.len()
    }

    /// The entries in the keys' order.
    pub fn iter(&self) -> Iter<'_, ImmutableString, V>
        ensures rest { result ≡ self.now }
        ensures ordered { IsStrictlySortedBy (slice_cmp nat_cmp) (keys_of self.now) }
    {
        self.map.iter()
    }

    /// The value under a key.
    pub fn get(&self, key: &ImmutableString) -> Option<&V>
        ensures { option_copied result ≡ lookup (is_at (slice_cmp nat_cmp key.now)) self.now }
    {
        self.map.get(key)
    }

    /// The value under a key, lent for writing.
    pub fn get_mut(&mut self, key: &ImmutableString) -> Option<&mut V>
        ensures* writes_back { sem 𝓛 (lends_value_at V.row self.entry key.now result) }
        ensures value { option_copied_mut result ≡ lookup (is_at (slice_cmp nat_cmp key.now)) self.old }
        ensures ordered { IsStrictlySortedBy (slice_cmp nat_cmp) (keys_of self.old) }
    {
        self.map.get_mut(key)
    }
}

impl<V: Drop> StringMap<V> {
    /// Puts a value under a key, in place of what was there.
    pub fn insert(&mut self, key: ImmutableString, value: V) -> Result<(), AllocError>
        ensures ok { OnOk result (self.new ≡ insert_entry (slice_cmp nat_cmp) self.old key value) }
        ensures err { OnErr result (self.new ≡ self.old) }
    {
        match self.map.insert(key, value) {
            Ok(_) => Ok(()),
            Err(_) => Err(AllocError),
        }
    }
}

impl<V: Clone + Drop> Clone for StringMap<V> {
    ghost is_clone = { λ m n. AllZip (λ p q. (q.0 ≡ p.0) × V.is_clone p.1 q.1) m n };

    fn clone(&self) -> Result<StringMap<V>, AllocError> {
        Ok(StringMap {
            map: self.map.clone()?,
        })
    }
}

impl<V: PartialEq> PartialEq for StringMap<V> {
    ghost eq = { λ x y. pointwise (λ p q. pointwise nat_eq p.0 q.0 && V.eq p.1 q.1) x y };

    ghost laws = { lists_per
        (and_per (on_per (λ p. p.0) (partial_equiv_from_equiv nat_list_eq_equiv)) (on_per (λ p. p.1) V.laws)) };

    fn eq(&self, other: &Self) -> bool {
        self.map.eq(&other.map)
    }
}

impl<V: Eq> Eq for StringMap<V> {
    ghost laws = { lists_equiv (and_equiv (on_equiv (λ p. p.0) nat_list_eq_equiv) (on_equiv (λ p. p.1) V.Eq.laws)) };
}

impl<V: Hash> Hash for StringMap<V> {
    ghost hash_input = { λ m. fed.slice (λ p. fed.str p.0 ++ V.hash_input p.1) m };

    ghost respects_eq = { (items_Alike
        (and-Alike (on_Alike (λ p. p.0) (record { fed = text_hash }))
        (on_Alike (λ p. p.1) (record { fed = V.respects_eq })))).fed };

    fn hash<H: Hasher>(&self, state: &mut H) {
        self.map.hash(state);
    }
}
