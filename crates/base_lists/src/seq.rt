//! A list that contracts see as its items.
ghost use Rattle.std.specs.Prelude.{◌≡◌, ◌≢◌, [], ◌∷◌, ◌++◌, ◌<◌, ◌≤◌, ◌^◌, ◌+◌, length, take, drop, slice_index_or, ◌↔◌, IsTrue, IfOk, MatchOption, OnOk, OnErr};
ghost use Rattle.std.specs.List.{AllZip};
ghost use Rattle.std.specs.Borrow.{sem};
ghost use Rattle.std.specs.Iterator.Runs.{EveryRun, ItemsMapTo};
ghost use Rattle.std.specs.Slice.Iter.{iter_rest, iter_steps};
ghost use Rattle.std.specs.Hash as fed;
ghost use Rattle.std.specs.Hash.{items_Alike};
ghost use Rattle.std.specs.Cmp.Lexicographic.{pointwise, lists_equiv, lists_per};

use crate::Rest;
use std::alloc::{AllocError, Global};
use std::hash::{Hash, Hasher};
use std::marker::Model;
use std::slice;

/// A list that contracts see as its items alone, so that a clone equals what it was made of.
#[derive(Debug)]
pub struct Seq<T> {
    items: Vec<T>,
}

/// Written by hand, so that it is proved here alone, and that trees can let go of their parts by hand.
impl<T: Drop> Drop for Seq<T> {
    fn drop(self) {
        let Seq { items: _items } = self;
    }
}

impl<T> Model for Seq<T> {
    ghost use Rattle.std.specs.Prelude.{List};
    ghost use Rattle.std.specs.Coded.{coded_list};

    ghost Value = { List T };

    ghost coded = { coded_list T.code };

    ghost view = { λ it. it.items.items };
}

/// Its items one by one, lent.
impl<'a, T> IntoIterator for &'a Seq<T> {
    type Item = &'a T;

    type IntoIter = slice::Iter<'a, T>;

    ghost into_iter_gives = { λ s it. (iter_rest it ≡ s.now) × (length (iter_rest it) < 2 ^ 64)
        × EveryRun (iter_steps {A = T}) (λ p. ItemsMapTo p (λ x. x.now) (iter_rest p.from)) };

    fn into_iter(self) -> slice::Iter<'a, T> {
        self.as_slice().iter()
    }
}

impl<T> Seq<T> {
    ghost use Rattle.base_lists.specs.Lends.{lends_item, lends_items};

    /// A list without items. It takes no memory.
    pub fn new(alloc: Global) -> Seq<T>
        ensures { result ≡ [] }
    {
        Seq {
            items: Vec::new(alloc),
        }
    }

    /// The items of a `Vec`, in its memory.
    pub fn from_vec(items: Vec<T>) -> Seq<T>
        ensures { result ≡ items.items }
    {
        Seq { items }
    }

    /// The items as a `Vec`, in the same memory.
    pub fn into_vec(self) -> Vec<T>
        ensures { result.items ≡ self }
    {
        let Seq { items } = self;
        items
    }

    /// Its items, to be taken from the front.
    pub fn into_rest(self) -> Rest<T>
        ensures { result ≡ self }
    {
        Rest::new(self.into_vec())
    }

    /// A list without items. How many it will have is a hint, of which contracts see nothing.
    pub fn with_capacity(alloc: Global, capacity: usize) -> Result<Seq<T>, AllocError>
        ensures { IfOk result (λ s. s ≡ []) }
    {
        let items = Vec::with_capacity(alloc, capacity)?;
        Ok(Seq { items })
    }

    /// A list without items, from the same allocator. Its length is the hint.
    pub fn emptied(&self) -> Result<Seq<T>, AllocError>
        ensures { IfOk result (λ s. s ≡ []) }
    {
        Seq::with_capacity(self.allocator(), self.len())
    }

    fn allocator(&self) -> Global {
        *self.items.allocator()
    }

    /// Its items, lent.
    pub fn as_slice(&self) -> &[T]
        ensures { result.now ≡ self.now }
    {
        self.items.as_slice()
    }

    /// Its items, lent for writing.
    pub fn as_mut_slice(&mut self) -> &mut [T]
        ensures* writes_back { sem 𝓛 (lends_items T.row self.entry result) }
        ensures value { result.now ≡ self.old }
    {
        self.items.as_mut_slice()
    }

    /// The item at an index, lent for writing.
    pub fn get_mut(&mut self, index: usize) -> Option<&mut T>
        ensures* writes_back { sem 𝓛 (lends_item T.row self.entry index result) }
        ensures value { MatchOption result (length self.old ≤ index) (λ item.
            (index < length self.old) × (item.now ≡ slice_index_or self.old index item.now)) }
    {
        self.items.get_mut(index)
    }

    /// Moves an item down to a place, in exchange for the one there.
    pub fn move_down(&mut self, from: usize, to: usize)
        requires below { to ≤ from }
        requires inside { from < length self.old }
        ensures front { (d : T) → take (to + 1) self.new ≡ take to self.old ++ slice_index_or self.old from d ∷ [] }
        ensures back { drop (from + 1) self.new ≡ drop (from + 1) self.old }
        ensures len { length self.new ≡ length self.old }
        ensures same { to ≡ from → self.new ≡ self.old }
    {
        if to < from {
            self.as_mut_slice().swap(to, from);
        }
    }

    /// How many items it has.
    pub fn len(&self) -> usize
        ensures { result ≡ length self.now }
    {
        self.items.len()
    }

    /// Has it no items?
    pub fn is_empty(&self) -> bool
        ensures { IsTrue result ↔ (self.now ≡ []) }
    {
        self.items.is_empty()
    }
}

impl<T: Drop> Seq<T> {
    /// The items of an array, with room for them alone.
    pub fn from_array<const N: usize>(alloc: Global, items: [T; N]) -> Result<Seq<T>, AllocError>
        ensures { IfOk result (λ s. s ≡ items) }
    {
        let items = Vec::from_array(alloc, items)?;
        Ok(Seq { items })
    }

    /// Adds an item at the end. A refused call gives the item up.
    pub fn push(&mut self, item: T) -> Result<(), AllocError>
        ensures ok { OnOk result (self.new ≡ self.old ++ item ∷ []) }
        ensures err { OnErr result (self.new ≡ self.old) }
    {
        self.items.push(item)?;
        Ok(())
    }

    /// Adds the items of a `Vec` at the end. A refused call adds nothing and gives them up.
    pub fn append(&mut self, mut items: Vec<T>) -> Result<(), AllocError>
        ensures ok { OnOk result (self.new ≡ self.old ++ items.items) }
        ensures err { OnErr result (self.new ≡ self.old) }
    {
        self.items.append(&mut items)?;
        Ok(())
    }

    /// Keeps the first items, so many.
    pub fn truncate(&mut self, len: usize)
        ensures { self.new ≡ take len self.old }
    {
        self.items.truncate(len);
    }

    /// The item of a list of one.
    pub fn into_only(mut self) -> Option<T>
        ensures { MatchOption result (length self ≢ 1) (λ item. self ≡ item ∷ []) }
    {
        if self.len() != 1 {
            return None;
        }
        self.items.pop()
    }
}

impl<T: Copy> Seq<T> {
    /// A list of the same items.
    pub fn from_slice(alloc: Global, items: &[T]) -> Result<Seq<T>, AllocError>
        ensures { IfOk result (λ s. s ≡ items.now) }
    {
        let items = Vec::from_slice(alloc, items)?;
        Ok(Seq { items })
    }
}

impl<T: Clone + Drop> Clone for Seq<T> {
    ghost is_clone = { λ s t. AllZip T.is_clone s t };

    fn clone(&self) -> Result<Seq<T>, AllocError> {
        let items = self.items.clone()?;
        Ok(Seq { items })
    }
}

impl<T: PartialEq> PartialEq for Seq<T> {
    ghost eq = { λ x y. pointwise T.eq x y };

    ghost laws = { lists_per T.laws };

    fn eq(&self, other: &Self) -> bool {
        self.items.eq(&other.items)
    }
}

impl<T: Eq> Eq for Seq<T> {
    ghost laws = { lists_equiv T.Eq.laws };
}

impl<T: Hash> Hash for Seq<T> {
    ghost hash_input = { λ s. fed.slice T.hash_input s };

    ghost respects_eq = { (items_Alike (record { fed = T.respects_eq })).fed };

    fn hash<H: Hasher>(&self, state: &mut H) {
        self.items.hash(state);
    }
}
