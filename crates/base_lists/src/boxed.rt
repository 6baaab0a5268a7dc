//! A box that contracts see as what it holds.
ghost use Rattle.std.specs.Prelude.{◌≡◌, IfOk};
ghost use Rattle.std.specs.Borrow.{sem};

use std::alloc::{AllocError, Global};
use std::hash::{Hash, Hasher};
use std::marker::Model;

/// A `Box` that contracts see as its value.
#[derive(Debug)]
pub struct Boxed<T> {
    inner: Box<T>,
}

/// Written by hand, as that of `Seq`, so that trees can let go of their parts by hand. It is never inlined: a box's
/// value is taken out onto the stack, and a node of many kinds would else have room for the values of all of them.
impl<T: Drop> Drop for Boxed<T> {
    #[inline(never)]
    fn drop(self) {
        let Boxed { inner: _inner } = self;
    }
}

impl<T> Model for Boxed<T> {
    ghost Value = { T };

    ghost coded = { T.code };

    ghost view = { λ b. b.inner.value };
}

impl<T> Boxed<T> {
    ghost use Rattle.base_lists.specs.Lends.{lends_value};

    /// The value.
    pub fn get(&self) -> &T
        ensures { result.now ≡ self.now }
    {
        &self.inner
    }

    /// The value, lent for writing.
    pub fn get_mut(&mut self) -> &mut T
        ensures* writes_back { sem 𝓛 (lends_value T.row self.entry result) }
        ensures value { result.now ≡ self.old }
    {
        &mut self.inner
    }

    /// The allocator that it was made with.
    pub fn allocator(&self) -> Global {
        *Box::allocator(&self.inner)
    }

    /// The value, out of the box.
    pub fn into_inner(self) -> T
        ensures { result ≡ self }
    {
        let Boxed { inner } = self;
        Box::into_inner(inner)
    }
}

impl<T: Drop> Boxed<T> {
    /// A value in a box of its own.
    pub fn new(alloc: Global, value: T) -> Result<Boxed<T>, AllocError>
        ensures { IfOk result (λ b. b ≡ value) }
    {
        Ok(Boxed {
            inner: Box::new(alloc, value)?,
        })
    }
}

impl<T: Clone + Drop> Clone for Boxed<T> {
    ghost is_clone = { T.is_clone };

    fn clone(&self) -> Result<Boxed<T>, AllocError> {
        let inner: &T = &self.inner;
        Boxed::new(self.allocator(), inner.clone()?)
    }
}

impl<T: PartialEq> PartialEq for Boxed<T> {
    ghost eq = { T.eq };

    ghost laws = { T.laws };

    fn eq(&self, other: &Self) -> bool {
        self.get().eq(other.get())
    }
}

impl<T: Eq> Eq for Boxed<T> {
    ghost laws = { T.Eq.laws };
}

impl<T: Hash> Hash for Boxed<T> {
    ghost hash_input = { T.hash_input };

    ghost respects_eq = { T.respects_eq };

    fn hash<H: Hasher>(&self, state: &mut H) {
        self.get().hash(state);
    }
}
