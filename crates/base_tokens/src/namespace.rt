//! Paths of modules before a name.
ghost use Rattle.std.specs.Prelude.{◌≡◌, ◌≢◌, [], ◌↔◌, IsTrue, map, slice_get, option_map, Some};
ghost use Rattle.base_tokens.specs.Paths.{is_none, names_joined};

use crate::Ident;
use crate::position::Position;
use base_lists::Seq;
use std::alloc::{AllocError, Global};
use std::fmt;
use std::num::NonZeroUsize;

/// A path of modules' names before the name of a variable or function.
#[derive(Debug, Drop, PartialEq, Eq)]
pub struct Namespace {
    /// the names, the outermost first
    pub path: Seq<Ident>,
    /// where the module stands among the imported ones, as the parser knew it; nothing is claimed of it
    pub index: Option<NonZeroUsize>,
}

impl Namespace {
    /// No path. It takes no memory; rhai has a constant.
    pub fn none(alloc: Global) -> Namespace
        ensures path { result.path ≡ [] }
        ensures index { result.index ≡ None }
    {
        Namespace {
            path: Seq::new(alloc),
            index: None,
        }
    }

    /// Is the path empty?
    pub fn is_empty(&self) -> bool
        ensures path { IsTrue result ↔ (self.now.path ≡ []) }
        ensures names { result ≡ is_none (map (λ name. name.name) self.now.path) }
    {
        self.path.is_empty()
    }

    /// Where the first name stands, of a path that is not empty.
    pub fn position(&self) -> Position
        requires { self.now.path ≢ [] }
        ensures { option_map (λ name. name.pos) (slice_get self.now.path 0) ≡ Some result }
    {
        self.path.as_slice()[0].pos
    }

    /// The first name, of a path that is not empty.
    pub fn root(&self) -> &str
        requires { self.now.path ≢ [] }
        ensures { option_map (λ name. name.name) (slice_get self.now.path 0) ≡ Some result.now }
    {
        self.path.as_slice()[0].as_str()
    }
}

impl Clone for Namespace {
    ghost is_clone = { λ x y. y ≡ x };

    fn clone(&self) -> Result<Namespace, AllocError> {
        Ok(Namespace {
            path: self.path.clone()?,
            index: self.index,
        })
    }
}

/// The names joined by `::`; nothing for an empty path.
impl fmt::Display for Namespace {
    ghost output = { λ n. Some (names_joined n.path) };

    fn fmt<W: fmt::Write>(&self, f: &mut fmt::Formatter<W>) -> fmt::Result {
        let Some((first, others)) = self.path.as_slice().split_first() else {
            return Ok(());
        };
        f.write_str(first.as_str())?;
        for name in others {
            f.write_str("::")?;
            f.write_str(name.as_str())?;
        }
        Ok(())
    }
}
