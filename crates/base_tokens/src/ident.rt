//! Names with their places.
ghost use Rattle.std.specs.Prelude.{◌≡◌};

use crate::position::Position;
use base_text::ImmutableString;
use std::alloc::AllocError;

/// A name and where it stands.
#[derive(Debug, Drop, PartialEq, Eq)]
pub struct Ident {
    /// the name
    pub name: ImmutableString,
    /// where it stands
    pub pos: Position,
}

impl Ident {
    /// The name's text.
    pub fn as_str(&self) -> &str
        ensures { result.now ≡ self.now.name }
    {
        self.name.as_str()
    }
}

impl Clone for Ident {
    ghost is_clone = { λ x y. y ≡ x };

    fn clone(&self) -> Result<Ident, AllocError> {
        Ok(Ident {
            name: self.name.clone()?,
            pos: self.pos,
        })
    }
}
