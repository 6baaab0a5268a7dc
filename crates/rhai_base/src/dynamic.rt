//! Script values.
#![tactic(auto, using(crate::specs::Reading::kinds), unfolding(crate::specs::Value::text_of))]

mod copy;
mod floats;
mod hashable;
mod kinds;
mod text;

ghost use Rattle.std.specs.Prelude.{◌≡◌, ◌≢◌, ◌++◌, ◌↔◌, IsTrue, IfOk, MatchResult, OnOk, OnErr, List};
ghost use Rattle.rhai_base.specs.declared.dynamic.Dynamic.TheVariants as kind;

use crate::{FloatWrapper, FnPtr};
use base_lists::Seq;
use base_text::{ImmutableString, StringMap};
use base_tokens::OutOfMemory;
use std::alloc::{AllocError, Global};

/// The integers of scripts.
pub type INT = i64;

/// A script's value.
#[cycle(dynamic)]
#[derive(PartialEq, Eq, Hash)]
pub enum Dynamic {
    /// `()`
    Unit,
    /// `true`, `false`
    Bool(bool),
    /// an integer of 64 bits with sign
    Int(INT),
    /// a float of 64 bits
    Float(FloatWrapper),
    /// a character
    Char(char),
    /// a text
    Str(ImmutableString),
    /// an array
    Array(Seq<Dynamic>),
    /// a map from texts, in the order of the keys' bytes
    Map(StringMap<Dynamic>),
    /// a pointer to a function
    FnPtr(FnPtr),
    /// from the first integer to before the second
    Range(INT, INT),
    /// from the first integer to the second
    RangeInclusive(INT, INT),
}

/// Written by hand, so that it is proved here alone. So a value is looked at where it stands, and taken apart by its
/// calls.
impl Drop for Dynamic {
    #[cycle(let_go)]
    #[inline(always)]
    fn drop(self) {
        match self {
            Dynamic::Unit | Dynamic::Bool(_) | Dynamic::Int(_) => {}
            Dynamic::Float(_) | Dynamic::Char(_) => {}
            Dynamic::Str(_text) => {}
            Dynamic::Array(_items) => {}
            Dynamic::Map(_members) => {}
            Dynamic::FnPtr(_pointer) => {}
            Dynamic::Range(_, _) | Dynamic::RangeInclusive(_, _) => {}
        }
    }
}

impl Clone for Dynamic {
    ghost is_clone = { λ v w. w ≡ v };

    fn clone(&self) -> Result<Dynamic, AllocError> {
        copy::copy(self)
    }
}

impl Clone for FnPtr {
    ghost is_clone = { λ p q. q ≡ p };

    fn clone(&self) -> Result<FnPtr, AllocError> {
        copy::copy_pointer(self)
    }
}

impl Dynamic {
    ghost use Rattle.std.specs.String.{string_bytes};
    ghost use Rattle.rhai_base.specs.declared.dynamic.Dynamic.{Dynamic as dynamic};
    ghost use Rattle.rhai_base.specs.declared.fn_ptr.FnPtr.{FnPtr as pointer};
    ghost use Rattle.rhai_base.specs.Value as model;
    ghost use Rattle.rhai_base.specs.Reading.{value_of};

    /// The name of the value's type.
    pub fn type_name(&self) -> &'static str
        ensures { result.now ≡ model.type_name (value_of self.now) }
    {
        match self {
            Dynamic::Unit => "()",
            Dynamic::Bool(_) => "bool",
            Dynamic::Int(_) => "i64",
            Dynamic::Float(_) => "f64",
            Dynamic::Char(_) => "char",
            Dynamic::Str(_) => "string",
            Dynamic::Array(_) => "array",
            Dynamic::Map(_) => "map",
            Dynamic::FnPtr(_) => "Fn",
            Dynamic::Range(_, _) => "range",
            Dynamic::RangeInclusive(_, _) => "range=",
        }
    }

    /// Whether it is `()`.
    pub fn is_unit(&self) -> bool
        ensures { result ≡ model.is_unit (value_of self.now) }
    {
        matches!(self, Dynamic::Unit)
    }

    /// The text that it is. Any other value is given back; in rhai the error is the name of its type.
    pub fn into_immutable_string(self) -> Result<ImmutableString, Dynamic>
        ensures { MatchResult result (λ t. self ≡ kind.Str t)
            (λ v. (v ≡ self) × ((t : model.Text) → self ≢ kind.Str t)) }
    {
        match self {
            Dynamic::Str(text) => Ok(text),
            other => Err(other),
        }
    }

    /// The items of the array that it is. Any other value is given back; in rhai the error is the name of its type.
    pub fn into_array(self) -> Result<Seq<Dynamic>, Dynamic>
        ensures { MatchResult result (λ vs. self ≡ kind.Array vs)
            (λ v. (v ≡ self) × ((vs : List dynamic) → self ≢ kind.Array vs)) }
    {
        match self {
            Dynamic::Array(items) => Ok(items),
            other => Err(other),
        }
    }

    /// The pointer that it is. Any other value is given back. In rhai it is `try_cast`.
    pub fn into_fn_ptr(self) -> Result<FnPtr, Dynamic>
        ensures { MatchResult result (λ p. self ≡ kind.FnPtr p)
            (λ v. (v ≡ self) × ((p : pointer) → self ≢ kind.FnPtr p)) }
    {
        match self {
            Dynamic::FnPtr(pointer) => Ok(pointer),
            other => Err(other),
        }
    }

    /// Whether the values are equal: `==`, with a contract that says when.
    pub fn is_equal(&self, other: &Dynamic) -> bool
        ensures exact { IsTrue result ↔ (self.now ≡ other.now) }
        ensures by_value { IsTrue result ↔ (value_of self.now ≡ value_of other.now) }
        ensures by_cases { result ≡ model.same (value_of self.now) (value_of other.now) }
    {
        self == other
    }

    /// Appends the value as reports and the notation have it: as inside an array, texts and characters in quotes with
    /// nothing escaped, and of pointers the names and values. A refused call leaves the text as it was.
    pub fn push_written(&self, text: &mut String) -> Result<(), OutOfMemory>
        ensures ok { OnOk result (string_bytes text.new ≡ string_bytes text.old ++ model.written (value_of self.now)) }
        ensures err { OnErr result (string_bytes text.new ≡ string_bytes text.old) }
    {
        let mut form = String::new(*text.allocator());
        write!(form, "{self:?}")?;
        text.push_str(form.as_str())?;
        Ok(())
    }

    /// The value as a text: nothing for unit, characters and texts without quotes, all else as inside
    /// an array. Functions without a name of their own show as `Fn(anon$)`; rhai shows a hash there.
    pub fn text_of(&self, alloc: Global) -> Result<ImmutableString, OutOfMemory>
        ensures { IfOk result (λ t. t ≡ model.text_of (value_of self.now)) }
    {
        if let Dynamic::Str(text) = self {
            return Ok(text.clone()?);
        }
        let mut text = String::new(alloc);
        write!(text, "{self}")?;
        Ok(ImmutableString::from_string(text)?)
    }

    /// Appends what `text_of` answers. A refused call leaves the text as it was.
    pub fn push_text(&self, text: &mut String) -> Result<(), AllocError>
        ensures ok { OnOk result (string_bytes text.new ≡ string_bytes text.old ++ model.text_of (value_of self.now)) }
        ensures err { OnErr result (string_bytes text.new ≡ string_bytes text.old) }
    {
        if let Dynamic::Str(own) = self {
            return text.push_str(own.as_str());
        }
        if let Dynamic::Char(own) = self {
            return text.push(*own);
        }
        let mut form = String::new(*text.allocator());
        write!(form, "{self}")?;
        text.push_str(form.as_str())
    }
}
