//! Of which kind a value is, and what those of one kind are, under rhai's names.
ghost use Rattle.std.specs.Prelude.{◌≡◌, ◌≢◌, Bool, false, IsTrue, List, MatchResult, ℕ, ℤ, from_bits};
ghost use Rattle.std.specs.Float.{binary64};
ghost use Rattle.rhai_base.specs.declared.dynamic.Dynamic.TheVariants as kind;
ghost use Rattle.rhai_base.specs.declared.dynamic.Dynamic.{Dynamic as dynamic};
ghost use Rattle.rhai_base.specs.declared.float_wrapper.FloatWrapper.{FloatWrapper as float};
ghost use Rattle.rhai_base.specs.declared.fn_ptr.FnPtr.{FnPtr as pointer};
ghost use Rattle.rhai_base.specs.Value as model;
ghost use Rattle.rhai_base.specs.Reading.{value_of};

use crate::dynamic::{Dynamic, INT};
use crate::{FLOAT, FloatWrapper};
use base_text::{ImmutableString, StringMap};

impl Dynamic {
    /// Whether it is a bool.
    pub fn is_bool(&self) -> bool
        ensures yes { IsTrue result → (b : Bool) × (self.now ≡ kind.Bool b) }
        ensures no { result ≡ false → (b : Bool) → self.now ≢ kind.Bool b }
    {
        matches!(self, Dynamic::Bool(_))
    }

    /// Whether it is an integer.
    pub fn is_int(&self) -> bool
        ensures yes { IsTrue result → (n : ℤ) × (self.now ≡ kind.Int n) }
        ensures no { result ≡ false → (n : ℤ) → self.now ≢ kind.Int n }
    {
        matches!(self, Dynamic::Int(_))
    }

    /// Whether it is a float.
    pub fn is_float(&self) -> bool
        ensures yes { IsTrue result → (x : float) × (self.now ≡ kind.Float x) }
        ensures no { result ≡ false → (x : float) → self.now ≢ kind.Float x }
    {
        matches!(self, Dynamic::Float(_))
    }

    /// Whether it is a character.
    pub fn is_char(&self) -> bool
        ensures yes { IsTrue result → (c : ℕ) × (self.now ≡ kind.Char c) }
        ensures no { result ≡ false → (c : ℕ) → self.now ≢ kind.Char c }
    {
        matches!(self, Dynamic::Char(_))
    }

    /// Whether it is a text.
    pub fn is_string(&self) -> bool
        ensures yes { IsTrue result → (t : model.Text) × (self.now ≡ kind.Str t) }
        ensures no { result ≡ false → (t : model.Text) → self.now ≢ kind.Str t }
    {
        matches!(self, Dynamic::Str(_))
    }

    /// Whether it is an array.
    pub fn is_array(&self) -> bool
        ensures yes { IsTrue result → (vs : List dynamic) × (self.now ≡ kind.Array vs) }
        ensures no { result ≡ false → (vs : List dynamic) → self.now ≢ kind.Array vs }
    {
        matches!(self, Dynamic::Array(_))
    }

    /// Whether it is a map.
    pub fn is_map(&self) -> bool
        ensures yes { IsTrue result → (es : List (model.Text × dynamic)) × (self.now ≡ kind.Map es) }
        ensures no { result ≡ false → (es : List (model.Text × dynamic)) → self.now ≢ kind.Map es }
    {
        matches!(self, Dynamic::Map(_))
    }

    /// Whether it is a pointer to a function.
    pub fn is_fnptr(&self) -> bool
        ensures yes { IsTrue result → (p : pointer) × (self.now ≡ kind.FnPtr p) }
        ensures no { result ≡ false → (p : pointer) → self.now ≢ kind.FnPtr p }
    {
        matches!(self, Dynamic::FnPtr(_))
    }

    /// The bool that it is, else the name of its type.
    pub fn as_bool(&self) -> Result<bool, &'static str>
        ensures { MatchResult result (λ b. self.now ≡ kind.Bool b)
            (λ name. (name.now ≡ model.type_name (value_of self.now)) × ((b : Bool) → self.now ≢ kind.Bool b)) }
    {
        match self {
            Dynamic::Bool(value) => Ok(*value),
            other => Err(other.type_name()),
        }
    }

    /// The integer that it is, else the name of its type.
    pub fn as_int(&self) -> Result<INT, &'static str>
        ensures { MatchResult result (λ n. self.now ≡ kind.Int n)
            (λ name. (name.now ≡ model.type_name (value_of self.now)) × ((n : ℤ) → self.now ≢ kind.Int n)) }
    {
        match self {
            Dynamic::Int(value) => Ok(*value),
            other => Err(other.type_name()),
        }
    }

    /// The float that it is, else the name of its type.
    pub fn as_float(&self) -> Result<FLOAT, &'static str>
        ensures { MatchResult result (λ f. (x : float) × (self.now ≡ kind.Float x) × (f ≡ from_bits binary64 x.bits))
            (λ name. (name.now ≡ model.type_name (value_of self.now)) × ((x : float) → self.now ≢ kind.Float x)) }
    {
        match self {
            Dynamic::Float(value) => Ok(value.value()),
            other => Err(other.type_name()),
        }
    }

    /// The character that it is, else the name of its type.
    pub fn as_char(&self) -> Result<char, &'static str>
        ensures { MatchResult result (λ c. self.now ≡ kind.Char c)
            (λ name. (name.now ≡ model.type_name (value_of self.now)) × ((c : ℕ) → self.now ≢ kind.Char c)) }
    {
        match self {
            Dynamic::Char(value) => Ok(*value),
            other => Err(other.type_name()),
        }
    }

    /// The text that it is, else the name of its type.
    pub fn as_immutable_string_ref(&self) -> Result<&ImmutableString, &'static str>
        ensures { MatchResult result (λ t. self.now ≡ kind.Str t.now)
            (λ name. (name.now ≡ model.type_name (value_of self.now)) × ((t : model.Text) → self.now ≢ kind.Str t)) }
    {
        match self {
            Dynamic::Str(text) => Ok(text),
            other => Err(other.type_name()),
        }
    }

    /// The map that it is. Any other value is given back. In rhai it is `try_cast`.
    pub fn into_map(self) -> Result<StringMap<Dynamic>, Dynamic>
        ensures { MatchResult result (λ es. self ≡ kind.Map es)
            (λ v. (v ≡ self) × ((es : List (model.Text × dynamic)) → self ≢ kind.Map es)) }
    {
        match self {
            Dynamic::Map(members) => Ok(members),
            other => Err(other),
        }
    }
}
