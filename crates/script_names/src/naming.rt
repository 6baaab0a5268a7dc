//! New names of functions without a name of their own.
ghost use Rattle.std.specs.Prelude.{◌≡◌, ◌++◌, IfOk, true};
ghost use Rattle.base_tokens.specs.Names.{anonymous, is_valid_name};
ghost use Rattle.std.specs.String.{string_bytes};
ghost use Rattle.theory_naming.specs.Alike.{or_unread};
ghost use Rattle.theory_naming.specs.Renaming as renaming;
ghost use Rattle.script_names.specs.Names as new;

use rhai_base::{FnName, ImmutableString, OutOfMemory, StringMap};
use std::alloc::Global;

/// How functions without a name of their own are named anew. Names of their own stay.
#[derive(Drop)]
pub enum Names {
    /// So many underscores are put behind `anon$`.
    Marked(usize),
    /// Each by the name that the map gives its own. In one that the map doesn't have `unread_` is put behind `anon$`.
    Listed(StringMap<FnName>),
}

impl Names {
    ghost use Rattle.script_names.specs.Names.{stands};

    /// The name that a function of this name has then. A name of its own is shared.
    pub fn name_for(
        &self,
        alloc: Global,
        name: &ImmutableString,
    ) -> Result<ImmutableString, OutOfMemory>
        ensures name { IfOk result (λ made. made ≡ stands self.now name.now) }
        ensures valid { is_valid_name name.now ≡ true → IfOk result (λ made. is_valid_name made ≡ true) }
    {
        match self {
            Names::Marked(0) => Ok(name.clone()?),
            Names::Marked(marks) => with_mark(alloc, underscores(alloc, *marks)?.as_str(), name),
            Names::Listed(names) => listed(alloc, names, name),
        }
    }
}

/// Whether a function of this name has no name of its own.
pub fn is_anonymous(name: &str) -> bool
    ensures { result ≡ renaming.is_anonymous name.now }
{
    name.starts_with("anon$")
}

/// So many underscores.
fn underscores(alloc: Global, marks: usize) -> Result<String, OutOfMemory>
    ensures { IfOk result (λ text. string_bytes text ≡ new.underscores marks) }
{
    let mut text = String::new(alloc);
    for _mark in 0..marks {
        text.push_str("_")?;
    }
    Ok(text)
}

/// The name that a map gives, or else the name with a mark.
fn listed(
    alloc: Global,
    names: &StringMap<FnName>,
    name: &ImmutableString,
) -> Result<ImmutableString, OutOfMemory>
    ensures name { IfOk result (λ made. made ≡ or_unread (new.listed names.now name.now) name.now) }
    ensures valid { is_valid_name name.now ≡ true → IfOk result (λ made. is_valid_name made ≡ true) }
{
    match names.get(name) {
        Some(new) => Ok(new.clone()?.into_name()),
        None => with_mark(alloc, "unread_", name),
    }
}

/// A name with a mark behind `anon$`; a name of its own as it is.
fn with_mark(
    alloc: Global,
    mark: &str,
    name: &ImmutableString,
) -> Result<ImmutableString, OutOfMemory>
    ensures { IfOk result (λ made. made ≡ renaming.with_mark mark.now name.now) }
{
    match name.as_str().strip_prefix("anon$") {
        None => Ok(name.clone()?),
        Some(rest) => joined(alloc, mark, rest),
    }
}

/// `anon$`, a mark, and the rest.
fn joined(alloc: Global, mark: &str, rest: &str) -> Result<ImmutableString, OutOfMemory>
    ensures { IfOk result (λ made. made ≡ anonymous ++ mark.now ++ rest.now) }
{
    let mut text = String::new(alloc);
    text.push_str("anon$")?;
    text.push_str(mark)?;
    text.push_str(rest)?;
    Ok(ImmutableString::from_string(text)?)
}
