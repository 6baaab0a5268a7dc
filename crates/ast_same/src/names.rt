//! Names of two nodes.
#![tactic(auto, using(crate::proofs::Items::names))]

ghost use Rattle.std.specs.Prelude.{◌≡◌};
ghost use Rattle.std.specs.Option.{option_map};
ghost use Rattle.theory_meaning.specs.Calls.{same_type};
ghost use Rattle.theory_meaning.specs.Engine.{same_texts};
ghost use Rattle.ast_types.specs.Reading.{counter_of, keys_of, path_of, shared_names};

use rhai_base::{Dynamic, Ident, ImmutableString, Namespace, StringMap};
use std::num::NonZeroUsize;

pub(crate) fn alike_names(first: &[ImmutableString], second: &[ImmutableString]) -> bool
    ensures { result ≡ same_texts first.now second.now }
{
    let mut rest = second;
    for name in first {
        let Some((other, others)) = rest.split_first() else {
            return false;
        };
        if name.as_str() != other.as_str() {
            return false;
        }
        rest = others;
    }
    rest.is_empty()
}

/// Paths of modules, without their index.
pub(crate) fn alike_path(first: &Namespace, second: &Namespace) -> bool
    ensures { result ≡ same_texts (path_of first.now) (path_of second.now) }
{
    let mut rest = second.path.as_slice();
    for module in first.path.as_slice() {
        let Some((other, others)) = rest.split_first() else {
            return false;
        };
        if module.as_str() != other.as_str() {
            return false;
        }
        rest = others;
    }
    rest.is_empty()
}

/// Shared names, without their indices.
pub(crate) fn alike_shared(
    first: &[(Ident, Option<NonZeroUsize>)],
    second: &[(Ident, Option<NonZeroUsize>)],
) -> bool
    ensures { result ≡ same_texts (shared_names first.now) (shared_names second.now) }
{
    let mut rest = second;
    for shared in first {
        let Some((other, others)) = rest.split_first() else {
            return false;
        };
        if shared.0.as_str() != other.0.as_str() {
            return false;
        }
        rest = others;
    }
    rest.is_empty()
}

/// The keys of a map's template; its values say nothing.
pub(crate) fn alike_keys(first: &StringMap<Dynamic>, second: &StringMap<Dynamic>) -> bool
    ensures { result ≡ same_texts (keys_of first.now) (keys_of second.now) }
{
    let mut rest = second.iter();
    for (key, _) in first.iter() {
        let Some((other, _)) = rest.next() else {
            return false;
        };
        if key.as_str() != other.as_str() {
            return false;
        }
    }
    rest.next().is_none()
}

/// The types of receivers, where there are some.
pub(crate) fn alike_types(first: &Option<ImmutableString>, second: &Option<ImmutableString>) -> bool
    ensures { result ≡ same_type first.now second.now }
{
    match (first, second) {
        (Some(name), Some(other)) => name.as_str() == other.as_str(),
        (None, None) => true,
        _ => false,
    }
}

/// The counters of loops, where there are some.
pub(crate) fn alike_counters(first: &Option<Ident>, second: &Option<Ident>) -> bool
    ensures { result ≡ same_type (counter_of first.now) (counter_of second.now) }
{
    match (first, second) {
        (Some(name), Some(other)) => name.as_str() == other.as_str(),
        (None, None) => true,
        _ => false,
    }
}
