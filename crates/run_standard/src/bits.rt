//! What rhai's standard functions answer for the bits of an integer.
#![tactic(auto, using(rhai_base::specs::Reading::kinds, crate::proofs::Lists::lists))]

ghost use Rattle.std.specs.Prelude.{◌≡◌, ◌<◌, IfOk};
ghost use Rattle.std.specs.Option.{option_map, IfSome};
ghost use Rattle.rhai_base.specs.Reading.{value_of};
ghost use Rattle.run_host.specs.Host.{answer_meant};
ghost use Rattle.rhai_base.specs.Value.{UnitV, IntV};
ghost use Rattle.run_standard.specs.Forms as forms;
ghost use Rattle.run_standard.specs.Bits as spec;

use crate::forms::{gives_bool, index_in, int_of, leaves, throws};
use rhai_base::{Dynamic, INT, OutOfMemory};
use run_host::HostAnswer;
use run_places::bit;
use std::alloc::Global;

/// The bit at an index.
pub(crate) fn get_bit(
    alloc: Global,
    number: INT,
    index: INT,
) -> Result<Option<HostAnswer>, OutOfMemory>
    ensures { IfOk result (λ a. option_map answer_meant a ≡ spec.get_bit number index) }
{
    match bit(number, index) {
        Some(bit) => Ok(gives_bool(bit)),
        None => throws(alloc, "bit bounds"),
    }
}

/// For an index and a bit.
pub(crate) fn with_two(
    alloc: Global,
    name: &str,
    number: INT,
    index: &Dynamic,
    bit: &Dynamic,
) -> Result<Option<HostAnswer>, OutOfMemory>
    ensures { IfOk result (λ a. option_map answer_meant a
        ≡ spec.with_two name.now number (forms.int_of (value_of index.now)) (spec.bool_of (value_of bit.now))) }
{
    match name {
        "set_bit" | "index$set$" => set_bit(alloc, number, int_of(index), bool_of(bit)),
        _ => Ok(None),
    }
}

/// The bool that an argument is.
fn bool_of(value: &Dynamic) -> Option<bool>
    ensures { result ≡ spec.bool_of (value_of value.now) }
{
    match value {
        Dynamic::Bool(value) => Some(*value),
        Dynamic::Unit
        | Dynamic::Int(_)
        | Dynamic::Float(_)
        | Dynamic::Char(_)
        | Dynamic::Str(_)
        | Dynamic::Array(_)
        | Dynamic::Map(_)
        | Dynamic::FnPtr(_)
        | Dynamic::Range(_, _)
        | Dynamic::RangeInclusive(_, _) => None,
    }
}

fn set_bit(
    alloc: Global,
    number: INT,
    index: Option<INT>,
    bit: Option<bool>,
) -> Result<Option<HostAnswer>, OutOfMemory>
    ensures { IfOk result (λ a. option_map answer_meant a ≡ spec.set_bit number index bit) }
{
    let Some(index) = index else {
        return Ok(None);
    };
    let Some(bit) = bit else {
        return Ok(None);
    };
    set_bit_at(alloc, number, bit, index_in(64, index))
}

fn set_bit_at(
    alloc: Global,
    number: INT,
    bit: bool,
    place: Option<usize>,
) -> Result<Option<HostAnswer>, OutOfMemory>
    requires { IfSome place (λ k. k < 64) }
    ensures { IfOk result (λ a. option_map answer_meant a ≡ spec.set_bit_at number bit place) }
{
    match place {
        Some(place) => Ok(leaves_number(with_bit(number, place, bit))),
        None => throws(alloc, "bit bounds"),
    }
}

fn leaves_number(number: INT) -> Option<HostAnswer>
    ensures { option_map answer_meant result ≡ forms.leaves UnitV (IntV number) }
{
    leaves(Dynamic::Unit, Dynamic::Int(number))
}

fn with_bit(number: INT, place: usize, bit: bool) -> INT
    requires { place < 64 }
    ensures { result ≡ spec.with_bit number place bit }
{
    let alone: INT = 1 << place;
    if bit { number | alone } else { number & !alone }
}
