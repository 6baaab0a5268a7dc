//! A shop that scripts may ask.
#![tactic(auto, using(rhai_base::specs::Reading::kinds, crate::proofs::Shops::known))]

ghost use Rattle.std.specs.Prelude.{◌≡◌, IfOk, map};
ghost use Rattle.rhai_base.specs.Reading.{value_of};
ghost use Rattle.run_host.specs.Host.{answer_meant};
ghost use Rattle.example_host.specs.Shop as spec;

use rhai_lang::{Dynamic, Host, HostAnswer, HostCall, INT, ImmutableString, OutOfMemory};
use std::alloc::Global;

/// Answers `price(item)`, and throws at any other call. The path `shop` leads to a module whose `rate` is 2.
pub(crate) struct Shop;

impl Host for Shop {
    // what it answers, in the logic: the gate proves that the code does
    ghost answers = { λ host past call. spec.shop_answer call };

    ghost modules = { λ host. spec.shop_modules };

    fn answer(
        &self,
        alloc: Global,
        _past: &[HostCall],
        call: &HostCall,
    ) -> Result<HostAnswer, OutOfMemory> {
        match call.name.as_str() {
            "price" => price(alloc, call.args.as_slice()),
            _ => thrown(alloc, "no such function"),
        }
    }

    fn module_value(
        &self,
        _alloc: Global,
        qualified: &str,
    ) -> Result<Option<Dynamic>, OutOfMemory> {
        match qualified {
            "shop::rate" => Ok(Some(Dynamic::Int(2))),
            _ => Ok(None),
        }
    }

    fn module(&self, alloc: Global, path: &str) -> Result<Option<ImmutableString>, OutOfMemory> {
        match path {
            "shop" => Ok(Some(ImmutableString::new(alloc, "shop")?)),
            _ => Ok(None),
        }
    }
}

/// The price of the one item that is named.
fn price(alloc: Global, args: &[Dynamic]) -> Result<HostAnswer, OutOfMemory>
    ensures { IfOk result (λ a. answer_meant a ≡ spec.price (map value_of args.now)) }
{
    match args {
        [arg] => price_named(alloc, arg),
        _ => thrown(alloc, "no such item"),
    }
}

fn price_named(alloc: Global, name: &Dynamic) -> Result<HostAnswer, OutOfMemory>
    ensures { IfOk result (λ a. answer_meant a ≡ spec.price_named (value_of name.now)) }
{
    match name {
        Dynamic::Str(name) => price_of(alloc, name.as_str()),
        _ => thrown(alloc, "no such item"),
    }
}

fn price_of(alloc: Global, item: &str) -> Result<HostAnswer, OutOfMemory>
    ensures { IfOk result (λ a. answer_meant a ≡ spec.price_of item.now) }
{
    match item {
        "tea" => Ok(number(4)),
        "cup" => Ok(number(12)),
        _ => thrown(alloc, "no such item"),
    }
}

fn number(value: INT) -> HostAnswer
    ensures { answer_meant result ≡ spec.number value }
{
    HostAnswer::Value {
        value: Dynamic::Int(value),
        receiver: None,
    }
}

fn thrown(alloc: Global, why: &str) -> Result<HostAnswer, OutOfMemory>
    ensures { IfOk result (λ a. answer_meant a ≡ spec.thrown why.now) }
{
    let why = ImmutableString::new(alloc, why)?;
    Ok(HostAnswer::Throw(Dynamic::Str(why)))
}
