//! What names stand for: a name, a constant of the script's own list or `this`, where they stand, and a name in a module.

#![tactic(auto, using(ast_types::specs::Reading::shapes, rhai_base::specs::Reading::kinds, run_state::proofs::Variables::resolving, crate::proofs::Globals::latest))]

ghost use Rattle.std.specs.Prelude.{◌≡◌, ◌++◌, codes, cond, map, MatchOption, IfOk, OnOk, Some, None, option_map};
ghost use Rattle.std.specs.String.{string_bytes};
ghost use Rattle.ast_types.specs.Reading.{expr_of, path_of};
ghost use Rattle.rhai_base.specs.Reading.{value_of};
ghost use Rattle.theory_meaning.specs.Act as act;
ghost use Rattle.theory_meaning.specs.Act.{resolved};
ghost use Rattle.theory_meaning.specs.Engine.{constant_named};
ghost use Rattle.run_state.specs.Entries.{binding_meant, scope_meant};
ghost use Rattle.run_state.specs.Variables.{IsLatest, IsMissing};
ghost use Rattle.run_steps.specs.Variables.{root_meant, qualified_in};
ghost use Rattle.theory_meaning.specs.Desugar as desugar;

use rhai_ast::Expr;
use rhai_base::{Dynamic, Ident, ImmutableString, Namespace};
use run_state::Entry;
use std::alloc::{AllocError, Global};

/// What has a value of its own.
#[derive(Clone, Copy)]
pub enum Root<'a> {
    /// A name.
    Name(&'a ImmutableString),
    /// A constant that the script's own list has declared, by `global::`.
    Global(&'a ImmutableString),
    /// `this`
    This,
}

/// Where the latest entry of a name stands, past aliases and exports.
pub fn position(scope: &[Entry], name: &str) -> Option<usize>
    ensures { MatchOption result (IsMissing name.now scope.now) (IsLatest name.now scope.now) }
{
    let mut rest = scope;
    while let Some((last, others)) = rest.split_last() {
        if last.is_called(name) {
            return Some(others.len());
        }
        rest = others;
    }
    None
}

/// The value of the latest constant of a name.
pub fn latest_constant<'s>(constants: &'s [Entry], name: &str) -> Option<&'s Dynamic>
    ensures { option_map (λ v. value_of v.now) result ≡ constant_named (map binding_meant constants.now) name.now }
{
    let mut rest = constants;
    while let Some((last, others)) = rest.split_last() {
        if last.name.as_str() == name {
            return Some(&last.value);
        }
        rest = others;
    }
    None
}

/// The module's name by the latest alias of this name, else the name itself.
pub fn module_at<'s>(scope: &'s [Entry], name: &'s str) -> &'s str
    ensures { result.now ≡ resolved (scope_meant scope.now) name.now }
{
    let mut rest = scope;
    while let Some((last, others)) = rest.split_last() {
        if last.is_alias_of(name) {
            return module_name(&last.value);
        }
        rest = others;
    }
    name
}

/// The text that an alias holds.
fn module_name(value: &Dynamic) -> &str
    ensures { result.now ≡ act.module_name (value_of value.now) }
{
    let Ok(name) = value.as_immutable_string_ref() else {
        return "";
    };
    name.as_str()
}

/// A name with its modules', joined by `::`; a first one that is an alias is its module's.
#[inline(never)]
pub fn qualified(
    alloc: Global,
    scope: &[Entry],
    namespace: &Namespace,
    name: &str,
) -> Result<String, AllocError>
    ensures { IfOk result (λ t.
        string_bytes t ≡ qualified_in (scope_meant scope.now) (path_of namespace.now) name.now) }
{
    let mut text = String::new(alloc);
    let Some((first, others)) = namespace.path.as_slice().split_first() else {
        text.push_str(name)?;
        return Ok(text);
    };
    push_module(&mut text, module_at(scope, first.as_str()))?;
    push_qualified(&mut text, others, name)?;
    Ok(text)
}

/// Appends a name with its modules'.
fn push_qualified(text: &mut String, modules: &[Ident], name: &str) -> Result<(), AllocError>
    ensures { OnOk result
        (string_bytes text.new ≡ string_bytes text.old ++ desugar.qualified (map (λ i. i.name) modules.now) name.now) }
{
    for module in modules {
        push_module(text, module.as_str())?;
    }
    text.push_str(name)?;
    Ok(())
}

fn push_module(text: &mut String, name: &str) -> Result<(), AllocError>
    ensures { OnOk result (string_bytes text.new ≡ string_bytes text.old ++ name.now ++ codes "::") }
{
    text.push_str(name)?;
    text.push_str("::")?;
    Ok(())
}

/// What a name with its modules' stands for that has a value of its own. `global` is no module of the host.
pub fn named_root<'a>(namespace: &Namespace, name: &'a ImmutableString) -> Option<Root<'a>>
    ensures { option_map root_meant result ≡ desugar.name_root (path_of namespace.now) name.now }
{
    match namespace.path.as_slice() {
        [] => Some(Root::Name(name)),
        [module] => global_root(module.as_str(), name),
        _ => None,
    }
}

fn global_root<'a>(module: &str, name: &'a ImmutableString) -> Option<Root<'a>>
    ensures { option_map root_meant result
        ≡ cond (desugar.is_global module.now) (Some (act.OfGlobal name.now)) None }
{
    if module == "global" {
        Some(Root::Global(name))
    } else {
        None
    }
}

/// What an expression names that has a value of its own.
pub fn root_of(expr: &Expr) -> Option<Root<'_>>
    ensures { option_map root_meant result ≡ desugar.root_of (expr_of expr.now) }
{
    match expr {
        Expr::Variable(variable, _, _) => {
            let (_, name, namespace) = variable.get();
            named_root(namespace, name)
        }
        Expr::ThisPtr(_) => Some(Root::This),
        _ => None,
    }
}
