//! Functions, whose bodies are optimised as a script's statements are, with their parameters as variables.

#![tactic(auto, using(ast_types::specs::Reading::shapes, crate::proofs::Bodies::params))]

ghost use Rattle.std.specs.Prelude.{◌≡◌, List, [], IfOk, OnOk, map};
ghost use Rattle.std.specs.Map.Iter.{deref};
ghost use Rattle.std.specs.Option.{option_map};
ghost use Rattle.std.specs.Rc.{rc_value};
ghost use Rattle.opt_base.specs.Walks.{listing};
ghost use Rattle.opt_base.specs.State.{progress};
ghost use Rattle.rhai_optimizer.specs.Functions.{BodyRun, FunctionRun, FunctionsRun};
ghost use Rattle.rhai_optimizer.specs.Scopes.{known_outside, start_of};
ghost use Rattle.opt_reducer.specs.Parts.{record_of};
ghost use Rattle.ast_types.specs.declared.script_fn.ScriptFuncDef.{ScriptFuncDef as Declared};
ghost use Rattle.ast_types.specs.declared.stmt.Stmt.{Stmt as Statement};
ghost use Rattle.std.specs.declared.alloc.Global.{Global};
ghost use Rattle.std.specs.declared.rc.Rc.{Rc as Shared};
ghost use Rattle.rhai_optimizer.specs.Optimised.{BodiesAgain, PartsOnce};
ghost use Rattle.theory_rewriting.specs.Known.{shadow_all};

use crate::passes::make_passes;
use crate::start::push_in_bodies;
use opt_base::{OptimizationLevel, OptimizerState, captures_nothing};
use opt_reducer::Optimizer;
use rhai_ast::{ScriptFuncDef, Stmt};
use rhai_base::{ImmutableString, OutOfMemory, Scope};
use std::rc::Rc;

/// Notes the parameters of a function.
fn push_params(
    state: &mut OptimizerState<'_>,
    params: &[ImmutableString],
) -> Result<(), OutOfMemory>
    ensures { OnOk result
        ((state.new.is_dirty ≡ state.old.is_dirty)
        × ((progress state.new).known ≡ shadow_all params.now (progress state.old).known)) }
{
    for param in params {
        state.push_var(param.clone()?, None)?;
    }
    Ok(())
}

/// Optimises the body of a function in its place, until a pass changes nothing. Whether that changed it.
fn function_body(
    optimizer: &Optimizer<'_>,
    state: &mut OptimizerState<'_>,
    function: &mut ScriptFuncDef,
) -> Result<bool, OutOfMemory>
    ensures run { IfOk result (λ changed.
        BodyRun (record_of optimizer.now) (progress state.old).known changed function.old function.new) }
    ensures known { IfOk result (λ changed. (progress state.new).known ≡ (progress state.old).known) }
{
    let len = state.len();
    push_params(state, function.params.as_slice())?;
    let passes = make_passes(optimizer, state, function.body.statements_mut())?;
    state.rewind_var(len);
    Ok(passes > 1)
}

/// A function that nothing else holds is optimised in its place.
fn own_function(
    optimizer: &Optimizer<'_>,
    state: &mut OptimizerState<'_>,
    mut function: ScriptFuncDef,
) -> Result<Rc<ScriptFuncDef>, OutOfMemory>
    ensures run { IfOk result (λ made.
        FunctionRun (record_of optimizer.now) (progress state.old).known function made.value) }
    ensures known { IfOk result (λ made. (progress state.new).known ≡ (progress state.old).known) }
{
    function_body(optimizer, state, &mut function)?;
    Ok(Rc::new(optimizer.alloc, function)?)
}

/// One that is shared stays so where nothing changes, and is made anew where something does.
fn shared_function(
    optimizer: &Optimizer<'_>,
    state: &mut OptimizerState<'_>,
    function: Rc<ScriptFuncDef>,
) -> Result<Rc<ScriptFuncDef>, OutOfMemory>
    ensures run { IfOk result (λ made.
        FunctionRun (record_of optimizer.now) (progress state.old).known function.value made.value) }
    ensures known { IfOk result (λ made. (progress state.new).known ≡ (progress state.old).known) }
{
    let mut copy = function.as_ref().clone()?;
    if function_body(optimizer, state, &mut copy)? {
        Ok(Rc::new(optimizer.alloc, copy)?)
    } else {
        Ok(function)
    }
}

/// A function, its body optimised.
fn optimize_function(
    optimizer: &Optimizer<'_>,
    state: &mut OptimizerState<'_>,
    function: Rc<ScriptFuncDef>,
) -> Result<Rc<ScriptFuncDef>, OutOfMemory>
    ensures run { IfOk result (λ made.
        FunctionRun (record_of optimizer.now) (progress state.old).known function.value made.value) }
    ensures known { IfOk result (λ made. (progress state.new).known ≡ (progress state.old).known) }
{
    match Rc::try_unwrap(function) {
        Ok(own) => own_function(optimizer, state, own),
        Err(shared) => shared_function(optimizer, state, shared),
    }
}

/// Each function, with what is known outside of them all.
fn each_function(
    optimizer: &Optimizer<'_>,
    state: &mut OptimizerState<'_>,
    functions: Vec<Rc<ScriptFuncDef>>,
) -> Result<Vec<Rc<ScriptFuncDef>>, OutOfMemory>
    ensures { IfOk result (λ made.
        FunctionsRun (record_of optimizer.now) (progress state.old).known (map rc_value functions.items)
        (map rc_value made.items)) }
{
    let mut made = Vec::new(optimizer.alloc);
    for function in functions {
        made.push(optimize_function(optimizer, state, function)?)?;
    }
    Ok(made)
}

/// Notes what is known in bodies: what is known outside, the record's constants before the scope's names, unless a
/// call of the script captures; then nothing.
fn push_inside<'a>(
    optimizer: &Optimizer<'a>,
    state: &mut OptimizerState<'a>,
    scope: Option<&'a Scope>,
    statements: &[Stmt],
    functions: &[Rc<ScriptFuncDef>],
) -> Result<(), OutOfMemory>
    ensures { OnOk result
        ((progress state.old).known ≡ []
        → (progress state.new).known
        ≡ known_outside (record_of optimizer.now) (start_of (option_map deref scope.entry))
        (listing statements.now functions.now)) }
{
    if captures_nothing(statements, functions) {
        return push_in_bodies(optimizer.alloc, state, optimizer.info, scope);
    }
    Ok(())
}

/// The functions of a script, their bodies optimised. They know nothing from outside where a call captures.
pub(crate) fn optimize_functions<'a>(
    optimizer: &Optimizer<'a>,
    scope: Option<&'a Scope>,
    statements: &[Stmt],
    functions: Vec<Rc<ScriptFuncDef>>,
) -> Result<Vec<Rc<ScriptFuncDef>>, OutOfMemory>
    ensures { IfOk result (λ made.
        FunctionsRun (record_of optimizer.now)
        (known_outside (record_of optimizer.now) (start_of (option_map deref scope.entry))
        (listing statements.now functions.items))
        (map rc_value functions.items) (map rc_value made.items)) }
{
    if functions.as_slice().is_empty() {
        return Ok(functions);
    }
    let mut state = OptimizerState::new(
        optimizer.alloc,
        optimizer.info,
        scope,
        OptimizationLevel::Simple,
    );
    push_inside(
        optimizer,
        &mut state,
        scope,
        statements,
        functions.as_slice(),
    )?;
    each_function(optimizer, &mut state, functions)
}

/// The functions once more, where a call of the source captured and none of what was made of it does: bodies may know
/// more then. Nothing that they come to know captures, so twice is enough.
pub(crate) fn optimize_functions_again<'a>(
    optimizer: &Optimizer<'a>,
    scope: Option<&'a Scope>,
    captured: bool,
    statements: &[Stmt],
    functions: Vec<Rc<ScriptFuncDef>>,
) -> Result<Vec<Rc<ScriptFuncDef>>, OutOfMemory>
    ensures { IfOk result (λ made.
        (ss : List Statement) (fs : List (Shared Declared Global))
        → PartsOnce (record_of optimizer.now) (start_of (option_map deref scope.entry)) captured ss fs statements.now
        functions.items
        → BodiesAgain (record_of optimizer.now) (start_of (option_map deref scope.entry)) statements.now
        functions.items made.items) }
{
    if captured && captures_nothing(statements, functions.as_slice()) {
        return optimize_functions(optimizer, scope, statements, functions);
    }
    Ok(functions)
}
