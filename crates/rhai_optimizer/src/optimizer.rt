//! The entry to the optimiser.
ghost use Rattle.std.specs.Prelude.{◌≡◌, IfOk, map, true};
ghost use Rattle.std.specs.Map.Iter.{deref};
ghost use Rattle.std.specs.Option.{option_map};
ghost use Rattle.std.specs.Rc.{rc_value};
ghost use Rattle.base_engine.specs.EngineInfo.{engine_of};
ghost use Rattle.script_tables.specs.FnKey.{definitions_table};
ghost use Rattle.rhai_optimizer.specs.Optimised as spec;
ghost use Rattle.rhai_optimizer.specs.Optimised.{Optimised, PartsOptimised, PartsReduced, PassesCounted, given};
ghost use Rattle.rhai_optimizer.specs.Passes.{Counts};
ghost use Rattle.rhai_optimizer.specs.Scopes.{start_of};
ghost use Rattle.ast_types.specs.Reading.{stmts_of};
ghost use Rattle.theory_rewriting.specs.Context.{knowing};
ghost use Rattle.theory_rewriting.specs.Finished.{IsFinished};
ghost use Rattle.theory_rewriting.specs.Scripts.{known_at_top};
ghost use Rattle.theory_rewriting.specs.Steps.{IsReducedBody};
ghost use Rattle.rhai_script.specs.Contents.{contents};

use crate::functions::{optimize_functions, optimize_functions_again};
use crate::passes::make_passes;
use crate::start::push_at_top;
use ast_nodes::statements_of;
use base_engine::EngineInfo;
use opt_base::{OptimizationLevel, OptimizerState, captures_nothing};
use opt_reducer::Optimizer;
use rhai_ast::{ScriptFuncDef, Stmt, StmtBlock};
use rhai_base::{ImmutableString, OutOfMemory, Position, Scope};
use rhai_script::{AST, AstParts, FnLib};
use script_tables::{take_id, unshared};
use std::alloc::Global;
use std::rc::Rc;

/// The statements of a script, optimised in their place, and the number of passes that were made over them. It knows
/// the record's constants, those of the scope, which hide them, and that the scope's variables are none. Where there
/// is nothing to reduce, it takes memory for these names alone.
fn optimize_statements<'a>(
    alloc: Global,
    info: &'a EngineInfo,
    scope: Option<&'a Scope>,
    mut statements: StmtBlock,
) -> Result<(StmtBlock, u64), OutOfMemory>
    ensures counts { IfOk result (λ r.
        Counts
        (knowing (engine_of info.now)
        (known_at_top (engine_of info.now) (start_of (option_map deref scope.entry))))
        r.1 (stmts_of statements.block) (stmts_of r.0.block)) }
    ensures reduced { IfOk result (λ r. IsReducedBody (engine_of info.now) (stmts_of r.0.block)) }
    ensures finished { IfOk result (λ r.
        IsFinished
        (knowing (engine_of info.now)
        (known_at_top (engine_of info.now) (start_of (option_map deref scope.entry))))
        (stmts_of r.0.block)) }
    ensures span { IfOk result (λ r. r.0.span ≡ statements.span) }
{
    let mut state = OptimizerState::new(alloc, info, scope, OptimizationLevel::Simple);
    push_at_top(alloc, &mut state, info, scope)?;
    let optimizer = Optimizer { alloc, info };
    let passes = make_passes(&optimizer, &mut state, statements.statements_mut())?;
    Ok((statements, passes))
}

/// Whether nothing is optimised at a level.
fn optimises_nothing(level: OptimizationLevel) -> bool
    ensures { result ≡ spec.optimises_nothing level }
{
    match level {
        OptimizationLevel::None => true,
        OptimizationLevel::Simple | OptimizationLevel::Full => false,
    }
}

/// The statements and the functions of a script, optimised, and the number of passes over the statements.
fn optimize_parts<'a>(
    alloc: Global,
    info: &'a EngineInfo,
    scope: Option<&'a Scope>,
    statements: StmtBlock,
    functions: Vec<Rc<ScriptFuncDef>>,
) -> Result<(StmtBlock, Vec<Rc<ScriptFuncDef>>, u64), OutOfMemory>
    ensures { IfOk result (λ r.
        PartsReduced (engine_of info.now) (start_of (option_map deref scope.entry)) statements.block functions.items
        r.0.block r.1.items r.2) }
{
    let optimizer = Optimizer { alloc, info };
    let captured = !functions.as_slice().is_empty()
        && !captures_nothing(statements.statements(), functions.as_slice());
    let functions = optimize_functions(&optimizer, scope, statements.statements(), functions)?;
    let (statements, passes) = optimize_statements(alloc, info, scope, statements)?;
    let functions = optimize_functions_again(
        &optimizer,
        scope,
        captured,
        statements.statements(),
        functions,
    )?;
    Ok((statements, functions, passes))
}

/// The same at a level.
fn optimize_parts_at<'a>(
    alloc: Global,
    info: &'a EngineInfo,
    scope: Option<&'a Scope>,
    statements: StmtBlock,
    functions: Vec<Rc<ScriptFuncDef>>,
    level: OptimizationLevel,
) -> Result<(StmtBlock, Vec<Rc<ScriptFuncDef>>, u64), OutOfMemory>
    ensures { IfOk result (λ r.
        PartsOptimised (engine_of info.now) (start_of (option_map deref scope.entry)) level statements.block
        functions.items r.0.block r.1.items r.2) }
{
    if optimises_nothing(level) {
        return Ok((statements, functions, 0));
    }
    optimize_parts(alloc, info, scope, statements, functions)
}

/// The script of `optimize_into_ast`, which hands it on, with the number of passes that were made over the statements:
/// the last one changed nothing, each one before it made them lighter. It is 0 for no statements and at level `None`,
/// 1 for statements in normal form, and stays at the greatest that fits.
pub fn optimize_counted(
    alloc: Global,
    info: &EngineInfo,
    scope: Option<&Scope>,
    statements: Vec<Stmt>,
    functions: Vec<Rc<ScriptFuncDef>>,
    level: OptimizationLevel,
) -> Result<(AST, u64), OutOfMemory>
    ensures promise { IfOk result (λ r.
        Optimised (engine_of info.now) (start_of (option_map deref scope.entry)) level
        (given statements.items functions.items) (contents r.0)) }
    ensures passes { IfOk result (λ r.
        PassesCounted (engine_of info.now) (start_of (option_map deref scope.entry)) level (stmts_of statements.items)
        (stmts_of (contents r.0).statements) r.1) }
{
    let block = StmtBlock::new(statements, Position::NONE, Position::NONE);
    let (_, functions) = FnLib::from_functions(alloc, functions)?.into_parts()?;
    let (block, functions, passes) = optimize_parts_at(
        alloc, info, scope, block, functions, level,
    )?;
    let lib = Rc::new(alloc, FnLib::from_functions(alloc, functions)?)?;
    Ok((AST::new(statements_of(block), lib), passes))
}

/// The script of these statements and functions, optimised at a level: it does what they do, entered at its statements
/// or at any of its functions, where a run starts with a scope that agrees with the one given and with the record, as
/// that one does. Statements and bodies are optimised; at level `None` they come out as they went in. Functions keep
/// all else. Above `None` no rule applies anywhere in the script, so that optimised again, with the same record and
/// scope, it comes back as it is. It has no source and no doc, and its table no id. Where a key comes twice among the
/// functions the later one takes the earlier one's place. Refused for want of memory alone; then no script is handed
/// out.
///
/// A method of `Engine` in rhai. There an overridden `!` is folded too, and the level `Full` asks the host.
pub fn optimize_into_ast(
    alloc: Global,
    info: &EngineInfo,
    scope: Option<&Scope>,
    statements: Vec<Stmt>,
    functions: Vec<Rc<ScriptFuncDef>>,
    level: OptimizationLevel,
) -> Result<AST, OutOfMemory>
    ensures { IfOk result (λ ast.
        Optimised (engine_of info.now) (start_of (option_map deref scope.entry)) level
        (given statements.items functions.items) (contents ast)) }
{
    let (ast, _) = optimize_counted(alloc, info, scope, statements, functions, level)?;
    Ok(ast)
}

/// The script optimised at a level, as `optimize_into_ast` does it. It keeps its source, its doc and the id of its
/// table. A function that no other script shares is optimised in its place. At level `None` it is the script as it was
/// given, and takes no memory. Refused for want of memory alone; then no script is handed out.
///
/// A method of `Engine` in rhai.
pub fn optimize_ast(
    alloc: Global,
    info: &EngineInfo,
    scope: Option<&Scope>,
    ast: AST,
    level: OptimizationLevel,
) -> Result<AST, OutOfMemory>
    ensures { IfOk result (λ made.
        Optimised (engine_of info.now) (start_of (option_map deref scope.entry)) level (contents ast)
        (contents made)) }
{
    if optimises_nothing(level) {
        return Ok(ast);
    }
    let AstParts {
        source,
        doc,
        body,
        lib,
    } = ast.into_parts();
    let (id, functions) = unshared(lib)?.into_parts()?;
    let (body, functions, _) = optimize_parts(alloc, info, scope, body, functions)?;
    let lib = Rc::new(alloc, named_lib(alloc, id, functions)?)?;
    Ok(AST::from_parts(AstParts {
        source,
        doc,
        body,
        lib,
    }))
}

/// The table of these functions with this id.
fn named_lib(
    alloc: Global,
    id: Option<ImmutableString>,
    functions: Vec<Rc<ScriptFuncDef>>,
) -> Result<FnLib, OutOfMemory>
    ensures id { IfOk result (λ lib. lib.id ≡ id) }
    ensures functions { IfOk result (λ lib. lib.functions ≡ definitions_table (map rc_value functions.items)) }
{
    let mut lib = FnLib::from_functions(alloc, functions)?;
    take_id(&mut lib, id);
    Ok(lib)
}
