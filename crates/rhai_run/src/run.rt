//! A run of a whole script.

ghost use Rattle.std.specs.Prelude.{◌≡◌, ◌++◌, ◌∷◌, [], map, IfOk, OnOk};
ghost use Rattle.theory_meaning.specs.Desugar.{core_script};
ghost use Rattle.rhai_script.specs.Script.{script_of};
ghost use Rattle.base_engine.specs.EngineInfo.{engine_of};
ghost use Rattle.run_host.specs.Host.{host_of};
ghost use Rattle.run_host.specs.Report.{report_meant, ReportsRun};
ghost use Rattle.run_host.specs.Entries.{export_meant, start_scope, variable_meant};
ghost use Rattle.theory_meaning.specs.Run as left;
ghost use Rattle.run_state.specs.Entries.{entry_meant};

use crate::{EngineInfo, Export, Host, RunReport, Variable};
use rhai_base::{OutOfMemory, Scope, Seq};
use rhai_script::AST;
use run_evaluator::Evaluator;
use run_state::{Entry, EntryKind, State, run_end};
use run_steps::Machine;
use std::alloc::Global;

/// Runs a script's statements from a scope, with so many turns. It only borrows the script, and uses no rule and no
/// recursion of the optimiser.
///
/// The report is that of the run with every host that answers the reported calls as this one did and has the same
/// modules: nothing else of the host is asked. What throws, is stuck or comes to no end in its turns is a report
/// too; the one error is want of memory.
///
/// It stands where `Engine::eval_ast_with_scope` does in rhai, by this project's own meaning; there a run that throws
/// or is stuck is an error, and the scope is changed.
pub fn plain_run<H: Host>(
    alloc: Global,
    ast: &AST,
    info: &EngineInfo,
    host: &H,
    scope: &Scope,
    turns: u64,
) -> Result<RunReport, OutOfMemory>
    ensures { IfOk result (λ r.
        ReportsRun (engine_of info.now) (host_of (H.answers host.now) (H.modules host.now))
        (core_script (script_of ast.now)) (start_scope scope.now) turns (report_meant r)) }
{
    let evaluator = Evaluator {
        machine: Machine {
            alloc,
            info,
            host,
            functions: ast.shared_lib(),
        },
        in_loop: false,
        depth: turns,
    };
    let mut state = State::new(alloc, scope, turns)?;
    let ended = evaluator.statements(&mut state, ast.statements());
    let run_end = run_end(ended)?;
    let State {
        scope,
        globals: _,
        is_own: _,
        this: _,
        calls,
        turns,
    } = state;
    let (variables, exports) = parted(alloc, scope)?;
    Ok(RunReport {
        run_end,
        variables,
        exports,
        calls,
        turns_left: turns,
    })
}

/// The names of a scope and its exports, each in order.
fn parted(alloc: Global, scope: Vec<Entry>) -> Result<(Seq<Variable>, Seq<Export>), OutOfMemory>
    ensures names { IfOk result (λ p. map variable_meant p.0 ≡ left.names (map entry_meant scope.items)) }
    ensures exports { IfOk result (λ p. map export_meant p.1 ≡ left.exports (map entry_meant scope.items)) }
{
    let mut variables = Seq::new(alloc);
    let mut exports = Seq::new(alloc);
    let mut rest = Seq::from_vec(scope).into_rest();
    while let Some(held) = rest.next() {
        push_part(&mut variables, &mut exports, held)?;
    }
    Ok((variables, exports))
}

/// Puts an entry behind the names or behind the exports. An alias goes.
fn push_part(
    variables: &mut Seq<Variable>,
    exports: &mut Seq<Export>,
    held: Entry,
) -> Result<(), OutOfMemory>
    ensures names { OnOk result
        (map variable_meant variables.new ≡ map variable_meant variables.old ++ left.names (entry_meant held ∷ [])) }
    ensures exports { OnOk result
        (map export_meant exports.new ≡ map export_meant exports.old ++ left.exports (entry_meant held ∷ [])) }
{
    let Entry { name, kind, value } = held;
    match kind {
        EntryKind::Variable => variables.push((name, false, value))?,
        EntryKind::Constant => variables.push((name, true, value))?,
        EntryKind::Export => exports.push((name, value))?,
        EntryKind::Alias => {}
    }
    Ok(())
}
