//! How many turns a run may have, so that it takes no more stack than there is.

ghost use Rattle.std.specs.Prelude.{◌≤◌, IfOk};

use crate::reach::{Names, Reach};
use rhai_base::OutOfMemory;
use rhai_script::AST;
use std::alloc::Global;

/// How many nodes a run may be inside of at once. Where they are dearest, calls of methods in the arguments of methods as
/// `rt try` builds them, with the compiler's own tests, one was measured to take 7,900 bytes; a stack has 8 MiB.
const NODES: u64 = 900;

/// As how many nodes a call counts beside those of its body.
const NODES_OF_CALL: u64 = 2;

/// The word that calls what a pointer points to, which may be any function.
const CALL: &str = "call";

/// A function: its name, and what its body reaches.
#[derive(Drop)]
struct Function {
    name: String,
    reach: Reach,
}

/// So many turns; or as many as the stack bears where each is a call inside of the one before, if a function may be
/// called again while it runs.
pub(crate) fn turns_borne(alloc: Global, script: &AST, turns: u64) -> Result<u64, OutOfMemory>
    ensures { IfOk result (λ borne. borne ≤ turns) }
{
    let functions = functions_of(alloc, script)?;
    let own = Reach::of(alloc, script.statements())?;
    let borne = calls_borne(&own, functions.as_slice());
    match levels(alloc, functions)? {
        Some(levels) if levels <= borne => Ok(turns),
        _ => Ok(turns.min(borne)),
    }
}

/// How many calls within calls the stack bears: a path through a script's own statements, one to a call in each body, and
/// one in the last.
fn calls_borne(own: &Reach, functions: &[Function]) -> u64 {
    let (mut deepest, mut to_call): (u64, u64) = (0, 0);
    for function in functions {
        deepest = deepest.max(function.reach.depth());
        to_call = to_call.max(function.reach.depth_of_calls());
    }
    let room = NODES.saturating_sub(own.depth()).saturating_sub(deepest);
    room / to_call.saturating_add(NODES_OF_CALL)
}

fn functions_of(alloc: Global, script: &AST) -> Result<Vec<Function>, OutOfMemory> {
    let mut functions = Vec::new(alloc);
    for function in script.shared_lib().iter() {
        let name = String::from_str(alloc, function.name.as_str())?;
        let reach = Reach::of(alloc, function.body.statements())?;
        functions.push(Function { name, reach })?;
    }
    Ok(functions)
}

/// How deep calls of functions nest at most; none where one may be called again while it runs.
fn levels(alloc: Global, functions: Vec<Function>) -> Result<Option<u64>, OutOfMemory> {
    let most = functions.len();
    let mut open = functions;
    let mut levels: u64 = 0;
    for _ in 0..most {
        if open.is_empty() {
            break;
        }
        levels = levels.saturating_add(1);
        open = that_call(alloc, open)?;
    }
    Ok(open.is_empty().then_some(levels))
}

/// Those of some functions that may call one of them.
fn that_call(alloc: Global, functions: Vec<Function>) -> Result<Vec<Function>, OutOfMemory> {
    let mut names = Names::new(alloc);
    names.add(CALL)?;
    for function in &functions {
        names.add(function.name.as_str())?;
    }
    let mut that_call = Vec::new(alloc);
    for function in functions {
        if function.reach.calls_any(&names) {
            that_call.push(function)?;
        }
    }
    Ok(that_call)
}
