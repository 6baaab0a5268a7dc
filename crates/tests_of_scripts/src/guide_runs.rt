//! The pieces of the guide on running scripts.
#![tactic(auto, using(rhai_base::specs::Reading::kinds))]

ghost use Rattle.std.specs.Prelude.{[], pos, None};
ghost use Rattle.rhai_base.specs.Value.{IntV};
ghost use Rattle.theory_meaning.specs.Act.{Answers};

use rhai_ast::{Expr, FnCallExpr, Stmt};
use rhai_base::{
    Boxed, Dynamic, ImmutableString, Namespace, OutOfMemory, Position, Scope, Seq, Token,
};
use rhai_run::{EngineInfo, Host, HostAnswer, HostCall, plain_run};
use rhai_script::{AST, FnLib};
use run_host::push_report;
use std::alloc::Global;
use std::rc::Rc;

/// Answers 7 to every call, and has no modules.
#[derive(Drop)]
struct Seven;

impl Host for Seven {
    // the two in the logic: what a run reports is proved of every host that answers so
    ghost answers = { λ host past call. Answers (IntV (pos 7)) None };

    ghost modules = { λ host. record { values = []; paths = [] } };

    fn answer(
        &self,
        _alloc: Global,
        _past: &[HostCall], // the calls of the run so far
        _call: &HostCall,
    ) -> Result<HostAnswer, OutOfMemory> {
        Ok(HostAnswer::Value {
            value: Dynamic::Int(7),
            receiver: None, // a method's receiver stays as it is
        })
    }

    fn module_value(&self, _alloc: Global, _name: &str) -> Result<Option<Dynamic>, OutOfMemory> {
        Ok(None)
    }

    fn module(&self, _alloc: Global, _path: &str) -> Result<Option<ImmutableString>, OutOfMemory> {
        Ok(None)
    }
}

/// A call, as a parser would build it; of an operator with its token.
fn call(
    alloc: Global,
    name: &str,
    args: Seq<Expr>,
    op_token: Option<Token>,
) -> Result<Boxed<FnCallExpr>, OutOfMemory> {
    let call = FnCallExpr {
        namespace: Namespace::none(alloc),
        name: ImmutableString::new(alloc, name)?,
        args,
        capture_parent_scope: false,
        op_token,
    };
    Ok(Boxed::new(alloc, call)?)
}

/// `start + price()`
fn sum(alloc: Global) -> Result<Stmt, OutOfMemory> {
    let name = ImmutableString::new(alloc, "start")?;
    let variable = Boxed::new(alloc, (None, name, Namespace::none(alloc)))?;
    let mut operands = Seq::new(alloc);
    operands.push(Expr::Variable(variable, None, Position::NONE))?;
    let price = call(alloc, "price", Seq::new(alloc), None)?;
    operands.push(Expr::FnCall(price, Position::NONE))?;
    let sum = call(alloc, "+", operands, Some(Token::Plus))?;
    Ok(Stmt::FnCall(sum, Position::NONE))
}

fn script(alloc: Global) -> Result<AST, OutOfMemory> {
    let statements = vec![in alloc; sum(alloc)?]?;
    let functions = Rc::new(alloc, FnLib::new(alloc))?;
    Ok(AST::new(statements, functions))
}

/// A scope in which `start` is 35.
fn scope(alloc: Global) -> Result<Scope, OutOfMemory> {
    let mut scope = Scope::new(alloc);
    scope.push(ImmutableString::new(alloc, "start")?, Dynamic::Int(35))?;
    Ok(scope)
}

/// Writes what a run of it reports.
pub fn a_script_is_run(alloc: Global, text: &mut String) -> Result<(), OutOfMemory> {
    let script = script(alloc)?;
    let scope = scope(alloc)?;
    let info = EngineInfo::new(alloc); // overrides no operator
    let report = plain_run(alloc, &script, &info, &Seven, &scope, 10)?; // with ten turns
    push_report(&report, text)
}
